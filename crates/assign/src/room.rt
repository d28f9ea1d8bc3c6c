// The room of candidate sets. From its start a node's own words are a mask of its stored positions, then their sets by rising position.

ghost use Rattle.std.specs.Prelude.{◌≡◌, ◌+◌, ◌*◌, ◌/◌, ◌%◌, ◌≤◌, ◌<◌, eqb, length, get_or};
ghost use Rattle.nodes.specs.Room.{Pushed};
ghost use Rattle.assign.specs.Packed.{packed};

use writer::{NodeWriter, push};

// Lays a node's own words below `top`, its positions from the last to the first, then the mask, and says where they begin. The positions under
// one go by pairs; the first is always stored.
pub fn push_sets(sets: &[u64; 63], work: &mut [u32], top: usize) -> usize
    requires { (63 ≤ top) × (top ≤ length work.old) }
    ensures upper_bound { (result ≤ top) × (top ≤ result + 63) }
    ensures pushed { Pushed (packed sets.now) top result work.old work.new }
{
    let mut node = NodeWriter { mask: 0, top };
    for p in (0..15).rev() {
        let own = sets[p];
        let right = sets[2 * p + 2];
        push(&mut node, work, right != own, right);
        let left = sets[2 * p + 1];
        push(&mut node, work, left != own, left);
    }
    push(&mut node, work, true, sets[0]);
    work[node.top - 1] = node.mask;
    node.top - 1
}

// The reader of a node's stored sets: the mask of the positions that are still to come, and where the next set stands.
#[derive(Clone, Copy)]
pub struct NodeReader {
    pub mask: u32,
    pub top: usize,
}

// A set that was read, and the reader after it.
#[derive(Clone, Copy)]
pub struct Popped {
    pub set: u64,
    pub reader: NodeReader,
}

// A 64-bit word of its halves.
fn joined(low: u32, high: u32) -> u64
    ensures { result ≡ low + high * 4294967296 }
{
    (low as u64) + (high as u64) * 4294967296
}

impl NodeReader {
    // The reader of the node whose words begin at `top`.
    pub fn new(work: &[u32], top: usize) -> NodeReader
        requires { top < length work.now }
        ensures { (result.mask ≡ get_or work.now top 0) × (result.top ≡ top + 1) }
    {
        NodeReader {
            mask: work[top],
            top: top + 1,
        }
    }

    // Is the next position stored?
    pub fn stored(self) -> bool
        ensures { result ≡ eqb (self.mask % 2) 1 }
    {
        self.mask % 2 == 1
    }

    // The reader past a position that is not stored.
    pub fn skip(self) -> NodeReader
        ensures { (result.mask ≡ self.mask / 2) × (result.top ≡ self.top) }
    {
        NodeReader {
            mask: self.mask / 2,
            top: self.top,
        }
    }

    // The set of the next position, and the reader past it.
    pub fn pop(self, work: &[u32]) -> Popped
        requires { self.top + 2 ≤ length work.now }
        ensures { (result.set ≡ get_or work.now self.top 0 + get_or work.now (self.top + 1) 0 * 4294967296) × ((result.reader.mask ≡ self.mask / 2) × (result.reader.top ≡ self.top + 2)) }
    {
        let top = self.top;
        Popped {
            set: joined(work[top], work[top + 1]),
            reader: NodeReader {
                mask: self.mask / 2,
                top: top + 2,
            },
        }
    }
}
