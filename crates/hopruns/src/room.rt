// The runs of a node in the work room. From its start its own words are a mask of the positions that are no hole, then, by rising position, for each
// of these the length of its run and its hops. They are laid from the last position to the first, each combined from the two below it.

ghost use Rattle.std.specs.Prelude.{List, ℕ, suc};
ghost use Rattle.std.proofs.Math.Seq.{slice};
ghost use Rattle.nodes.specs.Room.{Begins};
ghost use Rattle.hopruns.specs.Runs.{combined};
ghost use Rattle.hopruns.specs.Packed.{packed, Ahead, Popping};
ghost use Rattle.hopruns.specs.Write.{MayPush, DidPush};
ghost use Rattle.hopruns.specs.Fold.{MayFold, DidFold};

use super::combining::{combine_runs, combined_size};

// The writer of a node's runs: the mask of the positions pushed so far, the latest of them its lowest bit, and where the words pushed so far begin.
#[derive(Clone, Copy)]
pub struct NodeWriter {
    pub mask: u32,
    pub top: usize,
}

impl NodeWriter {
    // Pushes one position more: a bit for it, and the run that combines two, which has `size` hops, laid with its length, if it is no hole.
    pub fn push(
        &mut self,
        work: &mut [u32],
        a: usize,
        a_end: usize,
        b: usize,
        b_end: usize,
        size: usize,
    )
        requires { MayPush self.old work.old a a_end b b_end size }
        ensures { DidPush self.old (combined (slice a a_end work.old) (slice b b_end work.old)) self.new work.old work.new }
    {
        self.mask *= 2;
        if size != 0 {
            let from = combine_runs(work, a, a_end, b, b_end, size, self.top);
            work[from - 1] = size as u32;
            self.mask += 1;
            self.top = from - 1;
        }
    }
}

// What the fold of a node has done: where its own words begin, where the run of its first position stands, and how many words are left.
#[derive(Clone, Copy)]
pub struct Folded {
    pub top: usize,
    pub from: usize,
    pub to: usize,
    pub left: usize,
}

// Combines the runs of a node's slots, places 31 to 62, upward into those of its positions, and lays its own words below `top`. The hops of its first
// `holding` positions are taken off the words that are left; where these do not suffice, it stops and is None.
pub fn fold_runs(
    work: &mut [u32],
    from: &mut [usize; 63],
    to: &mut [usize; 63],
    top: usize,
    holding: usize,
    left: usize,
) -> Option<Folded>
    requires { (runs : ℕ → List ℕ) × MayFold runs holding work.old from.old to.old top left }
    ensures { (runs : ℕ → List ℕ) → MayFold runs holding work.old from.old to.old top left → DidFold runs holding top left result work.old work.new }
{
    let mut node = NodeWriter { mask: 0, top };
    let mut rest = left;
    for b in (0..31).rev() {
        let l = from[2 * b + 1];
        let l_end = to[2 * b + 1];
        let r = from[2 * b + 2];
        let r_end = to[2 * b + 2];
        let size = combined_size(work, l, l_end, r, r_end);
        if b < holding {
            rest = rest.checked_sub(size)?;
        }
        let end = node.top;
        node.push(work, l, l_end, r, r_end, size);
        from[b] = end - size;
        to[b] = end;
    }
    let at = node.top - 1;
    work[at] = node.mask;
    Some(Folded {
        top: at,
        from: from[0],
        to: to[0],
        left: rest,
    })
}

// The reader of a node's runs: the mask of the positions that are still to come, and where the next of their words stands.
#[derive(Clone, Copy)]
pub struct NodeReader {
    pub mask: u32,
    pub top: usize,
}

// A run that was read, and the reader after it.
#[derive(Clone, Copy)]
pub struct Popped {
    pub from: usize,
    pub to: usize,
    pub reader: NodeReader,
}

impl NodeReader {
    // The reader of the node whose words begin at `top`.
    pub fn new(work: &[u32], top: usize) -> NodeReader
        requires { (runs : ℕ → List ℕ) × Begins (packed runs) top work.now }
        ensures { (runs : ℕ → List ℕ) → Begins (packed runs) top work.now → Ahead runs 31 result work.now }
    {
        NodeReader {
            mask: work[top],
            top: top + 1,
        }
    }

    // The run of the next position, empty for a hole, and the reader past it.
    pub fn pop(self, work: &[u32]) -> Popped
        requires { (runs : ℕ → List ℕ) × (k : ℕ) × Ahead runs (suc k) self work.now }
        ensures { (runs : ℕ → List ℕ) (k : ℕ) → Ahead runs (suc k) self work.now → Popping runs k result work.now }
    {
        let mask = self.mask / 2;
        if self.mask % 2 == 0 {
            return Popped {
                from: self.top,
                to: self.top,
                reader: NodeReader {
                    mask,
                    top: self.top,
                },
            };
        }
        let from = self.top + 1;
        let to = from + (work[self.top] as usize);
        Popped {
            from,
            to,
            reader: NodeReader { mask, top: to },
        }
    }
}
