// The writer of a node's stored candidate sets, which are laid into the work room from the last position to the first: a small state that is
// lent for each push.
#![tactic(auto)]

ghost use Rattle.std.specs.Prelude.{[], ◌∷◌, ◌-◌, ◌≤◌, length};
ghost use Rattle.nodes.specs.Room.{Pushed};
ghost use Rattle.writer.specs.Write.{low, high, MayPush, DidPush};

// The mask of the positions pushed so far, the latest of them its lowest bit, and where the words pushed so far begin.
#[derive(Clone, Copy)]
pub struct NodeWriter {
    pub mask: u32,
    pub top: usize,
}

// Lays a set below `top`: two words.
fn put_set(work: &mut [u32], top: usize, set: u64)
    requires { (2 ≤ top) × (top ≤ length work.old) }
    ensures { Pushed (low set ∷ high set ∷ []) top (top - 2) work.old work.new }
{
    work[top - 2] = (set % 4294967296) as u32;
    work[top - 1] = (set / 4294967296) as u32;
}

// Pushes one position more: a bit for it, and its set laid if it is stored.
pub fn push(writer: &mut NodeWriter, work: &mut [u32], stored: bool, set: u64)
    requires { MayPush writer.old (length work.old) stored }
    ensures { DidPush writer.old stored set writer.new work.old work.new }
{
    writer.mask *= 2;
    if stored {
        put_set(work, writer.top, set);
        writer.mask += 1;
        writer.top -= 2;
    }
}
