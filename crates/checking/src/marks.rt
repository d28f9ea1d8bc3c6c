// The lengths at which a prefix has a hop, as two words: those whose hop is an old or a new answer, and the others. Bit 0 stands for no route, bit l + 1 for
// length l. The word with the longest length is the greater one.

ghost use Rattle.std.specs.Prelude.{◌≡◌, suc, ◌≤◌};
ghost use Rattle.checking.specs.Marks.{alone_of, fine_of, is_fine, mark_of, marked_of, bare_of, marks_upto};

use hops::NO_HOP;

#[derive(Clone, Copy)]
pub struct Marks {
    pub fair: u64,
    pub foul: u64,
}

// The set of a hop; the empty one for NO_HOP.
fn alone(hop: u8) -> u64
    ensures { result ≡ alone_of hop }
{
    if hop < NO_HOP { 1 << hop } else { 0 }
}

// The hops of two answers, as a set.
pub fn fine_of(was: u8, goal: u8) -> u64
    ensures { result ≡ fine_of was goal }
{
    alone(was) | alone(goal)
}

// Is it a hop of the set?
pub fn is_fine(fine: u64, hop: u8) -> bool
    ensures { result ≡ is_fine fine hop }
{
    hop < NO_HOP && (fine >> hop) % 2 == 1
}

// The mark of a length.
fn mark_of(len: u8) -> u64
    requires { len ≤ 32 }
    ensures { result ≡ mark_of len }
{
    1 << (len + 1)
}

// The marks once a length has this hop, or none.
pub fn marked(marks: Marks, len: u8, hop: u8, fine: u64) -> Marks
    requires { len ≤ 32 }
    ensures { result ≡ marked_of fine marks len hop }
{
    let mark = mark_of(len);
    let fair = marks.fair & !mark;
    let foul = marks.foul & !mark;
    if NO_HOP <= hop {
        return Marks { fair, foul };
    }
    if is_fine(fine, hop) {
        return Marks {
            fair: fair | mark,
            foul,
        };
    }
    Marks {
        fair,
        foul: foul | mark,
    }
}

// The marks of no route.
fn bare(was: u8, goal: u8) -> Marks
    ensures { result ≡ bare_of was goal }
{
    if was == NO_HOP || goal == NO_HOP {
        Marks { fair: 1, foul: 0 }
    } else {
        Marks { fair: 0, foul: 1 }
    }
}

// The marks of the hops at the lengths up to `len`.
pub fn marks_of(hops: &[u8; 33], len: u8, was: u8, goal: u8) -> Marks
    requires { len ≤ 32 }
    ensures { result ≡ marks_upto was goal hops.now (suc len) }
{
    let fine = fine_of(was, goal);
    let mut marks = bare(was, goal);
    for l in 0..=len {
        marks = marked(marks, l, hops[l as usize], fine);
    }
    marks
}
