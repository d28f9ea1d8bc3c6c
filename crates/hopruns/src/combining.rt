// Two runs combined: none, where one is a hole; else the hops that they share, or, where they share none, all. First counted, then laid below both,
// which stay as they are.

ghost use Rattle.std.specs.Prelude.{◌≡◌, [], ◌+◌, ◌-◌, ◌≤◌, length};
ghost use Rattle.std.proofs.Math.Seq.{slice};
ghost use Rattle.theory.specs.Results.{common, union};
ghost use Rattle.nodes.specs.Room.{Pushed};
ghost use Rattle.hopruns.specs.Runs.{Run, combined};

// How many hops two runs share.
fn shared(work: &[u32], a: usize, a_end: usize, b: usize, b_end: usize) -> usize
    requires run { Run work.now a a_end }
    requires run_2 { Run work.now b b_end }
    ensures { result ≡ length (common (slice a a_end work.now) (slice b b_end work.now)) }
{
    let mut n = 0;
    let mut i = a;
    let mut j = b;
    while i < a_end && j < b_end {
        let x = work[i];
        let y = work[j];
        n += usize::from(x == y);
        i += usize::from(x <= y);
        j += usize::from(y <= x);
    }
    n
}

// How long the run is that combines two.
pub fn combined_size(work: &[u32], a: usize, a_end: usize, b: usize, b_end: usize) -> usize
    requires run { Run work.now a a_end }
    requires run_2 { Run work.now b b_end }
    ensures { result ≡ length (combined (slice a a_end work.now) (slice b b_end work.now)) }
{
    if a == a_end || b == b_end {
        return 0;
    }
    match shared(work, a, a_end, b, b_end) {
        0 => (a_end - a) + (b_end - b),
        n => n,
    }
}

// Lays the hops that two runs share from `at` on, below both. It walks as `shared` does: one walk for both, given what to do with a hop, would
// have to read the room while that writes it.
fn lay_shared(work: &mut [u32], a: usize, a_end: usize, b: usize, b_end: usize, at: usize)
    requires run { Run work.old a a_end }
    requires run_2 { Run work.old b b_end }
    requires work_bound { at + length (common (slice a a_end work.old) (slice b b_end work.old)) ≤ a }
    requires work_bound_2 { at + length (common (slice a a_end work.old) (slice b b_end work.old)) ≤ b }
    ensures { Pushed (common (slice a a_end work.old) (slice b b_end work.old)) (at + length (common (slice a a_end work.old) (slice b b_end work.old))) at work.old work.new }
{
    let mut n = at;
    let mut i = a;
    let mut j = b;
    while i < a_end && j < b_end {
        let x = work[i];
        let y = work[j];
        if x == y {
            work[n] = x;
            n += 1;
        }
        i += usize::from(x <= y);
        j += usize::from(y <= x);
    }
}

// Lays the hops of two runs that share none from `at` on, below both.
fn lay_either(work: &mut [u32], a: usize, a_end: usize, b: usize, b_end: usize, at: usize)
    requires run { Run work.old a a_end }
    requires run_2 { Run work.old b b_end }
    requires work_value { common (slice a a_end work.old) (slice b b_end work.old) ≡ [] }
    requires b_bound { (at + ((a_end - a) + (b_end - b)) ≤ a) × (at + ((a_end - a) + (b_end - b)) ≤ b) }
    ensures { Pushed (union (slice a a_end work.old) (slice b b_end work.old)) (at + ((a_end - a) + (b_end - b))) at work.old work.new }
{
    let mut i = a;
    let mut j = b;
    for n in at..at + ((a_end - a) + (b_end - b)) {
        if i < a_end && (b_end <= j || work[i] < work[j]) {
            work[n] = work[i];
            i += 1;
        } else {
            work[n] = work[j];
            j += 1;
        }
    }
}

// Lays the run that combines two, which has `size` hops, so that it ends at top, below both, and says where it begins.
// It has all the hops of both exactly where they share none.
pub fn combine_runs(
    work: &mut [u32],
    a: usize,
    a_end: usize,
    b: usize,
    b_end: usize,
    size: usize,
    top: usize,
) -> usize
    requires run { Run work.old a a_end }
    requires run_2 { Run work.old b b_end }
    requires top_le_a { (top ≤ a) × (top ≤ b) }
    requires size_value { size ≡ length (combined (slice a a_end work.old) (slice b b_end work.old)) }
    requires size_le_top { size ≤ top }
    ensures { Pushed (combined (slice a a_end work.old) (slice b b_end work.old)) top result work.old work.new }
{
    if size == 0 {
        return top;
    }
    let at = top - size;
    if size == (a_end - a) + (b_end - b) {
        lay_either(work, a, a_end, b, b_end, at);
    } else {
        lay_shared(work, a, a_end, b, b_end, at);
    }
    at
}
