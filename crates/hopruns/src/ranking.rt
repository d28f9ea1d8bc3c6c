// Which ranks may be lent.

ghost use Rattle.std.specs.Prelude.{◌≡◌, ◌≤◌};
ghost use Rattle.theory.specs.Ranks.{is_ranking};
ghost use Rattle.hopruns.specs.Runs.{no_hop};

// Are these ranks of n hops: none, or each of the numbers below n once? From the last to the first, those already seen marked.
pub fn is_ranking(ranks: &[u16], n: usize) -> bool
    requires { n ≤ no_hop }
    ensures { result ≡ is_ranking n ranks.now }
{
    if ranks.len() != n {
        return ranks.is_empty();
    }
    let mut seen = [false; 1024];
    for i in (0..n).rev() {
        let r = ranks[i] as usize;
        if n <= r || seen[r] {
            return false;
        }
        seen[r] = true;
    }
    true
}
