// Pieces of a line: what stands before a byte and behind it, words, numbers, addresses.

ghost use Rattle.std.specs.Prelude.{◌≡◌, ◌≤◌, length};
ghost use Rattle.std.specs.List.{position};
ghost use Rattle.tabletext.specs.Pieces.{Below, Reaches, is, has, place, up_to, behind, unblank, digit_from, number, address, is_default, prefix_address, prefix_length};

use records::join4;

// Is x the byte b? A tab counts as a space.
fn is(b: u8, x: u8) -> bool
    ensures { result ≡ is b x }
{
    x == b || (b == b' ' && x == b'\t')
}

// Where the first b stands.
fn find(s: &[u8], b: u8) -> Option<usize>
    ensures { result ≡ position (is b) s.now }
{
    s.iter().position(|x| is(b, *x))
}

// Is there a b?
#[tactic(auto, using(crate::proofs::PieceLaws::has_found))]
pub(crate) fn has(s: &[u8], b: u8) -> bool
    ensures { result ≡ has b s.now }
{
    find(s, b).is_some()
}

// How many bytes stand before the first b.
pub fn place(s: &[u8], b: u8) -> usize
    ensures { (result ≡ place b s.now) × (result ≤ length s.now) }
{
    find(s, b).unwrap_or(s.len())
}

// What stands before the first b.
#[tactic(auto, unfolding(crate::specs::Pieces::up_to))]
pub fn up_to(s: &[u8], b: u8) -> &[u8]
    ensures { result.now ≡ up_to b s.now }
{
    &s[..place(s, b)]
}

// What stands behind the first b.
#[tactic(auto, unfolding(crate::specs::Pieces::behind))]
pub fn behind(s: &[u8], b: u8) -> &[u8]
    ensures { result.now ≡ behind b s.now }
{
    match &s[place(s, b)..] {
        [_, rest @ ..] => rest,
        none => none,
    }
}

// What stands behind the blanks at the beginning.
#[tactic(auto, unfolding(crate::specs::Pieces::unblank))]
pub fn unblank(s: &[u8]) -> &[u8]
    ensures { result.now ≡ unblank s.now }
{
    let mut rest = s;
    while let [b' ' | b'\t', more @ ..] = rest {
        rest = more;
    }
    rest
}

// The value of a digit from `low` to 9; 1,000 for any other byte.
fn digit(low: u8, x: u8) -> u32
    requires { low ≤ 1 }
    ensures { (result ≡ digit_from low x) × (result ≤ 1000) }
{
    if x < b'0' + low || b'9' < x {
        return 1000;
    }
    u32::from(x - b'0')
}

// The number that a word is: one to three digits, without a leading zero; 1,000 or more where it is none. Which number that is the contract tells, so it is
// no `Option`.
#[tactic(auto, unfolding(crate::specs::Pieces::number))]
pub fn number(s: &[u8]) -> u32
    ensures { result ≡ number s.now }
{
    match s {
        [a] => digit(0, *a),
        [a, b] => digit(1, *a) * 10 + digit(0, *b),
        [a, b, c] => digit(1, *a) * 100 + digit(0, *b) * 10 + digit(0, *c),
        _ => 1000,
    }
}

// The same, if it is below a limit.
pub(crate) fn number_below(s: &[u8], limit: u16) -> Option<u8>
    requires { limit ≤ 256 }
    ensures { Below limit result (number s.now) }
{
    let n = number(s);
    if u32::from(limit) <= n {
        return None;
    }
    Some(n as u8)
}

// The address that a word is.
#[tactic(auto, unfolding(crate::specs::Pieces::address, crate::specs::Pieces::joined))]
fn address(s: &[u8]) -> Option<u32>
    ensures { Reaches 4294967296 result (address s.now) }
{
    let second = behind(s, b'.');
    let third = behind(second, b'.');
    let a = number_below(up_to(s, b'.'), 256)?;
    let b = number_below(up_to(second, b'.'), 256)?;
    let c = number_below(up_to(third, b'.'), 256)?;
    let d = number_below(behind(third, b'.'), 256)?;
    Some(join4(a, b, c, d))
}

// Is a word `default`?
#[tactic(auto, unfolding(crate::specs::Pieces::is_default))]
fn is_default(s: &[u8]) -> bool
    ensures { result ≡ is_default s.now }
{
    matches!(s, b"default")
}

// The address of a prefix, as it is written.
#[tactic(auto, unfolding(crate::specs::Pieces::prefix_address))]
pub fn prefix_address(w: &[u8]) -> Option<u32>
    ensures { Reaches 4294967296 result (prefix_address w.now) }
{
    if is_default(w) {
        return Some(0);
    }
    address(up_to(w, b'/'))
}

// The length of a prefix; above 32 where it is none.
#[tactic(auto, unfolding(crate::specs::Pieces::prefix_length))]
pub fn prefix_length(w: &[u8]) -> u32
    ensures { result ≡ prefix_length w.now }
{
    if is_default(w) {
        0
    } else if has(w, b'/') {
        number(behind(w, b'/'))
    } else {
        32
    }
}
