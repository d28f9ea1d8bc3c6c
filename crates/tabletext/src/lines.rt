// What one line says.

ghost use Rattle.std.specs.Prelude.{◌≡◌};
ghost use Rattle.tabletext.specs.Pieces.{Below, prefix_address, prefix_length};
ghost use Rattle.tabletext.specs.Lines.{as_said, unreturned, end_of_set, end_of_map, of_prefix, of_words, of_body, of_line, said};

use crate::pieces::{behind, has, number_below, prefix_address, prefix_length, unblank, up_to};
use crate::{Reason, Record};

// A line without a carriage return at its end.
#[tactic(auto, unfolding(crate::specs::Lines::unreturned))]
fn unreturned(line: &[u8]) -> &[u8]
    ensures { result.now ≡ unreturned line.now }
{
    match line {
        [rest @ .., b'\r'] => rest,
        _ => line,
    }
}

// A set's record, behind whose prefix this stands.
#[tactic(auto, unfolding(crate::specs::Lines::end_of_set))]
fn end_of_set(addr: u32, len: u8, rest: &[u8]) -> Result<Record, Reason>
    ensures { as_said result ≡ end_of_set addr len rest.now }
{
    if !rest.is_empty() {
        return Err(Reason::HopInSet);
    }
    Ok(Record { addr, len, hop: 0 })
}

// A map's record, behind whose prefix this stands.
#[tactic(auto, unfolding(crate::specs::Lines::end_of_map))]
fn end_of_map(addr: u32, len: u8, rest: &[u8]) -> Result<Record, Reason>
    ensures { as_said result ≡ end_of_map addr len rest.now }
{
    if rest.is_empty() {
        return Err(Reason::NoHop);
    }
    if !unblank(behind(rest, b' ')).is_empty() {
        return Err(Reason::MoreWords);
    }
    let hop = number_below(up_to(rest, b' '), 64).ok_or(Reason::NotHop)?;
    Ok(Record { addr, len, hop })
}

// The length of a prefix, if one may have it.
fn length_of(prefix: &[u8]) -> Option<u8>
    ensures { Below 33 result (prefix_length prefix.now) }
{
    let len = prefix_length(prefix);
    if 32 < len {
        return None;
    }
    Some(len as u8)
}

// A record whose prefix is a word, behind which this stands.
#[tactic(auto, unfolding(crate::specs::Lines::of_prefix))]
fn of_prefix(hops: bool, prefix: &[u8], rest: &[u8]) -> Result<Record, Reason>
    ensures { as_said result ≡ of_prefix hops (prefix_address prefix.now) (prefix_length prefix.now) rest.now }
{
    let addr = prefix_address(prefix).ok_or(Reason::NotPrefix)?;
    let len = length_of(prefix).ok_or(Reason::NotPrefix)?;
    if hops {
        end_of_map(addr, len, rest)
    } else {
        end_of_set(addr, len, rest)
    }
}

// A line that begins with no blank, and has no comment.
#[tactic(auto, unfolding(crate::specs::Lines::of_words))]
fn of_words(hops: bool, s: &[u8]) -> Result<Option<Record>, Reason>
    ensures { result ≡ of_words hops s.now }
{
    if s.is_empty() {
        return Ok(None);
    }
    let record = of_prefix(hops, up_to(s, b' '), unblank(behind(s, b' ')))?;
    Ok(Some(record))
}

// A line without its comment.
#[tactic(auto, unfolding(crate::specs::Lines::of_body))]
fn of_body(hops: bool, s: &[u8]) -> Result<Option<Record>, Reason>
    ensures { result ≡ of_body hops s.now }
{
    if has(s, b':') {
        return Err(Reason::Colon);
    }
    of_words(hops, unblank(s))
}

// A line without the carriage return at its end.
#[tactic(auto, unfolding(crate::specs::Lines::of_line))]
fn of_line(hops: bool, s: &[u8]) -> Result<Option<Record>, Reason>
    ensures { result ≡ of_line hops s.now }
{
    if has(s, b'\r') {
        return Err(Reason::StrayReturn);
    }
    of_body(hops, up_to(s, b'#'))
}

// What a line says, or what is wrong with it.
#[tactic(auto, unfolding(crate::specs::Lines::said))]
pub fn said(line: &[u8], hops: bool) -> Result<Option<Record>, Reason>
    ensures { result ≡ said hops line.now }
{
    of_line(hops, unreturned(line))
}
