// The text of each call's answer.

ghost use Rattle.std.specs.Prelude.{◌+◌, ◌*◌, ◌≤◌, length, take};
ghost use Rattle.records.specs.Sized.{IsSize, routes_in};
ghost use Rattle.calls.specs.Rewriting.{count_of};
ghost use Rattle.text.specs.Text.{Put, lines_in};
ghost use Rattle.text.specs.Answers.{rewritten_text, covers_text, lookup_text, held_text, records_said, listed_text};

use super::{
    Refused, Style, put_addresses, put_bytes, put_change, put_found, put_records, put_refused,
    put_said, put_total,
};
use calls::Rewritten;
use lookup::answers::Match;
use refusals::Refusal;

// The lines of the first records of an output.
fn put_written(
    output: &[u8],
    size: usize,
    count: usize,
    style: Style,
    at: usize,
    out: &mut [u8],
) -> usize
    requires size { IsSize size × (size * count ≤ length output.now) }
    requires count_in_bounds { at + 3 * (size * count) ≤ length out.old }
    ensures put { Put (lines_in size style.hex style.hops (routes_in size (take (size * count) output.now))) at result out.old out.new }
    ensures upper_bound { result ≤ at + 3 * (size * count) }
{
    let end = size * count;
    put_records(&output[..end], size, style, at, out)
}

// Of a rewrite, from the output that it left, of records of `size` bytes.
#[tactic(auto, unfolding(crate::specs::Answers::rewritten_text))]
pub fn put_rewritten(
    answer: Result<Rewritten, Refusal>,
    output: &[u8],
    size: usize,
    style: Style,
    at: usize,
    out: &mut [u8],
) -> usize
    requires size { IsSize size × (size * count_of answer ≤ length output.now) }
    requires answer_in_bounds { at + 3 * (size * count_of answer) + 36 ≤ length out.old }
    ensures { Put (rewritten_text size style.hex style.hops answer output.now) at result out.old out.new }
{
    match answer {
        Ok(written) => {
            let end = put_written(output, size, written.count, style, at, out);
            put_change(written.change, end, out)
        }
        Err(refusal) => put_refused(refusal, at, out),
    }
}

// Of the cover query.
#[tactic(auto, unfolding(crate::specs::Answers::covers_text))]
pub fn put_covers(answer: Result<bool, Refusal>, at: usize, out: &mut [u8]) -> usize
    requires { at + 36 ≤ length out.old }
    ensures { Put (covers_text answer) at result out.old out.new }
{
    match answer {
        Ok(true) => put_bytes(b"covered\n", at, out),
        Ok(false) => put_bytes(b"uncovered\n", at, out),
        Err(refusal) => put_refused(refusal, at, out),
    }
}

// Of a lookup.
#[tactic(auto, unfolding(crate::specs::Answers::lookup_text))]
pub fn put_lookup(answer: Result<Option<Match>, Refusal>, at: usize, out: &mut [u8]) -> usize
    requires { at + 36 ≤ length out.old }
    ensures { Put (lookup_text answer) at result out.old out.new }
{
    match answer {
        Ok(Some(found)) => put_found(found.hop, found.length, at, out),
        Ok(None) => put_bytes(b"no route\n", at, out),
        Err(refusal) => put_refused(refusal, at, out),
    }
}

// Of addresses held.
#[tactic(auto, unfolding(crate::specs::Answers::held_text))]
pub fn put_held(answer: Result<u64, Refusal>, at: usize, out: &mut [u8]) -> usize
    requires { at + 36 ≤ length out.old }
    ensures { Put (held_text answer) at result out.old out.new }
{
    match answer {
        Ok(n) => put_addresses(n, at, out),
        Err(refusal) => put_refused(refusal, at, out),
    }
}

// Of a list of what has no route, from the output that it left, with the total where that is wanted. The addresses are in hex digits where `hex` says so.
#[tactic(auto, unfolding(crate::specs::Answers::listed_text))]
pub fn put_listed(
    answer: Result<usize, Refused>,
    output: &[u8],
    size: usize,
    hex: bool,
    total: bool,
    at: usize,
    out: &mut [u8],
) -> usize
    requires size { IsSize size × (size * records_said answer ≤ length output.now) }
    requires answer_in_bounds { at + 3 * (size * records_said answer) + 36 ≤ length out.old }
    ensures { Put (listed_text size hex total answer output.now) at result out.old out.new }
{
    match answer {
        Ok(count) => {
            let style = Style { hex, hops: false };
            let end = put_written(output, size, count, style, at, out);
            put_total(count as u64, total, end, out)
        }
        Err(refused) => put_said(refused, at, out),
    }
}
