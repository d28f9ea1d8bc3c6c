// The cases of the calls that take tables of both sizes, and of addresses held: each call is made on what the case lends it, and the text of its answer is
// kept. The rooms are filled before a call and looked at after it: by the calls' statements no line about them is ever kept.

#![tactic(auto)]

ghost use Rattle.std.specs.Prelude.{◌≡◌, ◌+◌, ◌*◌, ◌≤◌, length};
ghost use Rattle.calls.specs.Rewriting.{count_of};
ghost use Rattle.holes.specs.Listing.{listed_count};
ghost use Rattle.records.specs.Sized.{IsSize};
ghost use Rattle.text.specs.Text.{Put};
ghost use Rattle.kept.specs.Kept.{words_of, begin_of};
ghost use Rattle.replaying.specs.Answers.{rewrite_answer, plain_answer, cover_answer, lookup_answer, held_answer, list_answer, answer_text, plain_case};

use aggregate::{covers, rewrite};
use calls::Rewritten;
use holes::unrouted;
use kept::call::Call;
use kept::{
    FILLED_BYTE, FILLED_WORD, address_of, form_of, join2, keep_output, keep_work, named_call,
    room_for,
};
use lookup::{addresses_held, lookup};
use records::{Form, join4, size_of};
use refusals::Refusal;
use std::io::Stdout;
use streams::outlet::Outlet;
use text::answers::{put_covers, put_held, put_listed, put_lookup, put_rewritten};
use text::{Refused, Style};

// The bytes of the output that an answer's records take.
fn written(answer: Result<Rewritten, Refusal>, size: usize) -> usize
    requires { IsSize size × (size * count_of answer ≤ 65535) }
    ensures { result ≡ size * count_of answer }
{
    match answer {
        Ok(written) => size * written.count,
        Err(_) => 0,
    }
}

// Keeps the answer of a rewrite.
fn keep_rewritten(
    outlet: &mut Outlet<Stdout>,
    mode: u8,
    default: u8,
    table: &[u8],
    form: Form,
    ranks: &[u16],
    output: &mut [u8],
    work: &mut [u32],
    at: usize,
    kept: &mut [u8],
) -> usize
    requires output_len_bound { length output.old ≤ 65535 }
    requires at_in_bounds { at ≤ length kept.old }
    requires in_bounds { 262144 ≤ length kept.old }
    ensures { Put (rewrite_answer form table.now mode default ranks.now (length output.old) (length work.old)) (begin_of at) result kept.old kept.new }
{
    let size = size_of(form);
    output.fill(FILLED_BYTE);
    work.fill(FILLED_WORD);
    let answer = rewrite(
        table,
        form,
        mode as u32,
        default as u32,
        ranks,
        output,
        work,
    );
    let begin = room_for(outlet, kept, at);
    let style = Style {
        hex: true,
        hops: 1 < mode,
    };
    let end = put_rewritten(answer, output, size, style, begin, kept);
    let after = keep_work(outlet, work, end, kept);
    keep_output(outlet, output, written(answer, size), after, kept)
}

// Keeps the answer of a rewrite by the plain engine.
fn keep_plain(
    outlet: &mut Outlet<Stdout>,
    mode: u8,
    default: u8,
    table: &[u8],
    form: Form,
    ranks: &[u16],
    output: &mut [u8],
    at: usize,
    kept: &mut [u8],
) -> usize
    requires output_len_bound { length output.old ≤ 65535 }
    requires at_in_bounds { at ≤ length kept.old }
    requires in_bounds { 262144 ≤ length kept.old }
    ensures { Put (plain_answer form table.now mode default ranks.now (length output.old)) (begin_of at) result kept.old kept.new }
{
    let size = size_of(form);
    output.fill(FILLED_BYTE);
    let answer = plain::rewrite(table, form, mode as u32, default as u32, ranks, output);
    let begin = room_for(outlet, kept, at);
    let style = Style {
        hex: true,
        hops: 1 < mode,
    };
    let end = put_rewritten(answer, output, size, style, begin, kept);
    keep_output(outlet, output, written(answer, size), end, kept)
}

// Keeps the answer of a case with call 5, which is lent as much of the output as it says.
pub fn plain_turn(
    outlet: &mut Outlet<Stdout>,
    head: &[u8; 16],
    table: &[u8],
    ranks: &[u16],
    output: &mut [u8],
    at: usize,
    kept: &mut [u8],
) -> usize
    requires value { 65535 ≡ length output.old }
    requires at_in_bounds { at ≤ length kept.old }
    requires in_bounds { 262144 ≤ length kept.old }
    ensures { Put (plain_case head.now table.now ranks.now) (begin_of at) result kept.old kept.new }
{
    let room = join2(head[12], head[13]);
    keep_plain(
        outlet,
        head[1],
        head[2],
        table,
        form_of(head[0]),
        ranks,
        &mut output[..room],
        at,
        kept,
    )
}

// Keeps the answer of the cover query.
fn keep_covers(
    outlet: &mut Outlet<Stdout>,
    address: u64,
    len: u8,
    table: &[u8],
    form: Form,
    work: &mut [u32],
    at: usize,
    kept: &mut [u8],
) -> usize
    requires at_in_bounds { at ≤ length kept.old }
    requires in_bounds { 262144 ≤ length kept.old }
    ensures { Put (cover_answer form table.now address len (length work.old)) (begin_of at) result kept.old kept.new }
{
    work.fill(FILLED_WORD);
    let answer = covers(table, form, address, len as u32, work);
    let begin = room_for(outlet, kept, at);
    let end = put_covers(answer, begin, kept);
    keep_work(outlet, work, end, kept)
}

// Keeps the answer of a lookup.
#[tactic(auto, unfolding(text::specs::Answers::lookup_text))]
fn keep_lookup(
    outlet: &mut Outlet<Stdout>,
    address: u64,
    table: &[u8],
    form: Form,
    at: usize,
    kept: &mut [u8],
) -> usize
    requires at_in_bounds { at ≤ length kept.old }
    requires in_bounds { 262144 ≤ length kept.old }
    ensures { Put (lookup_answer form table.now address) (begin_of at) result kept.old kept.new }
{
    let begin = room_for(outlet, kept, at);
    put_lookup(lookup(table, form, address), begin, kept)
}

// Keeps the answer of addresses held.
#[tactic(auto, unfolding(text::specs::Answers::held_text))]
fn keep_held(
    outlet: &mut Outlet<Stdout>,
    table: &[u8],
    form: Form,
    at: usize,
    kept: &mut [u8],
) -> usize
    requires at_in_bounds { at ≤ length kept.old }
    requires in_bounds { 262144 ≤ length kept.old }
    ensures { Put (held_answer form table.now) (begin_of at) result kept.old kept.new }
{
    let begin = room_for(outlet, kept, at);
    put_held(addresses_held(table, form), begin, kept)
}

// The bytes of the output that a list's records take.
fn listed(answer: Result<usize, Refusal>, size: usize) -> usize
    requires { IsSize size × (size * listed_count answer ≤ 1048576) }
    ensures { result ≡ size * listed_count answer }
{
    match answer {
        Ok(count) => size * count,
        Err(_) => 0,
    }
}

// The text of a list of what has no route, from the start of a text of its own: three bytes for each of the output, and 36.
pub fn list_text(
    outlet: &mut Outlet<Stdout>,
    table: &[u8],
    form: Form,
    output: &mut [u8],
    text: &mut [u8],
) -> usize
    requires output_len_bound { length output.old ≤ 1048576 }
    requires in_bounds { 3145764 ≤ length text.old }
    ensures { Put (list_answer form table.now (length output.old)) 0 result text.old text.new }
{
    let size = size_of(form);
    output.fill(FILLED_BYTE);
    let answer = unrouted(table, form, output);
    let said = answer.map_err(Refused::from);
    let end = put_listed(said, output, size, true, true, 0, text);
    keep_output(outlet, output, listed(answer, size), end, text)
}

// Keeps the answer of a case with call 0 to 3: its first 16 bytes, the query, its table, and the rooms of which it is lent as much as it says.
pub fn keep_answer(
    outlet: &mut Outlet<Stdout>,
    head: &[u8; 16],
    query: &[u8],
    table: &[u8],
    ranks: &[u16],
    output: &mut [u8],
    work: &mut [u32],
    at: usize,
    kept: &mut [u8],
) -> usize
    requires value { 8 ≡ length query.now }
    requires value_2 { 65535 ≡ length output.old }
    requires head_in_bounds { words_of head.now ≤ length work.old }
    requires at_in_bounds { at ≤ length kept.old }
    requires in_bounds { 262144 ≤ length kept.old }
    ensures { Put (answer_text head.now query.now table.now ranks.now) (begin_of at) result kept.old kept.new }
{
    let form = form_of(head[0]);
    let address = address_of(head, query);
    let words = join4(head[8], head[9], head[10], head[11]) as usize;
    match named_call(head[0]) {
        Ok(Call::Rewrite) => {
            let room = join2(head[12], head[13]);
            keep_rewritten(
                outlet,
                head[1],
                head[2],
                table,
                form,
                ranks,
                &mut output[..room],
                &mut work[..words],
                at,
                kept,
            )
        }
        Ok(Call::Covers) => keep_covers(
            outlet,
            address,
            head[3],
            table,
            form,
            &mut work[..words],
            at,
            kept,
        ),
        Ok(Call::Lookup) => keep_lookup(outlet, address, table, form, at, kept),
        _ => keep_held(outlet, table, form, at, kept),
    }
}
