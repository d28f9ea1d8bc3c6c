// The cases of call 9, special use: the text of the answer is kept.

ghost use Rattle.std.specs.Prelude.{◌+◌, ◌≤◌, length};
ghost use Rattle.text.specs.Text.{Put};
ghost use Rattle.kept.specs.Kept.{begin_of};
ghost use Rattle.replaying_more.specs.SpecialKept.{special_text, special_answer, special_case};

use kept::counted::put_counted;
use kept::{form_of, room_for};
use records::{Form, join4};
use refusals::Refusal;
use special::special_use;
use std::io::Stdout;
use streams::outlet::Outlet;
use text::{put_bytes, put_refused};

// The text of an answer.
#[tactic(auto, unfolding(crate::specs::SpecialKept::special_text))]
fn put_special(answer: Result<Option<usize>, Refusal>, at: usize, out: &mut [u8]) -> usize
    requires { at + 36 ≤ length out.old }
    ensures { Put (special_text answer) at result out.old out.new }
{
    match answer {
        Ok(Some(i)) => put_counted(b"special at ", i as u64, at, out),
        Ok(None) => put_bytes(b"none special\n", at, out),
        Err(refusal) => put_refused(refusal, at, out),
    }
}

// Keeps the answer of special use.
#[tactic(auto, unfolding(crate::specs::SpecialKept::special_text))]
fn keep_special(
    outlet: &mut Outlet<Stdout>,
    edition: u32,
    table: &[u8],
    form: Form,
    at: usize,
    kept: &mut [u8],
) -> usize
    requires at_in_bounds { at ≤ length kept.old }
    requires in_bounds { 262144 ≤ length kept.old }
    ensures { Put (special_answer form table.now edition) (begin_of at) result kept.old kept.new }
{
    let begin = room_for(outlet, kept, at);
    put_special(special_use(table, form, edition), begin, kept)
}

// Keeps the answer of a case with call 9.
pub fn special_turn(
    outlet: &mut Outlet<Stdout>,
    head: &[u8; 16],
    table: &[u8],
    at: usize,
    kept: &mut [u8],
) -> usize
    requires at_in_bounds { at ≤ length kept.old }
    requires in_bounds { 262144 ≤ length kept.old }
    ensures { Put (special_case head.now table.now) (begin_of at) result kept.old kept.new }
{
    let edition = join4(head[4], head[5], head[6], head[7]);
    keep_special(outlet, edition, table, form_of(head[0]), at, kept)
}
