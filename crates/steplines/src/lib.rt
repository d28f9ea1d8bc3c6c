// The text of steps and of the checker's answer.
#![tactic(auto)]

ghost use Rattle.std.specs.Prelude.{◌≡◌, ℕ, ◌+◌, ◌*◌, ◌≤◌, length, Option, Result};
ghost use Rattle.refusals.specs.declared.Refusal.{Refusal};
ghost use Rattle.planner.specs.Planning.{Plans};
ghost use Rattle.checking.specs.Checking.{puts};
ghost use Rattle.text.specs.Text.{Put};
ghost use Rattle.steplines.specs.Lines.{judged_text, word_of, step_line, step_lines, steps_end, planned_text, PlanPut};

use planner::plan;
use plans::answers::Step;
use records::Form;
use refusals::Refusal;
use text::{Refused, put_bytes, put_dotted, put_ending, put_last, put_refused, put_said};

// `yes`, `no` or the refusal.
#[tactic(auto, unfolding(crate::specs::Lines::judged_text))]
pub fn put_judged(answer: Result<bool, Refusal>, at: usize, out: &mut [u8]) -> usize
    requires { at + 36 ≤ length out.old }
    ensures { Put (judged_text answer) at result out.old out.new }
{
    match answer {
        Ok(true) => put_bytes(b"yes\n", at, out),
        Ok(false) => put_bytes(b"no\n", at, out),
        Err(refusal) => put_refused(refusal, at, out),
    }
}

// `put` or `take`, and a space.
fn put_word(put: bool, at: usize, out: &mut [u8]) -> usize
    requires { at + 5 ≤ length out.old }
    ensures put { Put (word_of put) at result out.old out.new }
    ensures upper_bound { result ≤ at + 5 }
{
    if put {
        put_bytes(b"put ", at, out)
    } else {
        put_bytes(b"take ", at, out)
    }
}

// The line of a step.
fn put_step(step: Step, at: usize, out: &mut [u8]) -> usize
    requires { at + 29 ≤ length out.old }
    ensures put { Put (step_line step) at result out.old out.new }
    ensures upper_bound { result ≤ at + 29 }
{
    let put = step.put != 0;
    let word = put_word(put, at, out);
    let prefix = put_dotted(step.addr, word, out);
    put_ending(step.len, step.hop, put, prefix, out)
}

// The lines of steps.
pub fn put_steps(steps: &[Step], at: usize, out: &mut [u8]) -> usize
    requires { at + 29 * length steps.now ≤ length out.old }
    ensures put { Put (step_lines steps.now) at result out.old out.new }
    ensures upper_bound { result ≤ at + 29 * length steps.now }
{
    let mut end = at;
    for s in steps {
        end = put_step(*s, end, out);
    }
    end
}

// Where `total` says so, the line `steps N`.
fn put_total(n: usize, total: bool, at: usize, out: &mut [u8]) -> usize
    requires { at + 27 ≤ length out.old }
    ensures { Put (steps_end total n) at result out.old out.new }
{
    if total {
        let end = put_bytes(b"steps ", at, out);
        return put_last(n as u64, end, out);
    }
    at
}

// The text of the planner's answer, from the room that it left; nothing of a plan of more than 2,048 steps, which no tables have.
pub fn put_planned(
    answer: Result<Option<usize>, Refused>,
    room: &[Step],
    total: bool,
    at: usize,
    out: &mut [u8],
) -> usize
    requires { at + 59428 ≤ length out.old }
    ensures { Put (planned_text total answer room.now) at result out.old out.new }
{
    match answer {
        Ok(Some(count)) => {
            if 2048 < count {
                return at;
            }
            let end = put_steps(&room[..count.min(room.len())], at, out);
            put_total(count, total, end, out)
        }
        Ok(None) => put_bytes(b"gave up\n", at, out),
        Err(refused) => put_said(refused, at, out),
    }
}

// The text of the planner's answer, where it is lent this room.
pub fn plan_text(
    installed: &[u8],
    new: &[u8],
    form: Form,
    room: &mut [Step],
    total: bool,
    at: usize,
    out: &mut [u8],
) -> usize
    requires { at + 59428 ≤ length out.old }
    ensures text { PlanPut form installed.now new.now room.old total at result out.old out.new }
    ensures room { (answer : Result (Option ℕ) Refusal) × Plans form installed.now new.now room.old answer room.new }
{
    let answer = plan(installed, new, form, room).map_err(Refused::from);
    put_planned(answer, room, total, at, out)
}
