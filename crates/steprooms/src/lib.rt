// The checker of a plan over steps as bytes, and the room for steps that programs lend.
#![tactic(auto)]

ghost use Rattle.std.specs.Prelude.{◌≡◌, ◌≤◌, ◌<◌, length};
ghost use Rattle.records.specs.Wire.{records};
ghost use Rattle.plans.specs.Judging.{Judges};
ghost use Rattle.steprooms.specs.Steps.{step_from, steps_of};

use plans::answers::Step;
use plans::check_plan;
use records::{Form, raw_addr_at};
use refusals::Refusal;

// Step i of bytes.
fn step_at(bytes: &[u8], i: usize) -> Step
    requires { i < records bytes.now }
    ensures { result ≡ step_from bytes.now i }
{
    let k = 8 * i;
    Step {
        addr: raw_addr_at(bytes, i),
        len: bytes[k + 4],
        hop: bytes[k + 5],
        put: bytes[k + 6],
        unread: bytes[k + 7],
    }
}

// A room of steps that are all bytes 0.
pub fn empty_room() -> [Step; 65535]
    ensures { length result ≡ 65535 }
{
    [Step {
        addr: 0,
        len: 0,
        hop: 0,
        put: 0,
        unread: 0,
    }; 65535]
}

// Reads the steps of bytes into as many.
fn read_steps(bytes: &[u8], steps: &mut [Step])
    requires { length steps.old ≡ records bytes.now }
    ensures { steps.new ≡ steps_of bytes.now }
{
    for (i, s) in steps.iter_mut().enumerate() {
        *s = step_at(bytes, i);
    }
}

// The checker, of the steps of bytes.
pub fn check_steps(installed: &[u8], new: &[u8], form: Form, bytes: &[u8]) -> Result<bool, Refusal>
    requires { records bytes.now ≤ 65535 }
    ensures { Judges form installed.now new.now (steps_of bytes.now) result }
{
    let mut room = empty_room();
    let steps = &mut room[..bytes.len() / 8];
    read_steps(bytes, steps);
    check_plan(installed, new, form, steps)
}
