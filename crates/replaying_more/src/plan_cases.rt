// The cases of call 7, the checker of a plan, and of call 8, the planner: the text of the answer is kept.

ghost use Rattle.std.specs.Prelude.{◌≤◌, length};
ghost use Rattle.records.specs.Wire.{records};
ghost use Rattle.kept.specs.Kept.{byte, form_by};
ghost use Rattle.replaying_more.specs.PlanKept.{CheckKept, PlanKept};

use kept::{form_of, join2, room_for};
use records::Form;
use std::io::Stdout;
use steplines::{plan_text, put_judged};
use steprooms::{check_steps, empty_room};
use streams::outlet::Outlet;

// Keeps the answer of the checker.
fn keep_checked(
    outlet: &mut Outlet<Stdout>,
    installed: &[u8],
    new: &[u8],
    form: Form,
    steps: &[u8],
    at: usize,
    kept: &mut [u8],
) -> usize
    requires steps_bound { records steps.now ≤ 65535 }
    requires at_in_bounds { at ≤ length kept.old }
    requires in_bounds { 262144 ≤ length kept.old }
    ensures { CheckKept form installed.now new.now steps.now at result kept.old kept.new }
{
    let begin = room_for(outlet, kept, at);
    put_judged(check_steps(installed, new, form, steps), begin, kept)
}

// Keeps the answer of a case with call 7: its first 16 bytes, both tables, and the steps.
pub fn check_turn(
    outlet: &mut Outlet<Stdout>,
    head: &[u8; 16],
    installed: &[u8],
    new: &[u8],
    steps: &[u8],
    at: usize,
    kept: &mut [u8],
) -> usize
    requires steps_bound { records steps.now ≤ 65535 }
    requires at_in_bounds { at ≤ length kept.old }
    requires in_bounds { 262144 ≤ length kept.old }
    ensures check_kept { CheckKept (form_by (byte head.now 0)) installed.now new.now steps.now at result kept.old kept.new }
    ensures upper_bound { result ≤ length kept.old }
{
    keep_checked(outlet, installed, new, form_of(head[0]), steps, at, kept)
}

// Keeps the answer of the planner, which is lent a room of n steps.
fn keep_planned(
    outlet: &mut Outlet<Stdout>,
    installed: &[u8],
    new: &[u8],
    form: Form,
    n: usize,
    at: usize,
    kept: &mut [u8],
) -> usize
    requires n_bound { n ≤ 65535 }
    requires at_in_bounds { at ≤ length kept.old }
    requires in_bounds { 262144 ≤ length kept.old }
    ensures plan_kept { PlanKept form installed.now new.now n at result kept.old kept.new }
    ensures upper_bound { result ≤ length kept.old }
{
    let begin = room_for(outlet, kept, at);
    let mut room = empty_room();
    plan_text(installed, new, form, &mut room[..n], true, begin, kept)
}

// Keeps the answer of a case with call 8: its first 16 bytes, and both tables.
pub fn plan_turn(
    outlet: &mut Outlet<Stdout>,
    head: &[u8; 16],
    installed: &[u8],
    new: &[u8],
    at: usize,
    kept: &mut [u8],
) -> usize
    requires at_in_bounds { at ≤ length kept.old }
    requires in_bounds { 262144 ≤ length kept.old }
    ensures { result ≤ length kept.old }
{
    let n = join2(head[10], head[11]);
    keep_planned(outlet, installed, new, form_of(head[0]), n, at, kept)
}
