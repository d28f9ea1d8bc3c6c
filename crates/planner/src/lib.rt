// Changing an installed table by single steps: the planner. What it proposes is believed only once the checker says yes to it.
#![tactic(auto)]

mod due;

ghost use Rattle.std.specs.Prelude.{◌≡◌, false, length};
ghost use Rattle.records.specs.Wire.{routes};
ghost use Rattle.table.specs.Conditions.{Lawful};
ghost use Rattle.planner.specs.Planning.{plan_of, chosen, steps_by, over, Plans};

use due::{count_due, write_plan};
use plans::answers::Step;
use plans::check_tables;
use records::Form;
use refusals::Refusal;

// The most routes that a table may have.
const MOST: usize = 1024;

// The plan between two accepted tables, written: its number of steps, or none.
fn plan_accepted(installed: &[u8], new: &[u8], steps: &mut [Step]) -> Option<usize>
    requires { Lawful false (routes installed.now) × Lawful false (routes new.now) }
    ensures answer { result ≡ chosen installed.now new.now (length steps.old) }
    ensures steps { steps.new ≡ over (steps_by result (plan_of installed.now new.now)) steps.old }
{
    let puts = count_due(new, installed, true);
    let takes = count_due(installed, new, false);
    if MOST < new.len() / 8 + takes || steps.len() < puts + takes {
        return None;
    }
    let count = puts + takes;
    write_plan(installed, new, &mut steps[..count]);
    Some(count)
}

// Writes a plan of steps from the installed table to the new one: its number of steps, or none where the planner gives up, or the refusal (3 to 8, 23 to 28).
// Where it does not give a plan, and behind one, the steps are as they were.
pub fn plan(
    installed: &[u8],
    new: &[u8],
    form: Form,
    steps: &mut [Step],
) -> Result<Option<usize>, Refusal>
    ensures { Plans form installed.now new.now steps.old result steps.new }
{
    check_tables(installed, new, form)?;
    Ok(plan_accepted(installed, new, steps))
}
