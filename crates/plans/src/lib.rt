// Changing an installed table by single steps: the checker of a plan, which alone is believed.
#![tactic(auto)]

pub mod answers;
pub mod hitless;

ghost use Rattle.std.specs.Prelude.{◌≡◌, true};
ghost use Rattle.refusals.specs.Rules.{judge};
ghost use Rattle.plans.specs.Judging.{tables_rules, tables_says, Judges};

use answers::Step;
use checking::step_kept;
use hitless::Change;
use records::Form;
use refusals::{Cause, Refusal};
use table::check_table;

// Are both tables accepted? Else the refusal of the first that is not (3 to 8 for the installed one, 23 to 28 for the new one).
pub fn check_tables(installed: &[u8], new: &[u8], form: Form) -> Result<(), Refusal>
    ensures { tables_says result ≡ judge (tables_rules form installed.now new.now) true }
{
    check_table(installed, form, false)?;
    if let Err(refusal) = check_table(new, form, false) {
        return Err(refusal.cause.in_new().at(refusal.index));
    }
    Ok(())
}

// Do the steps change the installed table to the new one without a detour? Or the refusal (3 to 8, 23 to 28, 13).
pub fn check_plan(installed: &[u8], new: &[u8], form: Form, steps: &[Step]) -> Result<bool, Refusal>
    ensures { Judges form installed.now new.now steps.now result }
{
    check_tables(installed, new, form)?;
    for (index, s) in steps.iter().enumerate() {
        if !step_kept(form.strict, s.put != 0, s.addr, s.len, s.hop) {
            return Err(Cause::Step.at(index));
        }
    }
    let change = Change {
        installed,
        new,
        steps,
    };
    Ok(change.is_hitless())
}
