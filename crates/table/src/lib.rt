// Tables on the wire are checked here: the rules 3 to 8 of document 01, record by record.
#![tactic(auto)]

mod rules;

ghost use Rattle.std.specs.Prelude.{◌≡◌};
ghost use Rattle.records.specs.Sized.{IsSize};
ghost use Rattle.table.specs.Checking.{checked_says, check_reply, check_reply_in};

use records::Form;
use refusals::{Cause, Refusal};

// Checks a table of records of 8 bytes, of a set or of a map, read by the form: the number of its records, or the refusal (3 to 8).
pub fn check_table(table: &[u8], form: Form, is_set: bool) -> Result<usize, Refusal>
    ensures { checked_says result ≡ check_reply form is_set table.now }
{
    check_sized(table, 8, form.strict, is_set)
}

// The same for records of this size, 8 bytes or 16, where under `strict` a record with host bits is refused.
#[tactic(auto, using(crate::proofs::SizedJudging::too_many))]
pub fn check_sized(table: &[u8], size: usize, strict: bool, is_set: bool) -> Result<usize, Refusal>
    requires { IsSize size }
    ensures { checked_says result ≡ check_reply_in size «strict» is_set table.now }
{
    let len = table.len();
    if len % size != 0 {
        return Err(Cause::TableLength.at(0));
    }
    let n = len / size;
    if 1024 < n {
        return Err(Cause::RecordCount.at(0));
    }
    for i in 0..n {
        if let Err(cause) = rules::judge_record(table, size, strict, i, is_set) {
            return Err(cause.at(i));
        }
    }
    Ok(n)
}
