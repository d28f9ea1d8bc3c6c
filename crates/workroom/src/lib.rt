// The work room that a table needs in a rewrite or in the cover query, so that a caller can lend just that.
#![tactic(auto)]

ghost use Rattle.std.specs.Prelude.{◌≡◌};
ghost use Rattle.workroom.specs.Needed.{words_says, words_reply};

use nodecount::count_nodes;
use records::{Form, size_of};
use refusals::Refusal;
use table::check_sized;

// The words of work room that a table needs, of a set or of a map, read by the form; or the refusal (3 to 8).
#[tactic(auto, using(crate::proofs::Refused::words_refused))]
pub fn work_words(table: &[u8], form: Form, is_set: bool) -> Result<usize, Refusal>
    ensures { words_says result ≡ words_reply form is_set table.now }
{
    let size = size_of(form);
    match check_sized(table, size, form.strict, is_set) {
        Ok(_) => Ok(160 * count_nodes(table, size)),
        Err(refusal) => Err(refusal),
    }
}
