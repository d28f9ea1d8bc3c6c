// The library for C: the calls, each with its answer in numbers. The result is the refusal's number, 0 for an answer; what else is
// answered is set through the parameters that are lent for it, all of them in every case. include/suovvamet.h says the same in words.
#![tactic(auto)]

mod live_calls;

ghost use Rattle.std.specs.Prelude.{◌≡◌};
ghost use Rattle.refusals.specs.Numbers.{reply_of};
ghost use Rattle.suovvamet.specs.Numbers.{form_by, number_of, index_of};
ghost use Rattle.suovvamet.specs.Calls.{RewriteInC, PlainInC, CoversInC, LookupInC, HeldInC, WordsInC, UnroutedInC, SpecialInC, ChipInC, CheckPlanInC, PlanInC};

use plans::answers::Step;
use records::Form;
use refusals::Refusal;

// How a table is read: strictly where the lowest bit of the flags is set, and as one of records of 16 bytes where the next is. The others are ignored.
#[tactic(auto, using(crate::proofs::Flags::low_bit, crate::proofs::Flags::next_bit))]
fn form_of(flags: u32) -> Form
    ensures { result ≡ form_by flags }
{
    Form {
        strict: flags & 1 != 0,
        long: flags & 2 != 0,
    }
}

// The refusal in numbers: its number, 0 for an answer, and in index the record or step at fault, 0 where none is.
fn refusal_in_c<T: Copy>(answer: Result<T, Refusal>, index: &mut u64) -> u32
    ensures { (result ≡ number_of (reply_of (λ value. value) answer)) × (index.new ≡ index_of (reply_of (λ value. value) answer)) }
{
    match answer {
        Ok(_) => {
            *index = 0;
            0
        }
        Err(refusal) => {
            *index = refusal.index as u64;
            refusal.cause.number() as u32
        }
    }
}

// A rewrite of the table in a mode, by ranks that are lent, into the output: the number of records and the change.
#[unsafe(no_mangle)]
pub extern "C" fn suovvamet_rewrite(
    table: &[u8],
    flags: u32,
    mode: u32,
    default: u32,
    ranks: &[u16],
    output: &mut [u8],
    work: &mut [u32],
    count: &mut u64,
    change: &mut i64,
    index: &mut u64,
) -> u32
    ensures { RewriteInC table.now flags mode default ranks.now output.old work.old result count.new change.new index.new output.new work.new }
{
    let answer = aggregate::rewrite(table, form_of(flags), mode, default, ranks, output, work);
    (*count, *change) = answer.map_or((0, 0), |written| (written.count as u64, written.change));
    refusal_in_c(answer, index)
}

// The same by the plain engine, which is lent no work room.
#[unsafe(no_mangle)]
pub extern "C" fn suovvamet_rewrite_plain(
    table: &[u8],
    flags: u32,
    mode: u32,
    default: u32,
    ranks: &[u16],
    output: &mut [u8],
    count: &mut u64,
    change: &mut i64,
    index: &mut u64,
) -> u32
    ensures { PlainInC table.now flags mode default ranks.now output.old result count.new change.new index.new output.new }
{
    let answer = plain::rewrite(table, form_of(flags), mode, default, ranks, output);
    (*count, *change) = answer.map_or((0, 0), |written| (written.count as u64, written.change));
    refusal_in_c(answer, index)
}

// Does the set cover every address of the prefix? Then covered is 1, else 0.
#[unsafe(no_mangle)]
pub extern "C" fn suovvamet_covers(
    table: &[u8],
    flags: u32,
    address: u64,
    length: u32,
    work: &mut [u32],
    covered: &mut u32,
    index: &mut u64,
) -> u32
    ensures { CoversInC table.now flags address length work.old result covered.new index.new work.new }
{
    let answer = aggregate::covers(table, form_of(flags), address, length, work);
    *covered = answer.unwrap_or(false) as u32;
    refusal_in_c(answer, index)
}

// The longest match of an address: found is 1 with its hop and length, or all three are 0.
#[unsafe(no_mangle)]
pub extern "C" fn suovvamet_lookup(
    table: &[u8],
    flags: u32,
    address: u64,
    found: &mut u32,
    hop: &mut u32,
    length: &mut u32,
    index: &mut u64,
) -> u32
    ensures { LookupInC table.now flags address result found.new hop.new length.new index.new }
{
    let answer = lookup::lookup(table, form_of(flags), address);
    (*found, *hop, *length) = match answer {
        Ok(Some(route)) => (1, route.hop as u32, route.length as u32),
        _ => (0, 0, 0),
    };
    refusal_in_c(answer, index)
}

// The number of addresses with a longest match.
#[unsafe(no_mangle)]
pub extern "C" fn suovvamet_addresses_held(
    table: &[u8],
    flags: u32,
    addresses: &mut u64,
    index: &mut u64,
) -> u32
    ensures { HeldInC table.now flags result addresses.new index.new }
{
    let answer = lookup::addresses_held(table, form_of(flags));
    *addresses = answer.unwrap_or(0);
    refusal_in_c(answer, index)
}

// The words of work room that the table needs, of a set where is_set is not 0, else of a map.
#[unsafe(no_mangle)]
pub extern "C" fn suovvamet_work_words(
    table: &[u8],
    flags: u32,
    is_set: u32,
    needed: &mut u64,
    index: &mut u64,
) -> u32
    ensures { WordsInC table.now flags is_set result needed.new index.new }
{
    let answer = workroom::work_words(table, form_of(flags), is_set != 0);
    *needed = answer.unwrap_or(0) as u64;
    refusal_in_c(answer, index)
}

// The widest prefixes without a route, into the output: their number.
#[unsafe(no_mangle)]
pub extern "C" fn suovvamet_unrouted(
    table: &[u8],
    flags: u32,
    output: &mut [u8],
    count: &mut u64,
    index: &mut u64,
) -> u32
    ensures { UnroutedInC table.now flags output.old result count.new index.new output.new }
{
    let answer = holes::unrouted(table, form_of(flags), output);
    *count = answer.unwrap_or(0) as u64;
    refusal_in_c(answer, index)
}

// The first record that lies in a special-use range of the edition: found is 1 with its index, or both are 0.
#[unsafe(no_mangle)]
pub extern "C" fn suovvamet_special_use(
    table: &[u8],
    flags: u32,
    edition: u32,
    found: &mut u32,
    place: &mut u64,
    index: &mut u64,
) -> u32
    ensures { SpecialInC table.now flags edition result found.new place.new index.new }
{
    let answer = special::special_use(table, form_of(flags), edition);
    (*found, *place) = match answer {
        Ok(Some(i)) => (1, i as u64),
        _ => (0, 0),
    };
    refusal_in_c(answer, index)
}

// The slot image of a map's table, into an image of 8,192 bytes: the number of slots used.
#[unsafe(no_mangle)]
pub extern "C" fn suovvamet_chip_image(
    table: &[u8],
    flags: u32,
    image: &mut [u8],
    slots: &mut u64,
    index: &mut u64,
) -> u32
    ensures { ChipInC table.now flags image.old result slots.new index.new image.new }
{
    let answer = chip::load(table, form_of(flags), image);
    *slots = answer.unwrap_or(0) as u64;
    refusal_in_c(answer, index)
}

// The checker of a plan. `yes` is set to 1 for yes, else 0.
#[unsafe(no_mangle)]
pub extern "C" fn suovvamet_check_plan(
    installed: &[u8],
    new: &[u8],
    flags: u32,
    steps: &[Step],
    yes: &mut u32,
    index: &mut u64,
) -> u32
    ensures { CheckPlanInC installed.now new.now flags steps.now result yes.new index.new }
{
    let answer = plans::check_plan(installed, new, form_of(flags), steps);
    *yes = answer.unwrap_or(false) as u32;
    refusal_in_c(answer, index)
}

// The planner. `given` is set to 1 for a plan, else 0, and `count` to its steps.
#[unsafe(no_mangle)]
pub extern "C" fn suovvamet_plan(
    installed: &[u8],
    new: &[u8],
    flags: u32,
    steps: &mut [Step],
    given: &mut u32,
    count: &mut u64,
    index: &mut u64,
) -> u32
    ensures { PlanInC installed.now new.now flags steps.old result given.new count.new index.new steps.new }
{
    let answer = planner::plan(installed, new, form_of(flags), steps);
    (*given, *count) = match answer {
        Ok(Some(steps)) => (1, steps as u64),
        _ => (0, 0),
    };
    refusal_in_c(answer, index)
}
