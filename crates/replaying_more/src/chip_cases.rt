// The cases of call 6, the chip loader: the text of the answer is kept. The image is filled before the call and looked at after it: by the call's
// statement no line about it is ever kept.

ghost use Rattle.std.specs.Prelude.{◌≡◌, true, ◌+◌, ◌*◌, ◌≤◌, length};
ghost use Rattle.text.specs.Text.{Put};
ghost use Rattle.kept.specs.Kept.{begin_of};
ghost use Rattle.replaying_more.specs.ChipKept.{used_of, slots_text, loaded_text, is_as_said, chip_answer, chip_case};

use kept::counted::put_counted;
use kept::{FILLED_BYTE, form_of, join2, keep_unless, room_for};
use records::Form;
use refusals::Refusal;
use std::io::Stdout;
use streams::outlet::Outlet;
use text::{Style, put_records, put_refused};

// The lines of an image's first slots, and how many they are.
fn put_slots(image: &[u8], used: usize, at: usize, out: &mut [u8]) -> usize
    requires used_in_bounds { 8 * used ≤ length image.now }
    requires used_in_bounds_2 { at + 24 * used + 36 ≤ length out.old }
    ensures { Put (slots_text used image.now) at result out.old out.new }
{
    let size = 8 * used;
    let style = Style {
        hex: false,
        hops: true,
    };
    let end = put_records(&image[..size], 8, style, at, out);
    put_counted(b"slots ", used as u64, end, out)
}

// The text of an answer, from the image that it left.
#[tactic(auto, unfolding(crate::specs::ChipKept::loaded_text))]
fn put_loaded(answer: Result<usize, Refusal>, image: &[u8], at: usize, out: &mut [u8]) -> usize
    requires answer_in_bounds { 8 * used_of answer ≤ length image.now }
    requires answer_in_bounds_2 { at + 24 * used_of answer + 36 ≤ length out.old }
    ensures { Put (loaded_text answer image.now) at result out.old out.new }
{
    match answer {
        Ok(used) => put_slots(image, used, at, out),
        Err(refusal) => put_refused(refusal, at, out),
    }
}

// Keeps `slots not clear`, if after an answer a byte of an unused slot is not 255, and `image touched`, if after a refusal a byte is not as it was filled.
fn keep_image(
    outlet: &mut Outlet<Stdout>,
    answer: Result<usize, Refusal>,
    image: &[u8],
    at: usize,
    kept: &mut [u8],
) -> usize
    requires answer_bound { used_of answer ≤ 1024 }
    requires at_in_bounds { at ≤ length kept.old }
    requires in_bounds { 262144 ≤ length kept.old }
    ensures { is_as_said answer image.now ≡ true → (result ≡ at) × (kept.new ≡ kept.old) }
{
    match answer {
        Ok(used) => { keep_unless(outlet, image, 8 * used, 255, b"slots not clear\n", at, kept) }
        Err(_) => keep_unless(outlet, image, 0, FILLED_BYTE, b"image touched\n", at, kept),
    }
}

// Keeps the answer of the chip loader.
fn keep_chip(
    outlet: &mut Outlet<Stdout>,
    table: &[u8],
    form: Form,
    image: &mut [u8],
    at: usize,
    kept: &mut [u8],
) -> usize
    requires at_in_bounds { at ≤ length kept.old }
    requires in_bounds { 262144 ≤ length kept.old }
    ensures { Put (chip_answer form table.now (length image.old)) (begin_of at) result kept.old kept.new }
{
    image.fill(FILLED_BYTE);
    let answer = chip::load(table, form, image);
    let begin = room_for(outlet, kept, at);
    let end = put_loaded(answer, image, begin, kept);
    keep_image(outlet, answer, image, end, kept)
}

// Keeps the answer of a case with call 6, which is lent as much of the output as it says as its image.
pub fn chip_turn(
    outlet: &mut Outlet<Stdout>,
    head: &[u8; 16],
    table: &[u8],
    output: &mut [u8],
    at: usize,
    kept: &mut [u8],
) -> usize
    requires value { 65535 ≡ length output.old }
    requires at_in_bounds { at ≤ length kept.old }
    requires in_bounds { 262144 ≤ length kept.old }
    ensures { Put (chip_case head.now table.now) (begin_of at) result kept.old kept.new }
{
    let size = join2(head[12], head[13]);
    keep_chip(
        outlet,
        table,
        form_of(head[0]),
        &mut output[..size],
        at,
        kept,
    )
}
