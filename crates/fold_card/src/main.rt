// Prints the fold card (words, src/card.rt) to be hung up: in the box of a byte stand its fold as a hex digit and, below, the fold's four bits;
// the high half of the byte goes down, the low half across. Then two lines on its use, and an example that is read from the card.
#![tactic(auto)]

ghost use Rattle.std.specs.Prelude.{◌≡◌, ◌+◌, ◌*◌, ◌≤◌, ◌<◌, length};
ghost use Rattle.words.specs.Bits.{bit};
ghost use Rattle.words.specs.Card.{Card};
ghost use Rattle.text.specs.Text.{Put};
ghost use Rattle.fold_card.specs.Shown.{hex_digit, bit_digit, box_line, boxes, row_text, hex_byte};

use std::io;
use text::put_bytes;
use words::bits::has_bit;
use words::card::fold_card;
use words::ladder::fold_children;

// The line between two rows.
const RULE: [u8; 117] =
    *b"   +------+------+------+------+------+------+------+------+------+------+------+------+------+------+------+------+\n";

// The hex digit of a number below 16.
fn hex_digit(n: u8) -> u8
    requires { n < 16 }
    ensures { result ≡ hex_digit n }
{
    if n < 10 { b'0' + n } else { b'A' - 10 + n }
}

// Bit k of a number as a digit.
fn bit_digit(n: u8, k: u32) -> u8
    requires { k < 32 }
    ensures { result ≡ bit_digit (bit n k) }
{
    if has_bit(u32::from(n), k) { b'1' } else { b'0' }
}

// A line of a fold's box: the upper one with its digit, or the lower one with its bits.
#[tactic(auto, unfolding(crate::specs::Shown::box_line))]
fn box_line(fold: u8, lower: bool) -> [u8; 7]
    requires { fold < 16 }
    ensures { result ≡ box_line lower fold }
{
    if lower {
        [
            b' ',
            bit_digit(fold, 3),
            bit_digit(fold, 2),
            bit_digit(fold, 1),
            bit_digit(fold, 0),
            b' ',
            b'|',
        ]
    } else {
        [b' ', b' ', b' ', hex_digit(fold), b' ', b' ', b'|']
    }
}

// The upper or the lower lines of a row's boxes, from the left, without its high half.
fn put_boxes(card: &[u8], high: usize, lower: bool, at: usize, out: &mut [u8]) -> usize
    requires card { Card card.now }
    requires high_bound { high < 16 }
    requires at_in_bounds { at + 112 ≤ length out.old }
    ensures put { Put (boxes lower card.now high 16) at result out.old out.new }
    ensures value { result ≡ at + 112 }
{
    let mut end = at;
    for low in 0..16 {
        let line = box_line(card[high * 16 + low], lower);
        end = put_bytes(&line, end, out);
    }
    end
}

// A row: its high half and the digits of its boxes, below them their bits.
fn put_row(card: &[u8], high: usize, at: usize, out: &mut [u8]) -> usize
    requires card { Card card.now }
    requires high_bound { high < 16 }
    requires at_in_bounds { at + 234 ≤ length out.old }
    ensures put { Put (row_text card.now high) at result out.old out.new }
    ensures value { result ≡ at + 234 }
{
    let label = [b' ', hex_digit(high as u8), b' ', b'|'];
    let digits = put_bytes(&label, at, out);
    let end = put_boxes(card, high, false, digits, out);
    let bits = put_bytes(b"\n   |", end, out);
    let last = put_boxes(card, high, true, bits, out);
    put_bytes(b"\n", last, out)
}

// A byte in hex behind a space.
fn hex_byte(b: u8) -> [u8; 3]
    ensures { result ≡ hex_byte b }
{
    [b' ', hex_digit(b / 16), hex_digit(b % 16)]
}

// Writes bytes to standard output.
fn print(rt: &impl Print, bytes: &[u8]) -> io::Result<()> {
    rt.write_all(bytes)
}

// Prints a row and the line below it.
fn print_row(rt: &impl Print, card: &[u8], high: usize) -> io::Result<()>
    requires card { Card card.now }
    requires high_bound { high < 16 }
{
    let mut out = [0u8; 234];
    let end = put_row(card, high, 0, &mut out);
    print(rt, &out[..end])?;
    print(rt, &RULE)
}

// Prints all rows.
fn print_rows(rt: &impl Print, card: &[u8]) -> io::Result<()>
    requires { Card card.now }
{
    for high in 0..16 {
        print_row(rt, card, high)?;
    }
    Ok(())
}

// Prints the bytes of a word.
fn print_word(rt: &impl Print, x: u32) -> io::Result<()> {
    for b in x.to_be_bytes() {
        print(rt, &hex_byte(b))?;
    }
    Ok(())
}

// Prints the digit of a byte's fold behind a space.
fn print_fold(rt: &impl Print, card: &[u8], b: u8) -> io::Result<()>
    requires { Card card.now }
{
    print(rt, &[b' ', hex_digit(card[usize::from(b)])])
}

// Prints what the card says of a word of slots, and what fold_children makes of it.
fn print_example(rt: &impl Print, card: &[u8], slots: u32) -> io::Result<()>
    requires { Card card.now }
{
    print(rt, b"Example: the slots")?;
    print_word(rt, slots)?;
    print(rt, b" have the folds")?;
    for b in slots.to_be_bytes() {
        print_fold(rt, card, b)?;
    }
    print(rt, b", which as a word of positions are")?;
    print_word(rt, fold_children(slots))?;
    print(rt, b".\n")
}

// Prints the rule of a fold and the low halves.
fn print_heading(rt: &impl Print) -> io::Result<()> {
    print(
        rt,
        b"The fold of each byte of child slots. Bit k of a fold is set exactly when bits 2k and 2k + 1 of the byte are.\n\n",
    )?;
    print(
        rt,
        b"       0      1      2      3      4      5      6      7      8      9      A      B      C      D      E      F\n",
    )?;
    print(rt, &RULE)
}

// Prints how to fold a word.
fn print_use(rt: &impl Print) -> io::Result<()> {
    print(
        rt,
        b"\nWrite the word of 32 slots in hex, slot 31 first: four bytes. Find the box of each: high half left, low half top.\n",
    )?;
    print(
        rt,
        b"The four digits in that order are level 4: bit j, position 15 + j, is set exactly when slots 2j and 2j + 1 are.\n",
    )
}

fn main(rt: HostRuntime) -> io::Result<()> {
    let card = fold_card();
    print_heading(&rt)?;
    print_rows(&rt, &card)?;
    print_use(&rt)?;
    print_example(&rt, &card, 0xFC03_3CF1)
}
