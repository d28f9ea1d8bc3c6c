// The text form of a table, read: lines of a prefix and a hop, in a set of a prefix alone, into records and the numbers of their lines. What a text says is
// defined in specs/; host bits are kept as they are written, and lines are taken in any order.
#![tactic(auto)]

pub mod lines;
pub mod pieces;

ghost use Rattle.std.specs.Prelude.{◌≡◌, ◌≤◌, length};
ghost use Rattle.tabletext.specs.Lines.{said};
ghost use Rattle.tabletext.specs.Reading.{lines_in, marked, unmarked, read_lines, Written, Reads, stored, stored_bytes, stored_numbers};

use lines::said;
use records::write_record;

// What is wrong with a line.
#[derive(Clone, Copy, Debug, PartialEq, Eq)]
pub enum Reason {
    // The first word is no prefix.
    NotPrefix,
    // There is a colon, as in addresses of IPv6.
    Colon,
    // A map's line without a hop.
    NoHop,
    // A set's line with more than a prefix.
    HopInSet,
    // The second word is no number up to 63.
    NotHop,
    // More than two words.
    MoreWords,
    // A carriage return that does not end the line.
    StrayReturn,
    // The record of this line would be number 1,025.
    TooMany,
}

// What a line says, if it says something.
#[derive(Clone, Copy, Debug, PartialEq, Eq)]
pub struct Record {
    pub addr: u32,
    pub len: u8,
    pub hop: u8,
}

// Why a text is not read.
#[derive(Clone, Copy, Debug, PartialEq, Eq)]
pub enum ReadError {
    // The first wrong line, by its number, and what is wrong with it.
    WrongLine(usize, Reason),
    // The rooms are too short.
    NoRoom,
}

// Reads line k, behind n records, and says how many there are then.
#[tactic(auto, unfolding(crate::specs::Reading::stored, crate::specs::Reading::stored_bytes, crate::specs::Reading::stored_numbers))]
fn read_line(
    line: &[u8],
    k: usize,
    hops: bool,
    n: usize,
    out: &mut [u8],
    lines: &mut [usize],
) -> Result<usize, Reason>
    requires { (8192 ≤ length out.old) × (1024 ≤ length lines.old) }
    ensures value { result ≡ stored n (said hops line.now) }
    ensures out_after { out.new ≡ stored_bytes n (said hops line.now) out.old }
    ensures lines_after { lines.new ≡ stored_numbers n k (said hops line.now) lines.old }
{
    let Some(record) = said(line, hops)? else {
        return Ok(n);
    };
    if 1024 <= n {
        return Err(Reason::TooMany);
    }
    write_record(out, n, record.addr, record.len, record.hop);
    lines[n] = k;
    Ok(n + 1)
}

// A text without its byte order mark.
#[tactic(auto, unfolding(crate::specs::Reading::unmarked, crate::specs::Reading::marked))]
fn unmarked(text: &[u8]) -> &[u8]
    ensures { result.now ≡ unmarked text.now }
{
    match text {
        [0xEF, 0xBB, 0xBF, rest @ ..] => rest,
        _ => text,
    }
}

// Reads the lines of a text into rooms that are long enough.
fn read_lines(
    text: &[u8],
    hops: bool,
    out: &mut [u8],
    lines: &mut [usize],
) -> Result<usize, ReadError>
    requires { (8192 ≤ length out.old) × (1024 ≤ length lines.old) }
    ensures { Written (read_lines hops 0 1 (lines_in text.now)) result out.old lines.old out.new lines.new }
{
    let mut n = 0;
    for (i, line) in text.split(|b| *b == b'\n').enumerate() {
        match read_line(line, i + 1, hops, n, out, lines) {
            Ok(m) => n = m,
            Err(why) => return Err(ReadError::WrongLine(i + 1, why)),
        }
    }
    Ok(n)
}

// Reads a text into the rooms, which are to have 1,024 records, 8 bytes each, and the numbers of their lines. Says how many records there are.
pub fn read_table(
    text: &[u8],
    hops: bool,
    out: &mut [u8],
    lines: &mut [usize],
) -> Result<usize, ReadError>
    ensures { Reads hops text.now result out.old lines.old out.new lines.new }
{
    if out.len() < 8192 || lines.len() < 1024 {
        return Err(ReadError::NoRoom);
    }
    read_lines(unmarked(text), hops, out, lines)
}
