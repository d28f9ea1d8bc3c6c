// A table's text, read into records in table order, each with the number of its line.
#![tactic(auto)]

ghost use Rattle.tableread.specs.Sorted.{ReadsSorted};

use tableorder::sort_rows;
use tabletext::{ReadError, read_table};

// Reads a text into the rooms, as `read_table` does, and sorts what is read.
pub fn read_sorted(
    text: &[u8],
    hops: bool,
    out: &mut [u8],
    lines: &mut [usize],
) -> Result<usize, ReadError>
    ensures { ReadsSorted hops text.now result out.old lines.old out.new lines.new }
{
    let n = read_table(text, hops, out, lines)?;
    sort_rows(out, lines, n);
    Ok(n)
}
