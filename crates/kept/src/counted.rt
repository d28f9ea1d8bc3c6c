// Lines that end in a number.

ghost use Rattle.std.specs.Prelude.{◌+◌, ◌≤◌, length};
ghost use Rattle.text.specs.Text.{Put};
ghost use Rattle.kept.specs.Lines.{counted_line};

use text::{put_bytes, put_last};

// The line's words, a number and the line feed.
pub fn put_counted(words: &[u8], n: u64, at: usize, out: &mut [u8]) -> usize
    requires { at + length words.now + 21 ≤ length out.old }
    ensures { Put (counted_line words.now n) at result out.old out.new }
{
    let begin = put_bytes(words, at, out);
    put_last(n, begin, out)
}
