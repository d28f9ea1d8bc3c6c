// Files that a program's arguments name.

ghost use Rattle.std.specs.Prelude.{◌≤◌, length, IfOk, IfSome};

use crate::read_full;
use std::env::FillError;
use std::io::{Cursor, Write};
use std::rt::{Env, Files};
use std::{fs, io, str};

// How many bytes of an error's text are the system's words: those before the number in brackets that std adds.
fn words_length(said: &[u8]) -> usize
    ensures { result ≤ length said.now }
{
    for i in 0..said.len() {
        if said[i] == 0 || said[i..].starts_with(b" (") {
            return i;
        }
    }
    said.len()
}

// Says on standard error that a file cannot be read, and why. It fails only where that write fails.
fn say(rt: &impl Eprint, path: &str, error: io::Error) -> io::Result<()> {
    let mut said = Cursor::new([0u8; 128]);
    let _ = write!(said, "{error}");
    let said = said.into_inner();
    let words = str::from_utf8(&said[..words_length(&said)]).unwrap_or("");
    eprintln!(rt; "{path}: {words}")
}

// Reads the file that an argument names until the buffer is full or the file ends, and says how many bytes stand at the buffer's start. There is
// `None` where no file of this name can be opened, which standard error says; so too of a name that is not UTF-8, since only names that are text are
// opened: `path: not text`. It fails only where a read, or a write of these lines, fails, and the buffer keeps its length.
pub fn read_named<R: Env + Files + Eprint>(
    rt: &R,
    i: usize,
    buf: &mut [u8],
) -> io::Result<Option<usize>>
    ensures { IfOk result (λ found. IfSome found (λ n. n ≤ length buf.new)) }
{
    let mut name = [0u8; 4096];
    let size = match rt.arg(i, &mut name) {
        Ok(size) => size,
        Err(FillError::NotPresent) => {
            eprintln!(rt; "path: Invalid argument")?;
            return Ok(None);
        }
        Err(FillError::TooLong) => {
            eprintln!(rt; "path: File name too long")?;
            return Ok(None);
        }
    };
    let Ok(path) = str::from_utf8(&name[..size]) else {
        eprintln!(rt; "path: not text")?;
        return Ok(None);
    };
    match fs::open(rt, path) {
        Ok(mut file) => Ok(Some(read_full(&mut file, buf)?)),
        Err(error) => {
            say(rt, path, error)?;
            Ok(None)
        }
    }
}
