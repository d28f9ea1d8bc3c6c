// The lines that tell the answers.

ghost use Rattle.std.specs.Prelude.{◌≡◌, ◌+◌, ◌≤◌, length};
ghost use Rattle.live.specs.Calls.{kept_says};
ghost use Rattle.lookup.specs.Calls.{lookup_says};
ghost use Rattle.text.specs.Text.{Put};
ghost use Rattle.live_cases.specs.Lines.{kept_line, look_line};

use lookup::answers::Match;
use refusals::Refusal;
use text::{put_bytes, put_found, put_refused};

// Of a call that may change the map.
pub fn put_kept(answer: Result<bool, Refusal>, at: usize, out: &mut [u8]) -> usize
    requires { at + 36 ≤ length out.old }
    ensures { Put (kept_line (kept_says answer)) at result out.old out.new × (result ≤ at + 36) }
{
    match answer {
        Ok(true) => put_bytes(b"done\n", at, out),
        Ok(false) => put_bytes(b"absent\n", at, out),
        Err(refusal) => put_refused(refusal, at, out),
    }
}

// Of a lookup.
pub fn put_looked(answer: Result<Option<Match>, Refusal>, at: usize, out: &mut [u8]) -> usize
    requires { at + 36 ≤ length out.old }
    ensures { Put (look_line (lookup_says answer)) at result out.old out.new × (result ≤ at + 36) }
{
    match answer {
        Ok(Some(found)) => put_found(found.hop, found.length, at, out),
        Ok(None) => put_bytes(b"no route\n", at, out),
        Err(refusal) => put_refused(refusal, at, out),
    }
}

// `room touched`, if a word of the room is not as it was before.
pub fn put_touched(before: &[u32], room: &[u32], at: usize, out: &mut [u8]) -> usize
    requires before_len { length before.now ≡ length room.now }
    requires at_in_bounds { at + 13 ≤ length out.old }
    ensures { before.now ≡ room.now → (result ≡ at) × (out.new ≡ out.old) }
{
    if before == room {
        return at;
    }
    put_bytes(b"room touched\n", at, out)
}
