// A writer that is sent to many times and asked once, at the end, whether all was written.

ghost use Rattle.std.specs.Prelude.{◌≡◌, None, Some, IsSome, MatchResult};
ghost use Rattle.std.specs.Io.KnownBytes.{Appends};

use std::io;
use std::io::Write;

// Once a write has failed its error is kept, and nothing more is written.
#[derive(Drop)]
pub struct Outlet<W: Write + Drop> {
    writer: W,
    failed: Option<io::Error>,
}

impl<W: Write + Drop> Outlet<W> {
    pub fn new(writer: W) -> Outlet<W>
        ensures writer { result.writer ≡ writer }
        ensures failed { result.failed ≡ None }
    {
        Outlet {
            writer,
            failed: None,
        }
    }

    pub fn send(&mut self, bytes: &[u8])
        ensures written { self.new.failed ≡ None → Appends (W.contents self.old.writer) (W.contents self.new.writer) bytes.now }
        ensures kept { IsSome self.old.failed → self.new ≡ self.old }
    {
        if self.failed.is_none() {
            if let Err(error) = self.writer.write_all(bytes) {
                self.failed = Some(error);
            }
        }
    }

    // The first error, if a write has failed.
    pub fn finish(self) -> io::Result<()>
        ensures { MatchResult result (λ _. self.failed ≡ None) (λ error. self.failed ≡ Some error) }
    {
        match self.failed {
            None => Ok(()),
            Some(error) => Err(error),
        }
    }
}
