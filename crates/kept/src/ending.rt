// How a run ends (docs/CASES.md).

ghost use Rattle.std.specs.Prelude.{◌≡◌, ◌≤◌, length, IfOk};
ghost use Rattle.std.specs.Io.KnownBytes.{Consumes};
ghost use Rattle.kept.specs.declared.ending.Ending.TheVariants.{At, Failed};

use std::io;
use std::io::Read;
use streams::read_full;

// What is wrong with a case: it is not answered, and the run ends with a line that says so.
#[derive(Clone, Copy, Debug, PartialEq, Eq)]
pub enum Fault {
    // Fewer bytes are left than the case says.
    CutShort,
    // There are more commands than the room for a table holds.
    TooManyCommands,
    // There are more steps than the room for steps holds.
    TooManySteps,
    // There is no such call, or it does not take addresses of 64 bits.
    NoSuchCall,
    // A list asks for more output than there is.
    OutputTooLarge,
    // More words of work room are asked for than there are.
    WorkRoomTooLarge,
}

impl Fault {
    // The line that says so.
    pub fn line(self) -> &'static [u8]
        ensures { length result.now ≤ 20 }
    {
        match self {
            Fault::CutShort => b"case cut short\n",
            Fault::TooManyCommands => b"too many commands\n",
            Fault::TooManySteps => b"too many steps\n",
            Fault::NoSuchCall => b"no such call\n",
            Fault::OutputTooLarge => b"output too large\n",
            Fault::WorkRoomTooLarge => b"work room too large\n",
        }
    }
}

// Why a run ends.
#[derive(Clone, Copy)]
pub enum Ending {
    // The input ends behind a whole case.
    Done,
    // A case is not answered.
    At(Fault),
    // A read failed.
    Failed(io::Error),
}

impl From<Fault> for Ending {
    ghost from_gives = { λ fault ending. ending ≡ At fault };

    fn from(fault: Fault) -> Ending {
        Ending::At(fault)
    }
}

impl From<io::Error> for Ending {
    ghost from_gives = { λ error ending. ending ≡ Failed error };

    fn from(error: io::Error) -> Ending {
        Ending::Failed(error)
    }
}

// Reads until the buffer is full: it has what stood next in the input. Where the input ends before that, the case is cut short.
pub fn read_whole<R: Read>(input: &mut R, buf: &mut [u8]) -> Result<(), Ending>
    ensures { IfOk result (λ u. Consumes (R.remaining input.old) (R.remaining input.new) buf.new) }
{
    if read_full(input, buf)? < buf.len() {
        return Err(Ending::At(Fault::CutShort));
    }
    Ok(())
}
