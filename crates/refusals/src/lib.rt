// Why a call refuses, by the documents' numbers, and which record or step is at fault. Which refusal is the first is said in specs/, its laws in proofs/.
#![tactic(auto)]

ghost use Rattle.std.specs.Prelude.{◌≡◌};
ghost use Rattle.refusals.specs.declared.Refusal.{Refusal};
ghost use Rattle.refusals.specs.Numbers.{number_of, in_new_of};

// Why a call refuses: the cause's value is its number in the documents.
#[derive(Clone, Copy, Debug, PartialEq, Eq)]
pub enum Cause {
    // The mode is none.
    Mode = 1,
    // The default of fill is no hop.
    Default = 2,
    // The table's length is no multiple of a record's.
    TableLength = 3,
    // The table has more than 1,024 records.
    RecordCount = 4,
    // A prefix is longer than an address.
    PrefixLength = 5,
    // An address has host bits.
    HostBits = 6,
    // A hop is none, or a byte behind it is not zero.
    Tail = 7,
    // A record does not stand behind the one before it.
    Order = 8,
    // The prefix asked for is longer than an address.
    QueryLength = 9,
    // The work room is too short.
    WorkRoom = 10,
    // The output is too short.
    OutputRoom = 11,
    // The image has another length.
    ImageLength = 12,
    // A step is none.
    Step = 13,
    // There is no such edition.
    Edition = 14,
    // The ranks are no ranking.
    Ranks = 15,
    // The mode is retired.
    RetiredMode = 16,
    // The live map is full.
    MapFull = 17,
    // The room holds no live map.
    NoMap = 18,
    // The faults 3 to 8 of the new one of two tables.
    NewTableLength = 23,
    NewRecordCount = 24,
    NewPrefixLength = 25,
    NewHostBits = 26,
    NewTail = 27,
    NewOrder = 28,
}

impl Cause {
    // The cause's number in the documents.
    pub fn number(self) -> u8
        ensures { result ≡ number_of self }
    {
        self as u8
    }

    // The same fault in the new one of two tables.
    pub fn in_new(self) -> Cause
        ensures { result ≡ in_new_of self }
    {
        match self {
            Cause::TableLength => Cause::NewTableLength,
            Cause::RecordCount => Cause::NewRecordCount,
            Cause::PrefixLength => Cause::NewPrefixLength,
            Cause::HostBits => Cause::NewHostBits,
            Cause::Tail => Cause::NewTail,
            Cause::Order => Cause::NewOrder,
            other => other,
        }
    }

    // The refusal for this cause at a record or step.
    pub fn at(self, index: usize) -> Refusal
        ensures { result ≡ (record { cause = self; index = index }) }
    {
        Refusal { cause: self, index }
    }
}

// A refusal: its cause, and the record or step at fault, 0 where none is.
#[derive(Clone, Copy, Debug, PartialEq, Eq)]
pub struct Refusal {
    pub cause: Cause,
    pub index: usize,
}

// A refusal where no record or step is at fault.
impl From<Cause> for Refusal {
    ghost from_gives = { λ cause refusal. refusal ≡ (record { cause = cause; index = 0 }) };

    fn from(cause: Cause) -> Refusal {
        cause.at(0)
    }
}
