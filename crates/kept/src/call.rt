// The calls that a case can name.

ghost use Rattle.std.specs.Prelude.{◌≡◌};
ghost use Rattle.kept.specs.Kept.{Calls, call_number, takes_long};

use crate::ending::Fault;

// A call's value is its number in docs/CASES.md.
#[derive(Clone, Copy, Debug, PartialEq, Eq)]
pub enum Call {
    // A rewrite.
    Rewrite = 0,
    // The cover query.
    Covers = 1,
    // A longest match.
    Lookup = 2,
    // How many addresses are held.
    AddressesHeld = 3,
    // A list of what has no route.
    Unrouted = 4,
    // A rewrite by the plain engine.
    Plain = 5,
    // The chip's image.
    Load = 6,
    // The checker of a plan.
    CheckPlan = 7,
    // The planner.
    Plan = 8,
    // Special use.
    SpecialUse = 9,
    // A live map.
    Live = 10,
}

impl TryFrom<u8> for Call {
    type Error = Fault;

    ghost try_from_gives = { Calls };

    fn try_from(number: u8) -> Result<Self, Fault> {
        match number {
            0 => Ok(Call::Rewrite),
            1 => Ok(Call::Covers),
            2 => Ok(Call::Lookup),
            3 => Ok(Call::AddressesHeld),
            4 => Ok(Call::Unrouted),
            5 => Ok(Call::Plain),
            6 => Ok(Call::Load),
            7 => Ok(Call::CheckPlan),
            8 => Ok(Call::Plan),
            9 => Ok(Call::SpecialUse),
            10 => Ok(Call::Live),
            _ => Err(Fault::NoSuchCall),
        }
    }
}

impl Call {
    // Does the call take addresses of 64 bits?
    pub fn takes_long(self) -> bool
        ensures { result ≡ takes_long (call_number self) }
    {
        matches!(
            self,
            Call::Rewrite | Call::Covers | Call::Lookup | Call::Unrouted | Call::Plain
        )
    }
}
