// Why a call, a text or a line is not answered: the rows of the table of refusals and findings, each with its number.
#![tactic(auto)]

ghost use Rattle.std.specs.Prelude.{◌≡◌};
ghost use Rattle.refusals.specs.Numbers.{number_of, Numbered};
ghost use Rattle.refusals.specs.declared.Trouble.TheVariants.{Refused};

// A row of the table, with its number.
#[derive(Clone, Copy, Debug, PartialEq, Eq)]
pub enum Cause {
    // A set: odd length or not normal.
    NotNormal = 1,

    // A set: over 16 intervals.
    TooMany = 2,

    // A lent slice is shorter than its call needs.
    TooShort = 3,

    // An answer is longer than out.
    NoRoom = 4,

    // A text: over 256 lines, a line over 120 bytes, the last LF missing.
    Misshapen = 5,

    // A line: outside the grammar.
    Ungrammatical = 6,

    // A line: a literal beyond MIN..MAX.
    FarLiteral = 7,

    // A line: `in` after another kind, or a second one for a register.
    Misplaced = 8,

    // Nearest, within: the set is empty.
    EmptySet = 10,

    // Check and run: a divisor may be 0, or is 0.
    ZeroDivisor = 20,

    // Check and run: a hold's register has a value outside.
    HoldBroken = 21,

    // The run: a lent number is outside its `in`.
    OutsideIn = 22,
}

impl From<Cause> for u8 {
    ghost from_gives = { λ cause number. number ≡ number_of cause };

    fn from(cause: Cause) -> u8 {
        cause as u8
    }
}

// A number that no row has.
#[derive(Clone, Copy, Debug, PartialEq, Eq)]
pub struct UnknownNumber(pub u8);

impl TryFrom<u8> for Cause {
    type Error = UnknownNumber;

    ghost try_from_gives = { Numbered };

    fn try_from(number: u8) -> Result<Self, UnknownNumber> {
        match number {
            1 => Ok(Cause::NotNormal),
            2 => Ok(Cause::TooMany),
            3 => Ok(Cause::TooShort),
            4 => Ok(Cause::NoRoom),
            5 => Ok(Cause::Misshapen),
            6 => Ok(Cause::Ungrammatical),
            7 => Ok(Cause::FarLiteral),
            8 => Ok(Cause::Misplaced),
            10 => Ok(Cause::EmptySet),
            20 => Ok(Cause::ZeroDivisor),
            21 => Ok(Cause::HoldBroken),
            22 => Ok(Cause::OutsideIn),
            _ => Err(UnknownNumber(number)),
        }
    }
}

// What ends a call on a text, and at which line: a refusal of its arguments or its text, or what stops a line that is worked. Line 0 is the whole text or the lent slices.
// Kept: a line 0 and no variant without a line, since C reads each line as a number and 0 as the whole.
#[derive(Clone, Copy, Debug, PartialEq, Eq)]
pub enum Trouble {
    Refused(Cause, usize),
    Stopped(Cause, usize),
}

// A refusal of the whole text or of the lent slices.
impl From<Cause> for Trouble {
    ghost from_gives = { λ cause trouble. trouble ≡ Refused cause 0 };

    fn from(cause: Cause) -> Self {
        Trouble::Refused(cause, 0)
    }
}
