//! The closed list of refusals: every way in which a call of the library says no.
#![tactic(auto)]

ghost use Rattle.std.specs.Prelude.{◌≡◌, Some};
ghost use Rattle.refusal.specs.Names.{title, cause_number, cause_name, refusal_text};
ghost use Rattle.refusal.specs.declared.Refusal.TheVariants.{Fault as Faulty};

use std::fmt;

/// Why a reception ended without its whole end.
#[derive(Clone, Copy, PartialEq, Eq, Debug)]
pub enum Cause {
    /// What was heard ran out.
    Dry = 4,
    /// The sign of the next reception came first.
    Cut = 5,
    /// The reception ended whole, but inside a group of a layer.
    Torn = 6,
}

impl Cause {
    pub fn number(self) -> u8
        ensures { result ≡ cause_number self }
    {
        self as u8
    }

    pub fn name(self) -> &'static str
        ensures { result.now ≡ cause_name self }
    {
        match self {
            Cause::Dry => "DRY",
            Cause::Cut => "CUT",
            Cause::Torn => "TORN",
        }
    }
}

/// A fault of a reception: its cause, how many symbols its maker had given in the reception (65,535 where
/// there were more), and how many layers it came up through (255 where there were more).
#[derive(Clone, Copy, PartialEq, Eq, Debug)]
pub struct Fault {
    pub cause: Cause,
    pub place: u16,
    pub rise: u8,
}

// A derived text or conversion has no contract, so the texts and the conversion below are written out.

/// `4 DRY place 3 rise 2`
impl fmt::Display for Fault {
    ghost output = { λ f. Some (refusal_text (Faulty f)) };

    fn fmt<W: fmt::Write>(&self, f: &mut fmt::Formatter<W>) -> fmt::Result {
        let number = self.cause.number();
        let name = self.cause.name();
        let place = self.place;
        let rise = self.rise;
        write!(f, "{number} {name} place {place} rise {rise}")
    }
}

/// Why a call was refused.
#[derive(Clone, Copy, PartialEq, Eq, Debug)]
pub enum Refusal {
    Short,
    Unit,
    Quiet,
    Fault(Fault),
    Extent,
    Spoiled,
    Count,
    Pad,
    Sum,
    Type,
    Range,
    Address,
    Weak,
    Other,
    Muted,
    Argument,
    Long,
    Turn,
    Uneven,
    Space,
    Layout,
    Kind,
    Value,
}

impl Refusal {
    // `as` takes no enum with a fault in it, so the numbers stand here.
    pub fn number(self) -> u8
        ensures { result ≡ (title self).number }
    {
        match self {
            Refusal::Short => 1,
            Refusal::Unit => 2,
            Refusal::Quiet => 3,
            Refusal::Fault(f) => f.cause.number(),
            Refusal::Extent => 7,
            Refusal::Spoiled => 8,
            Refusal::Count => 9,
            Refusal::Pad => 10,
            Refusal::Sum => 11,
            Refusal::Type => 12,
            Refusal::Range => 13,
            Refusal::Address => 14,
            Refusal::Weak => 15,
            Refusal::Other => 16,
            Refusal::Muted => 17,
            Refusal::Argument => 18,
            Refusal::Long => 19,
            Refusal::Turn => 20,
            Refusal::Uneven => 21,
            Refusal::Space => 22,
            Refusal::Layout => 23,
            Refusal::Kind => 24,
            Refusal::Value => 25,
        }
    }

    pub fn name(self) -> &'static str
        ensures { result.now ≡ (title self).name }
    {
        match self {
            Refusal::Short => "SHORT",
            Refusal::Unit => "UNIT",
            Refusal::Quiet => "QUIET",
            Refusal::Fault(f) => f.cause.name(),
            Refusal::Extent => "EXTENT",
            Refusal::Spoiled => "SPOILED",
            Refusal::Count => "COUNT",
            Refusal::Pad => "PAD",
            Refusal::Sum => "SUM",
            Refusal::Type => "TYPE",
            Refusal::Range => "RANGE",
            Refusal::Address => "ADDRESS",
            Refusal::Weak => "WEAK",
            Refusal::Other => "OTHER",
            Refusal::Muted => "MUTED",
            Refusal::Argument => "ARGUMENT",
            Refusal::Long => "LONG",
            Refusal::Turn => "TURN",
            Refusal::Uneven => "UNEVEN",
            Refusal::Space => "SPACE",
            Refusal::Layout => "LAYOUT",
            Refusal::Kind => "KIND",
            Refusal::Value => "VALUE",
        }
    }
}

/// A fault enters a refusal by `?`.
impl From<Fault> for Refusal {
    ghost from_gives = { λ f r. r ≡ Faulty f };

    fn from(fault: Fault) -> Refusal {
        Refusal::Fault(fault)
    }
}

/// `18 ARGUMENT`, and a fault as `4 DRY place 3 rise 2`
impl fmt::Display for Refusal {
    ghost output = { λ r. Some (refusal_text r) };

    fn fmt<W: fmt::Write>(&self, f: &mut fmt::Formatter<W>) -> fmt::Result {
        if let Refusal::Fault(heard) = self {
            return write!(f, "{heard}");
        }
        let number = self.number();
        let name = self.name();
        write!(f, "{number} {name}")
    }
}
