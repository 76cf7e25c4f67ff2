ghost use Rattle.std.specs.Prelude.{◌≡◌, ◌≤◌, max, take};
ghost use Rattle.lines.specs.Recording.{unopened_over};
ghost use Rattle.lines.specs.Recordings.{in_octets};
ghost use Rattle.lines.specs.Meaning.{meaning, meaning_sound};
ghost use Rattle.commands.specs.Units.{on_unit, on_unit_sound};

use lines::octet_line::OctetLine;
use radio::line::Line;
use radio::symbol::Symbol;
use refusal::{Fault, Refusal};

/// An octet line with another unit, to try what a unit does to a read.
#[derive(Drop)]
pub(crate) struct UnitLine<'a> {
    line: OctetLine<'a>,
    unit: u16,
    ghost positive: { 1 ≤ unit },
}

impl<'a> UnitLine<'a> {
    /// A unit is at least 1.
    pub(crate) fn new(bytes: &'a [u8], unit: u16) -> UnitLine<'a>
        ensures { on_unit result.unit (meaning in_octets result.line) ≡ on_unit (max unit 1) (unopened_over in_octets (take 65536 bytes.now)) }
    {
        UnitLine {
            line: OctetLine::new(bytes),
            unit: unit.max(1),
        }
    }
}

impl<'a> Line for UnitLine<'a> {
    ghost heard = { λ s. on_unit s.unit (meaning in_octets s.line) };

    ghost sound = { λ s. on_unit_sound s.unit (meaning in_octets s.line) s.positive (meaning_sound in_octets s.line) };

    fn open(&mut self) -> Result<(), Refusal> {
        self.line.open()
    }

    fn take(&mut self) -> Result<Option<Symbol>, Fault> {
        self.line.take()
    }

    fn unit_of(&self) -> u16 {
        self.unit
    }
}
