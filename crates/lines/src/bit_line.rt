ghost use Rattle.lines.specs.Recordings.{in_bits};

use crate::byte_line::ByteLine;
use crate::recorded::{Recorded, unless_end};
use crate::window::Window;
use radio::medium::Bits;
use radio::symbol::Symbol;
use refusal::Cause;

/// A line over bits, the lowest bit of each byte first: an octet is a frame of ten bits, a 1, eight bits lowest first
/// and a 0; the frames of F0 and CC open a reception at any bit place, and 33 ends it whole.
pub type BitLine<'a> = ByteLine<'a, Bits>;

#[tactic(auto, using(radio::proofs::LowBits::length_bits))]
impl Recorded for Bits {
    ghost recording = { in_bits };

    fn step() -> usize {
        10
    }

    fn count(bytes: &[u8]) -> usize {
        8 * bytes.len()
    }

    fn here(bytes: &[u8], place: usize) -> Result<Option<Symbol>, Cause> {
        let window = Window::at(bytes, place);
        if window.first_sign().is_some() {
            return Err(Cause::Cut);
        }
        let symbol = window.symbol().ok_or(Cause::Dry)?;
        Ok(unless_end(symbol))
    }

    fn behind_sign(bytes: &[u8], place: usize) -> Option<usize> {
        let first = Window::at(bytes, place).first_sign()?;
        Some(place + first + 20)
    }
}
