ghost use Rattle.std.specs.Prelude.{◌≡◌, ◌≤◌, length, drop};
ghost use Rattle.lines.specs.HeardOctets.{sign_here};
ghost use Rattle.lines.specs.Recordings.{in_octets};

use crate::byte_line::ByteLine;
use crate::recorded::{END, Recorded};
use radio::medium::Octets;
use radio::symbol::Symbol;
use refusal::Cause;

/// A line over bytes: F0 CC opens a reception, 33 ends it whole, every other byte is a clean symbol.
pub type OctetLine<'a> = ByteLine<'a, Octets>;

/// The two octets of a sign.
const SIGN_FIRST: u8 = 0xF0;

const SIGN_SECOND: u8 = 0xCC;

impl Recorded for Octets {
    ghost recording = { in_octets };

    fn step() -> usize {
        1
    }

    fn count(bytes: &[u8]) -> usize {
        bytes.len()
    }

    fn here(bytes: &[u8], place: usize) -> Result<Option<Symbol>, Cause> {
        match &bytes[place..] {
            [] => Err(Cause::Dry),
            [SIGN_FIRST, SIGN_SECOND, ..] => Err(Cause::Cut),
            [END, ..] => Ok(None),
            [octet, ..] => Ok(Some(Symbol::Clean(*octet))),
        }
    }

    fn behind_sign(bytes: &[u8], place: usize) -> Option<usize> {
        sign_at(bytes, place).then_some(place + 2)
    }
}

/// Whether a sign starts at a place.
fn sign_at(bytes: &[u8], place: usize) -> bool
    requires { place ≤ length bytes.now }
    ensures { result ≡ sign_here (drop place bytes.now) }
{
    matches!(&bytes[place..], [SIGN_FIRST, SIGN_SECOND, ..])
}
