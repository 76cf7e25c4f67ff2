ghost use Rattle.std.specs.Prelude.{◌≡◌, ◌<◌, IfSome, slice_index};
ghost use Rattle.coding.specs.Manchester.{code_table, nibble_of, pair_of};
ghost use Rattle.coding.specs.ManchesterLaws.{manchester};

use crate::Coding;
use radio::symbol::Symbol;
use radio::symbol::Symbol::{Clean, Spoiled};

/// The code octets of the four-bit values 0 to 15.
const CODES: [u8; 16] = [
    0x55, 0x56, 0x59, 0x5A, 0x65, 0x66, 0x69, 0x6A, 0x95, 0x96, 0x99, 0x9A, 0xA5, 0xA6, 0xA9, 0xAA,
];

/// The code octet of a four-bit value.
fn code(value: u8) -> u8
    requires { value < 16 }
    ensures { result ≡ slice_index code_table value }
{
    CODES[usize::from(value)]
}

/// The four bits that a symbol stands for, if it is a clean code octet.
fn nibble(s: Symbol) -> Option<u8>
    ensures is { result ≡ nibble_of s }
    ensures small { IfSome result (λ v. v < 16) }
{
    let Clean(c) = s else {
        return None;
    };
    CODES.iter().position(|x| *x == c).map(|place| place as u8)
}

/// The octet that two symbols stand for.
fn pair(s: Symbol, t: Symbol) -> Symbol
    ensures { result ≡ pair_of s t }
{
    match (nibble(s), nibble(t)) {
        (Some(a), Some(b)) => Clean(16 * a + b),
        _ => Spoiled,
    }
}

/// An octet as two code octets, for its upper and its lower four bits.
#[derive(Clone, Copy)]
pub struct Manchester {}

impl Coding for Manchester {
    ghost grouping = { manchester };

    fn plain(&self) -> usize {
        1
    }

    fn coded(&self) -> usize {
        2
    }

    fn encode(&self, group: &[u8; 8]) -> [u8; 8] {
        let [octet, ..] = *group;
        [code(octet / 16), code(octet % 16), 0, 0, 0, 0, 0, 0]
    }

    fn decode(&self, group: &[Symbol; 8]) -> [Symbol; 8] {
        [pair(group[0], group[1]); 8]
    }
}

#[cfg(test)]
mod tests {
    use super::*;

    fn pair_of(octet: u8) -> (u8, u8) {
        let [a, b, ..] = Manchester {}.encode(&[octet, 1, 2, 3, 4, 5, 6, 7]);
        (a, b)
    }

    #[test]
    fn codes_octets(rt: HostRuntime) {
        assert_eq!(rt; pair_of(0x7F), (0x6A, 0xAA));
        assert_eq!(rt; pair_of(0x00), (0x55, 0x55));
        assert_eq!(rt; pair_of(0x95), (0x96, 0x66));
        assert_eq!(rt; pair_of(0x14), (0x56, 0x65));
    }

    #[test]
    fn reads_pairs(rt: HostRuntime) {
        assert_eq!(rt; pair(Clean(0x96), Clean(0x66)), Clean(0x95));
        assert_eq!(rt; pair(Clean(0x96), Clean(0x67)), Spoiled);
        assert_eq!(rt; pair(Spoiled, Clean(0x66)), Spoiled);
    }
}
