ghost use Rattle.std.specs.Prelude.{◌≡◌};
ghost use Rattle.coding.specs.Block.{sum_of, less, four_of};
ghost use Rattle.coding.specs.BlockLaws.{block};

use crate::Coding;
use radio::symbol::Symbol;
use radio::symbol::Symbol::{Clean, Spoiled};

/// The sum of three octets, modulo 256.
fn sum(a: u8, b: u8, c: u8) -> u8
    ensures { result ≡ sum_of a b c }
{
    a.wrapping_add(b).wrapping_add(c)
}

/// A sum less two of its octets, modulo 256.
fn rest(d: u8, a: u8, b: u8) -> u8
    ensures is { result ≡ less d a b }
    ensures adds { sum_of result a b ≡ d }
{
    d.wrapping_sub(a).wrapping_sub(b)
}

/// What three octets and their sum give, one of the octets worked out where it alone is spoiled.
fn four(a: Symbol, b: Symbol, c: Symbol, d: Symbol) -> [Symbol; 3]
    ensures { result ≡ four_of a b c d }
{
    match (a, b, c, d) {
        (Clean(x), Clean(y), Clean(z), Clean(s)) => {
            if sum(x, y, z) == s {
                [a, b, c]
            } else {
                [Spoiled; 3]
            }
        }
        (Spoiled, Clean(y), Clean(z), Clean(s)) => [Clean(rest(s, y, z)), b, c],
        (Clean(x), Spoiled, Clean(z), Clean(s)) => [a, Clean(rest(s, x, z)), c],
        (Clean(x), Clean(y), Spoiled, Clean(s)) => [a, b, Clean(rest(s, x, y))],
        _ => [a, b, c],
    }
}

/// Three octets, followed by their sum.
#[derive(Clone, Copy)]
pub struct Block {}

impl Coding for Block {
    ghost grouping = { block };

    fn plain(&self) -> usize {
        3
    }

    fn coded(&self) -> usize {
        4
    }

    fn encode(&self, group: &[u8; 8]) -> [u8; 8] {
        let [a, b, c, ..] = *group;
        [a, b, c, sum(a, b, c), 0, 0, 0, 0]
    }

    fn decode(&self, group: &[Symbol; 8]) -> [Symbol; 8] {
        let [a, b, c] = four(group[0], group[1], group[2], group[3]);
        [a, b, c, Spoiled, Spoiled, Spoiled, Spoiled, Spoiled]
    }
}

#[cfg(test)]
mod tests {
    use super::*;

    #[test]
    fn appends_the_sum(rt: HostRuntime) {
        let [a, b, c, d, ..] = Block {}.encode(&[0x7F, 0x00, 0x95, 1, 2, 3, 4, 5]);
        assert_eq!(rt; (a, b, c, d), (0x7F, 0x00, 0x95, 0x14));
    }

    #[test]
    fn works_out_one(rt: HostRuntime) {
        let [_, b, _] = four(Clean(0x7F), Spoiled, Clean(0x95), Clean(0x14));
        assert_eq!(rt; b, Clean(0x00));
    }

    #[test]
    fn spoils_a_wrong_sum(rt: HostRuntime) {
        let [a, b, c] = four(Clean(0x7F), Clean(0x00), Clean(0x95), Clean(0x15));
        assert_eq!(rt; (a, b, c), (Spoiled, Spoiled, Spoiled));
    }
}
