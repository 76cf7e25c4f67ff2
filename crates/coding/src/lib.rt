//! Codings of octet groups: what a layer makes of the octets above and of the symbols below.
#![tactic(auto)]

ghost use Rattle.std.specs.Prelude.{◌≡◌, ℕ, ◌*◌, min, take};
ghost use Rattle.coding.specs.Grouping.{Grouping};

use radio::symbol::Symbol;

pub mod block;
pub mod group;
pub mod laws;
pub mod manchester;

/// A coding of octets, group by group.
// A group is an array of 8 with `plain` or `coded` beside it, so that callers may hand over any 8: a slice would ask
// them for a length, and sizes as const parameters would go through every type that holds a coding.
pub trait Coding {
    ghost grouping: { Grouping };

    /// How many octets a group has above.
    fn plain(&self) -> usize
        ensures { result ≡ grouping.plain };

    /// How many octets a group has below.
    fn coded(&self) -> usize
        ensures { result ≡ grouping.coded };

    /// Codes the group at the start of `group`: the octets below stand at the start of the answer.
    fn encode(&self, group: &[u8; 8]) -> [u8; 8]
        ensures { take grouping.coded result ≡ grouping.code (take grouping.plain group.now) };

    /// Reads the group at the start of `group`: the symbols above stand at the start of the answer.
    fn decode(&self, group: &[Symbol; 8]) -> [Symbol; 8]
        ensures { take grouping.plain result ≡ grouping.read (take grouping.coded group.now) };

    /// The unit over a unit; at either, 65,535 stands for every larger one.
    #[tactic(auto, using(crate::proofs::Units::unit_above))]
    fn unit_over(&self, unit: u16) -> u16
        ensures { (u : ℕ) → unit ≡ min u 65535 → result ≡ min (grouping.plain * u) 65535 }
    {
        unit.saturating_mul(self.plain() as u16)
    }
}
