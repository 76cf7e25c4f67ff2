//! The units that a message can be padded to.
ghost use Rattle.std.specs.Prelude.{◌≡◌, ◌<◌, ◌≤◌, ◌⊎◌, MatchResult};
ghost use Rattle.refusal.specs.declared.Refusal.TheVariants.{Unit as UnitOver};
ghost use Rattle.station.specs.Nearness.{rounded};

use crate::rounding::padded_length;
use refusal::Refusal;

/// A unit that a message can be padded to: 1 to 24 octets.
#[derive(Clone, Copy)]
pub struct SmallUnit {
    octets: u16,
    ghost least: { 1 ≤ octets },
    ghost most: { octets ≤ 24 },
}

impl SmallUnit {
    ghost use Rattle.station.specs.Units.{octets_in};

    /// The unit of so many octets; `Unit` for 0 and for more than 24.
    pub fn of(octets: u16) -> Result<SmallUnit, Refusal>
        ensures { MatchResult result (λ u. (1 ≤ octets) × (octets ≤ 24) × (octets_in u ≡ octets)) (λ e. ((octets ≡ 0) ⊎ (24 < octets)) × (e ≡ UnitOver)) }
    {
        if octets == 0 || octets > 24 {
            return Err(Refusal::Unit);
        }
        Ok(SmallUnit { octets })
    }

    /// The length of `count` octets once they are padded.
    pub fn padded_length(self, count: u8) -> usize
        ensures value { result ≡ rounded (octets_in self) count }
        ensures least { count ≤ result }
    {
        padded_length(self.octets, count)
    }
}
