ghost use Rattle.std.specs.Prelude.{◌≡◌, ◌<◌, ◌≤◌, ◌⊎◌, length, MatchResult};
ghost use Rattle.refusal.specs.declared.Refusal.TheVariants.{Argument};
ghost use Rattle.station.specs.Filtering.{own_address, filters_of, off, with_strength, with_identity, with_mute};
ghost use Rattle.station.specs.Judging.{reading, told, buffer_left, line_left};

use crate::filters::{Facts, Filters};
use crate::receive::receive;
use crate::small_unit::SmallUnit;
use radio::line::Line;
use refusal::Refusal;

/// A station: its own address, and the filters that its reads go through.
#[derive(Clone, Copy)]
pub struct Station {
    own: u16,
    filters: Filters,
}

impl Station {
    /// A station with all filters off; `Argument` for the address 0000, which is none, and FFFF, which is everybody's.
    pub fn new(own: u16) -> Result<Station, Refusal>
        ensures { MatchResult result (λ s. (1 ≤ own) × (own ≤ 0xfffe) × (own_address s ≡ own) × (filters_of s ≡ off)) (λ e. ((own ≡ 0) ⊎ (own ≡ 0xffff)) × (e ≡ Argument)) }
    {
        if own == 0 || own == 0xffff {
            return Err(Refusal::Argument);
        }
        Ok(Station {
            own,
            filters: Filters::default(),
        })
    }

    /// Sets the strength filter: off, or on with the least strength that passes.
    pub fn set_strength(&mut self, limit: Option<u8>)
        ensures own { own_address self.new ≡ own_address self.old }
        ensures filters { filters_of self.new ≡ with_strength limit (filters_of self.old) }
    {
        self.filters.strength = limit;
    }

    /// Sets the identity filter.
    pub fn set_identity(&mut self, on: bool)
        ensures own { own_address self.new ≡ own_address self.old }
        ensures filters { filters_of self.new ≡ with_identity on (filters_of self.old) }
    {
        self.filters.identity = on;
    }

    /// Mutes one of the types 0 to 3, or unmutes it; `Argument`, and nothing changed, for another type.
    // a number and no enum of the four types: every number may be asked for, and is answered
    pub fn mute(&mut self, kind: u8, on: bool) -> Result<(), Refusal>
        ensures { MatchResult result (λ _. (kind ≤ 3) × (own_address self.new ≡ own_address self.old) × (filters_of self.new ≡ with_mute kind on (filters_of self.old))) (λ e. (3 < kind) × (e ≡ Argument) × (self.new ≡ self.old)) }
    {
        // a test of the number, since no proof closed over what `get_mut` lends
        if kind > 3 {
            return Err(Refusal::Argument);
        }
        self.filters.muted[usize::from(kind)] = on;
        Ok(())
    }

    /// Opens one reception of the line and answers what is told of the message in it, with its payload at the start
    /// of `buffer`; or the first refusal, with the buffer as it was.
    #[tactic(auto, using(crate::proofs::ReadSteps::unit_wide, crate::proofs::ReadSteps::unit_some))]
    pub fn read<L: Line>(
        &self,
        line: &mut L,
        strength: u8,
        buffer: &mut [u8],
    ) -> Result<Facts, Refusal>
        ensures answers { result ≡ told strength (reading (own_address self.now) (filters_of self.now) strength (length buffer.old) (L.Line.heard line.old)) }
        ensures buffer { buffer.new ≡ buffer_left (reading (own_address self.now) (filters_of self.now) strength (length buffer.old) (L.Line.heard line.old)) buffer.old }
        ensures left { L.Line.heard line.new ≡ line_left (length buffer.old) (L.Line.heard line.old) }
    {
        if buffer.len() < 66 {
            return Err(Refusal::Short);
        }
        let octets = line.unit_of();
        let unit = SmallUnit::of(octets)?;
        line.open()?;
        let message = receive(line, unit)?;
        let facts = message.facts(strength);
        self.filters.pass(self.own, &facts)?;
        message.hand_up(buffer);
        Ok(facts)
    }
}
