ghost use Rattle.std.specs.Prelude.{◌≡◌, ◌+◌, ◌-◌, ◌<◌, ◌≤◌, true, length, take, sum, slice_set};
ghost use Rattle.message.specs.Message.{at, word, kind, head_length, source, destination, sum_field, all_octets};
ghost use Rattle.station.specs.Judging.{filled, missing_octet, sum_checked};

use arrayvec::ArrayVec;
use message::sum::checksum;
use radio::symbol::Symbol;
use refusal::Refusal;
use std::marker::Model;

/// The octets of a message as its Number counts them: 6 to 74.
#[derive(Drop)]
pub(crate) struct Counted {
    octets: ArrayVec<u8, 74>,
}

impl Model for Counted {
    ghost use Rattle.std.specs.Prelude.{ℕ, ◌≤◌, List, length};

    ghost Value = { List ℕ };

    ghost view = { λ c. c.octets.items };

    ghost invariant = { λ c. 6 ≤ length c.octets.items };
}

impl Counted {
    /// The values of the symbols, 00 for a spoiled one.
    pub(crate) fn filled(symbols: &[Symbol]) -> Counted
        requires { (6 ≤ length symbols.now) × (length symbols.now ≤ 74) }
        ensures { result ≡ filled 0 symbols.now }
    {
        let mut octets = ArrayVec::new();
        // `collect` answers that there may be no room, and a read has no refusal for that
        for symbol in symbols {
            octets.push(match symbol {
                Symbol::Clean(value) => *value,
                Symbol::Spoiled => 0,
            });
        }
        Counted { octets }
    }

    pub(crate) fn as_slice(&self) -> &[u8]
        ensures value { result.now ≡ self.now }
        ensures least { 6 ≤ length result.now }
        ensures most { length result.now ≤ 74 }
    {
        self.octets.as_slice()
    }

    pub(crate) fn kind(&self) -> u8
        ensures { result ≡ kind self.now }
    {
        self.octets[1]
    }

    pub(crate) fn head_length(&self) -> usize
        ensures { result ≡ head_length (kind self.now) }
    {
        if self.kind() == 3 { 6 } else { 4 }
    }

    pub(crate) fn destination(&self) -> Option<u16>
        ensures { result ≡ destination self.now }
    {
        (self.kind() == 3).then_some(word(self.as_slice(), 2))
    }

    pub(crate) fn source(&self) -> u16
        ensures { result ≡ source self.now }
    {
        word(self.as_slice(), self.head_length() - 2)
    }

    /// What stands in Sum.
    fn stated(&self) -> u16
        ensures { result ≡ sum_field self.now }
    {
        let octets = self.as_slice();
        word(octets, octets.len() - 2)
    }

    /// The sum of the octets in front of Sum, of which there are too few to pass 65,535.
    fn total(&self) -> u16
        ensures sum { result ≡ sum (take (length self.now - 2) self.now) }
        ensures octets { all_octets self.now ≡ true }
    {
        let octets = self.as_slice();
        checksum(&octets[..octets.len() - 2])
    }

    /// The value that the octet at `place`, which counts as 00, must have had.
    fn missing(&self, place: usize) -> u16
        ensures { result ≡ missing_octet place self.now }
    {
        let front = self.octets.len() - 2;
        let total = self.total();
        if place < front {
            self.stated().saturating_sub(total)
        } else if place == front {
            total / 256
        } else {
            total % 256
        }
    }

    /// Works out the octet at `place`, which counts as 00 so far, from Sum, or from the others if it lies in Sum;
    /// `Sum` where no octet value fits.
    #[tactic(auto, using(crate::proofs::Sums::no_octet_fits))]
    pub(crate) fn mend(mut self, place: usize) -> Result<Counted, Refusal>
        requires { place < length self }
        ensures { result ≡ sum_checked (slice_set self place (missing_octet place self)) }
    {
        let octet = u8::try_from(self.missing(place)).map_err(|_| Refusal::Sum)?;
        self.octets[place] = octet;
        self.check_sum()
    }

    /// The same octets, if Sum is the sum of those in front of it.
    pub(crate) fn check_sum(self) -> Result<Counted, Refusal>
        ensures { result ≡ sum_checked self }
    {
        if self.stated() == self.total() {
            Ok(self)
        } else {
            Err(Refusal::Sum)
        }
    }
}

/// The octet at `place` and the one behind it, as a number.
fn word(octets: &[u8], place: usize) -> u16
    requires { place + 1 < length octets.now }
    ensures { result ≡ word (at octets.now place) (at octets.now (place + 1)) }
{
    u16::from_be_bytes([octets[place], octets[place + 1]])
}
