ghost use Rattle.std.specs.Prelude.{◌≡◌, ◌+◌, ◌<◌, ◌≤◌, true, [], ◌++◌, length, MatchResult};
ghost use Rattle.refusal.specs.declared.Refusal.TheVariants.{Long};
ghost use Rattle.message.specs.Message.{Format, lawful};
ghost use Rattle.message.specs.Parts.{items};
ghost use Rattle.message.specs.Held.{header_of, payload_of, message_of, octets_of};

use crate::buffer::Buffer;
use crate::header::Header;
use crate::sealed::Sealed;
use crate::sum::checksum;
use refusal::Refusal;

/// A message that is being written: its header, and the payload so far.
#[derive(Drop)]
pub struct Draft {
    header: Header,
    payload: Buffer<66>,
}

impl Draft {
    pub fn new(header: Header) -> Draft
        ensures header { header_of result ≡ header }
        ensures empty { payload_of result ≡ [] }
    {
        Draft {
            header,
            payload: Buffer::empty(),
        }
    }

    /// Adds all of the octets to the payload, or none of them (`Long`) where it would pass 66.
    pub fn add(&mut self, octets: &[u8]) -> Result<(), Refusal>
        ensures header { header_of self.new ≡ header_of self.old }
        ensures cases { MatchResult result
            (λ _. (length (payload_of self.old) + length octets.now ≤ 66) × (payload_of self.new ≡ payload_of self.old ++ octets.now))
            (λ e. (66 < length (payload_of self.old) + length octets.now) × (e ≡ Long) × (self.new ≡ self.old)) }
    {
        if octets.len() > self.payload.room() {
            return Err(Refusal::Long);
        }
        self.payload.append(octets);
        Ok(())
    }

    /// The message of the header and the payload, with Number and Sum to match; it is lawful, as the format's
    /// theorem says of every message of admissible fields, and there are no other lawful messages.
    pub fn seal(self) -> Sealed
        ensures made { octets_of result ≡ message_of self }
        ensures format { Format }
    {
        Sealed::of(self.octets())
    }

    fn octets(self) -> Buffer<74>
        ensures made { items result ≡ message_of self }
        ensures lawful { lawful (items result) ≡ true }
        ensures format { Format }
    {
        let payload = self.payload.as_slice();
        let head = self.header.head(payload.len());
        let mut octets = Buffer::empty();
        octets.append(head.as_slice());
        octets.append(payload);
        let sum = checksum(octets.as_slice());
        octets.append(&sum.to_be_bytes());
        octets
    }
}
