ghost use Rattle.std.specs.Prelude.{◌≡◌, true, length};
ghost use Rattle.message.specs.Message.{Lawful, lawful};
ghost use Rattle.message.specs.Parts.{items};

use crate::buffer::Buffer;

/// A lawful message.
#[derive(Clone, Copy)]
pub struct Sealed {
    octets: Buffer<74>,
    ghost lawful: { lawful (items octets) ≡ true },
}

impl Sealed {
    ghost use Rattle.message.specs.Held.{octets_of};

    pub(crate) fn of(octets: Buffer<74>) -> Sealed
        requires { lawful (items octets) ≡ true }
        ensures { result.octets ≡ octets }
    {
        Sealed { octets }
    }

    /// The octets of the message.
    #[tactic(auto, using(crate::proofs::Sealing::sealed_lawful))]
    pub fn octets(&self) -> &[u8]
        ensures held { result.now ≡ octets_of self.now }
        ensures lawful { Lawful result.now }
    {
        self.octets.as_slice()
    }

    /// How many octets it has.
    pub fn length(&self) -> usize
        ensures { result ≡ length (octets_of self.now) }
    {
        self.octets().len()
    }
}
