ghost use Rattle.std.specs.Prelude.{◌≡◌, ◌≤◌, ◌++◌, length, drop};
ghost use Rattle.message.specs.Message.{payload};
ghost use Rattle.station.specs.Judging.{fields_checked, facts_of};

use crate::counted::Counted;
use crate::filters::Facts;
use refusal::Refusal;
use std::marker::Model;

/// A message: counted octets whose type, length and addresses are right.
#[derive(Drop)]
pub(crate) struct Judged {
    counted: Counted,
}

impl Model for Judged {
    ghost use Rattle.std.specs.Prelude.{◌≡◌, ℕ, true, List};
    ghost use Rattle.station.specs.Judging.{in_range};

    ghost Value = { List ℕ };

    ghost view = { λ m. m.counted };

    ghost invariant = { λ m. in_range m.counted ≡ true };
}

impl Judged {
    /// The message of octets whose Number and Sum are right, if its type, its length for the type and its addresses are.
    pub(crate) fn of(counted: Counted) -> Result<Judged, Refusal>
        ensures { result ≡ fields_checked counted }
    {
        if counted.kind() > 3 {
            return Err(Refusal::Type);
        }
        let count = counted.as_slice().len();
        let around = counted.head_length() + 2;
        if count < around || count > around + 66 {
            return Err(Refusal::Range);
        }
        let source = counted.source();
        if source == 0 || source == 0xffff || counted.destination() == Some(0) {
            return Err(Refusal::Address);
        }
        Ok(Judged { counted })
    }

    pub(crate) fn payload(&self) -> &[u8]
        ensures value { result.now ≡ payload self.now }
        ensures short { length result.now ≤ 66 }
    {
        let octets = self.counted.as_slice();
        &octets[self.counted.head_length()..octets.len() - 2]
    }

    /// What is told of the message.
    pub(crate) fn facts(&self, strength: u8) -> Facts
        ensures { result ≡ facts_of strength self.now }
    {
        Facts {
            kind: self.counted.kind(),
            source: self.counted.source(),
            destination: self.counted.destination(),
            length: self.payload().len(),
            strength,
        }
    }

    /// Writes the payload to the start of `buffer`.
    pub(crate) fn hand_up(&self, buffer: &mut [u8])
        requires { 66 ≤ length buffer.old }
        ensures { buffer.new ≡ payload self.now ++ drop (length (payload self.now)) buffer.old }
    {
        let payload = self.payload();
        buffer[..payload.len()].copy_from_slice(payload);
    }
}
