ghost use Rattle.std.specs.Prelude.{◌≡◌, ◌≤◌, true, false, MatchResult};
ghost use Rattle.refusal.specs.declared.Refusal.TheVariants.{Argument};
ghost use Rattle.message.specs.Message.{admits, head};
ghost use Rattle.message.specs.Parts.{items};

use crate::buffer::Buffer;
use refusal::Refusal;

/// A Source, a type and, for type 3 only, a Destination, checked together.
// The type is a number, since `new` takes every number and the format tells types 0 to 2 apart by nothing else.
#[derive(Clone, Copy)]
pub struct Header {
    kind: u8,
    destination: Option<u16>,
    source: u16,
    ghost fit: { admits kind destination source ≡ true },
}

impl Header {
    ghost use Rattle.message.specs.Held.{IsHeaderOf};

    /// `Argument` where the three do not go together.
    pub fn new(kind: u8, destination: Option<u16>, source: u16) -> Result<Header, Refusal>
        ensures { MatchResult result (IsHeaderOf kind destination source) (λ e. (admits kind destination source ≡ false) × (e ≡ Argument)) }
    {
        let kind_fits = match destination {
            None => kind <= 2,
            Some(to) => kind == 3 && to != 0,
        };
        if !kind_fits || matches!(source, 0 | 0xffff) {
            return Err(Refusal::Argument);
        }
        Ok(Header {
            kind,
            destination,
            source,
        })
    }

    /// Number, Type, Destination and Source of a message whose payload has `length` octets.
    pub(crate) fn head(&self, length: usize) -> Buffer<6>
        requires { length ≤ 66 }
        ensures { items result ≡ head self.now.kind self.now.destination self.now.source length }
    {
        let mut octets = Buffer::empty();
        let [high, low] = self.source.to_be_bytes();
        match self.destination {
            None => octets.append(&[(length + 6) as u8, self.kind, high, low]),
            Some(to) => {
                let [to_high, to_low] = to.to_be_bytes();
                octets.append(&[(length + 8) as u8, self.kind, to_high, to_low, high, low]);
            }
        }
        octets
    }
}
