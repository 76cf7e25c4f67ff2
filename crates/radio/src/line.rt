ghost use Rattle.std.specs.Prelude.{◌≡◌, min};
ghost use Rattle.radio.specs.Lines.{Heard, Sound, unit, found, opened, next, taken};

use crate::symbol::Symbol;
use refusal::{Fault, Refusal};

/// What a receiver heard: receptions that are opened one after the other and taken symbol by symbol.
pub trait Line {
    ghost heard: { Self → Heard };

    ghost sound: { (s : Self) → Sound (heard s) };

    /// Makes the first reception to come the present one and drops what was left of the old one;
    /// `Quiet`, and nothing changed, where none is to come.
    fn open(&mut self) -> Result<(), Refusal>
        ensures answers { result ≡ found (heard self.old).coming }
        ensures left { heard self.new ≡ opened (heard self.old) };

    /// Gives and removes the next symbol of the present reception; with none left, gives its ending
    /// (`None` for the whole end, or the fault) as often as it is called.
    fn take(&mut self) -> Result<Option<Symbol>, Fault>
        ensures answers { result ≡ next (heard self.old).present }
        ensures left { heard self.new ≡ taken (heard self.old) };

    /// The unit, or 65,535 where it is larger.
    fn unit_of(&self) -> u16
        ensures { result ≡ min (unit (heard self.now)) 65535 };
}
