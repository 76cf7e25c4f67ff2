ghost use Rattle.std.specs.Prelude.{◌≡◌, ◌≤◌, length};
ghost use Rattle.lines.specs.HeardBits.{unless_end};
ghost use Rattle.lines.specs.Recording.{Recording, Stands, StartsInStep};

use radio::symbol::Symbol;
use refusal::Cause;

/// The octet that ends a reception whole.
pub(crate) const END: u8 = 0x33;

/// How channel octets are recorded in bytes: as cells, of which each symbol takes the same number.
// Bytes and place go as two: the functions are static, and the search asks for places at which no line stands.
pub trait Recorded {
    ghost recording: { Recording };

    /// How many cells a symbol takes.
    fn step() -> usize
        ensures { result ≡ recording.step };

    /// How many cells the bytes have.
    fn count(bytes: &[u8]) -> usize
        requires { length bytes.now ≤ 65536 }
        ensures { result ≡ length (recording.cells bytes.now) };

    /// What stands at a place of a reception: a symbol, `None` for its whole end, `Cut` at the sign of the next
    /// reception, `Dry` where too few cells are left for a symbol.
    fn here(bytes: &[u8], place: usize) -> Result<Option<Symbol>, Cause>
        requires short { length bytes.now ≤ 65536 }
        requires within { place ≤ length (recording.cells bytes.now) }
        ensures { Stands recording bytes.now place result };

    /// The place behind the first sign that begins less than a step from a place.
    fn behind_sign(bytes: &[u8], place: usize) -> Option<usize>
        requires short { length bytes.now ≤ 65536 }
        requires within { place ≤ length (recording.cells bytes.now) }
        ensures { StartsInStep recording bytes.now place result };
}

/// The symbol, or `None` if it ends a reception whole.
pub(crate) fn unless_end(symbol: Symbol) -> Option<Symbol>
    ensures { result ≡ unless_end symbol }
{
    match symbol {
        Symbol::Clean(END) => None,
        _ => Some(symbol),
    }
}
