ghost use Rattle.std.specs.Prelude.{◌≡◌, ℕ, ◌+◌, ◌*◌, ◌<◌, ◌≤◌, length, take, drop, slice_index};
ghost use Rattle.radio.specs.Bits.{bits_of};
ghost use Rattle.lines.specs.HeardBits.{sign_here};
ghost use Rattle.lines.specs.Looks.{FirstOfTen, SymbolIn, seen};

use radio::symbol::Symbol;
use std::array;

/// The twenty bits of a sign, the first lowest: the frames of F0 and CC.
const SIGN: u32 = 0x665E1;

/// Twenty ones.
const SIGN_MASK: u32 = 0xF_FFFF;

/// The bits from a place on, the first bit lowest: 29 of them, or as many as there are.
/// So many reach to the end of a sign that begins at the tenth.
#[derive(Clone, Copy)]
pub(crate) struct Window {
    word: u32,
    count: usize,
}

impl Window {
    /// The window at a bit place.
    pub(crate) fn at(bytes: &[u8], place: usize) -> Window
        requires short { length bytes.now ≤ 65536 }
        requires within { place ≤ 8 * length bytes.now }
        ensures { seen result ≡ take 29 (drop place (bits_of bytes.now)) }
    {
        let word = u64::from_le_bytes(eight_from(bytes, place / 8));
        Window {
            word: ((word >> (place % 8)) & 0x1FFF_FFFF) as u32,
            count: (8 * bytes.len() - place).min(29),
        }
    }

    /// The least of ten places at which a sign begins.
    pub(crate) fn first_sign(self) -> Option<usize>
        ensures { FirstOfTen (seen self) result }
    {
        (0..10).find(|k| self.sign_at(*k))
    }

    /// Whether a sign begins at a place.
    fn sign_at(self, k: usize) -> bool
        requires { k < 10 }
        ensures { result ≡ sign_here (drop k (seen self)) }
    {
        k + 20 <= self.count && (self.word >> k) & SIGN_MASK == SIGN
    }

    /// The symbol in the first ten bits, if there are as many.
    pub(crate) fn symbol(self) -> Option<Symbol>
        ensures { SymbolIn (seen self) result }
    {
        if self.count < 10 {
            return None;
        }
        if self.word & 1 == 1 && (self.word >> 9) & 1 == 0 {
            Some(Symbol::Clean(((self.word >> 1) & 0xFF) as u8))
        } else {
            Some(Symbol::Spoiled)
        }
    }
}

/// The eight bytes from a place on, with zeros for those behind the end.
fn eight_from(bytes: &[u8], first: usize) -> [u8; 8]
    requires { first ≤ length bytes.now }
    ensures { (k : ℕ) → k < 8 → slice_index result k ≡ slice_index bytes.now (first + k) }
{
    // Eight bytes are read at once, and one by one only where fewer are left.
    match bytes[first..].first_chunk() {
        Some(group) => *group,
        None => array::from_fn(|i| bytes.get(first + i).copied().unwrap_or(0)),
    }
}
