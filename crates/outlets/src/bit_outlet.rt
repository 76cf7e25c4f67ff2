ghost use Rattle.std.specs.Prelude.{◌≡◌, ◌+◌, ◌*◌, ◌/◌, ◌%◌, ◌<◌, ◌≤◌, ◌++◌, length, take, drop, slice_index};
ghost use Rattle.radio.specs.Bits.{bits, frame};
ghost use Rattle.outlets.specs.Frames.{BitsPinOctets};
ghost use Rattle.outlets.specs.Placements.{in_frames};

use crate::MemoryOutlet;
use crate::cells::Cells;
use radio::medium::Bits;

/// An outlet that writes each channel octet as a frame of ten bits, the lowest bit of each byte first.
pub type BitOutlet = MemoryOutlet<Bits>;

/// The sixteen bits of two bytes.
fn word_at(memory: &[u8], byte: usize) -> u16
    requires { byte + 1 < length memory.now }
    ensures { bits 16 result ≡ bits 8 (slice_index memory.now byte) ++ bits 8 (slice_index memory.now (byte + 1)) }
{
    u16::from_le_bytes([memory[byte], memory[byte + 1]])
}

/// A word with ten of its bits replaced, from the one of weight `scale` on.
fn spliced(word: u32, scale: u32, ten: u32) -> u32
    requires { (word < 65536) × ((0 < scale) × ((scale ≤ 64) × (ten < 1024))) }
    ensures { result ≡ word % scale + scale * (ten + 1024 * (word / scale / 1024)) }
{
    word % scale + scale * (ten + 1024 * (word / scale / 1024))
}

/// Sixteen bits with a frame written over ten of them, from one of the first seven on.
fn framed_over(word: u16, shift: usize, octet: u8) -> u16
    requires { shift ≤ 6 }
    ensures { bits 16 result ≡ take shift (bits 16 word) ++ (frame octet ++ drop (shift + 10) (bits 16 word)) }
{
    spliced(u32::from(word), 1 << shift, 1 + 2 * u32::from(octet)) as u16
}

impl Cells for Bits {
    ghost placement = { in_frames };

    // four frames are five bytes
    fn fitting(bytes: usize) -> usize {
        bytes / 5 * 4 + bytes % 5 * 4 / 5
    }

    fn lay(memory: &mut [u8], place: usize, octet: u8) {
        let byte = place + place / 4;
        let word = word_at(memory, byte);
        let [low, high] = framed_over(word, place % 4 * 2, octet).to_le_bytes();
        memory[byte] = low;
        memory[byte + 1] = high;
    }
}

/// That the bits of a memory say what its bytes are.
#[tactic(auto, using(crate::proofs::Frames::bits_pin))]
pub fn bits_pin_octets()
    ensures { BitsPinOctets }
{}
