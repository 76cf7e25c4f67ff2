ghost use Rattle.outlets.specs.Placements.{in_bytes};

use crate::MemoryOutlet;
use crate::cells::Cells;
use radio::medium::Octets;

/// An outlet that writes each channel octet into one byte of its memory.
pub type OctetOutlet = MemoryOutlet<Octets>;

impl Cells for Octets {
    ghost placement = { in_bytes };

    fn fitting(bytes: usize) -> usize {
        bytes
    }

    fn lay(memory: &mut [u8], place: usize, octet: u8) {
        memory[place] = octet;
    }
}
