ghost use Rattle.std.specs.Prelude.{◌≡◌, ◌*◌, ◌<◌, length};
ghost use Rattle.outlets.specs.Placement.{Placement};
ghost use Rattle.outlets.specs.Bottoms.{written_at};

/// How channel octets lie in a memory of bytes.
pub trait Cells {
    ghost placement: { Placement };

    /// How many channel octets fit into so many bytes.
    fn fitting(bytes: usize) -> usize
        ensures { result ≡ placement.fitting bytes };

    /// Writes an octet at the place of the channel octet of this number, and nothing else.
    fn lay(memory: &mut [u8], place: usize, octet: u8)
        requires { place < placement.fitting (length memory.old) }
        ensures { placement.of_bytes memory.new ≡ written_at (placement.of_bytes memory.old) (placement.width * place) (placement.of_octet octet) };
}
