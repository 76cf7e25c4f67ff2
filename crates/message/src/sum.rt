ghost use Rattle.std.specs.Prelude.{◌≡◌, ◌%◌, sum};

/// The sum of the octets, modulo 65,536.
#[tactic(auto, using(crate::proofs::Checksums::sum_wrapped))]
pub fn checksum(octets: &[u8]) -> u16
    ensures { result ≡ sum octets.now % 65536 }
{
    octets.iter().fold(0u16, |total, octet| {
        total.wrapping_add(u16::from(*octet))
    })
}
