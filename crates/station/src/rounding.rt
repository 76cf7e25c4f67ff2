ghost use Rattle.std.specs.Prelude.{◌≡◌, ◌≤◌};
ghost use Rattle.station.specs.Nearness.{rounded};

/// The length of `count` octets once they are padded to the unit; 0 for a unit of 0.
#[tactic(auto, using(crate::proofs::Multiples::padded))]
pub fn padded_length(unit: u16, count: u8) -> usize
    ensures value { result ≡ rounded unit count }
    ensures least { 1 ≤ unit → count ≤ result }
{
    usize::from(count)
        .checked_next_multiple_of(usize::from(unit))
        .unwrap_or(0)
}
