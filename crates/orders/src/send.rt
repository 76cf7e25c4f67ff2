ghost use Rattle.std.specs.Prelude.{◌≡◌};
ghost use Rattle.radio.specs.Outlets.{answer, Leaves};
ghost use Rattle.message.specs.Held.{octets_of};
ghost use Rattle.station.specs.Nearness.{padded};
ghost use Rattle.station.specs.Units.{octets_in};
ghost use Rattle.orders.specs.Sending.{send_refusal, Sent};

use arrayvec::ArrayVec;
use message::sealed::Sealed;
use radio::outlet::Outlet;
use radio::write::write_message;
use refusal::Refusal;
use station::small_unit::SmallUnit;

/// Sends a sealed message behind a preamble: pads it with 00 to the unit, begins, puts all octets, and ends.
pub fn send<O: Outlet>(outlet: &mut O, message: &Sealed, preamble: u16) -> Result<(), Refusal>
    ensures answers { result ≡ answer (send_refusal preamble (octets_of message.now) (O.Outlet.state outlet.old)) }
    ensures leaves { Leaves (Sent preamble (octets_of message.now)) O.Outlet.state result outlet.old outlet.new }
{
    let unit = SmallUnit::of(outlet.unit_of())?;
    let octets = pad(message, unit);
    write_message(outlet, preamble, octets.as_slice())
}

/// The octets of a message, and zeros behind them up to a multiple of the unit.
fn pad(message: &Sealed, unit: SmallUnit) -> ArrayVec<u8, 96>
    ensures { result.items ≡ padded (octets_in unit) (octets_of message.now) }
{
    let mut octets = [0; 96];
    octets[0..message.length()].copy_from_slice(message.octets());
    let mut octets = ArrayVec::from(octets);
    octets.truncate(unit.padded_length(message.length() as u8));
    octets
}
