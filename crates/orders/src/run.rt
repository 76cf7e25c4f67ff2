ghost use Rattle.std.specs.Prelude.{◌≡◌, take};
ghost use Rattle.station.specs.Judging.{reading, line_left};
ghost use Rattle.orders.specs.Runs.{Stand, read_outcome, Step, count_of, Ran};
ghost use Rattle.orders.specs.Law.{Radio};

use crate::order::{Done, Order, Outcome};
use crate::send::send;
use radio::line::Line;
use radio::outlet::Outlet;
use refusal::Refusal;
use station::station::Station;

/// Makes a station with the address `own` and plays orders on it, a line and an outlet, each beginning with what the one
/// before has left; what came of each stands in `outcomes`. Answers how many were played: all, or as many as there is
/// room for. `Argument`, and nothing changed, for an address that no station has.
pub fn run<L: Line, O: Outlet>(
    own: u16,
    line: &mut L,
    outlet: &mut O,
    orders: &[Order],
    outcomes: &mut [Outcome],
) -> Result<usize, Refusal>
    ensures ran { Ran O.Outlet.state own orders.now result outcomes.old outcomes.new (L.Line.heard line.old) (L.Line.heard line.new) outlet.old outlet.new }
    ensures law { Radio own (L.Line.heard line.old) (take (count_of result) orders.now) (take (count_of result) outcomes.new) }
{
    let mut station = Station::new(own)?;
    let count = orders.len().min(outcomes.len());
    // Not a zip with `outcomes.iter_mut()`: nothing is known of what was written through a zip.
    for (i, order) in orders[0..count].iter().enumerate() {
        outcomes[i] = play(&mut station, line, outlet, order);
    }
    Ok(count)
}

/// Plays one order.
fn play<L: Line, O: Outlet>(
    station: &mut Station,
    line: &mut L,
    outlet: &mut O,
    order: &Order,
) -> Outcome
    ensures own { station.new.own ≡ station.old.own }
    ensures step { Step O.Outlet.state station.old.own order.now result (record { filters = station.old.filters; heard = L.Line.heard line.old; outlet = outlet.old }) (record { filters = station.new.filters; heard = L.Line.heard line.new; outlet = outlet.new }) }
{
    match order {
        Order::Strength(limit) => {
            station.set_strength(*limit);
            Ok(Done::Set)
        }
        Order::Identity(on) => {
            station.set_identity(*on);
            Ok(Done::Set)
        }
        Order::Mute(kind, on) => {
            station.mute(*kind, *on)?;
            Ok(Done::Set)
        }
        Order::Read(strength, room) => read_into(station, line, *strength, *room),
        Order::Send(message, preamble) => {
            send(outlet, message, *preamble)?;
            Ok(Done::Sent)
        }
    }
}

/// Reads into a payload buffer of `room` octets, of which no more than 66 are ever written.
fn read_into<L: Line>(station: &Station, line: &mut L, strength: u8, room: usize) -> Outcome
    ensures answers { result ≡ read_outcome strength (reading station.now.own station.now.filters strength room (L.Line.heard line.old)) }
    ensures left { L.Line.heard line.new ≡ line_left room (L.Line.heard line.old) }
{
    let mut payload = [0; 66];
    let size = room.min(66);
    let facts = station.read(line, strength, &mut payload[0..size])?;
    Ok(Done::Message(facts, payload))
}
