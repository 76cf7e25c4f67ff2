ghost use Rattle.std.specs.Prelude.{◌≡◌, Ok};
ghost use Rattle.station.specs.Filtering.{off};
ghost use Rattle.figures.specs.Orders.{heard_in, SendsNothing, come_to};
ghost use Rattle.figures.specs.Recorded.{recorded_outcomes};

use lines::octet_line::OctetLine;
use orders::order::{Done, Order, Outcome};
use orders::run::run;
use outlets::octet_outlet::OctetOutlet;
use refusal::Refusal;
use standard::line::standard_reading;
use std::alloc::Global;

/// Three receptions of the message 09 03 01 02 03 04 7F 00 95 through the standard pile. In the first a code octet of 7F
/// is lost, 00 for AA; in the second also one of the sum 14 behind it, 00 for 65; the third is as it was sent.
const RECORDING: [u8; 81] = *b"\
    \xF0\xCC\x55\x96\x55\x5A\x55\x56\x55\xA6\x55\x59\x55\x5A\x55\x65\x55\x96\x6A\x00\x55\x55\x96\x66\x56\x65\x33\
    \xF0\xCC\x55\x96\x55\x5A\x55\x56\x55\xA6\x55\x59\x55\x5A\x55\x65\x55\x96\x6A\x00\x55\x55\x96\x66\x56\x00\x33\
    \xF0\xCC\x55\x96\x55\x5A\x55\x56\x55\xA6\x55\x59\x55\x5A\x55\x65\x55\x96\x6A\xAA\x55\x55\x96\x66\x56\x65\x33";

/// Reads the recording twice with all filters off, at the strengths 40 and 255, and twice under a limit of 41, at 40 and 41.
pub fn recorded_run(heap: Global) -> Result<[Outcome; 5], Refusal>
    ensures { result ≡ Ok recorded_outcomes }
{
    let orders = [
        Order::Read(40, 66),
        Order::Read(255, 66),
        Order::Strength(Some(41)),
        Order::Read(40, 66),
        Order::Read(41, 66),
    ];
    play_on(heap, &RECORDING, &orders)
}

/// Plays orders that send nothing at the station 0102, on a line over `bytes` through the standard pile, with an outlet
/// over an empty memory.
fn play_on(heap: Global, bytes: &[u8], orders: &[Order; 5]) -> Result<[Outcome; 5], Refusal>
    requires { SendsNothing orders.now }
    ensures { result ≡ Ok (come_to 0x0102 off (heard_in bytes.now) orders.now) }
{
    let mut line = standard_reading(OctetLine::new(bytes));
    let mut outlet = OctetOutlet::new(Vec::new(heap));
    let mut outcomes = [Ok(Done::Set); 5];
    run(0x0102, &mut line, &mut outlet, orders, &mut outcomes)?;
    Ok(outcomes)
}
