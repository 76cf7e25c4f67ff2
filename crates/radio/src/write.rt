ghost use Rattle.std.specs.Prelude.{◌≡◌, length};
ghost use Rattle.radio.specs.Outlets.{answer, begin_refusal, put_refusal, Leaves, Put, Written, CallsWrite};

use crate::outlet::Outlet;
use crate::turn::Turn;
use refusal::Refusal;

/// Puts octets one after the other: all of them, or none where fewer are owed.
pub fn put_all<O: Outlet>(outlet: &mut O, octets: &[u8]) -> Result<(), Refusal>
    ensures answers { result ≡ answer (put_refusal (length octets.now) (O.Outlet.state outlet.old).turn) }
    ensures leaves { Leaves (Put octets.now) O.Outlet.state result outlet.old outlet.new }
{
    match outlet.turn_of() {
        Turn::Owing(n) if octets.len() <= n as usize => {}
        _ => return Err(Refusal::Turn),
    }
    // a `for`, since nothing is known of what a closure did to the outlet
    for x in octets {
        outlet.put(*x)?;
    }
    Ok(())
}

/// Writes one whole message: begins it, puts its octets, and ends it.
pub fn write_message<O: Outlet>(outlet: &mut O, preamble: u16, octets: &[u8]) -> Result<(), Refusal>
    ensures answers { result ≡ answer (begin_refusal preamble (length octets.now) (O.Outlet.state outlet.old)) }
    ensures leaves { Leaves (Written preamble octets.now) O.Outlet.state result outlet.old outlet.new }
{
    outlet.begin(preamble, octets.len())?;
    put_all(outlet, octets)?;
    outlet.end()
}

/// That an accepted begin, all puts and the end write one whole message, whoever makes the calls.
pub fn calls_write()
    ensures { CallsWrite }
{}
