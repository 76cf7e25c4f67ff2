ghost use Rattle.std.specs.Prelude.{◌≡◌, ◌*◌, ◌/◌, min, [], vec_len};
ghost use Rattle.radio.specs.Layer.{Octets};
ghost use Rattle.radio.specs.Outlets.{Stored};
ghost use Rattle.outlets.specs.Bottoms.{fresh, one_cell};
ghost use Rattle.radio.specs.Bits.{bits_of, frame};
ghost use Rattle.coding.specs.ManchesterLaws.{manchester};
ghost use Rattle.coding.specs.BlockLaws.{block};
ghost use Rattle.sending.specs.Outgoing.{outgoing};
ghost use Rattle.standard.specs.Standard.{standard_over};
ghost use Rattle.standard.specs.RoundTrip.{OctetsComeBack};

use coding::block::Block;
use coding::manchester::Manchester;
use outlets::bit_outlet::BitOutlet;
use outlets::octet_outlet::OctetOutlet;
use radio::outlet::Outlet;
use radio::write::write_message;
use refusal::Refusal;
use sending::Sending;

/// The sending halves of the standard pile, Block over Manchester, over an outlet.
pub type StandardSending<O> = Sending<Block, Sending<Manchester, O>>;

/// The standard pile over `outlet`.
pub fn standard_sending<O: Outlet>(outlet: O) -> StandardSending<O>
    ensures { outgoing block (outgoing manchester O.Outlet.state) result ≡ standard_over (O.Outlet.state outlet) }
{
    Sending::new(Block {}, Sending::new(Manchester {}, outlet))
}

/// Writes one message through the standard pile over an outlet that has written nothing: answers the space left, and
/// hands the outlet back.
#[tactic(auto, using(radio::proofs::States::stored_ok, radio::proofs::States::stored_err))]
fn write_over<O: Outlet>(outlet: O, preamble: u16, octets: &[u8]) -> (Result<u32, Refusal>, O)
    requires { (O.Outlet.state outlet).channel ≡ [] }
    ensures { Stored preamble octets.now (standard_over (O.Outlet.state outlet)) result.0 (O.Outlet.state result.1).memory }
{
    let mut outlet = standard_sending(outlet);
    let answer = write_message(&mut outlet, preamble, octets);
    let space = outlet.space_of();
    let below = outlet.into_below().into_below();
    // both cases: over `answer.map(|()| space)` no proof closed
    match answer {
        Ok(()) => (Ok(space), below),
        Err(refusal) => (Err(refusal), below),
    }
}

/// Writes one message through the standard pile into a memory, an octet to a byte: answers the space left and hands the memory back.
pub fn write_octets(
    memory: Vec<u8>,
    preamble: u16,
    octets: &[u8],
) -> (Result<u32, Refusal>, Vec<u8>)
    ensures { Stored preamble octets.now (standard_over (fresh one_cell memory.items (min (vec_len memory) 65536))) result.0 result.1.items }
{
    let (answer, outlet) = write_over(OctetOutlet::new(memory), preamble, octets);
    (answer, outlet.into_memory())
}

/// Writes one message through the standard pile into a memory, in frames of ten bits: answers the space left and hands the memory back.
pub fn write_bits(memory: Vec<u8>, preamble: u16, octets: &[u8]) -> (Result<u32, Refusal>, Vec<u8>)
    ensures stored { Stored preamble octets.now (standard_over (fresh frame (bits_of memory.items) (min (8 * vec_len memory / 10) 65536))) result.0 (bits_of result.1.items) }
    ensures octets { Octets result.1.items }
{
    let (answer, outlet) = write_over(BitOutlet::new(memory), preamble, octets);
    (answer, outlet.into_memory())
}

/// That an octet line, read through the standard pile, gives back what was written through it into octets.
pub fn octets_come_back()
    ensures { OctetsComeBack }
{}
