ghost use Rattle.std.specs.Prelude.{◌≡◌, ◌≤◌, Ok, vec_len, MatchResult};
ghost use Rattle.radio.specs.Outlets.{message, laid_over};
ghost use Rattle.outlets.specs.Bottoms.{one_cell};
ghost use Rattle.standard.specs.Standard.{standard};
ghost use Rattle.figures.specs.Table.{report};
ghost use Rattle.figures.specs.Recorded.{report_facts, report_payload};

use lines::octet_line::OctetLine;
use message::draft::Draft;
use message::header::Header;
use orders::send::send;
use outlets::octet_outlet::OctetOutlet;
use refusal::Refusal;
use standard::line::standard_reading;
use standard::outlet::standard_sending;
use station::filters::Facts;
use station::station::Station;

/// Seals the message 09 03 01 02 03 04 7F 00 95, sends it through the standard pile into a memory of octets, and reads
/// what a line hears there: the message is handed up as it was sealed, if there was space for its 29 channel octets.
pub fn sent_and_read(memory: Vec<u8>) -> Result<(Facts, [u8; 66]), Refusal>
    ensures { 29 ≤ vec_len memory → result ≡ Ok (report_facts 40, report_payload) }
{
    let memory = sent_into(memory)?;
    let mut line = standard_reading(OctetLine::new(memory.as_slice()));
    let mut payload = [0; 66];
    let facts = Station::new(0x0102)?.read(&mut line, 40, &mut payload)?;
    Ok((facts, payload))
}

/// The memory once the message is sent into it.
fn sent_into(memory: Vec<u8>) -> Result<Vec<u8>, Refusal>
    ensures { 29 ≤ vec_len memory → MatchResult result (λ m. m.items ≡ laid_over one_cell (message standard 3 report) memory.items) (λ e. ⊥) }
{
    let mut draft = Draft::new(Header::new(3, Some(0x0102), 0x0304)?);
    draft.add(&[0x7F])?;
    let mut outlet = standard_sending(OctetOutlet::new(memory));
    send(&mut outlet, &draft.seal(), 3)?;
    Ok(outlet.into_below().into_below().into_memory())
}
