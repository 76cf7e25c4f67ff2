ghost use Rattle.std.specs.Prelude.{◌≡◌, IfOk, Some, None, string_bytes, MatchResult};
ghost use Rattle.message.specs.Parts.{items};
ghost use Rattle.commands.specs.Answers.{seal_text};
ghost use Rattle.commands.specs.Fields.{fields_of};
ghost use Rattle.commands.specs.Seals.{refused_for, message_of};

use crate::command::Fields;
use message::draft::Draft;
use message::header::Header;
use message::sealed::Sealed;
use refusal::Refusal;
use std::alloc::{AllocError, Global};
use text::shown::Hex;

/// `sealed HEX`, or `refused N NAME`.
pub(crate) fn seal(heap: Global, fields: &Fields) -> Result<String, AllocError>
    ensures { IfOk result (λ s. string_bytes s ≡ seal_text (refused_for (fields_of fields.now)) (message_of (fields_of fields.now))) }
{
    match sealed(fields) {
        Ok(message) => {
            let octets = Hex(message.octets());
            format!(in heap; "sealed {octets}\n")
        }
        Err(refusal) => format!(in heap; "refused {refusal}\n"),
    }
}

/// A draft of the checked header, with the payload added, sealed.
pub(crate) fn sealed(fields: &Fields) -> Result<Sealed, Refusal>
    ensures { MatchResult result (λ m. (refused_for (fields_of fields.now) ≡ None) × (items m.octets ≡ message_of (fields_of fields.now))) (λ e. refused_for (fields_of fields.now) ≡ Some e) }
{
    let header = Header::new(fields.kind, fields.destination, fields.source)?;
    let mut draft = Draft::new(header);
    draft.add(fields.payload.as_slice())?;
    Ok(draft.seal())
}
