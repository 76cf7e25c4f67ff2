ghost use Rattle.std.specs.Prelude.{◌≡◌, []};
ghost use Rattle.text.specs.Reads.{Told};
ghost use Rattle.text.specs.Words.{to_come, words_from};
ghost use Rattle.commands.specs.Said.{says};
ghost use Rattle.commands.specs.Syntax.{verb_of, seal_read, bodies_read, hear_read, line_read};

use crate::command::{Command, Piles, Recording, Verb};
use crate::words::{bottom, ear, fields};
use std::alloc::Global;
use text::stop::Stop;
use text::words::Words;

/// What a line of input says.
pub(crate) fn parse(heap: Global, piles: Piles, line: &[u8]) -> Result<Command, Stop>
    ensures { Told says result (line_read piles (words_from [] line.now)) }
{
    let mut words = Words::of(line);
    let Some(first) = words.take() else {
        return Ok(Command::Nothing);
    };
    if let [b'#', ..] = first {
        return Ok(Command::Nothing);
    }
    match verb_of(first) {
        Some(Verb::Seal) => seal(heap, &mut words),
        Some(Verb::Bodies) => bodies(heap, &mut words),
        Some(Verb::Hear) => hear(heap, piles, &mut words),
        None => Err(Stop::Unread("no such command")),
    }
}

fn verb_of(word: &[u8]) -> Option<Verb>
    ensures { result ≡ verb_of word.now }
{
    match word {
        b"seal" => Some(Verb::Seal),
        b"bodies" => Some(Verb::Bodies),
        b"hear" => Some(Verb::Hear),
        _ => None,
    }
}

/// `seal KIND SOURCE DESTINATION PAYLOAD`
fn seal(heap: Global, words: &mut Words<'_>) -> Result<Command, Stop>
    ensures { Told says result (seal_read (to_come words.old)) }
{
    let fields = fields(heap, words)?;
    words.end()?;
    Ok(Command::Seal(fields))
}

/// `bodies PAYLOAD`
fn bodies(heap: Global, words: &mut Words<'_>) -> Result<Command, Stop>
    ensures { Told says result (bodies_read (to_come words.old)) }
{
    let payload = words.octets(heap, "PAYLOAD is missing")?;
    words.end()?;
    Ok(Command::Bodies(payload))
}

/// `hear octets|bits PILE BYTES`
fn hear(heap: Global, piles: Piles, words: &mut Words<'_>) -> Result<Command, Stop>
    ensures { Told says result (hear_read piles (to_come words.old)) }
{
    let bottom = bottom(words)?;
    let ear = ear(piles, bottom, words)?;
    let bytes = words.octets(heap, "BYTES is missing")?;
    words.end()?;
    Ok(Command::Hear(Recording { ear, bytes }))
}
