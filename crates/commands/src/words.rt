//! What the words of a command stand for, or why they cannot be read.
ghost use Rattle.std.specs.Prelude.{◌≡◌, codes, OnOk};
ghost use Rattle.text.specs.Reads.{Told, next, past};
ghost use Rattle.text.specs.Words.{to_come, behind};
ghost use Rattle.commands.specs.Fields.{fields_of};
ghost use Rattle.commands.specs.Syntax.{kind_word, destination_word, bottom_named, bottom_word, pile_word, ear_word, wanted_text, fields_read};

use crate::command::{Bottom, Ear, Fields, Pile, Piles};
use std::alloc::Global;
use text::hex::{address, is_dash};
use text::number::number;
use text::stop::Stop;
use text::words::Words;

/// `KIND SOURCE DESTINATION PAYLOAD`
pub(crate) fn fields(heap: Global, words: &mut Words<'_>) -> Result<Fields, Stop>
    ensures fields { Told fields_of result (fields_read (to_come words.old)) }
    ensures left { OnOk result (to_come words.new ≡ past 4 (to_come words.old)) }
{
    let kind = kind(words)?;
    let source = words.address("SOURCE is missing", "SOURCE is four hex digits")?;
    let destination = destination(words)?;
    let payload = words.octets(heap, "PAYLOAD is missing")?;
    Ok(Fields {
        kind,
        source,
        destination,
        payload,
    })
}

// Here and in the three below each call has its clause about what is left, since a caller knows of a call no more than
// its own clauses, and no closure reads the word: each call would be longer, its clause a matter of one answer more.
pub(crate) fn kind(words: &mut Words<'_>) -> Result<u8, Stop>
    ensures word { Told (λ k. k) result (next (codes "KIND is missing") kind_word (to_come words.old)) }
    ensures left { to_come words.new ≡ behind (to_come words.old) }
{
    let kind = words.number(255, "KIND is missing", "KIND is a number up to 255")?;
    // `as` is proved to lose nothing; `u8::try_from` would answer an error that cannot come.
    Ok(kind as u8)
}

fn destination(words: &mut Words<'_>) -> Result<Option<u16>, Stop>
    ensures word { Told (λ d. d) result (next (codes "DESTINATION is missing") destination_word (to_come words.old)) }
    ensures left { to_come words.new ≡ behind (to_come words.old) }
{
    destination_of(words.want("DESTINATION is missing")?)
}

fn destination_of(word: &[u8]) -> Result<Option<u16>, Stop>
    ensures { Told (λ d. d) result (destination_word word.now) }
{
    if is_dash(word) {
        return Ok(None);
    }
    let wrong = Stop::Unread("DESTINATION is four hex digits, or - for none");
    address(word).map(Some).ok_or(wrong)
}

pub(crate) fn bottom(words: &mut Words<'_>) -> Result<Bottom, Stop>
    ensures word { Told (λ b. b) result (next (codes "LINE is missing") bottom_word (to_come words.old)) }
    ensures left { to_come words.new ≡ behind (to_come words.old) }
{
    bottom_of(words.want("LINE is missing")?).ok_or(Stop::Unread("LINE is octets or bits"))
}

fn bottom_of(word: &[u8]) -> Option<Bottom>
    ensures { result ≡ bottom_named word.now }
{
    match word {
        b"octets" => Some(Bottom::Octets),
        b"bits" => Some(Bottom::Bits),
        _ => None,
    }
}

/// A pile over `bottom`, or the unit of a bare octet line.
pub(crate) fn ear(piles: Piles, bottom: Bottom, words: &mut Words<'_>) -> Result<Ear, Stop>
    ensures word { Told (λ e. e) result (next (codes "PILE is missing") (ear_word piles bottom) (to_come words.old)) }
    ensures left { to_come words.new ≡ behind (to_come words.old) }
{
    ear_of(piles, bottom, words.want("PILE is missing")?)
}

fn ear_of(piles: Piles, bottom: Bottom, word: &[u8]) -> Result<Ear, Stop>
    ensures { Told (λ e. e) result (ear_word piles bottom word.now) }
{
    if let Some(pile) = pile_of(piles, word) {
        return Ok(Ear::Piled(bottom, pile));
    }
    match (piles, bottom, number(word, 65535)) {
        (Piles::Trial, Bottom::Octets, Some(unit)) if unit > 0 => Ok(Ear::Unit(unit as u16)),
        _ => Err(Stop::Unread(wanted(piles))),
    }
}

/// The layers that a word names.
fn pile_of(piles: Piles, word: &[u8]) -> Option<Pile>
    ensures { result ≡ pile_word piles word.now }
{
    match (piles, word) {
        (_, b"plain") => Some(Pile::Plain),
        (_, b"standard") => Some(Pile::Standard),
        (Piles::Trial, b"blocks") => Some(Pile::Blocks),
        _ => None,
    }
}

/// Why another word is no pile.
fn wanted(piles: Piles) -> &'static str
    ensures { result.now ≡ wanted_text piles }
{
    match piles {
        Piles::Usual => "PILE is plain or standard",
        Piles::Trial => "PILE is plain, standard or blocks, or over octets a unit",
    }
}
