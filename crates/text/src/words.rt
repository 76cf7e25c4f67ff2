ghost use Rattle.std.specs.Prelude.{◌≡◌, ◌≤◌, not, [], ◌∷◌, IfOk, IfErr, Ok, position, vec_items, MatchOption};
ghost use Rattle.std.specs.Str.{bytes_eq};
ghost use Rattle.text.specs.Figures.{number_word, address_word, octets_read};
ghost use Rattle.text.specs.declared.stop.Stop.TheVariants.{Unread};
ghost use Rattle.text.specs.Reads.{Told, known, next, whole};
ghost use Rattle.text.specs.Words.{blank, from_word, to_come, behind, none_left, words_from};

use crate::hex::{address, octets};
use crate::number::number;
use crate::stop::Stop;
use std::alloc::Global;

/// The words of a line, parted by blanks, taken one after the other.
// Each call has its clause about what is left: a caller knows of a call no more than its own clauses.
#[derive(Drop)]
pub struct Words<'a> {
    rest: &'a [u8],
}

impl<'a> Words<'a> {
    pub fn of(line: &'a [u8]) -> Words<'a>
        ensures { to_come result ≡ words_from [] line.now }
    {
        Words { rest: line }
    }

    /// The next word, or nothing at the end of the line.
    pub fn take(&mut self) -> Option<&'a [u8]>
        ensures word { MatchOption result (to_come self.old ≡ []) (λ word. to_come self.old ≡ word.now ∷ to_come self.new) }
        ensures left { to_come self.new ≡ behind (to_come self.old) }
    {
        let line = from_word(self.rest);
        let size = first_blank(line).unwrap_or(line.len());
        let (word, rest) = line.split_at(size);
        self.rest = rest;
        if word.is_empty() { None } else { Some(word) }
    }

    /// The next word, which has to be there.
    pub fn want(&mut self, missing: &'static str) -> Result<&'a [u8], Stop>
        ensures word { Told (λ x. x.now) result (next missing.now Ok (to_come self.old)) }
        ensures why { IfErr result (λ stop. stop ≡ Unread missing.entry) }
        ensures left { to_come self.new ≡ behind (to_come self.old) }
    {
        self.take().ok_or(Stop::Unread(missing))
    }

    /// The next word as a decimal number up to `most`.
    // Here and in the two below no closure reads the word: each call would be longer, and its clause would follow
    // from the closure's only by an answer.
    pub fn number(
        &mut self,
        most: u32,
        missing: &'static str,
        wrong: &'static str,
    ) -> Result<u32, Stop>
        ensures word { Told (λ n. n) result (next missing.now (λ w. known wrong.now (number_word most w)) (to_come self.old)) }
        ensures bound { IfOk result (λ n. n ≤ most) }
        ensures left { to_come self.new ≡ behind (to_come self.old) }
    {
        number(self.want(missing)?, most).ok_or(Stop::Unread(wrong))
    }

    /// The next word as an address.
    pub fn address(&mut self, missing: &'static str, wrong: &'static str) -> Result<u16, Stop>
        ensures word { Told (λ a. a) result (next missing.now (λ w. known wrong.now (address_word w)) (to_come self.old)) }
        ensures left { to_come self.new ≡ behind (to_come self.old) }
    {
        address(self.want(missing)?).ok_or(Stop::Unread(wrong))
    }

    /// The next word as a string of octets.
    pub fn octets(&mut self, heap: Global, missing: &'static str) -> Result<Vec<u8>, Stop>
        ensures word { Told vec_items result (next missing.now octets_read (to_come self.old)) }
        ensures left { to_come self.new ≡ behind (to_come self.old) }
    {
        octets(heap, self.want(missing)?)
    }

    /// Whether no word is left.
    pub fn is_empty(&self) -> bool
        ensures { result ≡ none_left (to_come self.now) }
    {
        from_word(self.rest).is_empty()
    }

    /// The end of the line, which has to come now.
    pub fn end(&mut self) -> Result<(), Stop>
        ensures { Told (λ u. u) result (whole tt (to_come self.old)) }
    {
        if self.is_empty() {
            Ok(())
        } else {
            Err(Stop::Unread("too many words"))
        }
    }
}

/// Whether a word is this name.
pub fn is(word: &[u8], name: &str) -> bool
    ensures { result ≡ bytes_eq word.now name.now }
{
    word == name.as_bytes()
}

/// The line from its first word on.
fn from_word(line: &[u8]) -> &[u8]
    ensures { result.now ≡ from_word line.now }
{
    match first_other(line) {
        Some(start) => &line[start..],
        None => &[],
    }
}

/// Where the first byte stands that is no blank.
fn first_other(line: &[u8]) -> Option<usize>
    ensures { result ≡ position (λ b. not (blank b)) line.now }
{
    line.iter().position(|b| !is_blank(*b))
}

/// Where the first blank stands.
fn first_blank(line: &[u8]) -> Option<usize>
    ensures { result ≡ position blank line.now }
{
    line.iter().position(|b| is_blank(*b))
}

fn is_blank(b: u8) -> bool
    ensures { result ≡ blank b }
{
    matches!(b, b' ' | b'\t' | b'\r')
}
