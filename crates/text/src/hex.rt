ghost use Rattle.std.specs.Prelude.{◌≡◌, ◌<◌, IfSome, vec_items};
ghost use Rattle.text.specs.Figures.{digit_value, octet_value, octet_word, address_word, dash, pairs_read, octets_read};
ghost use Rattle.text.specs.Reads.{Told};

use crate::stop::Stop;
use std::alloc::Global;

/// A string of octets: hex without blanks, or `-` for none.
pub fn octets(heap: Global, word: &[u8]) -> Result<Vec<u8>, Stop>
    ensures { Told vec_items result (octets_read word.now) }
{
    if is_dash(word) {
        return Ok(Vec::new(heap));
    }
    pairs(heap, word)
}

/// Octets of two hex digits each.
// Not the kit's hex decoder: that refuses an odd length before a byte that is no digit.
fn pairs(heap: Global, word: &[u8]) -> Result<Vec<u8>, Stop>
    ensures { Told vec_items result (pairs_read word.now) }
{
    let mut octets = Vec::new(heap);
    for pair in word.chunks_exact(2) {
        let wrong = Stop::Unread("octets are hex digits without blanks, or - for none");
        let x = octet(pair).ok_or(wrong)?;
        octets.push(x)?;
    }
    if word.len() % 2 == 1 {
        return Err(Stop::Unread("an octet has two hex digits"));
    }
    Ok(octets)
}

/// Whether a word is `-`, which stands for nothing.
pub fn is_dash(word: &[u8]) -> bool
    ensures { result ≡ dash word.now }
{
    matches!(word, b"-")
}

/// An octet: two hex digits.
pub fn octet(word: &[u8]) -> Option<u8>
    ensures { result ≡ octet_word word.now }
{
    match word {
        [high, low] => octet_of(*high, *low),
        _ => None,
    }
}

/// An address: four hex digits.
pub fn address(word: &[u8]) -> Option<u16>
    ensures { result ≡ address_word word.now }
{
    let [a, b, c, d] = word else {
        return None;
    };
    let high = octet_of(*a, *b)?;
    let low = octet_of(*c, *d)?;
    Some(u16::from_be_bytes([high, low]))
}

/// An octet from two hex digits.
fn octet_of(high: u8, low: u8) -> Option<u8>
    ensures { result ≡ octet_value high low }
{
    Some(16 * digit(high)? + digit(low)?)
}

/// The value of a hex digit in either case.
fn digit(b: u8) -> Option<u8>
    ensures value { result ≡ digit_value b }
    ensures small { IfSome result (λ d. d < 16) }
{
    let digit = char::from(b).to_digit(16)?;
    Some(digit as u8)
}
