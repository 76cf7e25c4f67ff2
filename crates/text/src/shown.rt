//! How octets, addresses and decimal numbers are written.
ghost use Rattle.std.specs.Prelude.{◌≡◌, ◌<◌, ◌≤◌, Some, length};
ghost use Rattle.std.specs.Fmt.{WritesOnOk};
ghost use Rattle.text.specs.Texts.{digit_text, octet_text, pairs_text, octets_text, address_text, sign_text, tenths_text, hundredths_text};

use arrayvec::ArrayVec;
use std::{fmt, str};

/// How many octets are laid out at once: each piece that is written costs a call.
const AT_ONCE: usize = 32;

/// Octets in capital hex, or `-` where there are none.
#[derive(Clone, Copy)]
pub struct Hex<'a>(pub &'a [u8]);

impl<'a> fmt::Display for Hex<'a> {
    ghost output = { λ h. Some (octets_text h.0.now) };

    fn fmt<W: fmt::Write>(&self, f: &mut fmt::Formatter<W>) -> fmt::Result {
        let octets = self.0;
        if octets.is_empty() {
            return f.write_str("-");
        }
        for some in octets.chunks(AT_ONCE) {
            write_pairs(f, some)?;
        }
        Ok(())
    }
}

fn write_pairs<W: fmt::Write>(f: &mut fmt::Formatter<W>, octets: &[u8]) -> fmt::Result
    requires { length octets.now ≤ 32 }
    ensures { WritesOnOk W.Write.write_str_gives f.old result (pairs_text octets.now) f.new }
{
    let text = pairs(octets);
    f.write_str(str::from_utf8(&text).unwrap())
}

/// The digits of octets in capital hex, two for each.
fn pairs(octets: &[u8]) -> ArrayVec<u8, 64>
    requires { length octets.now ≤ 32 }
    ensures { result.items ≡ pairs_text octets.now }
{
    let mut text = ArrayVec::new();
    for octet in octets {
        let [high, low] = digits(*octet);
        text.push(high);
        text.push(low);
    }
    text
}

/// The two capital hex digits of an octet.
pub fn digits(octet: u8) -> [u8; 2]
    ensures { result ≡ octet_text octet }
{
    [digit(octet / 16), digit(octet % 16)]
}

/// A capital hex digit.
fn digit(d: u8) -> u8
    requires { d < 16 }
    ensures { result ≡ digit_text d }
{
    if d < 10 { b'0' + d } else { b'A' + (d - 10) }
}

/// An address as four capital hex digits.
#[derive(Clone, Copy)]
pub struct Address(pub u16);

impl fmt::Display for Address {
    ghost output = { λ a. Some (address_text a.0) };

    fn fmt<W: fmt::Write>(&self, f: &mut fmt::Formatter<W>) -> fmt::Result {
        f.write(Hex(&self.0.to_be_bytes()))
    }
}

/// A number of tenths, written exactly: -5 is -0.5.
#[derive(Clone, Copy)]
pub struct Tenths(pub i16);

impl fmt::Display for Tenths {
    ghost output = { λ n. Some (tenths_text n.0) };

    fn fmt<W: fmt::Write>(&self, f: &mut fmt::Formatter<W>) -> fmt::Result {
        let sign = sign(self.0);
        let size = self.0.unsigned_abs();
        let whole = size / 10;
        let tenth = size % 10;
        write!(f, "{sign}{whole}.{tenth}")
    }
}

/// A number of hundredths, written exactly: -5 is -0.05.
// Not one struct with `Tenths`: an alias of a tuple struct makes no values, so both public constructors would stay.
#[derive(Clone, Copy)]
pub struct Hundredths(pub i16);

impl fmt::Display for Hundredths {
    ghost output = { λ n. Some (hundredths_text n.0) };

    fn fmt<W: fmt::Write>(&self, f: &mut fmt::Formatter<W>) -> fmt::Result {
        let sign = sign(self.0);
        let size = self.0.unsigned_abs();
        let whole = size / 100;
        let tenth = size / 10 % 10;
        let hundredth = size % 10;
        write!(f, "{sign}{whole}.{tenth}{hundredth}")
    }
}

/// What stands in front of the figures.
fn sign(n: i16) -> &'static str
    ensures { result.now ≡ sign_text n }
{
    if n < 0 { "-" } else { "" }
}
