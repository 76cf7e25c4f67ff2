ghost use Rattle.std.specs.Prelude.{◌≡◌, IfOk, Some, string_bytes};
ghost use Rattle.std.proofs.Math.Utf8.{encodes};
ghost use Rattle.payload.specs.Apart.{taken_apart};
ghost use Rattle.payload.specs.Handed.{to_come, stands};
ghost use Rattle.commands.specs.Answers.{body_line, body_lines, bodies_text};

use payload::bodies::Bodies;
use payload::body::{Body, Placed};
use std::alloc::{AllocError, Global};
use std::fmt;
use text::shown::{Hundredths, Tenths};

/// `bodies N` with a line for each body below it, or `refused N NAME`.
pub(crate) fn bodies(heap: Global, payload: &[u8]) -> Result<String, AllocError>
    ensures { IfOk result (λ s. string_bytes s ≡ bodies_text (taken_apart payload.now)) }
{
    match Bodies::read(payload) {
        Ok(bodies) => {
            let count = bodies.len();
            let lines = Lines(bodies);
            format!(in heap; "bodies {count}\n{lines}")
        }
        Err(refusal) => format!(in heap; "refused {refusal}\n"),
    }
}

/// A line for each body that is yet to come.
#[derive(Clone, Copy)]
struct Lines<'a>(Bodies<'a>);

impl<'a> fmt::Display for Lines<'a> {
    ghost output = { λ b. Some (body_lines (to_come b.0)) };

    fn fmt<W: fmt::Write>(&self, f: &mut fmt::Formatter<W>) -> fmt::Result {
        for placed in self.0 {
            f.write(Line(placed))?;
        }
        Ok(())
    }
}

/// The line of a body.
#[derive(Clone, Copy)]
struct Line<'a>(Placed<'a>);

impl<'a> fmt::Display for Line<'a> {
    ghost output = { λ p. Some (body_line (stands p.0)) };

    fn fmt<W: fmt::Write>(&self, f: &mut fmt::Formatter<W>) -> fmt::Result {
        let at = self.0.position;
        match self.0.body {
            Body::Regain { probe, hundredths } => {
                let percent = Hundredths(hundredths);
                write!(f, "  at {at} regain probe {probe} {percent} %\n")
            }
            Body::Dead { probe, cause } => {
                write!(f, "  at {at} dead probe {probe} cause {cause}\n")
            }
            Body::Air { drier, tenths } => {
                let degrees = Tenths(tenths);
                write!(f, "  at {at} air drier {drier} {degrees} C\n")
            }
            Body::Note(bytes) => {
                let note = Characters(bytes);
                write!(f, "  at {at} note \"{note}\"\n")
            }
        }
    }
}

/// Bytes as characters.
#[derive(Clone, Copy)]
struct Characters<'a>(&'a [u8]);

impl<'a> fmt::Display for Characters<'a> {
    ghost output = { λ c. Some (encodes c.0.now) };

    fn fmt<W: fmt::Write>(&self, f: &mut fmt::Formatter<W>) -> fmt::Result {
        let bytes = self.0;
        for byte in bytes {
            f.write_char(*byte as char)?;
        }
        Ok(())
    }
}
