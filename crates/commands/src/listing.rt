ghost use Rattle.std.specs.Prelude.{◌≡◌, ◌++◌, IfOk, string_bytes, OnOk};
ghost use Rattle.commands.specs.Endings.{fault_of};
ghost use Rattle.commands.specs.Answers.{end_of_line, ending_text, symbol_text, all_symbols, symbols_text, reception_line, listing_text};
ghost use Rattle.text.specs.Texts.{octet_text};

use radio::line::Line;
use radio::symbol::Symbol;
use refusal::Fault;
use std::alloc::{AllocError, Global};
use text::shown::digits;

/// All receptions of a line: `heard N`, and a line for each below it.
pub(crate) fn listing<L: Line + Drop>(heap: Global, mut line: L) -> Result<String, AllocError>
    ensures { IfOk result (λ s. string_bytes s ≡ listing_text (L.Line.heard line).coming) }
{
    let mut count = 0u64;
    let mut lines = String::new(heap);
    // the line is opened by the condition, and the count is printed: no index
    while line.open().is_ok() {
        push_reception(heap, &mut lines, &mut line)?;
        count = count.saturating_add(1);
    }
    format!(in heap; "heard {count}\n{lines}")
}

/// Adds what is left of the present reception: its symbols and its ending.
// Each piece goes straight behind the lines: a text of its own for every reception would be made and copied.
// Here and below a clause says what is to come: a caller knows of a call no more than its own clauses.
fn push_reception<L: Line>(heap: Global, lines: &mut String, line: &mut L) -> Result<(), AllocError>
    ensures text { OnOk result (string_bytes lines.new ≡ string_bytes lines.old ++ reception_line (L.Line.heard line.old).present) }
    ensures coming { (L.Line.heard line.new).coming ≡ (L.Line.heard line.old).coming }
{
    lines.push_str("  ")?;
    let end = push_symbols(lines, line)?;
    push_ending(heap, lines, end)
}

/// Adds how a reception ended: a fault, or none at a whole end.
fn push_ending(heap: Global, lines: &mut String, end: Option<Fault>) -> Result<(), AllocError>
    ensures { OnOk result (string_bytes lines.new ≡ string_bytes lines.old ++ (ending_text end ++ end_of_line)) }
{
    let Some(fault) = end else {
        return lines.push_str(" whole\n");
    };
    let name = fault.cause.name();
    let place = fault.place;
    let rise = fault.rise;
    let ending = format!(in heap; " {name} place {place} rise {rise}\n")?;
    lines.push_str(ending.as_str())
}

/// Adds the symbols that are left of the present reception, or `-` for none; and the fault that ends it, or none.
fn push_symbols<L: Line>(lines: &mut String, line: &mut L) -> Result<Option<Fault>, AllocError>
    ensures ending { IfOk result (λ end. end ≡ fault_of (L.Line.heard line.old).present.ending) }
    ensures text { OnOk result (string_bytes lines.new ≡ string_bytes lines.old ++ symbols_text (L.Line.heard line.old).present.symbols) }
    ensures coming { (L.Line.heard line.new).coming ≡ (L.Line.heard line.old).coming }
{
    let start = lines.len();
    let end = take_all(lines, line)?;
    if lines.len() == start {
        lines.push('-')?;
    }
    Ok(end)
}

/// Takes and adds the symbols that are left of the present reception; the fault that ends it, or none at a whole end.
fn take_all<L: Line>(lines: &mut String, line: &mut L) -> Result<Option<Fault>, AllocError>
    ensures ending { IfOk result (λ end. end ≡ fault_of (L.Line.heard line.old).present.ending) }
    ensures symbols { OnOk result (string_bytes lines.new ≡ string_bytes lines.old ++ all_symbols (L.Line.heard line.old).present.symbols) }
    ensures coming { (L.Line.heard line.new).coming ≡ (L.Line.heard line.old).coming }
{
    // the three answers of a take leave in three ways, and its fault is no error here
    loop {
        match line.take() {
            Ok(Some(symbol)) => push_symbol(lines, symbol)?,
            Ok(None) => return Ok(None),
            Err(fault) => return Ok(Some(fault)),
        }
    }
}

/// Adds a symbol in capital hex, or `??` where it is spoiled.
fn push_symbol(lines: &mut String, symbol: Symbol) -> Result<(), AllocError>
    ensures { OnOk result (string_bytes lines.new ≡ string_bytes lines.old ++ symbol_text symbol) }
{
    match symbol {
        Symbol::Clean(octet) => push_octet(lines, octet),
        Symbol::Spoiled => lines.push_str("??"),
    }
}

// Not `Hex`, which for a single octet costs as much as for thirty.
fn push_octet(lines: &mut String, octet: u8) -> Result<(), AllocError>
    ensures { OnOk result (string_bytes lines.new ≡ string_bytes lines.old ++ octet_text octet) }
{
    let [high, low] = digits(octet);
    lines.push(char::from(high))?;
    lines.push(char::from(low))
}
