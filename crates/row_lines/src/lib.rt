// A row of unlit segments, its words of the lit map and its cells, written as a line, and spans laid with what they report: for the programs that show how spans are laid.
#![tactic(auto)]

ghost use Rattle.std.specs.Prelude.{◌≡◌, Bool, ℕ, ◌≤◌, [], length};
ghost use Rattle.model.specs.Row.{row_of, after_span};
ghost use Rattle.model.specs.Map.{map_row};
ghost use Rattle.laying.specs.Laid.{Lays};
ghost use Rattle.rows.specs.Span.{UnderWork};
ghost use Rattle.row_lines.specs.Line.{row_line};
ghost use Rattle.row_lines.specs.Told.{reported, Told, WritesTold};
ghost use Rattle.console.specs.Writing.{WroteOrTold};

use arrayvec::ArrayVec;
use console::write_or_tell;
use numerals::{put_each, put_numbers};
use rows::{Laid, RowUnderWork};
use std::io::{Result, Write};
use text::{put_number, put_text};

// Room for every line: what laying a span reports, the 256 numbers of a row's pairs, its words, and as many cells.
const ROOM: usize = 8192;

// What laying reported, in the order that a line tells it in.
fn report(laid: Laid) -> [u16; 3]
    ensures { result ≡ reported laid.full laid.lit laid.looked }
{
    [laid.looked, laid.lit, u16::from(laid.full)]
}

// The line of a row, put into an empty one: its number and those reported, the used pairs, the words of the lit map and the cells. Handed out, a line would be moved once for
// each function that it passes, and each move takes as long as a hundred numbers.
// It is lent the row's pairs and words and not the row: the proof needs that each number fits its width, which is known of an array that is lent and was not found of one in a struct.
#[tactic(auto, using(crate::proofs::Used::used_whole), unfolding(crate::specs::Line::beginning, crate::specs::Line::fields))]
fn put_row(
    line: &mut ArrayVec<u8, ROOM>,
    number: u32,
    reported: &[u16],
    pairs: &[u16; 256],
    words: &[u64; 4],
    cells: &[u16],
)
    requires { (line.old.items ≡ []) × (length reported.now ≤ 3) × (length cells.now ≤ 256) }
    ensures { line.new.items ≡ row_line number reported.now pairs.now words.now cells.now }
{
    put_number(line, number);
    put_numbers(line, reported);
    line.push(b':');
    put_numbers(line, rows::used_pairs(pairs, 0));
    put_text(line, b" |");
    put_each(line, words);
    put_text(line, b" |");
    put_numbers(line, cells);
    line.push(b'\n');
}

// Writes a row's line, and nothing else. Where that fails, the message goes to the other output.
pub fn write_row<W: Write, E: Write>(
    output: &mut W,
    errors: &mut E,
    number: u32,
    reported: &[u16],
    row: &RowUnderWork,
    cells: &[u16],
    message: &[u8],
) -> Result<()>
    requires { (length reported.now ≤ 3) × (length cells.now ≤ 256) }
    ensures { WroteOrTold (W.contents output.old) (W.contents output.new) (row_line number reported.now row.now.pairs row.now.words cells.now)
        (E.contents errors.old) (E.contents errors.new) message.now result }
{
    let mut line = ArrayVec::new();
    put_row(&mut line, number, reported, &row.pairs, &row.words, cells);
    write_or_tell(output, line.as_slice(), errors, message)
}

// Lays a span, and puts the line that tells of it: what laying it reported, the row, its words and its cells.
fn lay_and_put(
    line: &mut ArrayVec<u8, ROOM>,
    number: u32,
    row: &mut RowUnderWork,
    cells: &mut [u16],
    first: u16,
    last: u16,
    panel: u16,
)
    requires { (line.old.items ≡ []) × UnderWork (length cells.old) row.old.pairs row.old.words }
    ensures laid { (unlit : ℕ → Bool) → row.old.pairs ≡ row_of (length cells.old) unlit →
        Lays unlit first last panel cells.old row.new.pairs cells.new }
    ensures mapped { (unlit : ℕ → Bool) → row.old.pairs ≡ row_of (length cells.old) unlit →
        row.new.words ≡ map_row (length cells.old) (after_span unlit first last) }
    ensures told { (unlit : ℕ → Bool) → row.old.pairs ≡ row_of (length cells.old) unlit →
        Told unlit first last (length cells.old) number row.new.pairs row.new.words cells.new line.new.items }
{
    let laid = row.lay(cells, first, last, panel);
    put_row(line, number, &report(laid), &row.pairs, &row.words, cells);
}

// Lays a span, and writes after it the line that tells of it. Where that fails, the message goes to the other output.
pub fn lay_and_write<W: Write, E: Write>(
    output: &mut W,
    errors: &mut E,
    number: u32,
    row: &mut RowUnderWork,
    cells: &mut [u16],
    first: u16,
    last: u16,
    panel: u16,
    message: &[u8],
) -> Result<()>
    requires { UnderWork (length cells.old) row.old.pairs row.old.words }
    ensures laid { (unlit : ℕ → Bool) → row.old.pairs ≡ row_of (length cells.old) unlit →
        Lays unlit first last panel cells.old row.new.pairs cells.new }
    ensures mapped { (unlit : ℕ → Bool) → row.old.pairs ≡ row_of (length cells.old) unlit →
        row.new.words ≡ map_row (length cells.old) (after_span unlit first last) }
    ensures written { (unlit : ℕ → Bool) → row.old.pairs ≡ row_of (length cells.old) unlit →
        WritesTold unlit first last (length cells.old) number row.new.pairs row.new.words cells.new
        (W.contents output.old) (W.contents output.new) (E.contents errors.old) (E.contents errors.new) message.now result }
{
    let mut line = ArrayVec::new();
    lay_and_put(&mut line, number, row, cells, first, last, panel);
    write_or_tell(output, line.as_slice(), errors, message)
}
