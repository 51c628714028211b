// The rows under work, written to the lent lists row after row.
#![tactic(auto)]

ghost use Rattle.std.specs.Prelude.{◌≡◌, get_or};
ghost use Rattle.rows.specs.Span.{no_row};
ghost use Rattle.lists.specs.Writing.{WritingAsked, row_after_row};

use rows::RowUnderWork;

// Writes the rows' pairs to the lent list of unlit segments, row after row.
pub fn write_rows(rows: &[RowUnderWork; 128], height: usize, unlit: &mut [u16])
    requires { WritingAsked 256 height unlit.old }
    ensures pairs { unlit.new ≡ row_after_row height (λ j. (get_or rows.now j no_row).pairs) }
{
    for j in 0..height {
        let row = &rows[j];
        unlit[j * 256..j * 256 + 256].copy_from_slice(&row.pairs);
    }
}

// Writes their words to the lent lit map, row after row. A function of its own: who wants one of the two lists need not lend the other.
pub fn write_maps(rows: &[RowUnderWork; 128], height: usize, lit: &mut [u64])
    requires { WritingAsked 4 height lit.old }
    ensures words { lit.new ≡ row_after_row height (λ j. (get_or rows.now j no_row).words) }
{
    for j in 0..height {
        let row = &rows[j];
        lit[j * 4..j * 4 + 4].copy_from_slice(&row.words);
    }
}
