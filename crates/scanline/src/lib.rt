// A patch in one row of the picture: its span is found and laid on the row's unlit columns.
#![tactic(auto)]

ghost use Rattle.std.specs.Prelude.{ℕ, ◌≤◌, length};
ghost use Rattle.spans.specs.Span.{covers};
ghost use Rattle.spans.specs.Row.{FunctionRun, all_above};
ghost use Rattle.laying.specs.Laid.{Row};
ghost use Rattle.rows.specs.Span.{UnderWork};
ghost use Rattle.scanline.specs.Laying.{UnlitHull, LitGap, ColumnsLaid};

use geometry::EdgeFunction;
use pairs::pair_at;
use rows::RowUnderWork;
use spans::{Span, row_span};

// The columns from the first unlit one on; up to the end of the first segment where the row has no other.
fn unlit_hull(pairs: &[u16; 256], width: usize) -> Span
    requires { Row width pairs.now }
    ensures { UnlitHull width pairs.now result }
{
    let first = pairs[0] as usize;
    if pairs[3] == 0 {
        return Span {
            first,
            end: first + pairs[1] as usize,
        };
    }
    Span { first, end: width }
}

// The lit columns between the first two segments; none where the row has no second.
fn lit_gap(pairs: &[u16; 256], width: usize) -> Span
    requires { Row width pairs.now }
    ensures { LitGap width pairs.now result }
{
    let one = pair_at(pairs, 0);
    let two = pair_at(pairs, 1);
    Span {
        first: one.offset as usize + one.count as usize,
        end: two.offset as usize,
    }
}

// Lays a span on a row, unless it is empty, and says how many cells it newly lit.
fn lay_span(span: Span, panel: u16, row: &mut RowUnderWork, cells: &mut [u16]) -> u16
    requires { (span.end ≤ length cells.old) × UnderWork (length cells.old) row.old.pairs row.old.words }
    ensures { ColumnsLaid (covers span) panel row.old.pairs row.old.words cells.old
        row.new.pairs row.new.words cells.new result }
{
    let first = span.first;
    let end = span.end;
    if end <= first {
        return 0;
    }
    let laid = row.lay(cells, first as u16, (end - 1) as u16, panel);
    laid.lit
}

// Paints the panel in row j where some edge functions are all above 0, over the columns that are unlit, and says how many it newly lit. The span is sought
// from the first of these on, and beside the lit ones after it: a column that shows a patch already need not be told.
pub fn lay_patch(
    functions: &[EdgeFunction],
    panel: u16,
    j: usize,
    row: &mut RowUnderWork,
    cells: &mut [u16],
) -> u16
    requires { FunctionRun functions.now × (j ≤ 1024) × UnderWork (length cells.old) row.old.pairs row.old.words }
    ensures { ColumnsLaid (λ (i : ℕ). all_above functions.now i j) panel
        row.old.pairs row.old.words cells.old row.new.pairs row.new.words cells.new result }
{
    let hull = unlit_hull(&row.pairs, cells.len());
    let lit = lit_gap(&row.pairs, cells.len());
    let span = row_span(functions, j, hull, lit);
    lay_span(span, panel, row, cells)
}
