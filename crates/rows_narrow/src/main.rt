// Lays spans on a row of 256 columns whose segments are as narrow and as many as they can be: panel 1 leaves 64 segments of three columns, and panel 2 splits each of them
// in its middle, which leaves 128 of one column. Panel 3 is laid over all of these by one span, and then, on a copy, over four of them alone, in each way that a span can meet
// one, and over the other 124 by one span. Writes after each step its number, the row's used pairs, its words of the lit map and its cells.
#![tactic(auto)]

ghost use Rattle.std.specs.Prelude.{length};
ghost use Rattle.rows.specs.Span.{UnderWork};

use row_lines::write_row;
use rows::RowUnderWork;

// Spans of one column, on every fourth column from the first of them on.
fn lay_every_fourth(row: &mut RowUnderWork, cells: &mut [u16], first: u16, panel: u16)
    requires { UnderWork (length cells.old) row.old.pairs row.old.words }
    ensures { UnderWork (length cells.new) row.new.pairs row.new.words }
{
    for column in (first..256).step_by(4) {
        row.lay(cells, column, column, panel);
    }
}

// The row after several spans: nothing is reported of it.
fn show(rt: &HostRuntime, step: u32, row: &RowUnderWork, cells: &[u16])
    requires { UnderWork (length cells.now) row.now.pairs row.now.words }
{
    let _written = write_row(
        &mut rt.stdout(),
        &mut rt.stderr(),
        step,
        &[],
        row,
        cells,
        b"rows_narrow: a row could not be written\n",
    );
}

// A span of panel 3.
fn lay_over(
    rt: &HostRuntime,
    step: u32,
    row: &mut RowUnderWork,
    cells: &mut [u16],
    first: u16,
    last: u16,
)
    requires { UnderWork (length cells.old) row.old.pairs row.old.words }
    ensures { UnderWork (length cells.new) row.new.pairs row.new.words }
{
    row.lay(cells, first, last, 3);
    show(rt, step, row, cells);
}

fn main(rt: HostRuntime) {
    let mut cells = [0u16; 256];
    let mut row = RowUnderWork::fresh(256);
    lay_every_fourth(&mut row, &mut cells, 3, 1);
    show(&rt, 1, &row, &cells);
    lay_every_fourth(&mut row, &mut cells, 1, 2);
    show(&rt, 2, &row, &cells);
    let mut other_cells = cells;
    let mut other = row;
    lay_over(&rt, 3, &mut row, &mut cells, 0, 255);
    // the segments of columns 20, 40, 60 and 80: met alone, from both sides, from before, and from behind; and then the others
    for (i, (first, last)) in [(20, 20), (39, 41), (59, 60), (80, 81), (0, 255)]
        .iter()
        .enumerate()
    {
        lay_over(
            &rt,
            4 + i as u32,
            &mut other,
            &mut other_cells,
            *first,
            *last,
        );
    }
}
