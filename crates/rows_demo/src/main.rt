// Lays a span on a row of 16 columns whose segments are columns 4 to 11 and 14 to 15: in each of the eight positions against the first of them, then up to a column that is lit and on such columns alone,
// at the row's end and beyond it, wholly beyond it, and without a column; and then one over all of the row, and one on the row that is full. Writes after each its number, what laying it reported (the segments looked at, the
// cells newly lit, 1 where no column is unlit any more), the row's used pairs, its words of the lit map, and its cells: 1 beside the segments, 2 in the span.
#![tactic(auto)]

ghost use Rattle.std.specs.Prelude.{◌≡◌, ◌+◌, ◌≤◌, length};
ghost use Rattle.rows.specs.Span.{UnderWork};

use row_lines::lay_and_write;
use rows::RowUnderWork;

// The row with its two segments.
fn two_segments(cells: &mut [u16]) -> RowUnderWork
    requires { length cells.old ≡ 16 }
    ensures { UnderWork (length cells.new) result.pairs result.words }
{
    let mut row = RowUnderWork::fresh(16);
    row.lay(cells, 0, 3, 1);
    row.lay(cells, 12, 13, 1);
    row
}

// The spans that are laid each on a row of its own: in each of the eight positions, and then the others in order.
const ALONE: [(u16, u16); 14] = [
    (1, 2),
    (2, 6),
    (6, 8),
    (2, 11),
    (6, 11),
    (2, 14),
    (6, 14),
    (12, 14),
    (2, 12),
    (12, 13),
    (15, 15),
    (14, 20),
    (16, 65535),
    (9, 8),
];

// A span of panel 2.
fn lay_over(
    rt: &HostRuntime,
    number: u32,
    row: &mut RowUnderWork,
    cells: &mut [u16],
    first: u16,
    last: u16,
)
    requires { UnderWork (length cells.old) row.old.pairs row.old.words }
    ensures { UnderWork (length cells.new) row.new.pairs row.new.words }
{
    let _written = lay_and_write(
        &mut rt.stdout(),
        &mut rt.stderr(),
        number,
        row,
        cells,
        first,
        last,
        2,
        b"rows_demo: a row could not be written\n",
    );
}

// Spans on a fresh row with its two segments, one after the other; the first of them is told with this number.
fn show(rt: &HostRuntime, number: u32, spans: &[(u16, u16)])
    requires { number + length spans.now ≤ 65536 }
{
    let mut cells = [0u16; 16];
    let mut row = two_segments(&mut cells);
    for (i, (first, last)) in spans.iter().enumerate() {
        lay_over(rt, number + i as u32, &mut row, &mut cells, *first, *last);
    }
}

fn main(rt: HostRuntime) {
    for (i, span) in ALONE.iter().enumerate() {
        show(&rt, i as u32 + 1, &[*span]);
    }
    show(&rt, 15, &[(0, 15), (3, 5)]);
}
