// The worst case of laying spans: those that look at the most segments of a row 256 wide, and at how many.
#![tactic(auto)]

ghost use Rattle.std.specs.Prelude.{◌≡◌};
ghost use Rattle.worst_case.specs.WorstCase.{worst_column, worst_span, worst_looks, bounds_together};

use rows::RowUnderWork;

// The columns of a span, both ends counted in, as `RowUnderWork::lay` takes them.
#[derive(Clone, Copy)]
pub struct Columns {
    pub first: u16,
    pub last: u16,
}

// Every other column, from 1 up to 255. The bounds come before the product, so that no k is too large for it.
fn worst_column(k: usize) -> u16
    ensures { result ≡ worst_column k }
{
    (2 * k.max(1).min(128) - 1) as u16
}

// The k-th span, from 1 on; 0 is taken as 1.
pub fn worst_span(k: usize) -> Columns
    ensures { (result.first ≡ (worst_span k).first) × (result.last ≡ (worst_span k).last) }
{
    let column = worst_column(k);
    Columns {
        first: column,
        last: column,
    }
}

// Lays the first n of these spans on a fresh row, in order, and returns the sum of what laying them reported: how many segments they looked at.
pub fn worst_looks(n: u32) -> u64
    ensures laid { result ≡ worst_looks n }
    ensures reached { result ≡ bounds_together n }
{
    let mut cells = [0u16; 256];
    let mut row = RowUnderWork::fresh(256);
    let mut looked: u64 = 0;
    for k in 0..n as usize {
        let span = worst_span(k + 1);
        let laid = row.lay(&mut cells, span.first, span.last, 1);
        looked += u64::from(laid.looked);
    }
    looked
}
