// Cells: a run of them painted, and all of them cleared.
#![tactic(auto)]

ghost use Rattle.std.specs.Prelude.{◌≡◌, cond, ◌≤◌, ◌<◌, length, ltb, replicate};
ghost use Rattle.segments.specs.Columns.{in_span, painted};

// A function of its own: tried as an `if` in the loop, it is compiled into a jump for each cell.
fn chosen(inside: bool, panel: u16, cell: u16) -> u16
    ensures { result ≡ cond inside panel cell }
{
    if inside { panel } else { cell }
}

// A run of at most eight cells: eight are written, each with the panel or with what it held, so that no jump depends on the run's length.
fn paint_eight(eight: &mut [u16], count: u16, panel: u16)
    requires { length eight.old ≡ 8 }
    ensures { eight.new ≡ painted (λ i. ltb i count) panel eight.old }
{
    for i in 0..8u16 {
        let at = usize::from(i);
        eight[at] = chosen(i < count, panel, eight[at]);
    }
}

// Paints the cells from `from` to `to`.
pub fn paint(cells: &mut [u16], from: u16, to: u16, panel: u16)
    requires { (from ≤ to) × (to < length cells.old) }
    ensures { cells.new ≡ painted (in_span from to) panel cells.old }
{
    let start = usize::from(from);
    if to - from < 8 && start + 8 <= cells.len() {
        paint_eight(&mut cells[start..start + 8], to - from + 1, panel);
    } else {
        cells[start..=usize::from(to)].fill(panel);
    }
}

// Clears all cells of a picture. A loop here and in the next function, as its invariant speaks of each cell: so a cell that is left out is told from the others.
pub fn clear(cells: &mut [u16])
    ensures { cells.new ≡ replicate (length cells.old) 0 }
{
    for i in 0..cells.len() {
        cells[i] = 0;
    }
}

// The same for a table of counts: patches that no row shows are never booked, so that their entries are 0 from here on, whatever the table held.
pub fn clear_table(booked: &mut [u32])
    ensures { booked.new ≡ replicate (length booked.old) 0 }
{
    for n in 0..booked.len() {
        booked[n] = 0;
    }
}
