// A span of columns is laid on the segments of a row, one after the other.
#![tactic(auto)]

ghost use Rattle.std.specs.Prelude.{◌≡◌, Bool, ◌&&◌, ℕ, ◌≤◌, length};
ghost use Rattle.model.specs.Lists.{range, tally};
ghost use Rattle.model.specs.Row.{segments, row_of};
ghost use Rattle.segments.specs.Columns.{in_span};
ghost use Rattle.segments.specs.Looks.{looked_at};
ghost use Rattle.laying.specs.Laid.{Row, Lays, AllBefore};

use pairs::pair_at;
use stepping::lay_on;

// What a sweep counts.
#[derive(Clone, Copy)]
pub struct Swept {
    // The cells that it newly lit.
    pub lit: u16,
    // The segments that it looked at.
    pub looked: u16,
}

// How many segments at the front of a row end before a column. A loop of its own, as a row may have many: there is nothing in it but reading and comparing.
fn segments_before(row: &[u16; 256], column: u16) -> usize
    ensures { AllBefore row.now column result }
{
    for k in 0..128 {
        let p = pair_at(row, k);
        if p.count == 0 || usize::from(column) < usize::from(p.offset) + usize::from(p.count) {
            return k;
        }
    }
    128
}

// The segments are looked at in order, up to the first that ends at or after the span's end. There are at most 128. The cells
// that the span lights are counted segment by segment, so that no column is looked at for it.
pub fn sweep(row: &mut [u16; 256], cells: &mut [u16], first: u16, last: u16, panel: u16) -> Swept
    requires { (first ≤ last) × Row (length cells.old) row.old }
    ensures laid { (unlit : ℕ → Bool) → row.old ≡ row_of (length cells.old) unlit →
        Lays unlit first last panel cells.old row.new cells.new }
    ensures counted { (unlit : ℕ → Bool) → row.old ≡ row_of (length cells.old) unlit →
        result.lit ≡ tally (λ (i : ℕ). unlit i && in_span first last i) (range 0 (length cells.old)) }
    ensures looked { (unlit : ℕ → Bool) → row.old ≡ row_of (length cells.old) unlit →
        result.looked ≡ looked_at last (segments (length cells.old) unlit) }
{
    let before = segments_before(row, first);
    let mut k = before;
    let mut lit: u16 = 0;
    for looked in before..128 {
        let p = pair_at(row, k);
        if p.count == 0 {
            return Swept {
                lit,
                looked: looked as u16,
            };
        }
        let s = lay_on(row, cells, k, first, last, panel);
        lit += s.lit;
        if !s.go {
            return Swept {
                lit,
                looked: looked as u16 + 1,
            };
        }
        k = s.next;
    }
    Swept { lit, looked: 128 }
}
