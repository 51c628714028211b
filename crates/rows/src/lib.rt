// A row of unlit segments and its words of the lit map: built, painted over by spans of columns, handed out.
#![tactic(auto)]

ghost use Rattle.std.specs.Prelude.{◌≡◌, Bool, true, ◌&&◌, [], ◌∷◌, ℕ, ◌≤◌, length};
ghost use Rattle.model.specs.Lists.{range, tally};
ghost use Rattle.model.specs.Row.{row_of, used_part, after_span};
ghost use Rattle.model.specs.Map.{map_row, SameCells};
ghost use Rattle.segments.specs.Columns.{in_span};
ghost use Rattle.lighting.specs.Words.{Words};
ghost use Rattle.laying.specs.Laid.{Lays};
ghost use Rattle.rows.specs.Span.{UnderWork, Reports};

use laying::sweep;
use lighting::light;
use pairs::used_part;

// What laying a span reports.
#[derive(Clone, Copy)]
pub struct Laid {
    // No column of the row is unlit any more.
    pub full: bool,
    // How many cells it newly lit: the columns of the span that were unlit.
    pub lit: u16,
    // How many of the row's segments it looked at.
    pub looked: u16,
}

// Lights a span in the words of its row, unless it newly lit no cell: then they are as they were.
fn light_new(words: &mut [u64; 4], lit: u16, width: usize, first: u16, last: u16)
    requires { (width ≤ 256) × Words width words.old }
    ensures { (unlit : ℕ → Bool) → lit ≡ tally (λ (i : ℕ). unlit i && in_span first last i) (range 0 width) →
        words.old ≡ map_row width unlit → words.new ≡ map_row width (after_span unlit first last) }
{
    if lit != 0 {
        light(words, width, first, last);
    }
}

// A row under work: the pairs of its unlit segments, and its words of the lit map.
#[derive(Clone, Copy)]
pub struct RowUnderWork {
    pub pairs: [u16; 256],
    pub words: [u64; 4],
}

impl RowUnderWork {
    // A row whose columns are all unlit. Its words of the lit map are four zeros.
    pub fn fresh(width: u16) -> RowUnderWork
        ensures fresh { result.pairs ≡ row_of width (λ i. true) }
        ensures zeros { result.words ≡ 0 ∷ 0 ∷ 0 ∷ 0 ∷ [] }
        ensures same { SameCells width result.pairs result.words }
    {
        let mut pairs = [0u16; 256];
        pairs[1] = width;
        RowUnderWork {
            pairs,
            words: [0u64; 4],
        }
    }

    // Lays the span of the columns `first` to `last` on a row, in place, and paints the panel into those that were unlit.
    // `cells` is the row's part of the picture; its length is the width, and the span may end beyond it. The span is lit in the row's words when it newly lit a cell. With `last` below
    // `first` the span is empty: it is not laid and looks at no segment. The pairs and the words must describe the same cells, as `fresh` and this function leave them: its callers hold no
    // others, and a test of them would cost as much as the work.
    pub fn lay(&mut self, cells: &mut [u16], first: u16, last: u16, panel: u16) -> Laid
        requires { UnderWork (length cells.old) self.old.pairs self.old.words }
        ensures laid { (unlit : ℕ → Bool) → self.old.pairs ≡ row_of (length cells.old) unlit →
            Lays unlit first last panel cells.old self.new.pairs cells.new }
        ensures reported { (unlit : ℕ → Bool) → self.old.pairs ≡ row_of (length cells.old) unlit →
            Reports unlit first last (length cells.old) result.full result.lit result.looked }
        ensures mapped { (unlit : ℕ → Bool) → self.old.pairs ≡ row_of (length cells.old) unlit →
            self.new.words ≡ map_row (length cells.old) (after_span unlit first last) }
        ensures same { SameCells (length cells.old) self.new.pairs self.new.words }
    {
        if first <= last {
            let width = cells.len();
            let swept = sweep(&mut self.pairs, cells, first, last, panel);
            light_new(&mut self.words, swept.lit, width, first, last);
            Laid {
                full: self.pairs[1] == 0,
                lit: swept.lit,
                looked: swept.looked,
            }
        } else {
            Laid {
                full: self.pairs[1] == 0,
                lit: 0,
                looked: 0,
            }
        }
    }
}

// The used pairs of a row of the unlit lists, as that part of them; the empty part where the row is not wholly inside.
pub fn used_pairs(unlit: &[u16], row: usize) -> &[u16]
    ensures { result.now ≡ used_part unlit.now row }
{
    if unlit.len() / 256 <= row {
        return &unlit[..0];
    }
    used_part(&unlit[256 * row..256 * row + 256])
}
