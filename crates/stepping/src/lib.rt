// A span of columns is laid on one segment of a row.
#![tactic(auto)]

ghost use Rattle.std.specs.Prelude.{◌≡◌, ◌-◌, ◌≤◌};
ghost use Rattle.segments.specs.Segments.{segment_at};
ghost use Rattle.pairs.specs.Pairs.{segment};
ghost use Rattle.stepping.specs.Step.{Overlaps, Keeps, Reached, Steps};

use cells::paint;
use pairs::{Pair, insert, pair_at, remove, set_pair};
use positions::{Action, action_for};

#[derive(Clone, Copy)]
pub struct Step {
    // The number of the next segment. It stands beside the flag, and not in an `Option`, as it is told where the span goes no further too.
    pub next: usize,
    // Whether the span may meet that segment.
    pub go: bool,
    // How many cells of this one the span lit.
    pub lit: u16,
}

// The columns from `start` on and before `end`.
fn columns(start: u16, end: u16) -> Pair
    requires { start ≤ end }
    ensures { segment result ≡ record { offset = start; count = end - start } }
{
    Pair {
        offset: start,
        count: end - start,
    }
}

// What the span leaves of segment k, which it meets. The end is read first: the columns after the span keep it.
fn keep(row: &mut [u16; 256], k: usize, first: u16, last: u16, a: Action)
    requires { Overlaps k first last (segment_at row.old k) a.before a.after }
    ensures { Keeps k first last row.old row.new }
{
    let p = pair_at(row, k);
    let end = p.offset + p.count;
    match (a.before, a.after) {
        (true, true) => {
            set_pair(row, k, columns(p.offset, first));
            insert(row, k + 1, columns(last + 1, end));
        }
        (true, false) => set_pair(row, k, columns(p.offset, first)),
        (false, true) => set_pair(row, k, columns(last + 1, end)),
        (false, false) => remove(row, k),
    }
}

pub fn lay_on(
    row: &mut [u16; 256],
    cells: &mut [u16],
    k: usize,
    first: u16,
    last: u16,
    panel: u16,
) -> Step
    requires { Reached k first last row.old cells.old }
    ensures { Steps k first last panel row.old cells.old
        row.new cells.new result.next result.go result.lit }
{
    let p = pair_at(row, k);
    let max = p.offset + (p.count - 1);
    let a = action_for(first, last, p.offset, max);
    let next = k + usize::from(a.before);
    if a.paint {
        let from = first.max(p.offset);
        let to = last.min(max);
        let lit = to - from + 1;
        paint(cells, from, to, panel);
        keep(row, k, first, last, a);
        Step {
            next,
            go: a.next,
            lit,
        }
    } else {
        Step {
            next,
            go: a.next,
            lit: 0,
        }
    }
}
