// The positions of a span, from I to J, against a segment, from Min to Max (document 01's eight positions).
#![tactic(auto)]

ghost use Rattle.std.specs.Prelude.{◌≤◌};
ghost use Rattle.positions.specs.Positions.{Acts};

// What to do with the segment: paint the columns that it shares with the span, keep those before the span,
// keep those after it, go on to the next segment. Four flags, not one of eight positions: none follows from the others.
#[derive(Clone, Copy)]
pub struct Action {
    pub paint: bool,
    pub before: bool,
    pub after: bool,
    pub next: bool,
}

// Most segments lie before the span or after it, which one comparison tells. In the six positions between, the starts are compared
// and the ends: no place among the eight is worked out, so that there is nothing for a compiler to look up in a table. One expression of these comparisons, with no early
// answer, was tried and is slower (docs/SPEED.md).
pub fn action_for(first: u16, last: u16, min: u16, max: u16) -> Action
    requires { (first ≤ last) × (min ≤ max) }
    ensures { Acts first last min max result.paint result.before result.after result.next }
{
    // position 8
    if max < first {
        return Action {
            paint: false,
            before: true,
            after: false,
            next: true,
        };
    }
    // position 1
    if last < min {
        return Action {
            paint: false,
            before: false,
            after: true,
            next: false,
        };
    }
    // columns before the span in positions 3, 5 and 7, columns after it in 2 and 3, on to the next segment in 6 and 7
    Action {
        paint: true,
        before: min < first,
        after: last < max,
        next: max < last,
    }
}
