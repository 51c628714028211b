// The edge functions of a patch by their slopes along a row. A level one, that of an edge along the rows, is the same in all columns: it tells whole rows, once for all.
#![tactic(auto)]

ghost use Rattle.slopes.specs.Sloped.{OneAsked, KeepsOne};

use geometry::EdgeFunction;
use spans::{Span, clip_any};

// How many functions have a slope, and the rows that the others leave. The functions stand in a table that the caller lends, and not here in a list of their own: so this is
// copied, and a table may be of any length.
#[derive(Clone, Copy)]
pub struct Sloped {
    pub count: usize,
    pub reach: Span,
}

// One function more: where it has a slope it is kept, behind those kept before, and where it has none the rows are left out in which it is not above 0, so that it need not
// be asked in any.
pub fn keep_one(f: EdgeFunction, held: Sloped, kept: &mut [EdgeFunction]) -> Sloped
    requires { OneAsked f held kept.old }
    ensures { KeepsOne f held kept.old kept.new result }
{
    if f.slope == 0 {
        Sloped {
            count: held.count,
            reach: clip_any(held.reach, f.drop, f.start),
        }
    } else {
        kept[held.count] = f;
        Sloped {
            count: held.count + 1,
            reach: held.reach,
        }
    }
}
