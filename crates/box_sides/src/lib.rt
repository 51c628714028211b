// An extent that lies wholly on one side of a plane answers for all its patches.
#![tactic(auto)]

ghost use Rattle.geometry.specs.Machine.{Bounded};
ghost use Rattle.boxes.specs.Boxes.{wide, BoxBounded};
ghost use Rattle.boxes.specs.Enclosed.{ExtentBounded, ChildExtent};
ghost use Rattle.halfspaces.specs.Sides.{PlaneBounded};
ghost use Rattle.box_sides.specs.Beyond.{EndBy, CornerBy, FreeAxis, FreeSays, LeastNumber, AllHeld, Settled};

use boxes::{Bounds, Corner, Extent, wide};
use geometry::Vector;
use halfspaces::planes::{Plane, Sides, side_of};

// the end of an axis where n · c is least
fn end_by(n: i64, low: i16, high: i16) -> i16
    ensures { EndBy n low high result }
{
    if n < 0 { high } else { low }
}

// the corner of a box where normal · c is least; with low and high exchanged, where it is greatest
fn corner_by(normal: Vector, low: Corner, high: Corner) -> Corner
    requires { Bounded 800000000 normal × Bounded 10000 (wide low) × Bounded 10000 (wide high) }
    ensures { CornerBy normal low high result }
{
    Corner {
        x: end_by(normal.x, low.x, high.x),
        y: end_by(normal.y, low.y, high.y),
        z: end_by(normal.z, low.z, high.z),
    }
}

// along this axis, which the normal is not square to, no patch lies in an end of the outer box: each reaches down and up from the ends
fn free_axis(n: i64, low: i16, high: i16, down: i16, up: i16) -> bool
    ensures { FreeAxis n low high down up result }
{
    low < up && down < high && n != 0
}

// there is such an axis, so that no patch lies wholly in a plane that only touches the outer box
fn some_free(e: Extent, normal: Vector) -> bool
    requires { ExtentBounded e × Bounded 800000000 normal }
    ensures { FreeSays e normal result }
{
    let o = e.outer;
    let i = e.inner;
    free_axis(normal.x, o.low.x, o.high.x, i.low.x, i.high.x)
        || free_axis(normal.y, o.low.y, o.high.y, i.low.y, i.high.y)
        || free_axis(normal.z, o.low.z, o.high.z, i.low.z, i.high.z)
}

// the least number in a box: of the side numbers for the front, else of their opposites
fn least_number(b: Bounds, plane: Plane, front: bool) -> i64
    requires { BoxBounded b × PlaneBounded plane }
    ensures { LeastNumber b plane front result }
{
    if front {
        side_of(plane, wide(corner_by(plane.normal, b.low, b.high)))
    } else {
        -side_of(plane, wide(corner_by(plane.normal, b.high, b.low)))
    }
}

// all patches enclosed have corners on just the side that is wanted, or on that and the plane
fn all_held(e: Extent, plane: Plane, wanted: Sides) -> bool
    requires { ExtentBounded e × PlaneBounded plane }
    ensures { AllHeld e plane wanted result }
{
    if wanted.negative == wanted.positive {
        return false;
    }
    let z = least_number(e.outer, plane, wanted.positive);
    0 < z || z == 0 && some_free(e, plane.normal)
}

// nothing at and below node k is left to look at: there is no such node, or its extent answers for all
pub fn settled(nodes: usize, k: usize, plane: Plane, wanted: Sides, boxes: &[Extent]) -> bool
    requires { PlaneBounded plane × ChildExtent nodes k boxes.now }
    ensures { Settled nodes k boxes.now plane wanted result }
{
    nodes <= k || all_held(boxes[k], plane, wanted)
}
