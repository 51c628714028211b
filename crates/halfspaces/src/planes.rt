// Planes, and the sides of them.
ghost use Rattle.geometry.specs.Machine.{vec_of, plane_of, Bounded, NumberIs};
ghost use Rattle.checked.specs.Checked.{PointsBounded};
ghost use Rattle.halfspaces.specs.Sides.{PlaneBounded, PlaneIs, side_of};

use format::records::Node;
use geometry::{Vector, level, plane_normal};

// A plane by its normal and the product of that with its points, so that the side number of a point takes three products and one difference.
#[derive(Clone, Copy)]
pub struct Plane {
    pub normal: Vector,
    pub level: i64,
}

// on which sides of a plane some corner of a patch lies
#[derive(Clone, Copy, PartialEq)]
pub struct Sides {
    pub negative: bool,
    pub positive: bool,
}

impl Sides {
    // a patch on the plane, in front of it and behind it
    pub const ON: Sides = Sides {
        negative: false,
        positive: false,
    };

    pub const FRONT: Sides = Sides {
        negative: false,
        positive: true,
    };

    pub const BACK: Sides = Sides {
        negative: true,
        positive: false,
    };
}

pub fn plane_of(n: Node) -> Plane
    requires { PointsBounded n }
    ensures { PlaneIs (plane_of n.a n.b n.c) result }
{
    let normal = plane_normal(n.a, n.b, n.c);
    Plane {
        normal,
        level: level(normal, n.a),
    }
}

// the side number of a point
pub fn side_of(plane: Plane, p: Vector) -> i64
    requires { PlaneBounded plane × Bounded 10000 p }
    ensures { NumberIs 48000000000000 (side_of plane (vec_of p)) result }
{
    arithmetic::difference(level(plane.normal, p), plane.level)
}
