// A flat patch projected along an axis: each corner by its two other coordinates.
#![tactic(auto)]

ghost use Rattle.std.specs.Prelude.{◌≡◌, ◌+◌, ◌≤◌, ◌<◌, ◌*ℤ◌};
ghost use Rattle.integer.specs.Magnitude.{Within};
ghost use Rattle.geometry.specs.Machine.{vec_of, Bounded, NumberIs};
ghost use Rattle.projection.specs.Projected.{first_axis, along, across, wrap, projected, projected_of, projected_at, ThreeWithin, ProjectionBounded, turn_part, asked, turns_projected_at, convex_projected};

use geometry::Vector;

// an axis of the scene
#[derive(Clone, Copy)]
pub enum Axis {
    X,
    Y,
    Z,
}

// the part of the patch's normal along the axis, and how many corners it has
#[derive(Clone, Copy)]
pub struct Projection {
    pub part: i64,
    pub count: usize,
}

// a corner projected along an axis: its two other coordinates
#[derive(Clone, Copy)]
pub struct Point {
    pub u: i64,
    pub v: i64,
}

fn point_of(u: i16, v: i16) -> Point
    ensures { projected_of result ≡ projected u v }
{
    Point {
        u: i64::from(u),
        v: i64::from(v),
    }
}

fn point_at<'a>(u: &'a [i16; 8], v: &'a [i16; 8], k: usize) -> Point
    requires { k < 8 }
    ensures { projected_of result ≡ projected_at u.now v.now k }
{
    point_of(u[k], v[k])
}

// The first axis that a plane with this normal is not parallel to. A normal without one is 0; its last axis is as good as any.
pub fn first_axis(normal: Vector) -> Axis
    requires { Bounded 800000000 normal }
    ensures { result ≡ first_axis (vec_of normal) }
{
    if normal.x != 0 {
        Axis::X
    } else if normal.y != 0 {
        Axis::Y
    } else {
        Axis::Z
    }
}

// the part of a vector along the axis
pub fn along(axis: Axis, v: Vector) -> i64
    ensures { result ≡ along axis (vec_of v) }
{
    match axis {
        Axis::X => v.x,
        Axis::Y => v.y,
        Axis::Z => v.z,
    }
}

// a corner projected along the axis, with its coordinates in the order of the cross product
pub fn across(axis: Axis, v: Vector) -> Point
    requires { Bounded 10000 v }
    ensures { projected_of result ≡ across axis (vec_of v) }
{
    match axis {
        Axis::X => Point { u: v.y, v: v.z },
        Axis::Y => Point { u: v.z, v: v.x },
        Axis::Z => Point { u: v.x, v: v.y },
    }
}

// the part of (b − a) × (c − a) along the axis
fn turn_part(a: Point, b: Point, c: Point) -> i64
    requires { ThreeWithin (projected_of a) (projected_of b) (projected_of c) }
    ensures { NumberIs 800000000 (turn_part (projected_of a) (projected_of b) (projected_of c)) result }
{
    arithmetic::cross_part(
        arithmetic::difference(b.u, a.u),
        arithmetic::difference(c.v, a.v),
        arithmetic::difference(b.v, a.v),
        arithmetic::difference(c.u, a.u),
    )
}

// Of corners on one plane it has the sign of n · ((b − a) × (c − a)), if the part of n along the axis is not 0.
pub fn turn_along(projection: Projection, a: Point, b: Point, c: Point) -> i64
    requires { Within 800000000 projection.part × ThreeWithin (projected_of a) (projected_of b) (projected_of c) }
    ensures { NumberIs 640000000000000000 (projection.part *ℤ turn_part (projected_of a) (projected_of b) (projected_of c)) result }
{
    arithmetic::product(projection.part, turn_part(a, b, c))
}

// a place of the corners, read round
fn wrapped(count: usize, place: usize) -> usize
    requires { place < count + count }
    ensures { (result ≡ wrap count place) × (result < count) }
{
    if place < count {
        return place;
    }
    place - count
}

// How many corners after an edge are asked. Of up to 4 the next one is enough: three corners read round turn the same way, so the turn to the
// last corner is the one that the edge before asks.
#[tactic(auto, unfolding(crate::specs::Projected::asked))]
fn asked_corners(count: usize) -> usize
    requires { 3 ≤ count }
    ensures { (result ≡ asked count) × (result + 2 ≤ count) }
{
    if count <= 4 {
        return 1;
    }
    count - 2
}

// the corners asked are on the inner side of the edge from corner k
fn turns_at_edge<'a>(projection: Projection, u: &'a [i16; 8], v: &'a [i16; 8], k: usize) -> bool
    requires { ProjectionBounded projection u.now v.now × (k < projection.count) }
    ensures { result ≡ turns_projected_at projection u.now v.now k }
{
    let count = projection.count;
    let a = point_at(u, v, k);
    let b = point_at(u, v, wrapped(count, k + 1));
    let others = asked_corners(count);
    for j in 0..others {
        let c = point_at(u, v, wrapped(count, k + 2 + j));
        if turn_along(projection, a, b, c) <= 0 {
            return false;
        }
    }
    true
}

// strictly convex, by its projection along an axis
pub fn convex_along<'a>(projection: Projection, u: &'a [i16; 8], v: &'a [i16; 8]) -> bool
    requires { ProjectionBounded projection u.now v.now }
    ensures { result ≡ convex_projected projection u.now v.now }
{
    for k in 0..projection.count {
        if !turns_at_edge(projection, u, v, k) {
            return false;
        }
    }
    true
}
