// Boxes along the axes, and the extents that two of them make.
#![tactic(auto)]

ghost use Rattle.std.specs.Prelude.{◌≡◌};
ghost use Rattle.geometry.specs.Machine.{Bounded};
ghost use Rattle.boxes.specs.Boxes.{wide, upward, downward, ExtremeCorner, BoxBounded, Joined, Common};

use geometry::Vector;

// A point. A part has two bytes, so that the extents of all nodes stay in the processor's nearest store.
#[derive(Clone, Copy, Default)]
pub struct Corner {
    pub x: i16,
    pub y: i16,
    pub z: i16,
}

#[derive(Clone, Copy, Default)]
pub struct Bounds {
    pub low: Corner,
    pub high: Corner,
}

// All corners of some patches lie in the outer box; along each axis each of the patches reaches both ends of the inner one.
#[derive(Clone, Copy, Default)]
pub struct Extent {
    pub outer: Bounds,
    pub inner: Bounds,
}

const ORIGIN: Corner = Corner { x: 0, y: 0, z: 0 };

const NO_BOX: Bounds = Bounds {
    low: ORIGIN,
    high: ORIGIN,
};

// What an entry of a list of extents holds before its own is written. A constant, so that a list of them is cleared as one run of bytes: a value that a call gives is
// stored entry by entry, which takes longer than all the rest of the questions on a small scene.
pub const UNWRITTEN: Extent = Extent {
    outer: NO_BOX,
    inner: NO_BOX,
};

pub fn wide(c: Corner) -> Vector
    ensures { result ≡ wide c }
{
    Vector {
        x: i64::from(c.x),
        y: i64::from(c.y),
        z: i64::from(c.z),
    }
}

pub fn narrow(v: Vector) -> Corner
    requires { Bounded 10000 v }
    ensures { wide result ≡ v }
{
    Corner {
        x: v.x as i16,
        y: v.y as i16,
        z: v.z as i16,
    }
}

// The lesser of two corners' parts on each axis. One function for this and the greater would be told which at each of its four calls, and be no plainer.
fn least_corner(u: Corner, v: Corner) -> Corner
    requires { Bounded 10000 (wide u) × Bounded 10000 (wide v) }
    ensures { ExtremeCorner upward u v result }
{
    Corner {
        x: u.x.min(v.x),
        y: u.y.min(v.y),
        z: u.z.min(v.z),
    }
}

// and the greater
fn greatest_corner(u: Corner, v: Corner) -> Corner
    requires { Bounded 10000 (wide u) × Bounded 10000 (wide v) }
    ensures { ExtremeCorner downward u v result }
{
    Corner {
        x: u.x.max(v.x),
        y: u.y.max(v.y),
        z: u.z.max(v.z),
    }
}

// the least box that holds both
pub fn joined_box(b: Bounds, c: Bounds) -> Bounds
    requires { BoxBounded b × BoxBounded c }
    ensures { Joined b c result }
{
    Bounds {
        low: least_corner(b.low, c.low),
        high: greatest_corner(b.high, c.high),
    }
}

// the box that both hold
pub fn common_box(b: Bounds, c: Bounds) -> Bounds
    requires { BoxBounded b × BoxBounded c }
    ensures { Common b c result }
{
    Bounds {
        low: greatest_corner(b.low, c.low),
        high: least_corner(b.high, c.high),
    }
}
