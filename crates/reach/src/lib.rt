// The rows of a raster that a patch can be met in, and whether it lies beside all of its columns.
#![tactic(auto)]

ghost use Rattle.std.specs.Prelude.{◌↔◌, T, pos, ◌-ℤ◌};
ghost use Rattle.integer.specs.Magnitude.{Within};
ghost use Rattle.model.specs.Vector.{cross};
ghost use Rattle.model.specs.Format.{decode, patch_numbered};
ghost use Rattle.geometry.specs.Machine.{vec_of, Bounded, VectorIs};
ghost use Rattle.geometry.specs.Raster.{RasterBounded};
ghost use Rattle.spans.specs.Span.{Limited, Linear};
ghost use Rattle.reach.specs.Planes.{PlanesOf, RasterPlanesOf, Sighting};
ghost use Rattle.reach.specs.Reach.{SidesShaped, SidesClipped, SidesBeside, Without, Reach};
ghost use Rattle.reach.specs.Columns.{number_of, CommonSign, OneSided, MissedBeside};

use checked::CheckedScene;
use geometry::{Raster, Vector, eye_product};
use spans::{Span, clip_any};

// The planes that the rows of a raster lie in, with the eye, or those that its columns lie in, by their normals: first + k · next for row or column k.
#[derive(Clone, Copy)]
pub struct Planes {
    pub first: Vector,
    pub next: Vector,
}

#[derive(Clone, Copy)]
pub struct RasterPlanes {
    pub rows: Planes,
    pub columns: Planes,
}

// The rows in which every corner lies ahead of the row's plane, where its normal points to, and those in which every corner lies behind it.
#[derive(Clone, Copy)]
struct Sides {
    ahead: Span,
    behind: Span,
}

// u × v, of vectors of a raster. It stands beside geometry's, which promises other bounds: one for both would ask each caller to work out its own.
fn cross_product(u: Vector, v: Vector) -> Vector
    requires { Bounded 200 u × Bounded 563000 v }
    ensures { VectorIs 225200000 (cross (vec_of u) (vec_of v)) result }
{
    Vector {
        x: arithmetic::cross_part(u.y, v.z, u.z, v.y),
        y: arithmetic::cross_part(u.z, v.x, u.x, v.z),
        z: arithmetic::cross_part(u.x, v.y, u.y, v.x),
    }
}

// The planes of rows or columns that the rays go along in one direction, and that follow each other in another.
fn planes_along(origin: Vector, along: Vector, next: Vector) -> Planes
    requires { Bounded 563000 origin × Bounded 200 along × Bounded 200 next }
    ensures { PlanesOf (vec_of origin) (vec_of along) (vec_of next) result }
{
    Planes {
        first: cross_product(along, origin),
        next: cross_product(along, next),
    }
}

// by four cross products, once a picture
pub fn planes_of(raster: Raster) -> RasterPlanes
    requires { RasterBounded raster }
    ensures { RasterPlanesOf raster result }
{
    RasterPlanes {
        rows: planes_along(raster.origin, raster.across, raster.down),
        columns: planes_along(raster.origin, raster.down, raster.across),
    }
}

// One more corner: it lies ahead of row j's plane where slope · j + start is above 0, and behind it where that is below 0.
fn clip_sides(sides: Sides, slope: i64, start: i64) -> Sides
    requires { SidesShaped 1024 sides × Linear slope start }
    ensures { SidesClipped slope start sides result }
{
    Sides {
        ahead: clip_any(sides.ahead, slope, start),
        behind: clip_any(sides.behind, -slope, -start),
    }
}

// the rows whose planes have all corners of a patch on one side
fn rows_beside(
    scene: &CheckedScene,
    k: usize,
    eye: Vector,
    raster: Raster,
    planes: RasterPlanes,
) -> Sides
    requires { Sighting scene.now.bytes.now scene.now.layout k eye raster planes }
    ensures { SidesBeside (vec_of eye) planes.rows (patch_numbered (decode scene.now.bytes.now) k).corners raster.height result }
{
    let run = scene.corner_run(k);
    let all = Span {
        first: 0,
        end: raster.height,
    };
    let mut sides = Sides {
        ahead: all,
        behind: all,
    };
    for i in 0..run.count {
        let corner = scene.corner(run.first + i);
        let start = eye_product(eye, corner, planes.rows.first);
        let slope = eye_product(eye, corner, planes.rows.next);
        sides = clip_sides(sides, slope, start);
    }
    sides
}

// The rows without those of a span at one of their ends.
fn without(rows: Span, s: Span) -> Span
    ensures { Without rows s result }
{
    if s.first <= rows.first {
        Span {
            first: rows.first.max(s.end),
            end: rows.end,
        }
    } else if rows.end <= s.end {
        Span {
            first: rows.first,
            end: s.first,
        }
    } else {
        rows
    }
}

// A row whose plane has all corners on one side does not meet the patch, nor do the lines just beside its rays: what is left without these is the patch's reach. A
// row whose plane only touches the patch stays, as those lines may meet it.
pub fn patch_rows(
    scene: &CheckedScene,
    k: usize,
    eye: Vector,
    raster: Raster,
    planes: RasterPlanes,
) -> Span
    requires { Sighting scene.now.bytes.now scene.now.layout k eye raster planes }
    ensures reach { Reach (vec_of eye) raster (patch_numbered (decode scene.now.bytes.now) k) result }
    ensures limited { Limited raster.height result }
{
    let sides = rows_beside(scene, k, eye, raster, planes);
    let all = Span {
        first: 0,
        end: raster.height,
    };
    without(without(all, sides.ahead), sides.behind)
}

// The sign that the number of a corner has both for the plane of the first column and for that of the last: 1 ahead of both, −1 behind both. 0 where it has not the same
// sign for both, or is 0.
fn common_sign(eye: Vector, corner: Vector, planes: Planes, last: i64) -> i64
    requires { Bounded 10000 eye × Bounded 10000 corner × Bounded 800000000 planes.first × Bounded 800000000 planes.next × Within 1025 last }
    ensures { CommonSign (number_of (vec_of eye) planes (vec_of corner) (pos 0)) (number_of (vec_of eye) planes (vec_of corner) last) result }
{
    let start = eye_product(eye, corner, planes.first);
    let slope = eye_product(eye, corner, planes.next);
    let side = arithmetic::sign(start);
    if arithmetic::sign(slope * last + start) == side {
        side
    } else {
        0
    }
}

// Whether all corners of a patch lie on one side of the planes of all columns. It is enough to ask the first column and the last, as a corner's number changes evenly
// from column to column. For most patches in sight the first corner says no.
pub fn beside_columns(
    scene: &CheckedScene,
    k: usize,
    eye: Vector,
    raster: Raster,
    planes: RasterPlanes,
) -> bool
    requires { Sighting scene.now.bytes.now scene.now.layout k eye raster planes }
    ensures exact { T result ↔ OneSided (vec_of eye) planes.columns (pos raster.width -ℤ pos 1) (patch_numbered (decode scene.now.bytes.now) k).corners }
    ensures missed { T result → MissedBeside (vec_of eye) raster (patch_numbered (decode scene.now.bytes.now) k) }
{
    let run = scene.corner_run(k);
    let last = raster.width as i64 - 1;
    let columns = planes.columns;
    let side = common_sign(eye, scene.corner(run.first), columns, last);
    side != 0
        && (1..run.count).all(|i| common_sign(eye, scene.corner(run.first + i), columns, last)
            == side)
}
