// Question 8 of patches of few corners, three or four, as most are. How many they are is known where the code is compiled, so that the corners stay in registers.
#![tactic(auto)]

ghost use Rattle.std.specs.Prelude.{◌≡◌, ◌<◌, ◌≤◌, ◌+◌, length};
ghost use Rattle.integer.specs.Magnitude.{Within};
ghost use Rattle.geometry.specs.Machine.{VectorIs};
ghost use Rattle.format.specs.Patch.{patch_of};
ghost use Rattle.model.specs.Patch.{flat, strictly_convex};
ghost use Rattle.polygons.specs.Bounds.{WithNormal, FoundFlat};
ghost use Rattle.polygons.specs.Tests.{patch_proper};
ghost use Rattle.projection.specs.Projected.{projected_of, ThreeWithin, turns_projected, wrap};
ghost use Rattle.small_polygons.specs.Few.{FewBounded, in_hand, patch_of_few, edges_asked};

use geometry::{Vector, plane_normal, side};
use projection::{Point, Projection, across, along, first_axis, turn_along};

// c is on the inner side of the edge from a to b
fn turns(projection: Projection, a: Point, b: Point, c: Point) -> bool
    requires { Within 800000000 projection.part × ThreeWithin (projected_of a) (projected_of b) (projected_of c) }
    ensures { result ≡ turns_projected projection.part (projected_of a) (projected_of b) (projected_of c) }
{
    0 < turn_along(projection, a, b, c)
}

// the place two after place k, read round
fn second_after(count: usize, k: usize) -> usize
    requires { (k < count) × (2 ≤ count) × (count ≤ 8) }
    ensures { (result ≡ wrap count (k + 2)) × (result < count) }
{
    let place = k + 2;
    if place < count { place } else { place - count }
}

// How many edges are asked: of three corners the first one tells of all, as three corners read round turn the same way.
fn edges_asked(count: usize) -> usize
    ensures { result ≡ edges_asked count }
{
    if count == 3 { 1 } else { count }
}

// the first three corners are on their plane
fn is_flat<const N: usize>(n: Vector, corners: &[Vector; N]) -> bool
    requires { WithNormal (in_hand corners.now) n }
    ensures { result ≡ flat (patch_of (in_hand corners.now)) }
{
    for k in 3..N {
        if side(n, corners[0], corners[k]) != 0 {
            return false;
        }
    }
    true
}

// Projected along the first axis that the plane is not parallel to, each edge asked has the next corner on its inner side.
fn turns_round<const N: usize>(n: Vector, corners: &[Vector; N]) -> bool
    requires { FoundFlat (in_hand corners.now) n × (length corners.now ≤ 4) }
    ensures { result ≡ strictly_convex (patch_of (in_hand corners.now)) }
{
    let axis = first_axis(n);
    let projection = Projection {
        part: along(axis, n),
        count: N,
    };
    let mut a = across(axis, corners[0]);
    let mut b = across(axis, corners[1]);
    for k in 0..edges_asked(N) {
        let c = across(axis, corners[second_after(N, k)]);
        if !turns(projection, a, b, c) {
            return false;
        }
        a = b;
        b = c;
    }
    true
}

pub fn few_proper<const N: usize>(corners: &[Vector; N]) -> bool
    requires { FewBounded corners.now }
    ensures { result ≡ patch_proper (patch_of_few corners.now) }
{
    let n = plane_normal(corners[0], corners[1], corners[2]);
    is_flat(n, corners) && turns_round(n, corners)
}
