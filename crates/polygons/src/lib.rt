// Question 8 of a patch in hand, of 3 to 8 corners: is it flat and strictly convex?
#![tactic(auto)]

ghost use Rattle.std.specs.Prelude.{◌≡◌};
ghost use Rattle.geometry.specs.Machine.{VectorIs};
ghost use Rattle.format.specs.Patch.{patch_of};
ghost use Rattle.model.specs.Patch.{normal, flat, strictly_convex};
ghost use Rattle.polygons.specs.Bounds.{PatchBounded, WithNormal, FoundFlat};
ghost use Rattle.polygons.specs.Tests.{patch_proper};

use format::patch::{Patch, corner_of};
use geometry::{Vector, plane_normal, side};
use projection::{Axis, Projection, along, convex_along, first_axis};

fn patch_normal(p: Patch) -> Vector
    requires { PatchBounded p }
    ensures { VectorIs 800000000 (normal (patch_of p)) result }
{
    plane_normal(corner_of(p, 0), corner_of(p, 1), corner_of(p, 2))
}

fn is_flat(p: Patch, n: Vector) -> bool
    requires { WithNormal p n }
    ensures { result ≡ flat (patch_of p) }
{
    let a = corner_of(p, 0);
    // the first three are on their plane
    for k in 3..p.count {
        if side(n, a, corner_of(p, k)) != 0 {
            return false;
        }
    }
    true
}

// projected along the first axis that the plane is not parallel to
fn strictly_convex(p: Patch, n: Vector) -> bool
    requires { FoundFlat p n }
    ensures { result ≡ strictly_convex (patch_of p) }
{
    let axis = first_axis(n);
    let projection = Projection {
        part: along(axis, n),
        count: p.count,
    };
    match axis {
        Axis::X => convex_along(projection, &p.y, &p.z),
        Axis::Y => convex_along(projection, &p.z, &p.x),
        Axis::Z => convex_along(projection, &p.x, &p.y),
    }
}

pub fn patch_proper(p: Patch) -> bool
    requires { PatchBounded p }
    ensures { result ≡ patch_proper (patch_of p) }
{
    let n = patch_normal(p);
    is_flat(p, n) && strictly_convex(p, n)
}
