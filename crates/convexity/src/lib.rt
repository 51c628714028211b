// Question 8: each patch of the table is flat and strictly convex.
#![tactic(auto)]

ghost use Rattle.std.specs.Prelude.{◌≡◌, ◌+◌, ◌≤◌, ◌<◌};
ghost use Rattle.model.specs.Format.{decode, patch_numbered};
ghost use Rattle.model.specs.Questions.{patches_proper};
ghost use Rattle.polygons.specs.Tests.{patch_proper};
ghost use Rattle.convexity.specs.Cornered.{Cornered, corners_from};

use format::patch::read_patch;
use format::scene::Scene;
use geometry::Vector;
use polygons::patch_proper;
use small_polygons::few_proper;

// N corners of the table, from a place on
fn few_from<const N: usize>(scene: &Scene, first: usize) -> bool
    requires { Cornered scene.now.bytes.now scene.now.layout × (first + N ≤ scene.now.layout.corners) × (3 ≤ N) × (N ≤ 4) }
    ensures { result ≡ patch_proper (corners_from scene.now.bytes.now scene.now.layout first N) }
{
    let mut corners = [Vector { x: 0, y: 0, z: 0 }; N];
    for k in 0..N {
        corners[k] = scene.corner(first + k);
    }
    few_proper(&corners)
}

// the patch by its number
fn numbered_proper(scene: &Scene, k: usize) -> bool
    requires { Cornered scene.now.bytes.now scene.now.layout × (k < scene.now.layout.patches) }
    ensures { result ≡ patch_proper (patch_numbered (decode scene.now.bytes.now) k) }
{
    let run = scene.patch_record(k).corners;
    if run.count == 4 {
        return few_from::<4>(scene, run.first);
    }
    if run.count == 3 {
        return few_from::<3>(scene, run.first);
    }
    patch_proper(read_patch(scene, k))
}

pub fn patches_proper(scene: &Scene) -> bool
    requires { Cornered scene.now.bytes.now scene.now.layout }
    ensures { result ≡ patches_proper (decode scene.now.bytes.now) }
{
    (0..scene.layout.patches).all(|k| numbered_proper(scene, k))
}
