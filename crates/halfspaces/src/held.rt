// On which sides of a plane a patch has corners.
ghost use Rattle.std.specs.Prelude.{◌≡◌, map, ◌+◌, ◌≤◌, ◌<◌};
ghost use Rattle.model.specs.Lists.{every, range};
ghost use Rattle.model.specs.Format.{decode, patch_numbered};
ghost use Rattle.format.specs.Layout.{corner_number};
ghost use Rattle.halfspaces.specs.Sides.{PlaneBounded, SidesAre, Joins, held};

use crate::planes::{Plane, Sides, side_of};
use checked::CheckedScene;
use format::records::Run;

// one corner more, with this side number
fn joined(s: Sides, z: i64) -> Sides
    ensures { Joins s z result }
{
    Sides {
        negative: s.negative | (z < 0),
        positive: s.positive | (0 < z),
    }
}

// on which sides some corner of a run lies
fn corner_sides(scene: &CheckedScene, run: Run, plane: Plane) -> Sides
    requires { PlaneBounded plane × (run.first + run.count ≤ scene.now.layout.corners) }
    ensures { SidesAre plane (map (corner_number scene.now.bytes.now scene.now.layout) (range run.first run.count)) result }
{
    let mut found = Sides::ON;
    for i in 0..run.count {
        found = joined(found, side_of(plane, scene.corner(run.first + i)));
    }
    found
}

// the patch has corners on just the sides that are wanted
fn patch_held(scene: &CheckedScene, k: usize, plane: Plane, wanted: Sides) -> bool
    requires { PlaneBounded plane × (k < scene.now.layout.patches) }
    ensures { result ≡ held plane wanted (patch_numbered (decode scene.now.bytes.now) k) }
{
    corner_sides(scene, scene.corner_run(k), plane) == wanted
}

// every patch of a run is held
pub fn run_held(scene: &CheckedScene, run: Run, plane: Plane, wanted: Sides) -> bool
    requires { PlaneBounded plane × (run.first + run.count ≤ scene.now.layout.patches) }
    ensures { result ≡ every (held plane wanted) (map (patch_numbered (decode scene.now.bytes.now)) (range run.first run.count)) }
{
    (run.first..run.first + run.count).all(|k| patch_held(scene, k, plane, wanted))
}
