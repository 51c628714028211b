// The extents of the nodes: boxes that bound all corners at and below them.
#![tactic(auto)]

ghost use Rattle.std.specs.Prelude.{◌+◌, ◌≤◌, ◌<◌, length};
ghost use Rattle.model.specs.Format.{decode, patch_numbered};
ghost use Rattle.boxes.specs.Boxes.{Covers, BoxBounded};
ghost use Rattle.extents.specs.Extents.{Widened, takes_corner, Wider, takes_patch, PatchTaken, ExtentOf, ExtentsFrom, NodeAsked, ChildJoined};
ghost use Rattle.boxes.specs.Enclosed.{ExtentBounded, ChildExtent};

use boxes::{Bounds, Corner, Extent, common_box, joined_box, narrow};
use checked::CheckedScene;
use format::records::Run;

// the box widened to the corners of a run
fn corners_box(scene: &CheckedScene, first: usize, count: usize, b: Bounds) -> Bounds
    requires { (first + count ≤ scene.now.layout.corners) × BoxBounded b }
    ensures { Widened Covers BoxBounded (takes_corner scene.now.bytes.now scene.now.layout first) b result count }
{
    let mut wide = b;
    for i in 0..count {
        let c = narrow(scene.corner(first + i));
        wide = joined_box(wide, Bounds { low: c, high: c });
    }
    wide
}

// the extent widened to a patch, whose corners are a run of 3 or more; how far it reaches is seen by two of them
fn patch_extent(scene: &CheckedScene, k: usize, e: Extent) -> Extent
    requires { (k < scene.now.layout.patches) × ExtentBounded e }
    ensures { PatchTaken e result (patch_numbered (decode scene.now.bytes.now) k) }
{
    let run = scene.corner_run(k);
    let a = narrow(scene.corner(run.first));
    let b = narrow(scene.corner(run.first + 1));
    let c = narrow(scene.corner(run.first + 2));
    let both = joined_box(Bounds { low: a, high: a }, Bounds { low: c, high: c });
    let wide = joined_box(joined_box(e.outer, both), Bounds { low: b, high: b });
    Extent {
        outer: corners_box(scene, run.first + 3, run.count - 3, wide),
        inner: common_box(e.inner, both),
    }
}

// the extent widened to the patches of a run
fn patches_extent(scene: &CheckedScene, run: Run, e: Extent) -> Extent
    requires { (run.first + run.count ≤ scene.now.layout.patches) × ExtentBounded e }
    ensures { Widened Wider ExtentBounded (takes_patch scene.now.bytes.now run.first) e result run.count }
{
    let mut wide = e;
    for i in 0..run.count {
        wide = patch_extent(scene, run.first + i, wide);
    }
    wide
}

// the extent widened to that of a child, if there is one
fn with_child(e: Extent, boxes: &[Extent], nodes: usize, k: usize) -> Extent
    requires { ExtentBounded e × ChildExtent nodes k boxes.now }
    ensures { ChildJoined nodes k boxes.now e result }
{
    if nodes <= k {
        return e;
    }
    let child = boxes[k];
    Extent {
        outer: joined_box(e.outer, child.outer),
        inner: common_box(e.inner, child.inner),
    }
}

// the extent of no patch: joined to another it leaves that as it is
fn no_extent() -> Extent
    ensures { ExtentBounded result }
{
    let lowest = Corner {
        x: -10000,
        y: -10000,
        z: -10000,
    };
    let highest = Corner {
        x: 10000,
        y: 10000,
        z: 10000,
    };
    Extent {
        outer: Bounds {
            low: highest,
            high: lowest,
        },
        inner: Bounds {
            low: lowest,
            high: highest,
        },
    }
}

// the extent of node k, from its own patches and the extents of its children
fn node_extent(scene: &CheckedScene, k: usize, boxes: &[Extent]) -> Extent
    requires { NodeAsked scene.now.bytes.now scene.now.layout k boxes.now }
    ensures { ExtentOf scene.now.bytes.now k result }
{
    let n = scene.node(k);
    let own = patches_extent(scene, n.patches, no_extent());
    let front = with_child(own, boxes, scene.layout.nodes, n.positive);
    with_child(front, boxes, scene.layout.nodes, n.negative)
}

// The extents of all nodes, from the last one down: children have higher numbers than their parents. An extent need not be the least one, which costs time
// alone; what the list holds after the last node's is left free.
pub fn fill_extents(scene: &CheckedScene, boxes: &mut [Extent])
    requires { scene.now.layout.nodes ≤ length boxes.old }
    ensures { ExtentsFrom scene.now.bytes.now scene.now.layout 0 boxes.new }
{
    for k in (0..scene.layout.nodes).rev() {
        let e = node_extent(scene, k, boxes);
        boxes[k] = e;
    }
}
