// The patch numbers of the tree, front to back from an eye.
ghost use Rattle.std.specs.Prelude.{◌≡◌, ◌+◌, ◌≤◌, ◌++◌, length};
ghost use Rattle.model.specs.Lists.{range};
ghost use Rattle.model.specs.Tree.{order};
ghost use Rattle.geometry.specs.Machine.{vec_of, plane_of, Bounded};
ghost use Rattle.checked.specs.Checked.{PointsBounded, tree_below};
ghost use Rattle.walk.specs.Walked.{WholeWalk};
ghost use Rattle.walk.specs.Near.{NearFirst};

use arrayvec::ArrayVec;
use checked::CheckedScene;
use format::records::{Node, Run};
use geometry::{Vector, plane_normal, side};

// a scene's patches are this many at most
pub const PATCHES: usize = 1024;

// a node's children: the one on the eye's side, and the other
#[derive(Clone, Copy)]
pub struct Children {
    pub near: usize,
    pub far: usize,
}

// "With the eye on the plane the positive side is walked first."
fn near_first(n: Node, eye: Vector) -> Children
    requires { PointsBounded n × Bounded 10000 eye }
    ensures { NearFirst (plane_of n.a n.b n.c) (vec_of eye) n.positive n.negative result }
{
    let normal = plane_normal(n.a, n.b, n.c);
    if side(normal, n.a, eye) < 0 {
        Children {
            near: n.negative,
            far: n.positive,
        }
    } else {
        Children {
            near: n.positive,
            far: n.negative,
        }
    }
}

// the numbers of a run, behind what was walked before
fn walk_run(run: Run, walked: &mut ArrayVec<u16, PATCHES>)
    requires { (run.first + run.count ≤ 65536) × (length walked.old.items + run.count ≤ 1024) }
    ensures { walked.new.items ≡ walked.old.items ++ range run.first run.count }
{
    for k in 0..run.count {
        walked.push((run.first + k) as u16);
    }
}

// the patch numbers at and below node k, behind what was walked before
fn walk_below(scene: &CheckedScene, k: usize, eye: Vector, walked: &mut ArrayVec<u16, PATCHES>)
    requires { Bounded 10000 eye
        × (length walked.old.items + length (order (vec_of eye) (tree_below scene.now.bytes.now k)) ≤ 1024) }
    ensures { walked.new.items ≡ walked.old.items ++ order (vec_of eye) (tree_below scene.now.bytes.now k) }
{
    if k < scene.layout.nodes {
        let n = scene.node(k);
        let c = near_first(n, eye);
        walk_below(scene, c.near, eye, walked);
        walk_run(n.patches, walked);
        walk_below(scene, c.far, eye, walked);
    }
}

// the patch numbers of the whole tree
pub fn walk(scene: &CheckedScene, eye: Vector) -> ArrayVec<u16, PATCHES>
    requires { Bounded 10000 eye }
    ensures { WholeWalk scene.now.bytes.now scene.now.layout (vec_of eye) result.items }
{
    let mut walked = ArrayVec::new();
    walk_below(scene, 0, eye, &mut walked);
    walked
}
