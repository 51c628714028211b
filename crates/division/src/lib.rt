// Question 9: the planes divide the patches as the tree says.
#![tactic(auto)]

ghost use Rattle.std.specs.Prelude.{◌≡◌, map, ◌<◌};
ghost use Rattle.model.specs.Lists.{every};
ghost use Rattle.model.specs.Tree.{contents, map_tree, divides};
ghost use Rattle.model.specs.Format.{decode, patch_numbered};
ghost use Rattle.model.specs.Questions.{planes_divide};
ghost use Rattle.checked.specs.Checked.{tree_below};
ghost use Rattle.extents.specs.Extents.{ExtentsFrom};
ghost use Rattle.division.specs.Division.{Against, NodeAsked, node_divides};
ghost use Rattle.halfspaces.specs.Sides.{held};

use box_sides::settled;
use boxes::{Extent, UNWRITTEN};
use checked::CheckedScene;
use extents::fill_extents;
use format::records::Node;
use halfspaces::held::run_held;
use halfspaces::planes::{Plane, Sides, plane_of};

// every patch at and below node k is held; the child's test comes before its call, as most children are settled by it
fn subtree_held(
    scene: &CheckedScene,
    k: usize,
    plane: Plane,
    wanted: Sides,
    boxes: &[Extent],
) -> bool
    requires { Against scene.now.bytes.now scene.now.layout plane boxes.now × (k < scene.now.layout.nodes) }
    ensures { result ≡ every (held plane wanted) (map (patch_numbered (decode scene.now.bytes.now)) (contents (tree_below scene.now.bytes.now k))) }
{
    let n = scene.node(k);
    let nodes = scene.layout.nodes;
    run_held(scene, n.patches, plane, wanted)
        && (settled(nodes, n.positive, plane, wanted, boxes)
            || subtree_held(scene, n.positive, plane, wanted, boxes))
        && (settled(nodes, n.negative, plane, wanted, boxes)
            || subtree_held(scene, n.negative, plane, wanted, boxes))
}

// question 9 at one node
fn node_divides(scene: &CheckedScene, n: Node, boxes: &[Extent]) -> bool
    requires { NodeAsked scene.now.bytes.now scene.now.layout n boxes.now }
    ensures { result ≡ node_divides scene.now.bytes.now n }
{
    let plane = plane_of(n);
    let nodes = scene.layout.nodes;
    run_held(scene, n.patches, plane, Sides::ON)
        && (settled(nodes, n.positive, plane, Sides::FRONT, boxes)
            || subtree_held(scene, n.positive, plane, Sides::FRONT, boxes))
        && (settled(nodes, n.negative, plane, Sides::BACK, boxes)
            || subtree_held(scene, n.negative, plane, Sides::BACK, boxes))
}

// question 9 at every node: after question 5 the tree has them all
fn nodes_divide(scene: &CheckedScene, boxes: &[Extent]) -> bool
    requires { ExtentsFrom scene.now.bytes.now scene.now.layout 0 boxes.now }
    ensures { result ≡ divides (map_tree (patch_numbered (decode scene.now.bytes.now)) (tree_below scene.now.bytes.now 0)) }
{
    for k in 0..scene.layout.nodes {
        if !node_divides(scene, scene.node(k), boxes) {
            return false;
        }
    }
    true
}

// question 9
pub fn planes_divide(scene: &CheckedScene) -> bool
    ensures { result ≡ planes_divide (decode scene.now.bytes.now) }
{
    let mut boxes = [UNWRITTEN; 1024];
    fill_extents(scene, &mut boxes);
    nodes_divide(scene, &boxes)
}
