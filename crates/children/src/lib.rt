// Question 5: each child comes after its parent, and each node but 0 is named exactly once.
#![tactic(auto)]

ghost use Rattle.std.specs.Prelude.{◌≡◌, ◌≤◌, ◌<◌, length, get_or};
ghost use Rattle.format.specs.Machine.{node_of};
ghost use Rattle.model.specs.Format.{decode};
ghost use Rattle.model.specs.Questions.{proper_child, children_proper};
ghost use Rattle.children.specs.Children.{proper_children, children_in_order, named_once, each_once, OneMore, TimesNamed};

use format::records::Node;
use format::scene::Scene;
use header::sizes::{MOST_NODES, NO_CHILD};

// No child is a number and not an `Option`: who walks the tree asks only whether a number is below the node count, and 65,535 is not.
fn proper_child(nodes: usize, parent: usize, child: usize) -> bool
    ensures { result ≡ proper_child nodes parent child }
{
    child == NO_CHILD || (child > parent && child < nodes)
}

fn proper_children(nodes: usize, parent: usize, n: Node) -> bool
    ensures { result ≡ proper_children nodes parent (node_of n) }
{
    proper_child(nodes, parent, n.positive) && proper_child(nodes, parent, n.negative)
}

fn children_in_order(scene: &Scene) -> bool
    ensures { result ≡ children_in_order (decode scene.now.bytes.now) }
{
    let nodes = scene.layout.nodes;
    (0..nodes).all(|k| proper_children(nodes, k, scene.node(k)))
}

// one more naming of a child; 65,535 and other numbers that no node can have are not counted
fn count_child(times: &mut [u16; MOST_NODES], child: usize)
    requires { (length times.old ≡ 1024) × (get_or times.old child 0 < 65535) }
    ensures { OneMore child times.old times.new }
{
    if child < MOST_NODES {
        times[child] += 1;
    }
}

// how often each node is named
fn times_named(scene: &Scene) -> [u16; MOST_NODES]
    ensures { TimesNamed (decode scene.now.bytes.now) result }
{
    let mut times = [0u16; MOST_NODES];
    for k in 0..scene.layout.nodes {
        let m = scene.node(k);
        count_child(&mut times, m.positive);
        count_child(&mut times, m.negative);
    }
    times
}

fn each_once(times: &[u16; MOST_NODES], nodes: usize) -> bool
    requires { nodes ≤ 1024 }
    ensures { result ≡ each_once times.now nodes }
{
    (1..nodes).all(|k| times[k] == 1)
}

fn named_once(scene: &Scene) -> bool
    ensures { result ≡ named_once (decode scene.now.bytes.now) }
{
    each_once(&times_named(scene), scene.layout.nodes)
}

#[tactic(auto, unfolding(model::specs::Questions::children_proper))]
pub fn children_proper(scene: &Scene) -> bool
    ensures { result ≡ children_proper (decode scene.now.bytes.now) }
{
    children_in_order(scene) && named_once(scene)
}
