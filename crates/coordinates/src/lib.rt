// Question 3: every coordinate is from −10,000 to 10,000.
#![tactic(auto)]

ghost use Rattle.std.specs.Prelude.{◌≡◌};
ghost use Rattle.geometry.specs.Machine.{vec_of};
ghost use Rattle.format.specs.Machine.{node_of};
ghost use Rattle.model.specs.Format.{decode};
ghost use Rattle.model.specs.Questions.{point_in_range, plane_in_range, coordinates_in_range};
ghost use Rattle.coordinates.specs.Tests.{nodes_in_range, corners_in_range};

use format::records::Node;
use format::scene::Scene;
use geometry::{Vector, parts_up_to};

pub fn point_in_range(v: Vector) -> bool
    ensures { result ≡ point_in_range (vec_of v) }
{
    parts_up_to(10000, v)
}

fn plane_in_range(n: Node) -> bool
    ensures { result ≡ plane_in_range (node_of n).plane }
{
    point_in_range(n.a) && point_in_range(n.b) && point_in_range(n.c)
}

fn nodes_in_range(scene: &Scene) -> bool
    ensures { result ≡ nodes_in_range (decode scene.now.bytes.now) }
{
    (0..scene.layout.nodes).all(|k| plane_in_range(scene.node(k)))
}

fn corners_in_range(scene: &Scene) -> bool
    ensures { result ≡ corners_in_range (decode scene.now.bytes.now) }
{
    (0..scene.layout.corners).all(|k| point_in_range(scene.corner(k)))
}

#[tactic(auto, unfolding(model::specs::Questions::coordinates_in_range))]
pub fn coordinates_in_range(scene: &Scene) -> bool
    ensures { result ≡ coordinates_in_range (decode scene.now.bytes.now) }
{
    nodes_in_range(scene) && corners_in_range(scene)
}
