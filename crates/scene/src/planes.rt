// Question 4: the three points of each node are off one line.
ghost use Rattle.std.specs.Prelude.{◌≡◌, T};
ghost use Rattle.format.specs.Machine.{node_of};
ghost use Rattle.model.specs.Bounds.{PlaneWithin};
ghost use Rattle.model.specs.Format.{decode};
ghost use Rattle.model.specs.Questions.{coordinates_in_range, off_one_line, planes_proper};

use format::records::Node;
use format::scene::Scene;
use geometry::plane_normal;

fn off_one_line(n: Node) -> bool
    requires { PlaneWithin 10000 (node_of n).plane }
    ensures { result ≡ off_one_line (node_of n).plane }
{
    let v = plane_normal(n.a, n.b, n.c);
    v.x != 0 || v.y != 0 || v.z != 0
}

pub fn planes_proper(scene: &Scene) -> bool
    requires { T (coordinates_in_range (decode scene.now.bytes.now)) }
    ensures { result ≡ planes_proper (decode scene.now.bytes.now) }
{
    (0..scene.layout.nodes).all(|k| off_one_line(scene.node(k)))
}
