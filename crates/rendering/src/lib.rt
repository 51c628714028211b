// The picture, the unlit lists, the lit map, the patches' cells and the counts of an accepted scene, as a camera at an eye sees it.
#![tactic(auto)]

ghost use Rattle.std.specs.Prelude.{◌≡◌};
ghost use Rattle.camera.specs.Machine.{view_of};
ghost use Rattle.call.specs.Lent.{held_by, SameLent};
ghost use Rattle.rendering.specs.Painted.{PaintingAsked, Rendered};

use call::lent::Lent;
use camera::{Camera, camera_raster};
use checked::CheckedScene;
use counting::count_panels;
use edges::Sight;
use geometry::Vector;
use painting::paint_rows;
use walk::order::walk;

// The walk first, then the painting, patch after patch, and the counts from the patches' cells.
pub fn paint(scene: &CheckedScene, eye: Vector, camera: Camera, lent: &mut Lent<'_>)
    requires { PaintingAsked scene.now.bytes.now eye camera (held_by lent.old) }
    ensures rendered { Rendered scene.now.bytes.now (view_of eye camera) (held_by lent.new) }
    ensures counter { lent.new.counter.now ≡ lent.old.counter.now }
    ensures same { SameLent lent.old lent.new }
{
    let cells = lent.picture.len() as u32;
    let order = walk(scene, eye);
    let sight = Sight {
        eye,
        raster: camera_raster(camera),
    };
    let booked = &mut *lent.patch_counts;
    paint_rows(
        scene,
        order.as_slice(),
        sight,
        lent.picture,
        lent.unlit,
        lent.lit,
        booked,
    );
    count_panels(scene, booked, cells, lent.counts);
}
