// A patch in hand, with its corners.
ghost use Rattle.std.specs.Prelude.{◌≡◌, ◌+◌, ◌*◌, ◌≤◌, ◌<◌, length};
ghost use Rattle.geometry.specs.Machine.{vec_of};
ghost use Rattle.model.specs.Format.{decode, patch_numbered};
ghost use Rattle.format.specs.Patch.{CoordinatesFrom, PatchIs, patch_from, corner_of};
ghost use Rattle.format.specs.Layout.{RunsInside};

use crate::records::vector;
use crate::scene::Scene;
use geometry::Vector;
use header::sizes::CORNER_SIZE;
use little_endian::i16_at;

// "A patch in hand is a panel number, a corner count and eight corner places, of which the first ones are used": the places' coordinates by axis
#[derive(Clone, Copy)]
pub struct Patch {
    pub x: [i16; 8],
    pub y: [i16; 8],
    pub z: [i16; 8],
    pub count: usize,
    pub panel: u16,
}

// one axis of the first `count` corners from an offset on
fn axis(bytes: &[u8], at: usize, count: usize) -> [i16; 8]
    requires { (at + 6 * count ≤ length bytes.now + 4) × (count ≤ 8) }
    ensures { CoordinatesFrom bytes.now at count result }
{
    let mut places = [0i16; 8];
    for k in 0..count {
        places[k] = i16_at(bytes, at + CORNER_SIZE * k);
    }
    places
}

// the panel, and the corners from an offset on
fn patch_from(bytes: &[u8], at: usize, count: usize, panel: u16) -> Patch
    requires { (at + 6 * count ≤ length bytes.now) × (3 ≤ count) × (count ≤ 8) }
    ensures { PatchIs (patch_from bytes.now at count panel) result }
{
    Patch {
        x: axis(bytes, at, count),
        y: axis(bytes, at + 2, count),
        z: axis(bytes, at + 4, count),
        count,
        panel,
    }
}

// the patch by its number
pub fn read_patch(scene: &Scene, k: usize) -> Patch
    requires { RunsInside scene.now.bytes.now scene.now.layout × (k < scene.now.layout.patches) }
    ensures { PatchIs (patch_numbered (decode scene.now.bytes.now) k) result }
{
    let p = scene.patch_record(k);
    let run = p.corners;
    patch_from(
        scene.bytes,
        scene.corner_offset(run.first),
        run.count,
        p.panel,
    )
}

// the corner at a place
pub fn corner_of(p: Patch, k: usize) -> Vector
    requires { k < 8 }
    ensures { vec_of result ≡ corner_of p k }
{
    vector(p.x[k], p.y[k], p.z[k])
}
