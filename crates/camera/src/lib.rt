// A camera, and the rays of its picture as a raster.
#![tactic(auto)]

ghost use Rattle.std.specs.Prelude.{◌-◌, ◌<◌};
ghost use Rattle.integer.specs.Magnitude.{Within};
ghost use Rattle.model.specs.Vector.{plus, times};
ghost use Rattle.geometry.specs.Machine.{vec_of, Bounded, VectorIs, NumberIs};
ghost use Rattle.camera.specs.Machine.{camera_of, CameraBounded};
ghost use Rattle.camera.specs.Rays.{from_middle, RaysOf};

use geometry::{Raster, Vector};

// Where a camera's own axes point.
#[derive(Clone, Copy)]
pub struct Axes {
    pub right: Vector,
    pub forward: Vector,
    pub up: Vector,
}

// A part of a window: the place of its top left cell, and its size.
#[derive(Clone, Copy)]
pub struct Tile {
    pub left: u16,
    pub top: u16,
    pub width: u16,
    pub height: u16,
}

// A camera: its axes, its window and the tile of the window that is drawn.
#[derive(Clone, Copy)]
pub struct Camera {
    pub axes: Axes,
    pub width: u16,
    pub height: u16,
    pub lens: u16,
    pub tile: Tile,
}

// k times v
fn scaled(k: i64, v: Vector) -> Vector
    requires { Within 2 k × Bounded 100 v }
    ensures { VectorIs 200 (times k (vec_of v)) result }
{
    Vector {
        x: arithmetic::product(k, v.x),
        y: arithmetic::product(k, v.y),
        z: arithmetic::product(k, v.z),
    }
}

// a times u, b times v and c times w, together
fn combined(a: i64, u: Vector, b: i64, v: Vector, c: i64, w: Vector) -> Vector
    requires { Within 1023 a × Within 4096 b × Within 511 c × Bounded 100 u × Bounded 100 v × Bounded 100 w }
    ensures { VectorIs 563000 (plus (plus (times a (vec_of u)) (times b (vec_of v))) (times c (vec_of w))) result }
{
    Vector {
        x: arithmetic::dot(a, b, c, u.x, v.x, w.x),
        y: arithmetic::dot(a, b, c, u.y, v.y, w.y),
        z: arithmetic::dot(a, b, c, u.z, v.z, w.z),
    }
}

// How far cell n of `all` cells lies from their middle, in half cells: 2n + 1 − all.
fn from_middle(n: u16, all: u16) -> i64
    requires { n < all }
    ensures { NumberIs (all - 1) (from_middle n all) result }
{
    2 * i64::from(n) + 1 - i64::from(all)
}

// The first direction is that of the tile's top left cell. From column to column it changes by two times right, from row to row by minus two times up.
pub fn camera_raster(camera: Camera) -> Raster
    requires { CameraBounded camera }
    ensures { RaysOf (camera_of camera) result }
{
    let axes = camera.axes;
    let tile = camera.tile;
    Raster {
        origin: combined(
            from_middle(tile.left, camera.width),
            axes.right,
            i64::from(camera.lens),
            axes.forward,
            -from_middle(tile.top, camera.height),
            axes.up,
        ),
        across: scaled(2, axes.right),
        down: scaled(-2, axes.up),
        width: usize::from(tile.width),
        height: usize::from(tile.height),
    }
}
