// What a call from C hands over in plain numbers, as the values that the survey takes: a camera, and a station in metres.
#![tactic(auto)]

ghost use Rattle.std.specs.Prelude.{◌≡◌};
ghost use Rattle.model.specs.Vector.{vec};
ghost use Rattle.model.specs.Station.{metres};
ghost use Rattle.camera.specs.Machine.{axes_of, camera_of};
ghost use Rattle.station.specs.Machine.{station_of};
ghost use Rattle.contract.specs.Contract.{axes_by, tile_by, camera_by};

use camera::{Axes, Camera, Tile};
use format::records::vector;
use station::{Metres, Station};

// three vectors by their nine parts
pub fn axes_by(
    right_x: i16,
    right_y: i16,
    right_z: i16,
    forward_x: i16,
    forward_y: i16,
    forward_z: i16,
    up_x: i16,
    up_y: i16,
    up_z: i16,
) -> Axes
    ensures { axes_of result ≡ axes_by (vec right_x right_y right_z) (vec forward_x forward_y forward_z) (vec up_x up_y up_z) }
{
    Axes {
        right: vector(right_x, right_y, right_z),
        forward: vector(forward_x, forward_y, forward_z),
        up: vector(up_x, up_y, up_z),
    }
}

// a camera by its axes, its window's three numbers and its tile's four
pub fn camera_by(
    axes: Axes,
    width: u16,
    height: u16,
    lens: u16,
    left: u16,
    top: u16,
    tile_width: u16,
    tile_height: u16,
) -> Camera
    ensures { camera_of result ≡ camera_by (axes_of axes) width height lens (tile_by left top tile_width tile_height) }
{
    Camera {
        axes,
        width,
        height,
        lens,
        tile: Tile {
            left,
            top,
            width: tile_width,
            height: tile_height,
        },
    }
}

// three doubles as one station
pub fn in_metres(x: f64, y: f64, z: f64) -> Station
    ensures { station_of result ≡ metres x y z }
{
    Station::Metres(Metres { x, y, z })
}
