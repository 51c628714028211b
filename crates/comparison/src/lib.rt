// Two scenes seen from one eye by one camera: what taking panels away changes (demand 3), and that two cuttings of one ring show the same (document 02, F-5).
#![tactic(auto)]

ghost use Rattle.station.specs.Machine.{station_of};
ghost use Rattle.call.specs.Lent.{held_by, SameLent};
ghost use Rattle.demands.specs.Demands.{ClosestSurveyed, PairSurveyed};
ghost use Rattle.comparison.specs.Machine.{camera_of};

use call::lent::Lent;
use station::Station;
use survey::metres::ring_survey_metres;
use survey::units::ring_survey;

// the results of the two calls
#[derive(Clone, Copy)]
pub struct Results {
    pub first: u32,
    pub second: u32,
}

// A camera by the numbers that the exported calls take, so that a pair is one of these calls.
#[derive(Clone, Copy)]
pub struct CameraNumbers {
    pub right_x: i16,
    pub right_y: i16,
    pub right_z: i16,
    pub forward_x: i16,
    pub forward_y: i16,
    pub forward_z: i16,
    pub up_x: i16,
    pub up_y: i16,
    pub up_z: i16,
    pub width: u16,
    pub height: u16,
    pub lens: u16,
    pub left: u16,
    pub top: u16,
    pub tile_width: u16,
    pub tile_height: u16,
}

// The survey call for the form that the station has.
fn survey_at(scene: &[u8], station: Station, camera: CameraNumbers, lent: &mut Lent<'_>) -> u32
    ensures closest { ClosestSurveyed scene.now (station_of station) (camera_of camera) (held_by lent.old) (held_by lent.new) result }
    ensures same { SameLent lent.old lent.new }
{
    match station {
        Station::Units(x, y, z) => ring_survey(
            scene,
            x,
            y,
            z,
            camera.right_x,
            camera.right_y,
            camera.right_z,
            camera.forward_x,
            camera.forward_y,
            camera.forward_z,
            camera.up_x,
            camera.up_y,
            camera.up_z,
            camera.width,
            camera.height,
            camera.lens,
            camera.left,
            camera.top,
            camera.tile_width,
            camera.tile_height,
            lent.picture,
            lent.counts,
            lent.patch_counts,
            lent.unlit,
            lent.lit,
            lent.counter,
        ),
        Station::Metres(m) => ring_survey_metres(
            scene,
            m.x,
            m.y,
            m.z,
            camera.right_x,
            camera.right_y,
            camera.right_z,
            camera.forward_x,
            camera.forward_y,
            camera.forward_z,
            camera.up_x,
            camera.up_y,
            camera.up_z,
            camera.width,
            camera.height,
            camera.lens,
            camera.left,
            camera.top,
            camera.tile_width,
            camera.tile_height,
            lent.picture,
            lent.counts,
            lent.patch_counts,
            lent.unlit,
            lent.lit,
            lent.counter,
        ),
    }
}

// The two stations may be of either form. Where they have one eye, the pair is of one view.
pub fn survey_pair(
    first: &[u8],
    second: &[u8],
    station1: Station,
    station2: Station,
    camera: CameraNumbers,
    lent1: &mut Lent<'_>,
    lent2: &mut Lent<'_>,
) -> Results
    ensures surveyed { PairSurveyed first.now second.now (station_of station1) (station_of station2) (camera_of camera)
        (held_by lent1.old) (held_by lent1.new) (held_by lent2.old) (held_by lent2.new) result.first result.second }
    ensures same { SameLent lent1.old lent1.new × SameLent lent2.old lent2.new }
{
    Results {
        first: survey_at(first, station1, camera, lent1),
        second: survey_at(second, station2, camera, lent2),
    }
}
