// The admission of a call from a station: its scene and its eye, or the first question that says no, of the scene and of the call.
#![tactic(auto)]

ghost use Rattle.std.specs.Prelude.{◌≡◌, IfOk};
ghost use Rattle.model.specs.Station.{eye_of};
ghost use Rattle.model.specs.Questions.{survey_answer};
ghost use Rattle.geometry.specs.Machine.{vec_of};
ghost use Rattle.camera.specs.Machine.{camera_of};
ghost use Rattle.station.specs.Machine.{station_of};
ghost use Rattle.contract.specs.Contract.{gate_call};
ghost use Rattle.call.specs.Lent.{lengths_of};
ghost use Rattle.refusal.specs.Refusal.{answer_of};

use call::lent::Lengths;
use call::{axes_proper, counter_below_end, lengths_fit, view_in_range};
use camera::Camera;
use checked::CheckedScene;
use gate::check_scene;
use geometry::Vector;
use refusal::Refusal;
use station::{Station, locate};

// a call that passed every question: its scene, and where it is seen from
#[derive(Clone, Copy)]
pub struct Admitted<'a> {
    pub scene: CheckedScene<'a>,
    pub eye: Vector,
}

pub fn admit(
    bytes: &[u8],
    station: Station,
    camera: Camera,
    lengths: Lengths,
    counter: u32,
) -> Result<Admitted<'_>, Refusal>
    ensures answered { answer_of result ≡ survey_answer (gate_call bytes.now (station_of station) (camera_of camera) (lengths_of lengths) counter) }
    ensures same { IfOk result (λ call. call.scene.bytes.now ≡ bytes.now) }
    ensures eye { IfOk result (λ call. vec_of call.eye ≡ eye_of (station_of station)) }
{
    let scene = check_scene(bytes)?;
    let Some(eye) = locate(station) else {
        return Err(Refusal::Station);
    };
    if !view_in_range(eye, camera) {
        return Err(Refusal::View);
    }
    if !axes_proper(camera.axes) {
        return Err(Refusal::Axes);
    }
    if !lengths_fit(camera, scene.layout.patches, lengths) {
        return Err(Refusal::Lengths);
    }
    if !counter_below_end(counter) {
        return Err(Refusal::Counter);
    }
    Ok(Admitted { scene, eye })
}
