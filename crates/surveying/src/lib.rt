// The survey from a station, which the calls for a console share.
#![tactic(auto)]

ghost use Rattle.camera.specs.Machine.{camera_of};
ghost use Rattle.station.specs.Machine.{station_of};
ghost use Rattle.call.specs.Lent.{held_by, SameLent};
ghost use Rattle.contract.specs.Contract.{Surveyed};
ghost use Rattle.refusal.specs.Refusal.{answer_of};

use answering::admit;
use call::lent::Lent;
use call::next_counter;
use camera::Camera;
use refusal::Refusal;
use rendering::paint;
use station::Station;

// Checks the scene and paints its picture. Nothing lent is written before the last question is answered.
pub fn survey_from(
    bytes: &[u8],
    station: Station,
    camera: Camera,
    lent: &mut Lent<'_>,
) -> Result<(), Refusal>
    ensures surveyed { Surveyed bytes.now (station_of station) (camera_of camera) (held_by lent.old) (held_by lent.new) (answer_of result) }
    ensures same { SameLent lent.old lent.new }
{
    let before = *lent.counter;
    let call = admit(bytes, station, camera, lent.lengths(), before)?;
    paint(&call.scene, call.eye, camera, lent);
    *lent.counter = next_counter(camera, before);
    Ok(())
}
