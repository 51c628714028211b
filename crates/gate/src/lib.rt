// The questions on a scene, 1 to 9, put in order to any byte string.
#![tactic(auto)]

ghost use Rattle.std.specs.Prelude.{◌≡◌, IfOk};
ghost use Rattle.model.specs.Questions.{scene_answer};
ghost use Rattle.refusal.specs.Refusal.{answer_of};

use checked::CheckedScene;
use children::children_proper;
use convexity::patches_proper;
use coordinates::coordinates_in_range;
use division::planes_divide;
use format::scene::Scene;
use header::{has_header, has_sections};
use refusal::Refusal;
use scene::panels::panels_proper;
use scene::planes::planes_proper;
use scene::runs::runs_proper;

// The scene that the bytes are, or the refusal by the first question that says no. Tried with a function that a `?` follows for each question, the proof did not close: what is
// known after such a `?` is not read by the search for what a later answer needs.
pub fn check_scene(bytes: &[u8]) -> Result<CheckedScene<'_>, Refusal>
    ensures answered { answer_of result ≡ scene_answer bytes.now }
    ensures same { IfOk result (λ scene. scene.bytes.now ≡ bytes.now) }
{
    if !has_header(bytes) {
        return Err(Refusal::Header);
    }
    if !has_sections(bytes) {
        return Err(Refusal::Sections);
    }
    let scene = Scene::read(bytes);
    if !coordinates_in_range(&scene) {
        return Err(Refusal::Coordinates);
    }
    if !planes_proper(&scene) {
        return Err(Refusal::Planes);
    }
    if !children_proper(&scene) {
        return Err(Refusal::Children);
    }
    if !runs_proper(&scene) {
        return Err(Refusal::Runs);
    }
    if !panels_proper(&scene) {
        return Err(Refusal::Panels);
    }
    if !patches_proper(&scene) {
        return Err(Refusal::Patches);
    }
    let checked = CheckedScene {
        bytes: scene.bytes,
        layout: scene.layout,
    };
    if !planes_divide(&checked) {
        return Err(Refusal::Division);
    }
    Ok(checked)
}
