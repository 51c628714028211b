// How much room the cells of a scene's patches take.
#![tactic(auto)]

ghost use Rattle.std.specs.Prelude.{◌≡◌, ◌≤◌, length};
ghost use Rattle.model.specs.Format.{decode};
ghost use Rattle.model.specs.Questions.{scene_answer};

use header::read_header;
use header::sizes::{HEADER_SIZE, MOST_PATCHES, PATCH_SIZE};

// How many patches the scene's header tells of, as far as there is room. A scene without a header is refused, so any number will do.
pub fn patches_told(scene: &[u8]) -> usize
    ensures value { scene_answer scene.now ≡ 0 → result ≡ length (decode scene.now).patches }
    ensures upper_bound { result ≤ 1024 }
{
    if scene.len() < HEADER_SIZE {
        return 0;
    }
    (read_header(scene).patches.size / PATCH_SIZE).min(MOST_PATCHES)
}
