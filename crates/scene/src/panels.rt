// Question 7: each panel is 1 to 1,024, never falling within a node's run.
ghost use Rattle.std.specs.Prelude.{◌≡◌, ◌+◌, ◌≤◌};
ghost use Rattle.format.specs.Machine.{patch_record_of, run_of};
ghost use Rattle.format.specs.Layout.{RunsInside};
ghost use Rattle.model.specs.Format.{decode};
ghost use Rattle.model.specs.Questions.{panels_in_range, panels_never_fall, panels_proper};
ghost use Rattle.scene.specs.Tests.{panel_in_range, run_never_falls};

use format::records::{PatchRecord, Run};
use format::scene::Scene;
use header::sizes::HIGHEST_PANEL;

fn panel_in_range(p: PatchRecord) -> bool
    ensures { result ≡ panel_in_range (patch_record_of p) }
{
    (1..=HIGHEST_PANEL).contains(&p.panel)
}

fn panels_in_range(scene: &Scene) -> bool
    ensures { result ≡ panels_in_range (decode scene.now.bytes.now) }
{
    (0..scene.layout.patches).all(|k| panel_in_range(scene.patch_record(k)))
}

// no patch of the run has a panel below that of the patch before it
fn run_never_falls(scene: &Scene, run: Run) -> bool
    requires { run.first + run.count ≤ scene.now.layout.patches }
    ensures { result ≡ run_never_falls (decode scene.now.bytes.now).patches (run_of run) }
{
    let mut low = 0;
    for k in run.first..run.first + run.count {
        let panel = scene.patch_record(k).panel;
        if panel < low {
            return false;
        }
        low = panel;
    }
    true
}

fn panels_never_fall(scene: &Scene) -> bool
    requires { RunsInside scene.now.bytes.now scene.now.layout }
    ensures { result ≡ panels_never_fall (decode scene.now.bytes.now) }
{
    (0..scene.layout.nodes).all(|k| run_never_falls(scene, scene.node(k).patches))
}

#[tactic(auto, unfolding(model::specs::Questions::panels_proper))]
pub fn panels_proper(scene: &Scene) -> bool
    requires { RunsInside scene.now.bytes.now scene.now.layout }
    ensures { result ≡ panels_proper (decode scene.now.bytes.now) }
{
    panels_in_range(scene) && panels_never_fall(scene)
}
