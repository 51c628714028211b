// Question 6: the runs follow each other and use every record, and each patch has 3 to 8 corners.
ghost use Rattle.std.specs.Prelude.{◌≡◌, true, map, ℕ, ◌+◌, ◌*◌, ◌≤◌, ◌<◌, length};
ghost use Rattle.model.specs.Lists.{range};
ghost use Rattle.model.specs.Format.{decode};
ghost use Rattle.model.specs.Questions.{within, runs_follow, patch_runs_follow, corner_runs_follow, runs_proper};
ghost use Rattle.scene.specs.Tests.{run_at, corners_follow, all_counted};

use format::scene::Scene;
use header::sizes::{HEADER_SIZE, NODE_RUN, NODE_SIZE, PATCH_RUN};
use little_endian::u16_at;

// The runs of n records of `step` bytes, each run at the same place of its record.
// Over an iterator of runs it would be no plainer: what bounds each run and their number would be asked of all that the iterator yields.
fn runs_follow(bytes: &[u8], at: usize, step: usize, n: usize, end: usize) -> bool
    requires { ((k : ℕ) → k < n → at + step * k + 4 ≤ length bytes.now) × (n ≤ 1024) }
    ensures { result ≡ runs_follow 0 end (map (λ (k : ℕ). run_at bytes.now (at + step * k)) (range 0 n)) }
{
    let mut start = 0;
    for k in 0..n {
        let place = at + step * k;
        if u16_at(bytes, place) != start {
            return false;
        }
        start += u16_at(bytes, place + 2);
    }
    start == end
}

fn patch_runs_follow(scene: &Scene) -> bool
    ensures { result ≡ patch_runs_follow (decode scene.now.bytes.now) }
{
    let l = scene.layout;
    runs_follow(
        scene.bytes,
        HEADER_SIZE + NODE_RUN,
        NODE_SIZE,
        l.nodes,
        l.patches,
    )
}

fn corners_follow(scene: &Scene) -> bool
    ensures { result ≡ corners_follow (decode scene.now.bytes.now) }
{
    let l = scene.layout;
    let at = HEADER_SIZE + NODE_SIZE * l.nodes + PATCH_RUN;
    runs_follow(scene.bytes, at, l.patch_size, l.patches, l.corners)
}

fn three_to_eight(count: usize) -> bool
    ensures { result ≡ within 3 8 count }
{
    (3..=8).contains(&count)
}

// once the runs follow, a patch has as many corners as its run says
fn all_counted(scene: &Scene) -> bool
    requires { corners_follow (decode scene.now.bytes.now) ≡ true }
    ensures { result ≡ all_counted (decode scene.now.bytes.now) }
{
    (0..scene.layout.patches).all(|k| three_to_eight(scene.patch_record(k).corners.count))
}

#[tactic(auto, unfolding(model::specs::Questions::corner_runs_follow))]
fn corner_runs_follow(scene: &Scene) -> bool
    ensures { result ≡ corner_runs_follow (decode scene.now.bytes.now) }
{
    corners_follow(scene) && all_counted(scene)
}

#[tactic(auto, unfolding(model::specs::Questions::runs_proper))]
pub fn runs_proper(scene: &Scene) -> bool
    ensures { result ≡ runs_proper (decode scene.now.bytes.now) }
{
    patch_runs_follow(scene) && corner_runs_follow(scene)
}
