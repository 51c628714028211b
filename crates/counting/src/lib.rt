// The counts of a picture: how many cells show each panel and, in entry 0, nothing. They are told by the table of the patches' cells, so that no cell is looked
// at again: a panel's count is the sum over its patches, and the cells that no patch has show nothing.
#![tactic(auto)]

ghost use Rattle.model.specs.Format.{decode, patch_numbered};
ghost use Rattle.counting.specs.Counting.{Countable, Counted};

use cells::clear_table;
use checked::CheckedScene;

// Counts the cells of a picture of so many, where `booked` has each patch's. What `totals` held does not matter.
pub fn count_panels(scene: &CheckedScene, booked: &[u32], cells: u32, totals: &mut [u32])
    requires { Countable scene.now.bytes.now scene.now.layout booked.now cells totals.old }
    ensures { Counted (λ k. (patch_numbered (decode scene.now.bytes.now) k).panel) booked.now cells totals.new }
{
    clear_table(totals);
    let mut rest = cells;
    for (k, own) in booked.iter().enumerate() {
        let panel = scene.patch_record(k).panel as usize;
        totals[panel] += *own;
        rest -= *own;
    }
    totals[0] = rest;
}
