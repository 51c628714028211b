// The patches of a walk, one after the other, on all rows under work.
#![tactic(auto)]

ghost use Rattle.std.specs.Prelude.{◌≤◌};
ghost use Rattle.traversal.specs.Walk.{FirstOpen, WalkAsked, WholePainted};

use checked::CheckedScene;
use conversion::paint_patch;
use edges::Sight;
use reach::planes_of;
use rows::RowUnderWork;

// The first row from `from` on that is not full; the height where all are.
fn first_open(rows: &[RowUnderWork; 128], from: usize, height: usize) -> usize
    requires { (from ≤ height) × (height ≤ 128) }
    ensures { FirstOpen rows.now from height result }
{
    (from..height)
        .find(|j| rows[*j].pairs[1] != 0)
        .unwrap_or(height)
}

// Patch after patch, until the walk is done or every row is full: what comes after cannot be seen. A patch goes by its place in the walk, as what is painted and booked
// before it is told by that.
pub fn paint_walk(
    scene: &CheckedScene,
    order: &[u16],
    sight: Sight,
    rows: &mut [RowUnderWork; 128],
    picture: &mut [u16],
    booked: &mut [u32],
)
    requires { WalkAsked scene.now.bytes.now scene.now.layout order.now sight rows.old picture.old booked.old }
    ensures { WholePainted scene.now.bytes.now sight order.now rows.new picture.new booked.new }
{
    let planes = planes_of(sight.raster);
    let height = sight.raster.height;
    let mut top = 0;
    for k in 0..order.len() {
        top = first_open(rows, top, height);
        if top == height {
            return;
        }
        paint_patch(scene, order, k, sight, planes, rows, picture, booked);
    }
}
