// Scan conversion of a patch: it is laid in every row that it reaches before the next patch's turn comes. All rows of the picture are under work until the walk is done.
#![tactic(auto)]

ghost use Rattle.std.specs.Prelude.{Bool, ℕ, ◌+◌, ◌*◌, ◌≤◌, length};
ghost use Rattle.conversion.specs.Canvas.{UnlitSets, RowsAsked, in_rows, RowsPaintedOver};
ghost use Rattle.conversion.specs.Progress.{PatchAsked, WalkPainted};

use checked::CheckedScene;
use edges::{Sight, patch_edges};
use geometry::EdgeFunction;
use reach::{RasterPlanes, beside_columns, patch_rows};
use rows::RowUnderWork;
use scanline::lay_patch;
use spans::Span;

// Paints the panel where some edge functions are all above 0, in the rows of a span, over the columns that are unlit. Says how many cells it newly lit.
fn convert_rows(
    functions: &[EdgeFunction],
    panel: u16,
    reach: Span,
    width: usize,
    rows: &mut [RowUnderWork; 128],
    picture: &mut [u16],
) -> u32
    requires { RowsAsked functions.now reach width rows.old picture.old }
    ensures { (height : ℕ) (unlit : ℕ → ℕ → Bool) → reach.end ≤ height → height * width ≤ length picture.old →
        UnlitSets width height unlit rows.old →
        RowsPaintedOver (in_rows reach functions.now) panel width height unlit picture.old
        rows.new picture.new result }
{
    let mut lit = 0u32;
    for j in reach.first..reach.end {
        let start = j * width;
        let end = start + width;
        let n = lay_patch(functions, panel, j, &mut rows[j], &mut picture[start..end]);
        lit += u32::from(n);
    }
    lit
}

// Paints patch k of a walk in the rows that it reaches, and books the cells that it newly lit to it. One that no row or no column can meet has no edge functions worked out. It is given the walk and the place in it, and not the patch's number alone,
// since what it promises is of the patches up to that place.
pub fn paint_patch(
    scene: &CheckedScene,
    order: &[u16],
    k: usize,
    sight: Sight,
    planes: RasterPlanes,
    rows: &mut [RowUnderWork; 128],
    picture: &mut [u16],
    booked: &mut [u32],
)
    requires { PatchAsked scene.now.bytes.now scene.now.layout order.now k sight planes rows.old picture.old booked.old }
    ensures { WalkPainted scene.now.bytes.now sight order.now rows.new picture.new booked.new (k + 1) }
{
    let n = order[k] as usize;
    let reach = patch_rows(scene, n, sight.eye, sight.raster, planes);
    if reach.first < reach.end && !beside_columns(scene, n, sight.eye, sight.raster, planes) {
        let panel = scene.patch_record(n).panel;
        let mut table = [EdgeFunction::default(); 8];
        let kept = patch_edges(scene, n, sight, reach, &mut table);
        let lit = convert_rows(
            &table[..kept.count],
            panel,
            kept.reach,
            sight.raster.width,
            rows,
            picture,
        );
        booked[n] += lit;
    }
}
