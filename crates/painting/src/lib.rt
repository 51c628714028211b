// The picture, the unlit lists and the lit map, painted patch after patch, front to back.
#![tactic(auto)]

ghost use Rattle.model.specs.Format.{decode, patch_numbered};
ghost use Rattle.geometry.specs.Machine.{vec_of};
ghost use Rattle.geometry.specs.Raster.{line_at};
ghost use Rattle.conversion.specs.Booked.{Booked};
ghost use Rattle.traversal.specs.Walk.{walk_of};
ghost use Rattle.painting.specs.Picture.{PictureAsked, RowsPainted};

use cells::{clear, clear_table};
use checked::CheckedScene;
use edges::Sight;
use lists::{write_maps, write_rows};
use rows::RowUnderWork;
use traversal::paint_walk;

// Paints the walk on fresh rows and writes them to the lent lists when it is done.
pub fn paint_rows(
    scene: &CheckedScene,
    order: &[u16],
    sight: Sight,
    picture: &mut [u16],
    unlit: &mut [u16],
    lit: &mut [u64],
    booked: &mut [u32],
)
    requires { PictureAsked scene.now.bytes.now scene.now.layout sight order.now picture.old unlit.old lit.old booked.old }
    ensures painted { RowsPainted (vec_of sight.eye) (line_at sight.raster) (walk_of scene.now.bytes.now order.now)
        sight.raster.width sight.raster.height picture.new unlit.new lit.new }
    ensures counted { Booked (vec_of sight.eye) (line_at sight.raster) (patch_numbered (decode scene.now.bytes.now)) order.now
        sight.raster.width booked.new sight.raster.height }
{
    clear_table(booked);
    clear(picture);
    let row = RowUnderWork::fresh(sight.raster.width as u16);
    let mut rows = [row; 128];
    paint_walk(scene, order, sight, &mut rows, picture, booked);
    write_rows(&rows, sight.raster.height, unlit);
    write_maps(&rows, sight.raster.height, lit);
}
