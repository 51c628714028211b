// What is lent to a call, and the questions on the call after 15, which the station answers: 10, 14, 11 and 12.
#![tactic(auto)]

pub mod lent;

ghost use Rattle.std.specs.Prelude.{◌≡◌, ◌&&◌, ◌+◌, ◌*◌, ◌<◌, T, leb};
ghost use Rattle.model.specs.Questions.{parts_up_to, window_in_range, tile_in_window, view_in_range, axes_proper, lengths_fit, counter_below_end};
ghost use Rattle.model.specs.Picture.{next_counter};
ghost use Rattle.geometry.specs.Machine.{vec_of};
ghost use Rattle.camera.specs.Machine.{axes_of, camera_of, view_of};
ghost use Rattle.call.specs.Lent.{lengths_of};

use camera::{Axes, Camera};
use coordinates::point_in_range;
use geometry::{Vector, cross_product, dot_product, parts_up_to};
use lent::Lengths;

// the window's part of question 10
fn window_in_range(camera: Camera) -> bool
    ensures { result ≡ window_in_range (camera_of camera).window }
{
    (1..=1024).contains(&camera.width)
        && (1..=512).contains(&camera.height)
        && (1..=4096).contains(&camera.lens)
}

// `count` cells from cell `first` on are among the first `all`: added in wider numbers, so that the sum does not wrap
fn ends_within(first: u16, count: u16, all: u16) -> bool
    ensures { result ≡ leb (first + count) all }
{
    u32::from(first) + u32::from(count) <= u32::from(all)
}

// the tile's part of question 10
fn tile_in_window(camera: Camera) -> bool
    ensures { result ≡ tile_in_window (camera_of camera).window (camera_of camera).tile }
{
    let tile = camera.tile;
    (1..=256).contains(&tile.width)
        && (1..=128).contains(&tile.height)
        && ends_within(tile.left, tile.width, camera.width)
        && ends_within(tile.top, tile.height, camera.height)
}

// question 10
#[tactic(auto, unfolding(model::specs::Questions::view_in_range))]
pub fn view_in_range(eye: Vector, camera: Camera) -> bool
    ensures { result ≡ view_in_range (view_of eye camera) }
{
    point_in_range(eye) && window_in_range(camera) && tile_in_window(camera)
}

// the range's part of question 14
fn axes_in_range(axes: Axes) -> bool
    ensures { result ≡ (parts_up_to 100 (vec_of axes.right) && parts_up_to 100 (vec_of axes.forward) && parts_up_to 100 (vec_of axes.up)) }
{
    parts_up_to(100, axes.right) && parts_up_to(100, axes.forward) && parts_up_to(100, axes.up)
}

// Question 14. The range is asked first, so that the product is of small numbers.
pub fn axes_proper(axes: Axes) -> bool
    ensures { result ≡ axes_proper (axes_of axes) }
{
    axes_in_range(axes) && 0 < dot_product(axes.right, cross_product(axes.forward, axes.up))
}

pub fn area(width: u16, height: u16) -> usize
    ensures { result ≡ width * height }
{
    usize::from(width) * usize::from(height)
}

// question 11, of a scene with this many patches
#[tactic(auto, unfolding(model::specs::Questions::lengths_fit))]
pub fn lengths_fit(camera: Camera, patches: usize, lengths: Lengths) -> bool
    ensures { result ≡ lengths_fit (camera_of camera) patches (lengths_of lengths) }
{
    let tile = camera.tile;
    lengths.picture == area(tile.width, tile.height)
        && lengths.counts == 1025
        && lengths.patch_counts == patches
        && lengths.unlit == usize::from(tile.height) * 256
        && lengths.lit == usize::from(tile.height) * 4
}

// question 12
#[tactic(auto, unfolding(model::specs::Questions::counter_below_end))]
pub fn counter_below_end(counter: u32) -> bool
    ensures { result ≡ counter_below_end counter }
{
    counter < u32::MAX
}

// The station counter after an accepted picture: it rises with the tile that ends where the window ends.
pub fn next_counter(camera: Camera, counter: u32) -> u32
    requires { T (tile_in_window (camera_of camera).window (camera_of camera).tile) × (counter < 4294967295) }
    ensures { result ≡ next_counter (camera_of camera) counter }
{
    let tile = camera.tile;
    let last_column = u32::from(tile.left) + u32::from(tile.width) == u32::from(camera.width);
    let last_row = u32::from(tile.top) + u32::from(tile.height) == u32::from(camera.height);
    if last_column && last_row {
        counter + 1
    } else {
        counter
    }
}
