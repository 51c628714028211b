// The edge functions of a patch: what a raster sees of its edge vectors, turned to the patch's side.
#![tactic(auto)]

ghost use Rattle.std.specs.Prelude.{◌≡◌, ◌<◌};
ghost use Rattle.model.specs.Vector.{minus, times, cross};
ghost use Rattle.model.specs.Format.{decode, patch_numbered};
ghost use Rattle.geometry.specs.Machine.{vec_of, Bounded, VectorIs};
ghost use Rattle.edges.specs.Edges.{EyeSign, next_corner, EdgesAsked, EdgeAsked, EdgesKept};

use checked::CheckedScene;
use geometry::{EdgeFunction, Raster, Vector, edge_function};
use slopes::{Sloped, keep_one};
use spans::Span;

// the rays of a picture, with the eye that they go from
#[derive(Clone, Copy)]
pub struct Sight {
    pub eye: Vector,
    pub raster: Raster,
}

// the sign of patch k's eye product
fn eye_sign(scene: &CheckedScene, k: usize, eye: Vector) -> i64
    requires { (k < scene.now.layout.patches) × Bounded 10000 eye }
    ensures { EyeSign (vec_of eye) (patch_numbered (decode scene.now.bytes.now) k) result }
{
    let first = scene.corner_run(k).first;
    let a = scene.corner(first);
    let b = scene.corner(first + 1);
    let c = scene.corner(first + 2);
    let normal = geometry::plane_normal(a, b, c);
    arithmetic::sign(geometry::eye_product(eye, a, normal))
}

// sign · ((v − eye) × (w − eye)), for the sign of the eye product: one edge vector of a patch, turned to the patch's side. Turned over it is that of the edge
// gone the other way, which costs no product.
fn oriented_edge(eye: Vector, v: Vector, w: Vector, sign: i64) -> Vector
    requires { EdgeAsked eye v w sign }
    ensures { VectorIs 800000000 (times sign (cross (minus (vec_of v) (vec_of eye)) (minus (vec_of w) (vec_of eye)))) result }
{
    if sign < 0 {
        geometry::edge_vector(eye, w, v)
    } else if 0 < sign {
        geometry::edge_vector(eye, v, w)
    } else {
        Vector { x: 0, y: 0, z: 0 }
    }
}

// the corner's place after place i: after the last comes the first
fn next_place(count: usize, i: usize) -> usize
    requires { i < count }
    ensures { result ≡ next_corner count i }
{
    let next = i + 1;
    if next < count { next } else { 0 }
}

// Writes the edge functions of patch k that have a slope to the front of a table; returns how many there are, and the rows of a reach that the level ones leave.
fn write_edges(
    scene: &CheckedScene,
    k: usize,
    sight: Sight,
    sign: i64,
    reach: Span,
    table: &mut [EdgeFunction],
) -> Sloped
    requires { EdgesAsked scene.now.layout k sight reach table.old × EyeSign (vec_of sight.eye) (patch_numbered (decode scene.now.bytes.now) k) sign }
    ensures { EdgesKept sight (patch_numbered (decode scene.now.bytes.now) k) reach table.new result }
{
    let run = scene.corner_run(k);
    let mut sloped = Sloped { count: 0, reach };
    let mut from = scene.corner(run.first);
    for i in 0..run.count {
        let to = scene.corner(run.first + next_place(run.count, i));
        let edge = oriented_edge(sight.eye, from, to, sign);
        sloped = keep_one(edge_function(sight.raster, edge), sloped, table);
        from = to;
    }
    sloped
}

// The same, with the sign of the eye product. What the table holds after them is left free.
pub fn patch_edges(
    scene: &CheckedScene,
    k: usize,
    sight: Sight,
    reach: Span,
    table: &mut [EdgeFunction],
) -> Sloped
    requires { EdgesAsked scene.now.layout k sight reach table.old }
    ensures { EdgesKept sight (patch_numbered (decode scene.now.bytes.now) k) reach table.new result }
{
    let sign = eye_sign(scene, k, sight.eye);
    write_edges(scene, k, sight, sign, reach, table)
}
