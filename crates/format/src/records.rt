// The records of a scene: points, nodes and patches, each at its offset.
ghost use Rattle.std.specs.Prelude.{◌≡◌, ◌+◌, ◌≤◌, length};
ghost use Rattle.model.specs.Vector.{vec};
ghost use Rattle.geometry.specs.Machine.{vec_of};
ghost use Rattle.model.specs.Format.{point_at, node_at, patch_at};
ghost use Rattle.format.specs.Machine.{node_of, patch_record_of};

use geometry::Vector;
use little_endian::{i16_at, u16_at};

// a run of records: the first one's number, and how many it has
#[derive(Clone, Copy)]
pub struct Run {
    pub first: usize,
    pub count: usize,
}

#[derive(Clone, Copy)]
pub struct Node {
    pub a: Vector,
    pub b: Vector,
    pub c: Vector,
    pub positive: usize,
    pub negative: usize,
    pub patches: Run,
}

#[derive(Clone, Copy)]
pub struct PatchRecord {
    pub panel: u16,
    pub corners: Run,
}

pub fn vector(x: i16, y: i16, z: i16) -> Vector
    ensures { vec_of result ≡ vec x y z }
{
    Vector {
        x: i64::from(x),
        y: i64::from(y),
        z: i64::from(z),
    }
}

pub fn point_at(bytes: &[u8], at: usize) -> Vector
    requires { at + 6 ≤ length bytes.now }
    ensures { vec_of result ≡ point_at bytes.now at }
{
    vector(
        i16_at(bytes, at),
        i16_at(bytes, at + 2),
        i16_at(bytes, at + 4),
    )
}

pub fn node_at(bytes: &[u8], at: usize) -> Node
    requires { at + 26 ≤ length bytes.now }
    ensures { node_of result ≡ node_at bytes.now at }
{
    Node {
        a: point_at(bytes, at),
        b: point_at(bytes, at + 6),
        c: point_at(bytes, at + 12),
        positive: u16_at(bytes, at + 18),
        negative: u16_at(bytes, at + 20),
        patches: Run {
            first: u16_at(bytes, at + 22),
            count: u16_at(bytes, at + 24),
        },
    }
}

pub fn patch_record_at(bytes: &[u8], at: usize) -> PatchRecord
    requires { at + 6 ≤ length bytes.now }
    ensures { patch_record_of result ≡ patch_at bytes.now at }
{
    PatchRecord {
        panel: u16_at(bytes, at) as u16,
        corners: Run {
            first: u16_at(bytes, at + 2),
            count: u16_at(bytes, at + 4),
        },
    }
}
