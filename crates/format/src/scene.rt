// A scene once questions 1 and 2 are answered yes: its bytes with how they are laid out, and its records by their numbers.
ghost use Rattle.std.specs.Prelude.{◌≡◌, true, ◌+◌, ◌*◌, ◌≤◌, ◌<◌};
ghost use Rattle.geometry.specs.Machine.{vec_of};
ghost use Rattle.model.specs.Format.{corner_size};
ghost use Rattle.model.specs.Questions.{has_header, has_sections};
ghost use Rattle.format.specs.Machine.{node_of, patch_record_of};
ghost use Rattle.format.specs.Layout.{LaidOut, corners_start, node_number, patch_number, corner_number};

use crate::layout::Layout;
use crate::records::{Node, PatchRecord, node_at, patch_record_at, point_at};
use geometry::Vector;
use header::read_header;
use header::sizes::{CORNER_SIZE, HEADER_SIZE, NODE_SIZE, PATCH_SIZE};

#[derive(Clone, Copy)]
pub struct Scene<'a> {
    pub bytes: &'a [u8],
    pub layout: Layout,
    pub ghost laid_out: { LaidOut bytes.now layout },
}

impl<'a> Scene<'a> {
    pub fn read(bytes: &'a [u8]) -> Self
        requires { (has_header bytes.now ≡ true) × (has_sections bytes.now ≡ true) }
        ensures { result.bytes.now ≡ bytes.now }
    {
        let h = read_header(bytes);
        Scene {
            bytes,
            layout: Layout {
                nodes: h.nodes.size / NODE_SIZE,
                patches: h.patches.size / PATCH_SIZE,
                corners: h.corners.size / CORNER_SIZE,
                patch_size: PATCH_SIZE,
            },
        }
    }

    pub fn node(&self, k: usize) -> Node
        requires { k < self.now.layout.nodes }
        ensures { node_of result ≡ node_number self.now.bytes.now k }
    {
        node_at(self.bytes, HEADER_SIZE + NODE_SIZE * k)
    }

    pub fn patch_record(&self, k: usize) -> PatchRecord
        requires { k < self.now.layout.patches }
        ensures { patch_record_of result ≡ patch_number self.now.bytes.now self.now.layout k }
    {
        let l = self.layout;
        patch_record_at(
            self.bytes,
            HEADER_SIZE + NODE_SIZE * l.nodes + l.patch_size * k,
        )
    }

    // the offset of a corner, or of the end of the last one
    pub fn corner_offset(&self, k: usize) -> usize
        requires { k ≤ self.now.layout.corners }
        ensures { result ≡ corners_start self.now.layout + corner_size * k }
    {
        let l = self.layout;
        HEADER_SIZE + NODE_SIZE * l.nodes + l.patch_size * l.patches + CORNER_SIZE * k
    }

    pub fn corner(&self, k: usize) -> Vector
        requires { k < self.now.layout.corners }
        ensures { vec_of result ≡ corner_number self.now.bytes.now self.now.layout k }
    {
        point_at(self.bytes, self.corner_offset(k))
    }
}
