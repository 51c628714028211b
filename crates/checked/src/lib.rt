// The records of a scene that passed the questions which reading it stands on.
#![tactic(auto)]

ghost use Rattle.std.specs.Prelude.{◌≡◌, ◌<◌};
ghost use Rattle.geometry.specs.Machine.{VectorIs};
ghost use Rattle.format.specs.Layout.{corner_number};
ghost use Rattle.checked.specs.Checked.{Checked, NodeIs, CornersAre, PatchRecordIs};

use format::layout::Layout;
use format::records::{Node, PatchRecord, Run};
use format::scene::Scene;
use geometry::Vector;

// a scene whose answers to questions 1, 2, 3, 5 and 6 are yes
#[derive(Clone, Copy)]
pub struct CheckedScene<'a> {
    pub bytes: &'a [u8],
    pub layout: Layout,
    pub ghost checked: { Checked bytes.now layout },
}

impl<'a> CheckedScene<'a> {
    fn scene(&self) -> Scene<'a>
        ensures bytes { result.bytes.now ≡ self.now.bytes.now }
        ensures layout { result.layout ≡ self.now.layout }
    {
        Scene {
            bytes: self.bytes,
            layout: self.layout,
        }
    }

    pub fn node(&self, k: usize) -> Node
        requires { k < self.now.layout.nodes }
        ensures { NodeIs self.now.bytes.now self.now.layout k result }
    {
        self.scene().node(k)
    }

    pub fn corner(&self, k: usize) -> Vector
        requires { k < self.now.layout.corners }
        ensures { VectorIs 10000 (corner_number self.now.bytes.now self.now.layout k) result }
    {
        self.scene().corner(k)
    }

    pub fn patch_record(&self, k: usize) -> PatchRecord
        requires { k < self.now.layout.patches }
        ensures { PatchRecordIs self.now.bytes.now self.now.layout k result }
    {
        self.scene().patch_record(k)
    }

    // where the corners of a patch stand in the corner table
    pub fn corner_run(&self, k: usize) -> Run
        requires { k < self.now.layout.patches }
        ensures { CornersAre self.now.bytes.now self.now.layout k result }
    {
        self.patch_record(k).corners
    }
}
