// The header of a scene, and questions 1 and 2.
#![tactic(auto)]

pub mod sizes;

ghost use Rattle.std.specs.Prelude.{◌≡◌, ◌+◌, ◌≤◌, ◌<◌, length};
ghost use Rattle.model.specs.Format.{header_of, section_at};
ghost use Rattle.model.specs.Questions.{has_header, is_section, has_sections};
ghost use Rattle.header.specs.Header.{section_of, SectionIs, HeaderIs};

use little_endian::{u16_at, u32_at};
use sizes::{
    CORNER_SIZE, HEADER_SIZE, LONGEST_SCENE, MOST_CORNERS, MOST_NODES, MOST_PATCHES, NODE_SIZE,
    PATCH_SIZE, VERSION,
};

#[derive(Clone, Copy)]
pub struct Section {
    pub offset: usize,
    pub size: usize,
}

#[derive(Clone, Copy)]
pub struct Header {
    pub version: usize,
    pub reserved: usize,
    pub whole: usize,
    pub nodes: Section,
    pub patches: Section,
    pub corners: Section,
}

#[tactic(auto, unfolding(model::specs::Format::section_at))]
fn section_at(bytes: &[u8], at: usize) -> Section
    requires { at + 8 ≤ length bytes.now }
    ensures { SectionIs (section_at bytes.now at) result }
{
    Section {
        offset: u32_at(bytes, at),
        size: u32_at(bytes, at + 4),
    }
}

#[tactic(auto, unfolding(model::specs::Format::header_of))]
pub fn read_header(bytes: &[u8]) -> Header
    requires { 32 ≤ length bytes.now }
    ensures { HeaderIs (header_of bytes.now) result }
{
    Header {
        version: u16_at(bytes, 0),
        reserved: u16_at(bytes, 2),
        whole: u32_at(bytes, 4),
        nodes: section_at(bytes, 8),
        patches: section_at(bytes, 16),
        corners: section_at(bytes, 24),
    }
}

// question 1
#[tactic(auto, unfolding(model::specs::Questions::has_header))]
pub fn has_header(bytes: &[u8]) -> bool
    ensures { result ≡ has_header bytes.now }
{
    let n = bytes.len();
    if !(HEADER_SIZE..=LONGEST_SCENE).contains(&n) {
        return false;
    }
    let h = read_header(bytes);
    h.version == VERSION && h.reserved == 0 && h.whole == n
}

// the section begins at a place and holds whole records, not more than a limit
#[tactic(auto, unfolding(model::specs::Questions::is_section))]
fn is_section(s: Section, start: usize, step: usize, most: usize) -> bool
    requires { 0 < step }
    ensures { result ≡ is_section start step most (section_of s) }
{
    s.offset == start && s.size % step == 0 && s.size / step <= most
}

// question 2
#[tactic(auto, unfolding(model::specs::Questions::has_sections))]
pub fn has_sections(bytes: &[u8]) -> bool
    requires { 32 ≤ length bytes.now }
    ensures { result ≡ has_sections bytes.now }
{
    let Header {
        nodes,
        patches,
        corners,
        whole,
        ..
    } = read_header(bytes);
    is_section(nodes, HEADER_SIZE, NODE_SIZE, MOST_NODES)
        && is_section(patches, nodes.offset + nodes.size, PATCH_SIZE, MOST_PATCHES)
        && is_section(
            corners,
            patches.offset + patches.size,
            CORNER_SIZE,
            MOST_CORNERS,
        )
        && corners.offset + corners.size == whole
}
