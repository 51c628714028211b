// The sizes and limits of the format, each in one place.
pub const VERSION: usize = 1;

// bytes of the header and of each record
pub const HEADER_SIZE: usize = 32;

pub const NODE_SIZE: usize = 26;

pub const PATCH_SIZE: usize = 6;

pub const CORNER_SIZE: usize = 6;

// where a node's patch run and a patch's corner run stand in their records
pub const NODE_RUN: usize = 22;

pub const PATCH_RUN: usize = 2;

pub const MOST_NODES: usize = 1024;

pub const MOST_PATCHES: usize = 1024;

pub const MOST_CORNERS: usize = 4096;

pub const LONGEST_SCENE: usize = 57376;

// a child that is none
pub const NO_CHILD: usize = 65535;

pub const HIGHEST_PANEL: u16 = 1024;
