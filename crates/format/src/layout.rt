// How a scene's records lie in its bytes.

// How many records each section has, and the bytes of a patch record, which go by the scene's version; the sections follow each other from the header on.
#[derive(Clone, Copy)]
pub struct Layout {
    pub nodes: usize,
    pub patches: usize,
    pub corners: usize,
    pub patch_size: usize,
}
