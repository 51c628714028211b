// What is lent to a call.
ghost use Rattle.std.specs.Prelude.{◌≡◌};
ghost use Rattle.model.specs.Lent.{lengths_of as model_lengths_of};
ghost use Rattle.call.specs.Lent.{lengths_of, held_by};

// the lengths of the buffers that are lent
#[derive(Clone, Copy)]
pub struct Lengths {
    pub picture: usize,
    pub counts: usize,
    pub patch_counts: usize,
    pub unlit: usize,
    pub lit: usize,
}

// the five buffers and the station counter
#[derive(Drop)]
pub struct Lent<'a> {
    pub picture: &'a mut [u16],
    pub counts: &'a mut [u32],
    pub patch_counts: &'a mut [u32],
    pub unlit: &'a mut [u16],
    pub lit: &'a mut [u64],
    pub counter: &'a mut u32,
}

impl Lent<'_> {
    pub fn lengths(&self) -> Lengths
        ensures { lengths_of result ≡ model_lengths_of (held_by self.now) }
    {
        Lengths {
            picture: self.picture.len(),
            counts: self.counts.len(),
            patch_counts: self.patch_counts.len(),
            unlit: self.unlit.len(),
            lit: self.lit.len(),
        }
    }
}
