// Quick answers on a row of the lit map. Any map is taken, also one that no survey left.
ghost use Rattle.std.specs.Prelude.{◌≡◌};
ghost use Rattle.model.specs.Map.{lit_cells, first_unlit};

use litmap::{first_unlit, row_lit};

// How many cells of a row are lit: the ones of its four words, whatever the width. 0 where the row is not wholly inside the map.
pub fn ring_row_lit(lit: &[u64], row: usize) -> u32
    ensures { result ≡ lit_cells lit.now row }
{
    row_lit(lit, row)
}

// The first column of a row that is not lit, the width, which is the tile's, where all below it are; at most 256. 0 where the row is not wholly inside the map.
pub fn ring_row_first_unlit(lit: &[u64], width: u16, row: usize) -> u32
    ensures { result ≡ first_unlit lit.now width row }
{
    first_unlit(lit, width, row)
}
