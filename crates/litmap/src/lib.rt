// The lit map of a picture: four words of 64 bits a row. Two answers on a row are read from the whole map.
#![tactic(auto)]

ghost use Rattle.std.specs.Prelude.{◌≡◌, not, length};
ghost use Rattle.model.specs.Map.{lit_at, lit_cells, first_of, first_unlit};

// The lit cells of a row of the map: the ones of its four words. 0 where the row is not wholly inside.
pub fn row_lit(lit: &[u64], row: usize) -> u32
    ensures { result ≡ lit_cells lit.now row }
{
    if lit.len() / 4 <= row {
        return 0;
    }
    let words = &lit[4 * row..4 * row + 4];
    let mut ones = 0;
    for k in 0..4 {
        ones += words[k].count_ones();
    }
    ones
}

// The first clear bit of a row's words, 256 where all are set.
fn first_clear(words: &[u64]) -> u32
    requires { length words.now ≡ 4 }
    ensures { result ≡ first_of (λ i. not (lit_at words.now i)) 0 256 }
{
    let mut column = 0;
    for word in words {
        let ones = (!*word).trailing_zeros();
        column += ones;
        if ones < 64 {
            return column;
        }
    }
    column
}

// The first unlit column of a row of the map, the width where all below it are lit; at most 256, as a column past the four words is not lit. 0 where the row is not wholly inside.
pub fn first_unlit(lit: &[u64], width: u16, row: usize) -> u32
    ensures { result ≡ first_unlit lit.now width row }
{
    let rows = lit.len() / 4;
    if rows <= row {
        return 0;
    }
    first_clear(&lit[4 * row..4 * row + 4]).min(u32::from(width))
}
