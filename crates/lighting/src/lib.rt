// Spans of columns, lit in the words of a row of the lit map under work: four words of 64 bits a row.
#![tactic(auto)]

ghost use Rattle.std.specs.Prelude.{◌≡◌, ◌+◌, ◌≤◌, ◌<◌};
ghost use Rattle.model.specs.Map.{word_of};
ghost use Rattle.segments.specs.Columns.{in_span};
ghost use Rattle.lighting.specs.Words.{Words, Lights, LightsBelow};

// The bits of a span in the word whose first column is `base`, which it must meet: all ones from the span's first bit there on, and up to its last one.
fn span_bits(base: usize, first: usize, last: usize) -> u64
    requires { (base ≤ last) × (first < base + 64) }
    ensures { result ≡ word_of (λ b. in_span first last (base + b)) }
{
    (u64::MAX << first.saturating_sub(base)) & (u64::MAX >> (63 - (last - base).min(63)))
}

// Lights a span's columns, in the words that it meets.
fn light_words(words: &mut [u64; 4], first: usize, last: usize)
    requires { (first ≤ last) × (last < 256) }
    ensures { Lights first last words.old words.new }
{
    for k in first / 64..last / 64 + 1 {
        words[k] |= span_bits(64 * k, first, last);
    }
}

// Lights the columns of a span in the words of a row of this width: those below the width, as the span may end beyond it. With `last` below `first` it has none.
pub fn light(words: &mut [u64; 4], width: usize, first: u16, last: u16)
    requires { (width ≤ 256) × Words width words.old }
    ensures { LightsBelow width first last words.old words.new }
{
    let start = usize::from(first);
    let end = (usize::from(last) + 1).min(width);
    if start < end {
        light_words(words, start, end - 1);
    }
}
