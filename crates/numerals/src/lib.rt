// Numbers and words put one after the other, each after a space: a number in decimal digits, a word in sixteen hexadecimal ones.
#![tactic(auto)]

ghost use Rattle.std.specs.Prelude.{◌≡◌, ℕ, List};
ghost use Rattle.text.specs.Text.{spaced as spaced_number};
ghost use Rattle.text.specs.Put.{Room, Put};
ghost use Rattle.numerals.specs.Listing.{each, word_digits, spaced_word};

use arrayvec::ArrayVec;
use text::{put_spaced, put_text};

// What has a text after a space, of at most 17 bytes.
pub trait Spaced: Copy {
    ghost spaced: { Self → List ℕ };

    fn spaced(self) -> ArrayVec<u8, 17>
        ensures { result.items ≡ spaced self };
}

impl Spaced for u16 {
    ghost spaced = { spaced_number };

    #[tactic(auto, using(text::proofs::Lengths::spaced_length))]
    fn spaced(self) -> ArrayVec<u8, 17> {
        let mut out = ArrayVec::new();
        put_spaced(&mut out, u32::from(self));
        out
    }
}

impl Spaced for u64 {
    ghost spaced = { spaced_word };

    #[tactic(auto, using(crate::proofs::Digits::word_length), unfolding(crate::specs::Listing::spaced_word))]
    fn spaced(self) -> ArrayVec<u8, 17> {
        let mut out = ArrayVec::new();
        out.push(b' ');
        put_text(&mut out, &hex_word(self));
        out
    }
}

// A word as sixteen hexadecimal digits.
#[tactic(auto, using(crate::proofs::Digits::encoded_word))]
fn hex_word(word: u64) -> [u8; 16]
    ensures { result ≡ word_digits word }
{
    let mut digits = [0; 16];
    let _fits = hex::encode_to_slice(word.to_be_bytes(), &mut digits);
    digits
}

// Each number after a space. Numbers are put where they are to stand: made first and copied, as items of any kind are, a row's line takes four times as long.
pub fn put_numbers<const N: usize>(out: &mut ArrayVec<u8, N>, numbers: &[u16])
    requires { Room (each spaced_number numbers.now) N out.old }
    ensures { Put (each spaced_number numbers.now) out.old out.new }
{
    for number in numbers {
        put_spaced(out, u32::from(*number));
    }
}

// Each of the items after a space.
pub fn put_each<T: Spaced, const N: usize>(out: &mut ArrayVec<u8, N>, items: &[T])
    requires { Room (each T.spaced items.now) N out.old }
    ensures { Put (each T.spaced items.now) out.old out.new }
{
    for item in items {
        put_text(out, item.spaced().as_slice());
    }
}
