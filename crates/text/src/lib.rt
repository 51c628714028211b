// Text put behind what a buffer of fixed size holds: words, decimal numbers and lines.
#![tactic(auto)]

ghost use Rattle.std.specs.Prelude.{◌<◌, [], ◌∷◌};
ghost use Rattle.text.specs.Text.{decimal, spaced, numbers, line};
ghost use Rattle.text.specs.Put.{Room, Put};

use arrayvec::ArrayVec;
use itoa::Buffer;

pub fn put_text<const N: usize>(out: &mut ArrayVec<u8, N>, text: &[u8])
    requires { Room text.now N out.old }
    ensures { Put text.now out.old out.new }
{
    let _fits = out.try_extend_from_slice(text);
}

// A number of up to four digits, each put by itself: most numbers are as short. The library's digits are made apart and copied behind the text, which takes several times as
// long; a function that calls itself for the digits of a tenth finds no proof over a buffer of any size.
#[tactic(auto, using(crate::proofs::Decimals::decimal_one, crate::proofs::Decimals::decimal_two, crate::proofs::Decimals::decimal_three, crate::proofs::Decimals::decimal_four))]
fn put_short<const N: usize>(out: &mut ArrayVec<u8, N>, n: u16)
    requires { (n < 10000) × Room (decimal n) N out.old }
    ensures { Put (decimal n) out.old out.new }
{
    let last = b'0' + (n % 10) as u8;
    if n < 10 {
        out.push(last);
    } else if n < 100 {
        out.push(b'0' + (n / 10) as u8);
        out.push(last);
    } else if n < 1000 {
        out.push(b'0' + (n / 100) as u8);
        out.push(b'0' + (n / 10 % 10) as u8);
        out.push(last);
    } else {
        out.push(b'0' + (n / 1000) as u8);
        out.push(b'0' + (n / 100 % 10) as u8);
        out.push(b'0' + (n / 10 % 10) as u8);
        out.push(last);
    }
}

#[tactic(auto, using(crate::proofs::Decimals::written_decimal))]
pub fn put_number<const N: usize>(out: &mut ArrayVec<u8, N>, n: u32)
    requires { Room (decimal n) N out.old }
    ensures { Put (decimal n) out.old out.new }
{
    if n < 10000 {
        put_short(out, n as u16);
    } else {
        put_text(out, Buffer::new().format(n).as_bytes());
    }
}

// a space, and the number
#[tactic(auto, unfolding(crate::specs::Text::spaced))]
pub fn put_spaced<const N: usize>(out: &mut ArrayVec<u8, N>, n: u32)
    requires { Room (spaced n) N out.old }
    ensures { Put (spaced n) out.old out.new }
{
    out.push(b' ');
    put_number(out, n);
}

// the last number of a line, with the line's end
#[tactic(auto, unfolding(crate::specs::Text::numbers))]
pub fn put_last<const N: usize>(out: &mut ArrayVec<u8, N>, n: u32)
    requires { Room (numbers (n ∷ [])) N out.old }
    ensures { Put (numbers (n ∷ [])) out.old out.new }
{
    put_spaced(out, n);
    out.push(b'\n');
}

// "name n", as a line
#[tactic(auto, unfolding(crate::specs::Text::line))]
pub fn put_line<const N: usize>(out: &mut ArrayVec<u8, N>, name: &[u8], n: u32)
    requires { Room (line name.now (n ∷ [])) N out.old }
    ensures { Put (line name.now (n ∷ [])) out.old out.new }
{
    put_text(out, name);
    put_last(out, n);
}
