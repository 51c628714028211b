// The bill of an input, as bytes.
#![tactic(auto)]

ghost use Rattle.std.specs.Prelude.{◌≡◌};
ghost use Rattle.bill.specs.Bill.{bill};

use arrayvec::ArrayVec;
use input::{survey_input, word};
use sheet::{ROOM, put_refusal, put_sheet};

// The longest input: the eye's and the window's 12 bytes and the longest scene.
pub const LONGEST: usize = 57388;

// For every input its bill, byte by byte.
pub fn write_bill(input: &[u8]) -> ArrayVec<u8, ROOM>
    ensures { result.items ≡ bill input.now }
{
    if input.len() < 12 || LONGEST < input.len() {
        return put_refusal(1);
    }
    let mut counts = [0u32; 1025];
    let answer = survey_input(input, &mut counts);
    if answer != 0 {
        return put_refusal(answer);
    }
    put_sheet(word(input, 6), word(input, 8), word(input, 10), &counts)
}
