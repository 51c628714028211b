// The survey that an input asks for: an eye and a window (12 bytes), and a scene.
#![tactic(auto)]

ghost use Rattle.std.specs.Prelude.{◌≡◌, ◌+◌, ◌≤◌, length};
ghost use Rattle.model.specs.Format.{u16_at};
ghost use Rattle.model.specs.Questions.{survey_answer};
ghost use Rattle.input.specs.Input.{input_call, input_counts};

use call::area;
use little_endian::{i16_at, u16_at};
use room::patches_told;

// a field of two bytes, in the type that the call takes it in
pub fn word(bytes: &[u8], at: usize) -> u16
    requires { at + 2 ≤ length bytes.now }
    ensures { result ≡ u16_at bytes.now at }
{
    u16_at(bytes, at) as u16
}

// The survey of an input of an eye, a window and a scene, seen by a level camera that draws its window as one tile, with the station counter at 0: the answer, and the counts.
pub fn survey_input(input: &[u8], counts: &mut [u32]) -> u32
    requires { 12 ≤ length input.now }
    ensures value { result ≡ survey_answer (input_call input.now (length counts.old)) }
    ensures counts_after { counts.new ≡ input_counts input.now counts.old }
{
    let width = word(input, 6);
    let height = word(input, 8);
    let lens = word(input, 10);
    // Room for what a survey leaves, as far as it goes: where question 11 asks for more, a question before it has said no. The survey writes all that it is lent.
    let mut picture = [0u16; 32768];
    let mut patch_counts = [0u32; 1024];
    let mut unlit = [0u16; 32768];
    let mut lit = [0u64; 512];
    let mut counter = 0u32;
    let cells = area(width, height).min(32768);
    let patches = patches_told(&input[12..]);
    let rows = area(height, 256).min(32768);
    let words = area(height, 4).min(512);
    survey::units::ring_survey(
        &input[12..],
        i16_at(input, 0),
        i16_at(input, 2),
        i16_at(input, 4),
        1,
        0,
        0,
        0,
        1,
        0,
        0,
        0,
        1,
        width,
        height,
        lens,
        0,
        0,
        width,
        height,
        &mut picture[..cells],
        counts,
        &mut patch_counts[..patches],
        &mut unlit[..rows],
        &mut lit[..words],
        &mut counter,
    )
}
