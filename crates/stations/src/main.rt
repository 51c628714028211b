// Surveys stored scenes at the limits of the questions and prints each one's name and answer. A file holds a view (12 bytes) and a scene.
#![tactic(auto)]

ghost use Rattle.std.specs.Prelude.{◌≤◌, length};
ghost use Rattle.console.specs.Reading.{ReadInto};

use arrayvec::ArrayVec;
use console::{read_all, write_or_tell};
use input::survey_input;
use std::fs::File;
use std::io::Result;
use text::put_line;

// The longest input, and one byte more, which tells a longer one.
const INPUT_ROOM: usize = 57389;

// The files, in the order that their answers are printed in.
const NAMES: [&str; 23] = [
    "s",
    "coordinate_10000",
    "coordinate_10001",
    "width_256",
    "width_257",
    "corners_8",
    "corners_2",
    "corners_9",
    "own_number_as_child",
    "corner_midway",
    "edge_on_plane",
    "wholly_on_plane",
    "version_2",
    "sections_apart",
    "points_on_line",
    "panel_0",
    "panels_falling",
    "two_above_kept",
    "two_above_broken",
    "no_nodes",
    "patch_without_node",
    "eye_10001",
    "chain_1024",
];

// A line's 32 bytes are a name's 20, a space, the ten digits of a number and the line's end.
#[tactic(auto, using(text::proofs::Lengths::line_length))]
fn print_answer(rt: &HostRuntime, name: &str, answer: u32)
    requires { length name.now ≤ 20 }
{
    let mut line: ArrayVec<u8, 32> = ArrayVec::new();
    put_line(&mut line, name.as_bytes(), answer);
    let _written = write_or_tell(
        &mut rt.stdout(),
        line.as_slice(),
        &mut rt.stderr(),
        b"stations: an answer could not be written\n",
    );
}

// The answer to the survey that an input asks for.
fn answer(input: &[u8]) -> u32 {
    if input.len() < 12 {
        return 1;
    }
    survey_input(input, &mut [0u32; 1025])
}

// Opens the file of this name and reads it, all of it or as much as the buffer holds. Where that fails, it is told on standard error.
fn read_file(rt: &HostRuntime, name: &str, buffer: &mut [u8]) -> Result<usize>
    ensures { ReadInto result buffer.new }
{
    match File::open(rt, name) {
        Ok(mut file) => {
            let got = read_all(&mut file, buffer);
            if got.is_err() {
                let _told = eprintln!(rt; "{name}: the file cannot be read");
            }
            got
        }
        Err(error) => {
            let _told = eprintln!(rt; "{name}: {error}");
            Err(error)
        }
    }
}

// reads the file of this name, and prints the answer to its survey
fn run(rt: &HostRuntime, name: &str)
    requires { length name.now ≤ 20 }
{
    let mut input = [0u8; INPUT_ROOM];
    if let Ok(n) = read_file(rt, name, &mut input) {
        print_answer(rt, name, answer(&input[..n]));
    }
}

fn main(rt: HostRuntime) {
    for name in NAMES {
        run(&rt, name);
    }
}
