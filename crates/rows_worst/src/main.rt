// Writes for each number k on standard input the k-th span of the worst case, its first and its last column; and, where k is at most 65,535, how many segments the first k of
// them look at together. The numbers are of eight bytes, the low byte first; at most 1,024 are taken, and a last one that is not whole is left out.
#![tactic(auto)]

ghost use Rattle.std.specs.Prelude.{◌+◌, ◌≤◌};
ghost use Rattle.arrayvec.specs.ArrayVec.{array_vec_len};

use arrayvec::ArrayVec;
use console::{read_all, write_or_tell, write_whole};
use little_endian::u32_at;
use text::{put_last, put_number, put_spaced};
use worst_case::{worst_looks, worst_span};

// 1,024 numbers of eight bytes.
const INPUT_ROOM: usize = 8192;

// What the first k look at together ends the line.
fn put_looks(line: &mut ArrayVec<u8, 64>, k: usize)
    requires { array_vec_len line.old + 12 ≤ 64 }
{
    if k <= 65535 {
        put_last(line, worst_looks(k as u32) as u32);
    } else {
        line.push(b'\n');
    }
}

fn write_worst(rt: &HostRuntime, k: usize) {
    let span = worst_span(k);
    let mut line = ArrayVec::new();
    put_number(&mut line, u32::from(span.first));
    put_spaced(&mut line, u32::from(span.last));
    put_looks(&mut line, k);
    let _written = write_or_tell(
        &mut rt.stdout(),
        line.as_slice(),
        &mut rt.stderr(),
        b"rows_worst: a line could not be written\n",
    );
}

fn write_each(rt: &HostRuntime, numbers: &[u8]) {
    for number in numbers.chunks_exact(8) {
        let low = u32_at(number, 0);
        let high = u32_at(number, 4);
        write_worst(rt, low + 4294967296 * high);
    }
}

fn main(rt: HostRuntime) {
    let mut input = [0u8; INPUT_ROOM];
    // each program tells of itself: a function for this would be no shorter
    let Ok(n) = read_all(&mut rt.stdin(), &mut input) else {
        let _told = write_whole(
            &mut rt.stderr(),
            b"rows_worst: standard input cannot be read\n",
        );
        return;
    };
    write_each(&rt, &input[..n]);
}
