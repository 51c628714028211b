// Reads an eye, a window and a scene from standard input and writes the bill: the cells of each panel.
#![tactic(auto)]

use bill::{LONGEST, write_bill};
use console::{read_all, write_or_tell, write_whole};

fn main(rt: HostRuntime) {
    // One byte more than the longest input tells a longer one.
    let mut input = [0u8; LONGEST + 1];
    // each program tells of itself: a function for this would be no shorter
    let Ok(n) = read_all(&mut rt.stdin(), &mut input) else {
        let _told = write_whole(
            &mut rt.stderr(),
            b"ringbill: standard input cannot be read\n",
        );
        return;
    };
    let _written = write_or_tell(
        &mut rt.stdout(),
        write_bill(&input[..n]).as_slice(),
        &mut rt.stderr(),
        b"ringbill: the bill could not be written whole\n",
    );
}
