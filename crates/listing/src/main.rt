// Prints the listing of standard input: u64 limit, u64 data length, body. What the text is, the crate `lines` says.
// One byte past the longest input is enough for it to be refused, so no more is read. Where a read fails nothing is listed, and where
// standard output takes no more the rest is lost: a line on standard error says so. Otherwise nothing goes there.
#![tactic(auto)]

use std::io::{Eprint, Print};

// Lists an input and prints the text. A buffer that is too short for it (there is none here) prints nothing.
fn print<R: Print + Eprint>(rt: &R, input: &[u8], out: &mut [u8]) {
    if let Ok(size) = lines::listing(input, out) {
        if Print::write_all(rt, &out[..size]).is_err() {
            let _ = eprintln!(rt; "listing: standard output took no more: the text is cut");
        }
    }
}

fn main(rt: HostRuntime) {
    let mut buf = [0u8; lines::Input::MAX_INPUT + 1];
    let Ok(size) = input::read_whole(&mut rt.stdin(), &mut buf) else {
        let _ = eprintln!(rt;
            "listing: standard input could not be read to its end: nothing is listed"
        );
        return;
    };
    let mut out = [0u8; lines::Input::ROOM];
    print(&rt, &buf[..size], &mut out);
}
