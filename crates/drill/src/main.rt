// Every operation of the library by a line protocol on standard input: one operation a line, one answer line each. Bytes are in hex, `-`
// where empty; a lent room is given by its length, and every entry of it is 170 before the call. A line that is none of these answers `?`
// and changes nothing.
//
//     load HEX | rest HEX | vector HEX | steps HEX
//     history WORDS BEFORES FLAGS | list NETS TIMES | records ROOM | net N | trace N TIME ROOM
//     bench HEX ORDER K ROOM
#![tactic(auto)]

mod answers;
mod held;
mod lines;

use answers::Output;
use lines::Drill;
use std::io;
use std::io::{Read, Stdin, Stdout, Write};

// Reads a script and answers its lines. The room for it is a byte longer than a script may be: one that fills it has one answer, `?`.
fn serve(
    mut from: Stdin,
    mut to: Stdout,
    script: &mut [u8],
    bytes: &mut [u8; 70000],
    room: &mut [u8; 8192],
) -> io::Result<()> {
    let n = text::fill(&mut from, script)?;
    if n == script.len() {
        return to.write_all(b"?\n");
    }
    let mut drill = Drill::new(bytes, Output::new(to, room));
    drill.run(&script[..n])
}

// A script of up to 4 MiB, the bytes of one line, the answers' buffer.
fn main(rt: HostRuntime) -> io::Result<()> {
    let mut script = [0u8; 4194305];
    let mut bytes = [0u8; 70000];
    let mut room = [0u8; 8192];
    serve(rt.stdin(), rt.stdout(), &mut script, &mut bytes, &mut room)
}
