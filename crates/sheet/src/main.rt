// Reads a session file from standard input and writes its sheet to standard output, a piece a record.
#![tactic(auto)]

use std::io;
use std::io::{Read, Stdin, Stdout};

// The pieces of a file's sheet, one after another, until it is over or a write fails.
fn write_sheet(to: Stdout, file: &[u8], out: &mut [u8; 20480]) -> io::Result<()> {
    let mut sheet = sheet_pieces::begin();
    // A while: a sheet is over after as many pieces as the file has records, which no range counts.
    while !sheet_pieces::is_over(&sheet) {
        let length = sheet_pieces::next(&mut sheet, file, out);
        to.write_all(&out[..length])?;
    }
    Ok(())
}

// Reads a file of up to 65,536 bytes and writes its sheet. The room for it is a byte longer than a file may be: one that fills it is too long.
fn main(rt: HostRuntime) -> io::Result<()> {
    let mut file = [0u8; 65537];
    let mut page = [0u8; 20480];
    let n = text::fill(&mut rt.stdin(), &mut file)?;
    write_sheet(rt.stdout(), &file[..n], &mut page)
}
