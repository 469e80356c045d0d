// The program `rounds`: one sheet from standard input, at most its first 32,768 bytes, and its text to standard output. What is
// printed is made by `text_of`; here is only reading and writing. Where the input fails before its end nothing is printed.
#![tactic(auto)]

ghost use Rattle.std.specs.Prelude.{◌≤◌, length, IfOk};

use std::io;
use std::io::{Read, Write};
use text::text_of;

// Reads until the bytes are full or the input ends, and gives how many there are. Each read asks for all that is left, so that a message
// that comes whole is taken whole (`io::copy` asks for 8,192 bytes).
fn read_full<R: Read + Drop>(mut input: R, bytes: &mut [u8]) -> io::Result<usize>
    ensures { IfOk result (λ n. n ≤ length bytes.new) }
{
    let mut n: usize = 0;
    while n < bytes.len() {
        let more = input.read(&mut bytes[n..])?;
        if more == 0 {
            return Ok(n);
        }
        n += more;
    }
    Ok(n)
}

// Prints the text of a sheet, whole.
fn print<R: Print>(rt: &R, sheet: &[u8]) -> io::Result<()> {
    let mut out = [0u8; 131072];
    let long = text_of(sheet, &mut out);
    io::writer(rt).write_all(&out[..long])
}

fn main(rt: HostRuntime) -> io::Result<()> {
    let mut sheet = [0u8; 32768];
    let n = read_full(rt.stdin(), &mut sheet)?;
    print(&rt, &sheet[..n])
}
