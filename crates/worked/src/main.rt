// The ten starred exercises of document 01, A to J, run through `text_of`, which makes what `rounds` prints: for each sheet a line with
// the exercise's letter, then the sheet's text. J has two sheets, and its letter stands before each. The stored output is worked out by
// hand from the document. A sheet's bytes stand on three lines: policy and count, the entries, the bodies. g = GENERATE.
#![tactic(auto)]

use std::io;
use std::io::Write;
use text::text_of;

// The letters, and the sheets of the exercises.
const EXERCISES: [(u8, &[u8]); 11] = [
    // Policy 0: g 25, g 16, WRAP 0 1, DECRYPT 0 2.
    (
        b'A',
        b"\x00\x00\x04\
        \x01\x00\x0F\x01\x00\x10\x02\x00\x11\x05\x00\x13\
        \x19\x10\x00\x01\x00\x00\x02",
    ),
    // The same with policy 1.
    (
        b'B',
        b"\x01\x00\x04\
        \x01\x00\x0F\x01\x00\x10\x02\x00\x11\x05\x00\x13\
        \x19\x10\x00\x01\x00\x00\x02",
    ),
    // Policy 1: g 19, g 19, g 28, WRAP 1 2, WRAP 0 1, CORRUPT 0.
    (
        b'C',
        b"\x01\x00\x06\
        \x01\x00\x15\x01\x00\x16\x01\x00\x17\x02\x00\x18\x02\x00\x1A\x06\x00\x1C\
        \x13\x13\x1C\x01\x02\x00\x01\x00",
    ),
    // Policy 1: g 3, g 19, WRAP 0 1, UNWRAP 0 2 22, OWN KEY, ENCRYPT 2 3, UNWRAP 2 4 22.
    (
        b'D',
        b"\x01\x00\x07\
        \x01\x00\x18\x01\x00\x19\x02\x00\x1A\x03\x00\x1C\x08\x00\x20\x04\x00\x20\x03\x00\x23\
        \x03\x13\x00\x01\x00\x00\x02\x16\x02\x00\x03\x02\x00\x04\x16",
    ),
    // D under policy 2 with flags 67, 51, 54, 54.
    (
        b'E',
        b"\x02\x00\x07\
        \x01\x00\x18\x01\x00\x19\x02\x00\x1A\x03\x00\x1C\x08\x00\x20\x04\x00\x20\x03\x00\x23\
        \x43\x33\x00\x01\x00\x00\x02\x36\x02\x00\x03\x02\x00\x04\x36",
    ),
    // Policy 2: g 67, CORRUPT 0, SEAL 0 0, UNWRAP 0 1 54, WRAP 0 1.
    (
        b'F',
        b"\x02\x00\x05\
        \x01\x00\x12\x06\x00\x13\x0A\x00\x14\x03\x00\x18\x02\x00\x1C\
        \x43\x00\x00\x00\x00\x00\x00\x00\x01\x36\x00\x01",
    ),
    // Policy 2: g 51 twice, WRAP 0 1.
    (
        b'G',
        b"\x02\x00\x03\
        \x01\x00\x0C\x01\x00\x0D\x02\x00\x0E\
        \x33\x33\x00\x01",
    ),
    // Policy 1: g 19, WRAP 0 0.
    (
        b'H',
        b"\x01\x00\x02\
        \x01\x00\x09\x02\x00\x0A\
        \x13\x00\x00",
    ),
    // Policy 1: g 28, ENCRYPT 0 0.
    (
        b'I',
        b"\x01\x00\x02\
        \x01\x00\x09\x04\x00\x0A\
        \x1C\x00\x00\x00",
    ),
    // The sheet 020000.
    (b'J', b"\x02\x00\x00"),
    // Its first two bytes only.
    (b'J', b"\x02\x00"),
];

// Prints the line with the exercise's letter, then the text of its sheet, whole. The last two lines stand in `rounds` too: in the library they
// would be a function that owes what was printed.
fn show<R: Print>(rt: &R, letter: u8, sheet: &[u8]) -> io::Result<()> {
    io::writer(rt).write_all(&[letter, b'\n'])?;
    let mut out = [0u8; 131072];
    let long = text_of(sheet, &mut out);
    io::writer(rt).write_all(&out[..long])
}

fn main(rt: HostRuntime) -> io::Result<()> {
    for (letter, sheet) in EXERCISES {
        show(&rt, letter, sheet)?;
    }
    Ok(())
}
