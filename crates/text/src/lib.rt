// What the program `rounds` prints, written into a buffer: the report of a run, or the one line of a malformed sheet.
#![tactic(auto)]

mod append;
mod counting;
mod keys;
mod lines;

ghost use Rattle.std.specs.Prelude.{◌+◌, ◌*◌, ◌≤◌, length};
ghost use Rattle.text.specs.Text.{malformed_text};
ghost use Rattle.text.specs.Printing.{run_text};
ghost use Rattle.text.specs.Writing.{Printed, TextWritten};

use append::Page;
use counting::tally_of;
use keys::write_known_keys;
use lines::{write_first, write_lines, write_tally};
use reader::Header;
use running::run;
use token::Token;

// How many commands were answered 0, and how many were not.
#[derive(Clone, Copy)]
pub struct Tally {
    pub done: u16,
    pub refused: u16,
}

// The text of a run: of the sheet's commands with their records, three bytes each, and of the token at the end. The records come in the
// whole buffer that `run` lends, so their count stands beside them, in the header; the token comes by value, since of one
// that is lent the caller keeps a copy.
fn write_run(
    sheet: &[u8],
    header: Header,
    records: &[u8; 12288],
    token: Token,
    out: &mut [u8; 131072],
) -> usize
    requires { (header.count ≤ 4096) × (3 + 3 * header.count ≤ length sheet.now) }
    ensures { Printed (run_text header.policy sheet.now header.count records.now token.table.entries)
        out.old out.new result }
{
    let mut page = Page { buffer: out, at: 0 };
    write_first(header, &mut page);
    write_lines(sheet, header, records, &mut page);
    write_tally(tally_of(records, header.count), &mut page);
    write_known_keys(token, &mut page);
    page.at
}

// The text of a malformed sheet.
fn write_malformed(place: u16, out: &mut [u8; 131072]) -> usize
    ensures { Printed (malformed_text place) out.old out.new result }
{
    let mut page = Page { buffer: out, at: 0 };
    page.told(b"refused 12 place", place, b'\n');
    page.at
}

// The text of any sheet: it is checked, run from a fresh token under its policy where it is good, and what is printed for it written.
pub fn text_of(sheet: &[u8], out: &mut [u8; 131072]) -> usize
    ensures { TextWritten sheet.now out.old out.new result }
{
    let mut records = [0u8; 12288];
    let ran = run(sheet, &mut records);
    match ran.checked {
        Err(fault) => write_malformed(fault.place, out),
        Ok(header) => write_run(sheet, header, &records, ran.token, out),
    }
}
