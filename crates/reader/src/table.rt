// The header and the rows of the table of contents of a sheet, read at their places, and the tests of document 01's "Place of a
// fault".
ghost use Rattle.std.specs.Prelude.{◌≡◌, suc, ◌≤◌, ◌<◌, ◌+◌, length};
ghost use Rattle.sheets.specs.Bytes.{two_at};
ghost use Rattle.sheets.specs.Sheets.{bodies_begin};
ghost use Rattle.sheets.specs.Faults.{body_length};
ghost use Rattle.reader.specs.Parts.{HeaderOf, row_of, faulty, RowInside};

use crate::{Header, Malformed};
use shapes::parse::{bodies_begin, body_length, known_number};
use shapes::{MOST_COMMANDS, MOST_POLICY};

// A row of the table: an entry's command number, and where its body begins.
#[derive(Clone, Copy)]
pub struct Row {
    pub number: u8,
    pub offset: u16,
}

impl Row {
    // Where the body ends.
    #[tactic(auto, using(sheets::proofs::Sizes::body_most))]
    pub fn end(self) -> usize
        ensures { result ≡ self.offset + body_length self.number }
    {
        self.offset as usize + body_length(self.number)
    }

    // Has an entry of this row a fault, where the bodies before it end at `end`, in a sheet of this length?
    pub fn is_faulty(self, end: usize, size: usize) -> bool
        ensures { result ≡ faulty self end size }
    {
        !known_number(self.number) || self.offset as usize != end || size < self.end()
    }
}

// The two-byte number at a place, big-endian.
#[tactic(auto, unfolding(sheets::specs::Bytes::byte_at, sheets::specs::Bytes::two_at))]
fn two_at(bytes: &[u8], at: usize) -> u16
    requires { at + 1 < length bytes.now }
    ensures { result ≡ two_at bytes.now at }
{
    u16::from_be_bytes([bytes[at], bytes[at + 1]])
}

// The header, where there is no fault at place 0.
pub fn header(sheet: &[u8]) -> Result<Header, Malformed>
    ensures { HeaderOf sheet.now result }
{
    if sheet.len() < 3 {
        return Err(Malformed { place: 0 });
    }
    let policy = sheet[0];
    let count = two_at(sheet, 1);
    if MOST_POLICY < policy || MOST_COMMANDS < count || sheet.len() < bodies_begin(count) {
        return Err(Malformed { place: 0 });
    }
    Ok(Header { policy, count })
}

// The row of the entry with i entries before it.
#[tactic(auto, unfolding(sheets::specs::Sheets::bodies_begin))]
pub fn row_at(sheet: &[u8], i: u16) -> Row
    requires { bodies_begin (suc i) ≤ length sheet.now }
    ensures { result ≡ row_of sheet.now i }
{
    let at = bodies_begin(i);
    Row {
        number: sheet[at],
        offset: two_at(sheet, at + 1),
    }
}

// The same, where the entry is inside, and the body that it names.
#[tactic(auto, using(crate::proofs::Tests::begin_next), unfolding(sheets::specs::Sheets::bodies_begin))]
pub fn row_inside(sheet: &[u8], i: u16) -> Option<Row>
    ensures { RowInside sheet.now i result }
{
    if sheet.len() < bodies_begin(i) + 3 {
        return None;
    }
    let row = row_at(sheet, i);
    if sheet.len() < row.end() {
        return None;
    }
    Some(row)
}
