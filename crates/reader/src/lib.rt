// Reads a sheet: checked to its first fault, each body handed on as that part of the sheet itself, each entry as its command.
// Nothing is copied, and no sheet is refused to be read: what each function gives is said for every byte string.
#![tactic(auto)]

ghost use Rattle.std.specs.Prelude.{◌≡◌};
ghost use Rattle.shapes.specs.declared.CallError.TheVariants.{Malformed as At};
ghost use Rattle.reader.specs.Reader.{checked, body_at, entry_at};

use crate::table::{header, row_at, row_inside};
use shapes::parse::{bodies_begin, parse};
use shapes::{CallError, SheetEntry};

pub mod handing;
mod table;

// What the header of a good sheet says: its policy, by the number that stands there, as `checked` has it and `decide` takes it; and how
// many entries it has. That there are at most 4,096 is no invariant here, since `checked` makes a header of any two numbers.
#[derive(Clone, Copy, PartialEq, Eq)]
pub struct Header {
    pub policy: u8,
    pub count: u16,
}

// What is wrong with any other: the place of its first fault.
#[derive(Clone, Copy, PartialEq, Eq)]
pub struct Malformed {
    pub place: u16,
}

impl From<Malformed> for CallError {
    ghost from_gives = { λ fault error. error ≡ At fault.place };

    fn from(fault: Malformed) -> CallError {
        CallError::Malformed(fault.place)
    }
}

// Checks a sheet to its first fault, in one pass: `end` is where the bodies passed end.
pub fn check(sheet: &[u8]) -> Result<Header, Malformed>
    ensures { result ≡ checked sheet.now }
{
    let header = header(sheet)?;
    let mut end = bodies_begin(header.count);
    for i in 0..header.count {
        let row = row_at(sheet, i);
        if row.is_faulty(end, sheet.len()) {
            return Err(Malformed { place: i + 1 });
        }
        end = row.end();
    }
    if end < sheet.len() {
        return Err(Malformed {
            place: header.count + 1,
        });
    }
    Ok(header)
}

// The body of the entry with i entries before it: that part of the sheet, or the empty part where it is not inside.
pub fn body<'a>(sheet: &'a [u8], i: u16) -> &'a [u8]
    ensures { result.now ≡ body_at sheet.now i }
{
    let Some(row) = row_inside(sheet, i) else {
        return &sheet[0..0];
    };
    &sheet[row.offset as usize..row.end()]
}

// The entry with i entries before it.
pub fn entry(sheet: &[u8], i: u16) -> Option<SheetEntry>
    ensures { result ≡ entry_at sheet.now i }
{
    let row = row_inside(sheet, i)?;
    let command = parse(row.number, body(sheet, i))?;
    Some(SheetEntry {
        number: row.number,
        command,
    })
}
