// The reader of one entry: a sheet and the number of an entry in it, taken apart for the functions on slice and number.
ghost use Rattle.std.specs.Prelude.{◌≡◌};
ghost use Rattle.reader.specs.Reader.{body_at, entry_at};

use crate::{body, entry};
use shapes::SheetEntry;

// The sheet itself, and how many entries stand before this one.
#[derive(Clone, Copy)]
pub struct Reader<'a> {
    pub sheet: &'a [u8],
    pub entry: u16,
}

impl<'a> Reader<'a> {
    // Hands on the entry's body as that part of the sheet itself.
    pub fn body(self) -> &'a [u8]
        ensures { result.now ≡ body_at self.entry.sheet.now self.entry.entry }
    {
        body(self.sheet, self.entry)
    }

    // The entry, read.
    pub fn entry(self) -> Option<SheetEntry>
        ensures { result ≡ entry_at self.entry.sheet.now self.entry.entry }
    {
        entry(self.sheet, self.entry)
    }
}

// The body that a reader hands on, as a function of the reader.
pub fn reader_body<'a>(r: Reader<'a>) -> &'a [u8]
    ensures { result.now ≡ body_at r.entry.sheet.now r.entry.entry }
{
    r.body()
}

// The entry that a reader reads, likewise.
pub fn reader_entry(r: Reader) -> Option<SheetEntry>
    ensures { result ≡ entry_at r.entry.sheet.now r.entry.entry }
{
    r.entry()
}

// From a slice and a number to a reader and back: whoever calls this needs to know of no reader.
pub fn read_entry(sheet: &[u8], i: u16) -> Option<SheetEntry>
    ensures { result ≡ entry_at sheet.now i }
{
    Reader { sheet, entry: i }.entry()
}
