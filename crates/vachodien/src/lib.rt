// The library as a host calls it (vachodien_c exports each function for C): it takes any buffers, and gives one number back.
#![tactic(auto)]

ghost use Rattle.std.specs.Prelude.{◌≡◌};
ghost use Rattle.reader.specs.Reader.{checked, checked_number};
ghost use Rattle.vachodien.specs.Replied.{CalledOn, SheetWritten, call_number};

use reader::check;
use report::report;
use running::{Ran, run};
use shapes::CallError;
use writer::write;

mod report;

// The answer times 65,536, plus what is given for 0, the place for 12, nothing for 13.
#[tactic(auto, unfolding(crate::specs::Replied::call_number, sheets::specs::Calls::answer_number))]
fn number(called: Result<u16, CallError>) -> u32
    ensures { result ≡ call_number called }
{
    match called {
        Ok(given) => u32::from(given),
        Err(CallError::Malformed(place)) => 12 * 65536 + u32::from(place),
        Err(CallError::Short) => 13 * 65536,
    }
}

// The sheet is checked, run from a fresh token under its policy, and reported into the buffer; the report's length.
fn reported(sheet: &[u8], buffer: &mut [u8]) -> Result<u16, CallError>
    ensures { CalledOn sheet.now buffer.old buffer.new (call_number result) }
{
    let mut records = [0u8; 12288];
    let Ran { checked, token } = run(sheet, &mut records);
    let header = checked?;
    Ok(report(header, &records, token, buffer)?)
}

// The whole job. The number given is the answer times 65,536, plus the report length for 0, the place for 12, nothing for 13.
pub fn vachodien_report(sheet: &[u8], buffer: &mut [u8]) -> u32
    ensures { CalledOn sheet.now buffer.old buffer.new result }
{
    number(reported(sheet, buffer))
}

// The count of a good sheet.
#[tactic(auto, unfolding(crate::specs::Replied::call_number, reader::specs::Reader::checked_number))]
fn counted(sheet: &[u8]) -> Result<u16, CallError>
    ensures { call_number result ≡ checked_number (checked sheet.now) }
{
    Ok(check(sheet)?.count)
}

// Checks a sheet and runs nothing: 0 with the count of a good sheet, 12 with the place of a malformed one.
pub fn vachodien_check(sheet: &[u8]) -> u32
    ensures { result ≡ checked_number (checked sheet.now) }
{
    number(counted(sheet))
}

// Writes the sheet of commands that are handed over in records of six bytes: 0 with the sheet's length, 12 with the place of what no
// sheet can hold, 13.
#[tactic(auto, unfolding(crate::specs::Replied::call_number, writer::specs::Writer::written_number))]
pub fn vachodien_write(policy: u8, count: u16, handed: &[u8], sheet: &mut [u8]) -> u32
    ensures { SheetWritten policy count handed.now sheet.old sheet.new result }
{
    number(write(policy, count, handed, sheet))
}
