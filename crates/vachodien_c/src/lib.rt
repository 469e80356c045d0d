// The library as a host in C links it: each call of `vachodien` under its own name, with what it promises.
#![tactic(auto)]

ghost use Rattle.std.specs.Prelude.{◌≡◌};
ghost use Rattle.reader.specs.Reader.{checked, checked_number};
ghost use Rattle.vachodien.specs.Replied.{CalledOn, SheetWritten};

// Runs a sheet and reports it into the buffer.
#[unsafe(no_mangle)]
pub extern "C" fn vachodien_report(sheet: &[u8], buffer: &mut [u8]) -> u32
    ensures { CalledOn sheet.now buffer.old buffer.new result }
{
    vachodien::vachodien_report(sheet, buffer)
}

// Checks a sheet and runs nothing.
#[unsafe(no_mangle)]
pub extern "C" fn vachodien_check(sheet: &[u8]) -> u32
    ensures { result ≡ checked_number (checked sheet.now) }
{
    vachodien::vachodien_check(sheet)
}

// Writes the sheet of commands that are handed over in records of six bytes.
#[unsafe(no_mangle)]
pub extern "C" fn vachodien_write(policy: u8, count: u16, handed: &[u8], sheet: &mut [u8]) -> u32
    ensures { SheetWritten policy count handed.now sheet.old sheet.new result }
{
    vachodien::vachodien_write(policy, count, handed, sheet)
}
