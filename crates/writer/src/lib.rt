// Writes a sheet into a lent buffer. A refusal writes nothing, and no byte past the sheet is written.
#![tactic(auto)]

ghost use Rattle.std.specs.Prelude.{◌≡◌, length};
ghost use Rattle.writer.specs.Writer.{first_unholdable, asked_sheet, wrote};
ghost use Rattle.writer.specs.Parts.{found_as};

use put::Asked;
use records::command_at;
use shapes::parse::bodies_begin;
use shapes::{CallError, MOST_COMMANDS, MOST_POLICY};

mod put;
mod records;

// Looks through all that is handed over before anything is written: the length of its sheet. Policy, count and what is handed over
// come apart here, since an `Asked` is what was looked through.
fn look_through(policy: u8, count: u16, handed: &[u8]) -> Result<usize, CallError>
    ensures { result ≡ found_as (first_unholdable policy count handed.now) (length (asked_sheet policy count handed.now)) }
{
    if MOST_POLICY < policy || MOST_COMMANDS < count {
        return Err(CallError::Malformed(0));
    }
    let mut long = bodies_begin(count);
    for i in 0..count {
        let command = command_at(handed, i).ok_or(CallError::Malformed(i + 1))?;
        long += command.body.len();
    }
    Ok(long)
}

// Writes the sheet of the first `count` commands that are handed over, in records of six bytes: its length.
pub fn write(policy: u8, count: u16, handed: &[u8], out: &mut [u8]) -> Result<u16, CallError>
    ensures { wrote policy count handed.now out.old ≡ record { answer = result; buffer = out.new } }
{
    let long = look_through(policy, count, handed)?;
    if out.len() < long {
        return Err(CallError::Short);
    }
    let asked = Asked {
        policy,
        count,
        handed,
    };
    asked.put_sheet(out);
    Ok(long as u16)
}
