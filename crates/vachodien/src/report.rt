// The report of a run into a lent buffer: the two counts, the records, the known keys.
ghost use Rattle.std.specs.Prelude.{◌≡◌, ◌++◌, ◌*◌, ◌≤◌, length};
ghost use Rattle.sheets.specs.Bytes.{two};
ghost use Rattle.sheets.specs.Calls.{over};
ghost use Rattle.sheets.specs.Sheets.{most_commands};
ghost use Rattle.vachodien.specs.Replied.{ReportedInto};

use reader::Header;
use token::known::{known_count, known_keys};
use token::{Short, Token};

// How many commands there are, and how many known keys.
fn put_counts(n: u16, m: u16, out: &mut [u8])
    requires { 4 ≤ length out.old }
    ensures { out.new ≡ over (two n ++ two m) out.old }
{
    out[0..2].copy_from_slice(&n.to_be_bytes());
    out[2..4].copy_from_slice(&m.to_be_bytes());
}

// The report of a good sheet's commands, where the buffer has room for all of it. The token comes by value: of one that is lent the caller
// keeps a copy (48 KB more of stack).
pub fn report(header: Header, records: &[u8], token: Token, out: &mut [u8]) -> Result<u16, Short>
    requires n_le_most_commands { header.count ≤ most_commands }
    requires n_in_bounds { 3 * header.count ≤ length records.now }
    ensures { ReportedInto header.count records.now token out.old out.new result }
{
    let n = header.count;
    let m = known_count(token);
    let begin = 4 + 3 * n as usize;
    let long = begin + 2 * m as usize;
    if out.len() < long {
        return Err(Short);
    }
    put_counts(n, m, out);
    out[4..begin].copy_from_slice(&records[..begin - 4]);
    // There is room for them: that was asked.
    let _ = known_keys(token, &mut out[begin..]);
    Ok(long as u16)
}
