// What a token tells besides the answers to commands: the known keys, where a key comes from, how many handles are live. The entries
// are taken out of the token and walked by value: a reference into it has the whole token copied first, which was measured to take
// half as long again.
ghost use Rattle.std.specs.Prelude.{◌≡◌, ◌*◌, ◌≤◌, length};
ghost use Rattle.sheets.specs.Reports.{keys_bytes};
ghost use Rattle.sheets.specs.Calls.{over};
ghost use Rattle.handles.specs.Live.{count_in};
ghost use Rattle.token.specs.Known.{is_marked, marked_keys, ListedInto, origin_in};

use crate::{Origin, Short, Token};
use handles::count;
use shapes::entries::{is_key, key_of};
use shapes::{Entry, KeyNo, Term};

// Is this the entry of a known key?
pub fn is_known(entry: Entry) -> bool
    ensures { result ≡ is_marked entry }
{
    is_key(entry) && entry.marks.held
}

// How many keys are known.
pub fn known_count(token: Token) -> u16
    ensures { result ≡ length (marked_keys token.table.entries) }
{
    let entries = token.table.entries;
    entries
        .iter()
        .map(|entry| u16::from(is_known(*entry)))
        .sum()
}

// Writes the numbers of the known keys, two bytes each.
fn write_keys(entries: [Entry; 1024], out: &mut [u8])
    requires { 2 * length (marked_keys entries) ≤ length out.old }
    ensures { out.new ≡ over (keys_bytes (marked_keys entries)) out.old }
{
    let known = entries.iter().filter(|entry| is_known(**entry));
    for (i, entry) in known.enumerate() {
        out[2 * i..2 * i + 2].copy_from_slice(&key_of(*entry).0.to_be_bytes());
    }
}

// The known keys in ascending order, two bytes each, where the buffer has room.
pub fn known_keys(token: Token, out: &mut [u8]) -> Result<u16, Short>
    ensures { ListedInto (marked_keys token.table.entries) out.old out.new result }
{
    let count = known_count(token);
    if out.len() < 2 * usize::from(count) {
        return Err(Short);
    }
    write_keys(token.table.entries, out);
    Ok(count)
}

// Where a key comes from; none for a number that is no key's.
pub fn origin(token: Token, k: KeyNo) -> Option<Origin>
    ensures { result ≡ origin_in token.table.entries k.0 }
{
    let entries = token.table.entries;
    let entry = entries.iter().find(|entry| entry.term == Term::Key(k))?;
    Some(if entry.marks.own {
        Origin::Own
    } else {
        Origin::Generated
    })
}

// How many handles are live.
pub fn live_count(token: Token) -> u32
    ensures { result ≡ count_in token.hands.live }
{
    count(token.hands.live)
}
