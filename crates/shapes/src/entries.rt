// What an entry is and names: whether it is a key, the number of a key, and of a seal's payload.
ghost use Rattle.std.specs.Prelude.{◌≡◌, ◌&&◌, not};
ghost use Rattle.shapes.specs.Entries.{is_key_entry, is_held, key_of, payload_no};

use crate::{Entry, KeyNo, Term, TermNo};

// Is this the entry of a key?
pub fn is_key(entry: Entry) -> bool
    ensures { result ≡ is_key_entry entry }
{
    matches!(entry.term, Term::Key(_))
}

// Is this the entry of a key that the caller can't work out?
pub fn is_unknown_key(entry: Entry) -> bool
    ensures { result ≡ (is_key_entry entry && not (is_held entry)) }
{
    is_key(entry) && !entry.marks.held
}

// A key's number; 0 for any other term, of which no one asks for more than that something stands there.
pub fn key_of(entry: Entry) -> KeyNo
    ensures { result ≡ key_of entry.term }
{
    match entry.term {
        Term::Data => KeyNo(0),
        Term::Key(k) => k,
        Term::Seal(_, _) => KeyNo(0),
    }
}

// The number of a seal's payload; 0 for any other term, likewise.
pub fn payload_no(entry: Entry) -> TermNo
    ensures { result ≡ payload_no entry.term }
{
    match entry.term {
        Term::Data => TermNo(0),
        Term::Key(_) => TermNo(0),
        Term::Seal(_, p) => p,
    }
}
