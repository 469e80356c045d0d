// Following a leak: a key that becomes known opens every seal under it, whatever the order in which they were made, and so on for
// each key found there. Each key is handled once: it waits, and is taken.
ghost use Rattle.std.specs.Prelude.{◌≡◌, true};
ghost use Rattle.token.specs.Shows.{entry as entry_with};
ghost use Rattle.shapes.specs.Entries.{is_own_entry, key_of};
ghost use Rattle.running.specs.Leaks.{Followable, kind_at};
ghost use Rattle.running.specs.Applied.{TableFollowed};

use arrayvec::ArrayVec;
use shapes::entries::{is_unknown_key, key_of, payload_no};
use shapes::{Entry, Marks, TermNo};
use token::{Links, Table};

// Marks everything held that the leak of term t leads to.
pub fn follow(table: &mut Table, links: &Links, t: TermNo)
    requires { Followable table.old.entries links.now.newest links.now.older table.old.terms t.0 (key_of (kind_at table.old.entries t.0)) }
    ensures { TableFollowed table.old t.0 table.new }
{
    let at = t.0 as usize;
    let leak = table.entries[at];
    table.entries[at] = known(leak);
    let mut waiting = ArrayVec::<u16, 1024>::new();
    waiting.push(key_of(leak).0);
    let mut link: Option<TermNo> = None;
    loop {
        let Some(seal) = link else {
            let Some(key) = waiting.pop() else {
                return;
            };
            link = links.newest[key as usize];
            continue;
        };
        let i = seal.0 as usize;
        link = links.older[i];
        let q = payload_no(table.entries[i]).0 as usize;
        let inner = table.entries[q];
        if is_unknown_key(inner) {
            table.entries[q] = known(inner);
            waiting.push(key_of(inner).0);
        }
    }
}

// The entry, held.
fn known(entry: Entry) -> Entry
    ensures { result ≡ entry_with entry.term true (is_own_entry entry) }
{
    let marks = Marks {
        held: true,
        own: entry.marks.own,
    };
    Entry {
        term: entry.term,
        marks,
    }
}
