// How many keys of a token are known, and their lines.
ghost use Rattle.std.specs.Prelude.{◌≡◌, ◌≤◌, ◌++◌, length};
ghost use Rattle.token.specs.Known.{marked_keys};
ghost use Rattle.text.specs.Text.{known_line, key_line};
ghost use Rattle.text.specs.Printing.{own_word, marked_line, marked_lines};
ghost use Rattle.text.specs.Writing.{HasRoom, Puts};

use crate::append::Page;
use shapes::Entry;
use shapes::entries::key_of;
use token::Token;
use token::known::{is_known, known_count};

// The word for where a key comes from.
#[tactic(auto, unfolding(crate::specs::Printing::own_word, crate::specs::Text::word))]
fn name_of_origin(own: bool) -> &'static [u8]
    ensures name { result.now ≡ own_word own }
    ensures short { length result.now ≤ 9 }
{
    if own { b"own" } else { b"generated" }
}

// A key's line: its number, and where it comes from.
fn write_key(k: u16, own: bool, page: &mut Page)
    requires { HasRoom 20 page.old }
    ensures { Puts 20 (key_line k (own_word own)) page.old page.new }
{
    page.told(b"key", k, b' ');
    page.word(name_of_origin(own), b'\n');
}

// The line of one entry: a known key's; any other entry has none.
fn write_entry(entry: Entry, page: &mut Page)
    requires { HasRoom 20 page.old }
    ensures { Puts 20 (marked_line entry) page.old page.new }
{
    if is_known(entry) {
        write_key(key_of(entry).0, entry.marks.own, page);
    }
}

// The lines of the known keys.
fn write_keys(entries: &[Entry; 1024], page: &mut Page)
    requires { HasRoom 20480 page.old }
    ensures { Puts 20480 (marked_lines entries.now) page.old page.new }
{
    for entry in entries {
        write_entry(*entry, page);
    }
}

// How many keys are known, and their lines.
pub fn write_known_keys(token: Token, page: &mut Page)
    requires { HasRoom 20492 page.old }
    ensures { Puts 20492 (known_line (length (marked_keys token.table.entries)) ++ marked_lines token.table.entries)
        page.old page.new }
{
    page.told(b"known", known_count(token), b'\n');
    write_keys(&token.table.entries, page);
}
