// The lines of the text, each put on the page.
ghost use Rattle.std.specs.Prelude.{◌+◌, ◌*◌, ◌≤◌, ◌≡◌, length};
ghost use Rattle.sheets.specs.Reading.{read_policy};
ghost use Rattle.text.specs.Text.{policy_name, command_name, first_line, command_line, tally_line};
ghost use Rattle.text.specs.Printing.{entry_lines, as_tally};
ghost use Rattle.text.specs.Writing.{HasRoom, Puts};

use crate::Tally;
use crate::append::Page;
use reader::Header;
use shapes::policy::Policy;

// A policy's name, by the number that a sheet has.
fn name_of_policy(number: u8) -> &'static [u8]
    ensures name { result.now ≡ policy_name (read_policy number) }
    ensures short { length result.now ≤ 5 }
{
    match Policy::from(number) {
        Policy::Plain => b"plain",
        Policy::Stp => b"stp",
        Policy::StpPlus => b"stp+",
    }
}

// A command's name, by its number, which is all that is told of the command; an empty name for a number of no command.
#[tactic(auto, unfolding(crate::specs::Text::command_name, crate::specs::Text::command_names, crate::specs::Text::word))]
fn name_of_command(number: u8) -> &'static [u8]
    ensures name { result.now ≡ command_name number }
    ensures short { length result.now ≤ 8 }
{
    match number {
        1 => b"GENERATE",
        2 => b"WRAP",
        3 => b"UNWRAP",
        4 => b"ENCRYPT",
        5 => b"DECRYPT",
        6 => b"CORRUPT",
        7 => b"DESTROY",
        8 => b"OWNKEY",
        9 => b"OWNDATA",
        10 => b"SEAL",
        _ => b"",
    }
}

// The first line: policy and count.
pub fn write_first(header: Header, page: &mut Page)
    requires { HasRoom 28 page.old }
    ensures { Puts 28 (first_line (read_policy header.policy) header.count) page.old page.new }
{
    page.word(b"policy", b' ');
    page.word(name_of_policy(header.policy), b' ');
    page.told(b"commands", header.count, b'\n');
}

// A command's line: position, name, answer, value.
fn write_line(position: u16, number: u8, answer: u8, value: u16, page: &mut Page)
    requires { HasRoom 25 page.old }
    ensures { Puts 25 (command_line position (command_name number) answer value) page.old page.new }
{
    page.number(position, b' ');
    page.word(name_of_command(number), b' ');
    page.number(u16::from(answer), b' ');
    page.number(value, b'\n');
}

// The lines of a sheet's commands, each with its record. Numbers and records are read at their places, as `entry_lines` has them: the line
// tells the number that stands in the sheet, and a chain of chunks would have to be counted and cut all the same.
pub fn write_lines(sheet: &[u8], header: Header, records: &[u8; 12288], page: &mut Page)
    requires { (header.count ≤ 4096) × (3 + 3 * header.count ≤ length sheet.now) × HasRoom (25 * header.count) page.old }
    ensures { Puts (25 * header.count) (entry_lines sheet.now records.now header.count) page.old page.new }
{
    for i in 0..header.count {
        let p = 3 * i as usize;
        let value = u16::from_be_bytes([records[p + 1], records[p + 2]]);
        write_line(i + 1, sheet[3 + p], records[p], value, page);
    }
}

// The tally's line.
pub fn write_tally(tally: Tally, page: &mut Page)
    requires { HasRoom 25 page.old }
    ensures { Puts 25 (tally_line (as_tally tally)) page.old page.new }
{
    page.told(b"done", tally.done, b' ');
    page.told(b"refused", tally.refused, b'\n');
}
