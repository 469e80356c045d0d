// What is asked for, where a sheet can hold all of it, and how it is written.
ghost use Rattle.std.specs.Prelude.{◌≡◌, ◌∷◌, ◌*◌, ◌<◌, ◌≤◌, length};
ghost use Rattle.sheets.specs.Bytes.{Bytes, two};
ghost use Rattle.sheets.specs.Sheets.{entry_length, bodies_begin, contents, bodies};
ghost use Rattle.sheets.specs.Calls.{over};
ghost use Rattle.writer.specs.Writer.{handed_commands, asked_sheet};
ghost use Rattle.writer.specs.Parts.{AllHeld, CommandAt};

use crate::records::{Handed, held_at};
use shapes::parse::bodies_begin;

// A policy, and the first `count` commands that are handed over.
#[derive(Clone, Copy)]
pub struct Asked<'a> {
    pub policy: u8,
    pub count: u16,
    pub handed: &'a [u8],
    ghost low: { policy ≤ 2 },
    ghost held: { AllHeld count handed.now },
    ghost bytes: { Bytes handed.now },
}

// A byte and a number's two bytes: a sheet's header, and each entry. (A record of a run is put likewise, in a crate beside this one.)
fn put_three(out: &mut [u8], first: u8, number: u16)
    requires { 3 ≤ length out.old }
    ensures { out.new ≡ over (first ∷ two number) out.old }
{
    out[0] = first;
    out[1..3].copy_from_slice(&number.to_be_bytes());
}

// Bytes over the front of a buffer, one by one: a body has four at most, and a call of C's to copy so few takes longer.
fn put_bytes(bytes: &[u8], out: &mut [u8])
    requires { length bytes.now ≤ length out.old }
    ensures { out.new ≡ over bytes.now out.old }
{
    for i in 0..bytes.len() {
        out[i] = bytes[i];
    }
}

impl<'a> Asked<'a> {
    // The command with i commands before it.
    fn command(self, i: u16) -> Handed<'a>
        requires { i < self.count }
        ensures { CommandAt self.entry.handed.now i (Some result) }
    {
        held_at(self.handed, i)
    }

    // The table of contents: for each command its number and where its body begins.
    fn put_contents(self, out: &mut [u8])
        requires { entry_length * self.count ≤ length out.old }
        ensures { out.new
            ≡ over (contents (bodies_begin self.entry.count) (handed_commands self.entry.handed.now self.entry.count)) out.old }
    {
        let mut offset = bodies_begin(self.count) as u16;
        for i in 0..self.count {
            let command = self.command(i);
            put_three(&mut out[3 * i as usize..], command.number, offset);
            offset += command.body.len() as u16;
        }
    }

    // The bodies, one behind the other.
    fn put_bodies(self, out: &mut [u8])
        requires { length (bodies (handed_commands self.handed.now self.count)) ≤ length out.old }
        ensures { out.new ≡ over (bodies (handed_commands self.entry.handed.now self.entry.count)) out.old }
    {
        let mut at: usize = 0;
        for i in 0..self.count {
            let body = self.command(i).body;
            let end = at + body.len();
            put_bytes(body, &mut out[at..end]);
            at = end;
        }
    }

    // Policy and count, the table of contents, the bodies.
    pub fn put_sheet(self, out: &mut [u8])
        requires { length (asked_sheet self.policy self.count self.handed.now) ≤ length out.old }
        ensures { out.new ≡ over (asked_sheet self.entry.policy self.entry.count self.entry.handed.now) out.old }
    {
        put_three(out, self.policy, self.count);
        self.put_contents(&mut out[3..]);
        let begin = bodies_begin(self.count);
        self.put_bodies(&mut out[begin..]);
    }
}
