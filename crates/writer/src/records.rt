// A command as it is handed over: a record of six bytes, the command number, the length of the body, and four bytes of which
// so many are the body.
ghost use Rattle.std.specs.Prelude.{Some};
ghost use Rattle.writer.specs.Parts.{CommandAt, Held};

use shapes::parse::{body_length, known_number};

const RECORD_LENGTH: usize = 6;

// Its number, and its body as that part of what is handed over.
#[derive(Clone, Copy)]
pub struct Handed<'a> {
    pub number: u8,
    pub body: &'a [u8],
}

// The command with i commands before it, if it is one that a sheet can hold.
pub fn command_at<'a>(handed: &'a [u8], i: u16) -> Option<Handed<'a>>
    ensures { CommandAt handed.now i result }
{
    let at = RECORD_LENGTH * i as usize;
    if handed.len() < at + RECORD_LENGTH {
        return None;
    }
    let number = handed[at];
    let long = handed[at + 1] as usize;
    if !known_number(number) || long != body_length(number) {
        return None;
    }
    Some(held_at(handed, i))
}

// The same of a command that a sheet can hold, of which nothing has to be asked again.
pub fn held_at<'a>(handed: &'a [u8], i: u16) -> Handed<'a>
    requires { Held handed.now i }
    ensures { CommandAt handed.now i (Some result) }
{
    let at = RECORD_LENGTH * i as usize;
    let from = at + 2;
    let long = handed[at + 1] as usize;
    Handed {
        number: handed[at],
        body: &handed[from..from + long],
    }
}
