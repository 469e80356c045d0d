// A command from its number and its body's bytes, with the constant table of body lengths.
ghost use Rattle.std.specs.Prelude.{◌≡◌, ◌+◌, ◌*◌};
ghost use Rattle.sheets.specs.Faults.{known_number, body_length};
ghost use Rattle.sheets.specs.Sheets.{bodies_begin};
ghost use Rattle.shapes.specs.Commands.{called, not_a_call, parsed};

use crate::{Command, HandleNo, MOST_POLICY, TermNo};

// By command number, from 0, which is no command.
const LENGTHS: [usize; 11] = [0, 1, 2, 4, 3, 3, 1, 1, 0, 0, 4];

// A term number: two bytes, big-endian.
fn term(high: u8, low: u8) -> TermNo
    ensures { result.0 ≡ high * 256 + low }
{
    TermNo(u16::from_be_bytes([high, low]))
}

// Is this the number of a command? Any byte can stand for one in a sheet, so numbers come as bytes here, and a `Command` is what they state.
#[tactic(auto, using(std::proofs::lemmas::Bool::Decides::nat_tests), unfolding(crate::proofs::Parsing::parsing_opened))]
pub fn known_number(number: u8) -> bool
    ensures { result ≡ known_number number }
{
    matches!(number, 1..=10)
}

// The length of a command's body, by command number; 0 for a number of no command.
#[tactic(auto, using(crate::proofs::Parsing::known_below, crate::proofs::Parsing::unknown_empty, crate::proofs::Tables::length_is))]
pub fn body_length(number: u8) -> usize
    ensures { result ≡ body_length number }
{
    if !known_number(number) {
        return 0;
    }
    LENGTHS[number as usize]
}

#[tactic(auto, using(std::proofs::lemmas::Bool::Decides::nat_tests), unfolding(crate::proofs::Parsing::parsing_opened))]
pub fn parse(number: u8, body: &[u8]) -> Option<Command>
    ensures { result ≡ parsed number body.now }
{
    match (number, body) {
        (1, [flags]) => Some(Command::Generate(*flags)),
        (2, [a, b]) => Some(Command::Wrap(HandleNo(*a), HandleNo(*b))),
        (3, [h, high, low, flags]) => Some(Command::Unwrap(
            HandleNo(*h),
            term(*high, *low),
            *flags,
        )),
        (4, [h, high, low]) => Some(Command::Encrypt(HandleNo(*h), term(*high, *low))),
        (5, [h, high, low]) => Some(Command::Decrypt(HandleNo(*h), term(*high, *low))),
        (6, [h]) => Some(Command::Corrupt(HandleNo(*h))),
        (7, [h]) => Some(Command::Destroy(HandleNo(*h))),
        (8, []) => Some(Command::OwnKey),
        (9, []) => Some(Command::OwnData),
        (10, [a, b, c, d]) => Some(Command::Seal(term(*a, *b), term(*c, *d))),
        _ => None,
    }
}

// The command of a direct call: none for a policy above 2, an unknown command number, or a body not of that command's length.
#[tactic(auto, using(std::proofs::lemmas::Bool::Decides::nat_tests), unfolding(crate::proofs::Parsing::parsing_opened))]
pub fn call_of(policy: u8, number: u8, body: &[u8]) -> Option<Command>
    ensures { result ≡ called policy number body.now }
{
    if MOST_POLICY < policy {
        return None;
    }
    parse(number, body)
}

// Is a direct call none?
#[tactic(auto, using(std::proofs::lemmas::Bool::Decides::nat_tests), unfolding(crate::proofs::Parsing::parsing_opened))]
pub fn not_a_call(policy: u8, number: u8, body: &[u8]) -> bool
    ensures { result ≡ not_a_call policy number body.now }
{
    call_of(policy, number, body).is_none()
}

// Where the bodies of a sheet begin, behind the header and so many entries.
#[tactic(auto, unfolding(sheets::specs::Sheets::bodies_begin))]
pub fn bodies_begin(count: u16) -> usize
    ensures { result ≡ bodies_begin count }
{
    3 + 3 * count as usize
}
