// Runs commands on a token: a sheet from its bytes to its records and the token at the end, and the direct call.
#![tactic(auto)]

mod advance;
mod apply;
mod find;
mod leaks;
mod link;
mod look;

ghost use Rattle.std.specs.Prelude.{◌≡◌};
ghost use Rattle.running.specs.Direct.{Reached, Answered};
ghost use Rattle.running.specs.Said.{answer_of, value_of};
ghost use Rattle.running.specs.Run.{RanSheet};

use advance::{advance, step};
use deciding::Refusal;
pub use look::{Looks, Names};
use reader::{Header, Malformed, check};
use shapes::parse::call_of;
use token::{Token, fresh};

// What the direct call gives back: the token, and the value or why the command is refused.
#[derive(Clone, Copy)]
pub struct Called {
    pub token: Token,
    pub said: Result<u16, Refusal>,
}

// What running a sheet leaves: what the sheet was found to be, and the token at the end, which stands beside it since a malformed sheet
// leaves one too, the fresh one (`NotRun`).
#[derive(Clone, Copy)]
pub struct Ran {
    pub checked: Result<Header, Malformed>,
    pub token: Token,
}

// Checks a sheet and, where it is good, runs it from a fresh token under its policy: three bytes a command are written.
pub fn run(sheet: &[u8], records: &mut [u8; 12288]) -> Ran
    ensures { RanSheet sheet.now records.old records.new result }
{
    let mut token = fresh();
    let checked = check(sheet);
    if let Ok(header) = checked {
        advance(&mut token, sheet, header, records);
    }
    Ran { checked, token }
}

// The direct call: one command by its number and its body's bytes, under a policy by its number: any numbers, of which `call_of` asks.
pub fn call(mut token: Token, policy: u8, number: u8, body: &[u8]) -> Called
    requires { Reached token policy }
    ensures { Answered token policy number body.now result }
{
    let said = call_on(&mut token, policy, number, body);
    Called { token, said }
}

// The same on a token that is lent, so that none is copied: for calls in a row.
pub fn call_on(token: &mut Token, policy: u8, number: u8, body: &[u8]) -> Result<u16, Refusal>
    requires { Reached token.old policy }
    ensures { Answered token.old policy number body.now (record { token = token.new; said = result }) }
{
    let Some(command) = call_of(policy, number, body) else {
        return Err(Refusal::NotACall);
    };
    step(token, policy, command)
}

// What is said as numbers of document 01's table: the answer, and the value.
pub fn numbers(said: Result<u16, Refusal>) -> (u8, u16)
    ensures { (result.0 ≡ answer_of said) × (result.1 ≡ value_of said) }
{
    match said {
        Ok(value) => (0, value),
        Err(refusal) => (refusal as u8, 0),
    }
}
