// Runs the two exercises of document 01 that come to its limits, through the direct call under the plain policy, and prints a line for
// each call: command number, answer, value. First 257 times GENERATE; then from a fresh token OWN KEY, OWN DATA, SEAL 0 1, 1,021 times
// OWN DATA, one more, and SEAL 0 1 again.
#![tactic(auto)]

ghost use Rattle.std.specs.Prelude.{IfOk};
ghost use Rattle.running.specs.Direct.{Reached};

use std::io;
use token::{Token, fresh};

// A command, by its number and its body, which is what a direct call takes; a struct of the two would take five lines for each below.
type Command<'a> = (u8, &'a [u8]);

// One command, so many times, from the token that the calls before it left.
fn repeat<R: Print>(rt: &R, token: Token, times: u16, command: Command) -> io::Result<Token>
    requires { Reached token 0 }
    ensures { IfOk result (λ now. Reached now 0) }
{
    let (number, body) = command;
    let mut now = token;
    for _ in 0..times {
        let called = running::call(now, 0, number, body);
        let (answer, value) = running::numbers(called.said);
        println!(rt; "{number} {answer} {value}")?;
        now = called.token;
    }
    Ok(now)
}

// All commands of an exercise, each so many times, one after the other from a fresh token.
fn exercise<R: Print>(rt: &R, commands: &[(u16, Command)]) -> io::Result<()> {
    let mut token = fresh();
    for (times, command) in commands {
        token = repeat(rt, token, *times, *command)?;
    }
    Ok(())
}

fn main(rt: HostRuntime) -> io::Result<()> {
    let generate: Command = (1, &[28]);
    let own_key: Command = (8, &[]);
    let own_data: Command = (9, &[]);
    let seal: Command = (10, &[0, 0, 0, 1]);
    exercise(&rt, &[(257, generate)])?;
    let filling = [
        (1, own_key),
        (1, own_data),
        (1, seal),
        (1021, own_data),
        (1, own_data),
        (1, seal),
    ];
    exercise(&rt, &filling)
}
