// Runs commands on a token where it stands: each is looked at, decided on small values, and its change made.
ghost use Rattle.std.specs.Prelude.{◌≡◌, ◌≤◌, ◌+◌, ◌*◌, length};
ghost use Rattle.running.specs.Advance.{record_put, decision_on, CanStep, Stepped, RunAsks, Ran};
ghost use Rattle.running.specs.Said.{answer_of, value_of};

use crate::apply::apply;
use crate::look::look;
use crate::numbers;
use deciding::Refusal;
use deciding::decide::decide;
use reader::Header;
use reader::handing::read_entry;
use shapes::Command;
use token::Token;

// One command: its value, or why it is refused. The policy comes by its number, as `decide` takes it.
pub fn step(token: &mut Token, policy: u8, command: Command) -> Result<u16, Refusal>
    requires { CanStep (decision_on policy command token.old) token.old }
    ensures { Stepped (decision_on policy command token.old) token.old token.new result }
{
    let done = decide(policy, command, look(token, command))?;
    apply(token, done.change);
    Ok(done.value)
}

// Record i: the answer, and the value in two bytes.
fn put_record(records: &mut [u8], i: u16, said: Result<u16, Refusal>)
    requires { 3 * i + 3 ≤ length records.old }
    ensures { records.new ≡ record_put records.old i (answer_of said) (value_of said) }
{
    let (answer, value) = numbers(said);
    let [high, low] = value.to_be_bytes();
    let at = 3 * (i as usize);
    records[at] = answer;
    records[at + 1] = high;
    records[at + 2] = low;
}

// Runs the commands of a good sheet.
pub fn advance(token: &mut Token, sheet: &[u8], header: Header, records: &mut [u8])
    requires { RunAsks token.old header.policy sheet.now header.count records.old }
    ensures { Ran token.old header.policy sheet.now header.count records.old records.new token.new }
{
    for i in 0..header.count {
        let entry = read_entry(sheet, i).unwrap();
        let said = step(token, header.policy, entry.command);
        put_record(records, i, said);
    }
}
