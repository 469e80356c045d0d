// Makes direct calls that standard input asks for, and writes what each answers. Standard input, of which at most 65,536 bytes are
// read, is a row of sequences: policy, how many calls in two bytes, then so many calls, each a command number, a body length and a
// body. Each sequence begins with a fresh token. Standard output has three bytes for each call: the answer, and its value in two
// bytes. Where the input is cut off the work ends, and what was answered before is written.
#![tactic(auto)]

ghost use Rattle.std.specs.Prelude.{◌+◌, ◌≤◌, length, IfOk, IfSome};
ghost use Rattle.arrayvec.specs.ArrayVec.{array_vec_len};
ghost use Rattle.direct.specs.Progress.{Room, Underway};

use arrayvec::ArrayVec;
use std::io;
use std::io::{Read, Write};
use token::fresh;

// What is answered: room for three bytes of each call that the input can ask for.
type Answers = ArrayVec<u8, 98304>;

// A call as the input asks for it, and the input behind it.
#[derive(Clone, Copy)]
struct Asked<'a> {
    number: u8,
    body: &'a [u8],
    behind: &'a [u8],
}

// The call at the front of the input, where it is wholly there.
fn next_call<'a>(input: &'a [u8]) -> Option<Asked<'a>>
    ensures { IfSome result (λ call. length call.behind.now + 2 ≤ length input.entry.now) }
{
    let ([number, long], rest) = input.split_first_chunk::<2>()?;
    let (body, behind) = rest.split_at_checked(*long as usize)?;
    Some(Asked {
        number: *number,
        body,
        behind,
    })
}

// The calls of one sequence, one after the other from a fresh token; gives the input behind them, none where it is cut off.
fn sequence<'a>(policy: u8, count: u16, input: &'a [u8], out: &mut Answers) -> Option<&'a [u8]>
    requires { Room (length input.now) (array_vec_len out.old) }
    ensures behind { IfSome result (λ behind.
        Underway (length input.entry.now) (array_vec_len out.old) (length behind.now) (array_vec_len out.new)) }
    ensures cut_off { Underway (length input.entry.now) (array_vec_len out.old) 0 (array_vec_len out.new) }
{
    let mut now = fresh();
    let mut rest = input;
    for _ in 0..count {
        let call = next_call(rest)?;
        let said = running::call_on(&mut now, policy, call.number, call.body);
        let (answer, value) = running::numbers(said);
        let [high, low] = value.to_be_bytes();
        out.push(answer);
        out.push(high);
        out.push(low);
        rest = call.behind;
    }
    Some(rest)
}

// All sequences, to the end of the input or to where it is cut off.
fn sequences(input: &[u8], out: &mut Answers)
    requires { Room (length input.now) (array_vec_len out.old) }
    ensures { Underway (length input.now) (array_vec_len out.old) 0 (array_vec_len out.new) }
{
    let mut rest = input;
    while let [policy, high, low, calls @ ..] = rest {
        let count = u16::from_be_bytes([*high, *low]);
        let Some(behind) = sequence(*policy, count, calls, out) else {
            return;
        };
        rest = behind;
    }
}

// Reads until the bytes are full or the input ends, and gives how many there are. Each read asks for all that is left, so that a message
// that comes whole is taken whole (`io::copy` asks for 8,192 bytes).
fn read_full<R: Read + Drop>(mut input: R, bytes: &mut [u8]) -> io::Result<usize>
    ensures { IfOk result (λ n. n ≤ length bytes.new) }
{
    let mut n: usize = 0;
    while n < bytes.len() {
        let more = input.read(&mut bytes[n..])?;
        if more == 0 {
            return Ok(n);
        }
        n += more;
    }
    Ok(n)
}

fn main(rt: HostRuntime) -> io::Result<()> {
    let mut space = [0u8; 65536];
    let n = read_full(rt.stdin(), &mut space)?;
    let mut out = Answers::new();
    sequences(&space[..n], &mut out);
    io::writer(&rt).write_all(&out)
}
