// What a command names, and what it sees of what was read of the token.
ghost use Rattle.std.specs.Prelude.{◌≡◌, ◌<◌};
ghost use Rattle.rules.specs.State.{most_terms};
ghost use Rattle.token.specs.Shows.{seal_code};
ghost use Rattle.running.specs.Views.{names_of, inside, first_at, other_at, aim_in, Findable, SeesAlike};

use crate::find::find;
use deciding::View;
use handles::{free, is_live};
use shapes::entries::{key_of, payload_no};
use shapes::{Command, Entry, HandleNo, KeyNo, MOST_TERMS, Slot, TermNo};
use token::Token;

// The terms that a command looks at: its handles' own; the first that it names and what that seals; or the two that it names, of which
// a command of the token has one. In the caller's own computing the first of the two is a key, under which it seals.
#[derive(Clone, Copy)]
pub enum Looks {
    AtHandles,
    AtPayload,
    AtTerm,
    ByCaller,
}

// The numbers that a command names, and where it looks. A number that it does not name is 0 and no Option: what stands at 0 is read and
// asked nothing of (`same_decision`), and an Option would be taken apart only to read there all the same.
#[derive(Clone, Copy)]
pub struct Names {
    pub a: HandleNo,
    pub b: HandleNo,
    pub t: TermNo,
    pub u: TermNo,
    pub looks: Looks,
}

// A command that names nothing.
const NAMELESS: Names = Names {
    a: HandleNo(0),
    b: HandleNo(0),
    t: TermNo(0),
    u: TermNo(0),
    looks: Looks::AtTerm,
};

#[tactic(auto, unfolding(crate::specs::Views::names_of))]
pub fn names_of(command: Command) -> Names
    ensures { result ≡ names_of command }
{
    match command {
        Command::Generate(_) => NAMELESS,
        Command::Wrap(a, b) => Names {
            a,
            b,
            looks: Looks::AtHandles,
            ..NAMELESS
        },
        Command::Unwrap(a, t, _) | Command::Decrypt(a, t) => Names {
            a,
            t,
            looks: Looks::AtPayload,
            ..NAMELESS
        },
        Command::Encrypt(a, t) => Names { a, t, ..NAMELESS },
        Command::Corrupt(a) => Names {
            a,
            looks: Looks::AtHandles,
            ..NAMELESS
        },
        Command::Destroy(a) => Names { a, ..NAMELESS },
        Command::OwnKey | Command::OwnData => Names {
            looks: Looks::ByCaller,
            ..NAMELESS
        },
        Command::Seal(t, u) => Names {
            t,
            u,
            looks: Looks::ByCaller,
            ..NAMELESS
        },
    }
}

// A term number as a place in the table, 0 where it is past the end.
pub fn place(t: TermNo) -> usize
    ensures value { result ≡ inside t.0 }
    ensures upper_bound { result < most_terms }
{
    if t.0 < MOST_TERMS { t.0 as usize } else { 0 }
}

// The place of the term that a command looks at first.
#[tactic(auto, unfolding(crate::specs::Views::first_at))]
pub fn first_at(names: Names, a: Slot) -> usize
    ensures value { result ≡ first_at names a }
    ensures upper_bound { result < most_terms }
{
    match names.looks {
        Looks::AtHandles => place(a.term),
        Looks::AtPayload | Looks::ByCaller | Looks::AtTerm => place(names.t),
    }
}

pub fn code(k: KeyNo, p: TermNo) -> u32
    ensures { result ≡ seal_code k.0 p.0 }
{
    (k.0 as u32) * 1025 + (p.0 as u32) + 1
}

// The place of the other term that a command looks at.
#[tactic(auto, unfolding(crate::specs::Views::other_at))]
pub fn other_at(names: Names, b: Slot, first: Entry) -> usize
    ensures value { result ≡ other_at names b first }
    ensures upper_bound { result < most_terms }
{
    match names.looks {
        Looks::AtHandles => place(b.term),
        Looks::AtPayload => place(payload_no(first)),
        Looks::ByCaller | Looks::AtTerm => place(names.u),
    }
}

// The code of the seal that the command would make; of any seal where it makes none.
#[tactic(auto, unfolding(crate::specs::Views::aim_in))]
pub fn aim_of(names: Names, a: Slot, b: Slot, first: Entry) -> u32
    ensures { result ≡ aim_in names a b first }
{
    match names.looks {
        Looks::AtHandles => code(a.key, b.term),
        Looks::ByCaller => code(key_of(first), names.u),
        Looks::AtPayload | Looks::AtTerm => code(a.key, names.t),
    }
}

// What a command sees of the token. Two entries are read and no more: each stands wherever a command may look for it.
pub fn look(token: &Token, command: Command) -> View
    requires { Findable token.now.links.heads token.now.links.chain token.now.links.codes }
    ensures { SeesAlike token.now command result }
{
    let names = names_of(command);
    let a = token.hands.slots[names.a.0 as usize];
    let b = token.hands.slots[names.b.0 as usize];
    let first = token.table.entries[first_at(names, a)];
    let other = token.table.entries[other_at(names, b, first)];
    let equal = find(&token.links, aim_of(names, a, b, first));
    let live = token.hands.live;
    let terms = token.table.terms;
    View {
        a: is_live(live, names.a).then_some(a),
        b: is_live(live, names.b).then_some(b),
        t: (names.t.0 < terms).then_some(first),
        u: (names.u.0 < terms).then_some(other),
        payload: other,
        outer: first,
        inner: other,
        equal,
        free: free(live),
        terms,
    }
}
