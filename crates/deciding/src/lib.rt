// What each command comes to, decided on small values: what a command sees of a token, and the answer, the value and the change that
// follow.
#![tactic(auto)]

pub mod decide;
mod tables;

use shapes::{Entry, HandleNo, KeyNo, Slot, TermNo};

// What a command sees of the token: the slots of the handles and the entries of the terms that it names, none for what is not
// there, the payload of the first term, the entries of the two handles' keys, the equal of the seal that it would make, the number
// a new handle takes, and how many terms there are.
#[derive(Clone, Copy)]
pub struct View {
    pub a: Option<Slot>,
    pub b: Option<Slot>,
    pub t: Option<Entry>,
    pub u: Option<Entry>,
    pub payload: Entry,
    pub outer: Entry,
    pub inner: Entry,
    pub equal: Option<TermNo>,
    pub free: Option<HandleNo>,
    pub terms: u16,
}

// What a done command changes in the token. A flag byte stays a number: document 01's table of granted flag bytes is one of numbers.
#[derive(Clone, Copy)]
pub enum Change {
    Nothing,
    Bind(HandleNo, Slot),
    Release(HandleNo),
    NewKey(HandleNo, u8),
    OwnKey,
    OwnData,
    NewSeal(KeyNo, TermNo, bool),
    Know(TermNo),
}

// What a done command answers besides 0. The value is the number of a handle or of a term, by the command: document 01 gives one value
// to all, so it is of none of the three counts.
#[derive(Clone, Copy)]
pub struct Done {
    pub value: u16,
    pub change: Change,
}

// Why a command is refused, each with its number in document 01's table of answers; the first is asked of a direct call alone.
#[derive(Clone, Copy, PartialEq, Eq)]
pub enum Refusal {
    NotACall = 1,
    HoldsTopBit = 2,
    NotLive = 3,
    NoTerm = 4,
    NotGranted = 5,
    FlagMissing = 6,
    NotHeld = 7,
    WrongKind = 8,
    KeyEncrypted = 9,
    NoHandleLeft = 10,
    NoTermLeft = 11,
}
