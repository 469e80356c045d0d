// The shapes that document 01 names: the three counts, a term in its entry, what a live handle stands for, a command; what an entry
// names, and a command from its bytes. Everything above is made of these small values.
#![tactic(auto)]

pub mod entries;
pub mod parse;
pub mod policy;

// The greatest policy number, of STP+; the most commands of a sheet; the most terms.
pub const MOST_POLICY: u8 = 2;

pub const MOST_COMMANDS: u16 = 4096;

pub const MOST_TERMS: u16 = 1024;

// Handle numbers, key numbers and term numbers are three separate counts. Their numbers are widened by `as`, here and above: the check proves
// that it loses nothing, and `from` would say no more.
#[derive(Clone, Copy, PartialEq, Eq)]
pub struct HandleNo(pub u8);

#[derive(Clone, Copy, PartialEq, Eq)]
pub struct KeyNo(pub u16);

#[derive(Clone, Copy, PartialEq, Eq)]
pub struct TermNo(pub u16);

// A term: a data item, a key, or a seal of a term under a key.
#[derive(Clone, Copy, PartialEq, Eq)]
pub enum Term {
    Data,
    Key(KeyNo),
    Seal(KeyNo, TermNo),
}

// What is marked of a term: the caller can work it out; it is the caller's own.
#[derive(Clone, Copy)]
pub struct Marks {
    pub held: bool,
    pub own: bool,
}

#[derive(Clone, Copy)]
pub struct Entry {
    pub term: Term,
    pub marks: Marks,
}

// What a live handle stands for: a key, that key's term, and the flag byte.
#[derive(Clone, Copy)]
pub struct Slot {
    pub key: KeyNo,
    pub term: TermNo,
    pub flags: u8,
}

impl Slot {
    // What stands in a dead handle's place.
    pub const BLANK: Slot = Slot {
        key: KeyNo(0),
        term: TermNo(0),
        flags: 0,
    };
}

#[derive(Clone, Copy)]
pub enum Command {
    Generate(u8),
    Wrap(HandleNo, HandleNo),
    Unwrap(HandleNo, TermNo, u8),
    Encrypt(HandleNo, TermNo),
    Decrypt(HandleNo, TermNo),
    Corrupt(HandleNo),
    Destroy(HandleNo),
    OwnKey,
    OwnData,
    Seal(TermNo, TermNo),
}

// An entry of a sheet: the command number that it names, and the command that it states.
#[derive(Clone, Copy)]
pub struct SheetEntry {
    pub number: u8,
    pub command: Command,
}

// Why a call that is lent a buffer gives nothing: what was handed over is malformed at a place, or the buffer is too short.
#[derive(Clone, Copy, PartialEq, Eq)]
pub enum CallError {
    Malformed(u16),
    Short,
}
