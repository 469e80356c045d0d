// The symbolic token: its parts, a fresh one, and what a token tells. What each part shows of document 01's state is said in
// specs/Shows.antt.
#![tactic(auto)]

pub mod known;

ghost use Rattle.std.specs.Prelude.{◌≡◌};
ghost use Rattle.shapes.specs.declared.CallError.TheVariants.{Short as NoRoom};
ghost use Rattle.token.specs.Known.{blank_token};

use shapes::{CallError, Entry, Marks, Slot, Term, TermNo};

// The terms by number, and how many terms and keys there are. Past the last term every entry is blank. The counts stand beside an
// array, and in no vector, since memory is fixed and a token is copied as it stands.
#[derive(Clone, Copy)]
pub struct Table {
    pub entries: [Entry; 1024],
    pub terms: u16,
    pub keys: u16,
}

// Ways through the seals: by key the newest seal under it, and from a seal the next older one under the same key; by bucket the
// newest seal of it, and from a seal the next older one of the same bucket. The code of a seal is a number that no other seal has.
// Each list stands by itself, as `Linked` and `ShowsLinks` of specs/ speak of it.
#[derive(Clone, Copy)]
pub struct Links {
    pub newest: [Option<TermNo>; 1024],
    pub older: [Option<TermNo>; 1024],
    pub heads: [Option<TermNo>; 1024],
    pub chain: [Option<TermNo>; 1024],
    pub codes: [u32; 1024],
}

// The handles by number, blank where not live, and which are live: handle h is bit h % 64 of word h / 64.
#[derive(Clone, Copy)]
pub struct Hands {
    pub slots: [Slot; 256],
    pub live: [u64; 4],
}

// The links stand last: where a token is handed on and no link of it is read, they are then left out of the copy, as was measured.
#[derive(Clone, Copy)]
pub struct Token {
    pub table: Table,
    pub hands: Hands,
    pub links: Links,
}

// The buffer is too short for the list of known keys.
#[derive(Clone, Copy, PartialEq, Eq)]
pub struct Short;

impl From<Short> for CallError {
    ghost from_gives = { λ _ error. error ≡ NoRoom };

    fn from(_short: Short) -> CallError {
        CallError::Short
    }
}

// Where a key comes from.
#[derive(Clone, Copy, PartialEq, Eq)]
pub enum Origin {
    Generated,
    Own,
}

// The token with no term and no live handle.
pub fn fresh() -> Token
    ensures { result ≡ blank_token }
{
    let marks = Marks {
        held: false,
        own: false,
    };
    let entry = Entry {
        term: Term::Data,
        marks,
    };
    Token {
        table: Table {
            entries: [entry; 1024],
            terms: 0,
            keys: 0,
        },
        hands: Hands {
            slots: [Slot::BLANK; 256],
            live: [0; 4],
        },
        links: Links {
            newest: [None; 1024],
            older: [None; 1024],
            heads: [None; 1024],
            chain: [None; 1024],
            codes: [0; 1024],
        },
    }
}
