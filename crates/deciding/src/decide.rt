// What each command comes to, decided on the small values that it sees: why it is refused, or its value and what changes. One function
// a row of document 01's table of commands, its refusals asked in the document's order: so what several rows ask stands in each, in full.
#![tactic(auto, using(crate::proofs::Asking::tests), unfolding(crate::proofs::Asking::asking_opened))]

ghost use Rattle.std.specs.Prelude.{◌≡◌, ◌&&◌, [], ◌∷◌, leb};
ghost use Rattle.rules.specs.Refusals.{◌if◌, first};
ghost use Rattle.rules.specs.State.{most_terms};
ghost use Rattle.shapes.specs.Entries.{is_sealed_under};
ghost use Rattle.deciding.specs.Tables.{policy_number};
ghost use Rattle.deciding.specs.Decisions.{comes_to, decision};
ghost use Rattle.deciding.specs.Decisions.{is_new, seal_number, seal_change, learning};
ghost use Rattle.deciding.specs.Decisions.{decided_generate, decided_wrap, decided_unwrap, decided_encrypt, decided_decrypt};
ghost use Rattle.deciding.specs.Decisions.{decided_corrupt, decided_destroy, decided_seal, decided};

use crate::tables::{Making, Use, bars_wrap, granted, lacks};
use crate::{Change, Done, Refusal, View};
use shapes::entries::{is_key, is_unknown_key, key_of, payload_no};
use shapes::policy::Policy;
use shapes::{Command, Entry, HandleNo, KeyNo, MOST_TERMS, Slot, Term, TermNo};

// The value that no flag byte may hold; from here on every byte holds it.
const TOP_BIT: u8 = 128;

fn sealed_under(k: KeyNo, entry: Entry) -> bool
    ensures { result ≡ is_sealed_under k entry.term }
{
    matches!(entry.term, Term::Seal(j, _) if j == k)
}

// A change that enters a term, where there is room for one more.
fn entered(terms: u16, value: u16, change: Change) -> Result<Done, Refusal>
    ensures { comes_to result ≡ decision (first ((11 if leb most_terms terms) ∷ [])) value change }
{
    if MOST_TERMS <= terms {
        return Err(Refusal::NoTermLeft);
    }
    Ok(Done { value, change })
}

// The seal that this change enters: its equal's number, or the next number where there is room for one more.
fn made(equal: Option<TermNo>, terms: u16, change: Change) -> Result<Done, Refusal>
    ensures { comes_to result ≡ decision
        (first ((11 if leb most_terms terms && is_new equal) ∷ []))
        (seal_number equal terms)
        (seal_change equal change) }
{
    match equal {
        Some(t) => Ok(Done {
            value: t.0,
            change: Change::Nothing,
        }),
        None => entered(terms, terms, change),
    }
}

// What is learned where this term is given.
fn learn(number: TermNo, entry: Entry) -> Change
    ensures { result ≡ learning number entry }
{
    if is_unknown_key(entry) {
        Change::Know(number)
    } else {
        Change::Nothing
    }
}

fn generate(policy: Policy, flags: u8, view: View) -> Result<Done, Refusal>
    ensures { comes_to result ≡ decided_generate (policy_number policy) flags view.free view.terms }
{
    if TOP_BIT <= flags {
        return Err(Refusal::HoldsTopBit);
    }
    if !granted(policy, Making::Generate, flags) {
        return Err(Refusal::NotGranted);
    }
    let Some(h) = view.free else {
        return Err(Refusal::NoHandleLeft);
    };
    entered(view.terms, h.0 as u16, Change::NewKey(h, flags))
}

fn wrap(view: View) -> Result<Done, Refusal>
    ensures { comes_to result ≡ decided_wrap view.a view.b view.outer view.inner view.equal view.terms }
{
    let (Some(over), Some(under)) = (view.a, view.b) else {
        return Err(Refusal::NotLive);
    };
    if bars_wrap(over.flags, under.flags) {
        return Err(Refusal::FlagMissing);
    }
    let leaks = view.outer.marks.held && !view.inner.marks.held;
    made(
        view.equal,
        view.terms,
        Change::NewSeal(over.key, under.term, leaks),
    )
}

fn unwrap(policy: Policy, flags: u8, view: View) -> Result<Done, Refusal>
    ensures { comes_to result ≡ decided_unwrap (policy_number policy) view.a view.t flags view.payload view.free }
{
    if TOP_BIT <= flags {
        return Err(Refusal::HoldsTopBit);
    }
    let Some(slot) = view.a else {
        return Err(Refusal::NotLive);
    };
    let Some(entry) = view.t else {
        return Err(Refusal::NoTerm);
    };
    if !granted(policy, Making::Unwrap, flags) {
        return Err(Refusal::NotGranted);
    }
    if lacks(Use::Unwrap, slot.flags) {
        return Err(Refusal::FlagMissing);
    }
    if !entry.marks.held {
        return Err(Refusal::NotHeld);
    }
    if !(sealed_under(slot.key, entry) && is_key(view.payload)) {
        return Err(Refusal::WrongKind);
    }
    let Some(h) = view.free else {
        return Err(Refusal::NoHandleLeft);
    };
    let key = key_of(view.payload);
    let term = payload_no(entry);
    Ok(Done {
        value: h.0 as u16,
        change: Change::Bind(h, Slot { key, term, flags }),
    })
}

fn encrypt(policy: Policy, number: TermNo, view: View) -> Result<Done, Refusal>
    ensures { comes_to result ≡ decided_encrypt (policy_number policy) view.a view.t number view.equal view.terms }
{
    let Some(slot) = view.a else {
        return Err(Refusal::NotLive);
    };
    let Some(entry) = view.t else {
        return Err(Refusal::NoTerm);
    };
    if lacks(Use::Encrypt, slot.flags) {
        return Err(Refusal::FlagMissing);
    }
    if !entry.marks.held {
        return Err(Refusal::NotHeld);
    }
    if policy == Policy::StpPlus && is_key(entry) {
        return Err(Refusal::KeyEncrypted);
    }
    made(
        view.equal,
        view.terms,
        Change::NewSeal(slot.key, number, false),
    )
}

fn decrypt(view: View) -> Result<Done, Refusal>
    ensures { comes_to result ≡ decided_decrypt view.a view.t view.payload }
{
    let Some(slot) = view.a else {
        return Err(Refusal::NotLive);
    };
    let Some(entry) = view.t else {
        return Err(Refusal::NoTerm);
    };
    if lacks(Use::Decrypt, slot.flags) {
        return Err(Refusal::FlagMissing);
    }
    if !entry.marks.held {
        return Err(Refusal::NotHeld);
    }
    if !sealed_under(slot.key, entry) {
        return Err(Refusal::WrongKind);
    }
    let number = payload_no(entry);
    Ok(Done {
        value: number.0,
        change: learn(number, view.payload),
    })
}

fn corrupt(view: View) -> Result<Done, Refusal>
    ensures { comes_to result ≡ decided_corrupt view.a view.outer }
{
    let Some(slot) = view.a else {
        return Err(Refusal::NotLive);
    };
    Ok(Done {
        value: slot.term.0,
        change: learn(slot.term, view.outer),
    })
}

fn destroy(h: HandleNo, view: View) -> Result<Done, Refusal>
    ensures { comes_to result ≡ decided_destroy view.a h }
{
    let Some(_) = view.a else {
        return Err(Refusal::NotLive);
    };
    Ok(Done {
        value: h.0 as u16,
        change: Change::Release(h),
    })
}

fn seal(number: TermNo, view: View) -> Result<Done, Refusal>
    ensures { comes_to result ≡ decided_seal view.t view.u number view.equal view.terms }
{
    let (Some(key), Some(entry)) = (view.t, view.u) else {
        return Err(Refusal::NoTerm);
    };
    if !(key.marks.held && entry.marks.held) {
        return Err(Refusal::NotHeld);
    }
    if !is_key(key) {
        return Err(Refusal::WrongKind);
    }
    made(
        view.equal,
        view.terms,
        Change::NewSeal(key_of(key), number, false),
    )
}

// The policy comes by its number, since every number is answered: each from 2 on as STP+.
pub fn decide(policy: u8, command: Command, view: View) -> Result<Done, Refusal>
    ensures { comes_to result ≡ decided policy command view }
{
    let policy = Policy::from(policy);
    match command {
        Command::Generate(flags) => generate(policy, flags, view),
        Command::Wrap(_, _) => wrap(view),
        Command::Unwrap(_, _, flags) => unwrap(policy, flags, view),
        Command::Encrypt(_, t) => encrypt(policy, t, view),
        Command::Decrypt(_, _) => decrypt(view),
        Command::Corrupt(_) => corrupt(view),
        Command::Destroy(h) => destroy(h, view),
        Command::OwnKey => entered(view.terms, view.terms, Change::OwnKey),
        Command::OwnData => entered(view.terms, view.terms, Change::OwnData),
        Command::Seal(_, t) => seal(t, view),
    }
}
