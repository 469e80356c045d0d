// Making a change in the token's parts.
ghost use Rattle.std.specs.Prelude.{◌≡◌, ◌<◌, is_some};
ghost use Rattle.rules.specs.State.{most_terms};
ghost use Rattle.deciding.specs.Decisions.{slot_in};
ghost use Rattle.running.specs.Applied.{Applicable, Applied, SlotSet, appended};

use crate::leaks::follow;
use crate::link::link;
use deciding::Change;
use handles::set;
use shapes::entries::is_key;
use shapes::{Entry, HandleNo, KeyNo, Marks, Slot, Term, TermNo};
use token::{Hands, Table, Token};

// The marks of a term that is entered: a key that the token generates; what is the caller's own; what is given to the caller.
const GENERATED: Marks = Marks {
    held: false,
    own: false,
};

const OWN: Marks = Marks {
    held: true,
    own: true,
};

const GIVEN: Marks = Marks {
    held: true,
    own: false,
};

// The handle is live and stands for the slot's key; it is dead where there is none.
fn put(hands: &mut Hands, h: HandleNo, slot: Option<Slot>)
    ensures { SlotSet hands.old h.0 (slot_in slot) (is_some slot) hands.new }
{
    hands.slots[h.0 as usize] = slot.unwrap_or(Slot::BLANK);
    hands.live = set(hands.live, h, slot.is_some());
}

// One more term, and one more key where it is a key.
fn append(table: &mut Table, term: Term, marks: Marks)
    requires terms_few { table.old.terms < most_terms }
    requires keys_few { table.old.keys < most_terms }
    ensures { table.new ≡ appended table.old (record { term = term; marks = marks }) }
{
    let entry = Entry { term, marks };
    table.entries[table.terms as usize] = entry;
    table.terms += 1;
    if is_key(entry) {
        table.keys += 1;
    }
}

// Makes a change.
#[tactic(auto, unfolding(crate::specs::Applied::Applied))]
pub fn apply(token: &mut Token, change: Change)
    requires { Applicable token.old change }
    ensures { Applied token.old change token.new }
{
    let terms = token.table.terms;
    let keys = token.table.keys;
    match change {
        Change::Nothing => {}
        Change::Bind(h, slot) => put(&mut token.hands, h, Some(slot)),
        Change::Release(h) => put(&mut token.hands, h, None),
        Change::NewKey(h, flags) => {
            let (key, term) = (KeyNo(keys), TermNo(terms));
            append(&mut token.table, Term::Key(key), GENERATED);
            put(&mut token.hands, h, Some(Slot { key, term, flags }));
        }
        Change::OwnKey => append(&mut token.table, Term::Key(KeyNo(keys)), OWN),
        Change::OwnData => append(&mut token.table, Term::Data, OWN),
        Change::NewSeal(k, p, leaks) => {
            append(&mut token.table, Term::Seal(k, p), GIVEN);
            link(&mut token.links, terms, k, p);
            if leaks {
                follow(&mut token.table, &token.links, p);
            }
        }
        Change::Know(p) => follow(&mut token.table, &token.links, p),
    }
}
