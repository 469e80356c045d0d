// The links of a new seal: it goes to the front of its two chains, of its key and of its bucket.
ghost use Rattle.std.specs.Prelude.{◌≡◌, ◌<◌, Some, None, get_or, set};
ghost use Rattle.rules.specs.State.{most_terms};
ghost use Rattle.running.specs.Applied.{linked};

use crate::find::bucket_of;
use crate::look::code;
use shapes::{KeyNo, TermNo};
use token::Links;

// Puts a number before the first of a chain.
fn first(
    firsts: &mut [Option<TermNo>; 1024],
    nexts: &mut [Option<TermNo>; 1024],
    of: usize,
    number: u16,
)
    requires of_lt_most_terms { of < most_terms }
    requires number_lt_most_terms { number < most_terms }
    ensures firsts_after { firsts.new ≡ set firsts.old of (Some (record { 0 = number })) }
    ensures nexts_after { nexts.new ≡ set nexts.old number (get_or firsts.old of None) }
{
    nexts[number as usize] = firsts[of];
    firsts[of] = Some(TermNo(number));
}

// Links seal number `number`, of term p under key k.
pub fn link(links: &mut Links, number: u16, k: KeyNo, p: TermNo)
    requires number_lt_most_terms { number < most_terms }
    requires key_lt_most_terms { k.0 < most_terms }
    ensures { links.new ≡ linked links.old number k.0 p.0 }
{
    let code = code(k, p);
    first(&mut links.newest, &mut links.older, k.0 as usize, number);
    first(&mut links.heads, &mut links.chain, bucket_of(code), number);
    links.codes[number as usize] = code;
}
