// Finding the equal of a seal by its code, through the chain of its bucket.
ghost use Rattle.std.specs.Prelude.{◌≡◌, ◌<◌};
ghost use Rattle.rules.specs.State.{most_terms};
ghost use Rattle.token.specs.Shows.{bucket};
ghost use Rattle.running.specs.Views.{Findable, equal_in};

use shapes::TermNo;
use token::Links;

// The bucket of a code.
pub fn bucket_of(code: u32) -> usize
    ensures value { result ≡ bucket code }
    ensures upper_bound { result < most_terms }
{
    ((code as u64) * 40503 / 64 % 1024) as usize
}

// The number of the seal with this code, where there is one.
pub fn find(links: &Links, code: u32) -> Option<TermNo>
    requires findable { Findable links.now.heads links.now.chain links.now.codes }
    requires code_nonzero { 0 < code }
    ensures { result ≡ equal_in links.now.codes code }
{
    let mut link = links.heads[bucket_of(code)];
    while let Some(number) = link {
        let i = number.0 as usize;
        if links.codes[i] == code {
            return Some(number);
        }
        link = links.chain[i];
    }
    None
}
