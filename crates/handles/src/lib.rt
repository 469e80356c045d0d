// The live handles, as four words of 64 bits.
#![tactic(auto)]

ghost use Rattle.std.specs.Prelude.{◌≡◌, true, false};
ghost use Rattle.handles.specs.Live.{bit, free_in, count_in, BitSet};

use shapes::HandleNo;

// How many handles are live: the ones of the four words.
pub fn count(live: [u64; 4]) -> u32
    ensures { result ≡ count_in live }
{
    live.iter().map(|word| word.count_ones()).sum()
}

// The lowest number not live: the trailing zeros of the complement of the first word that is not full.
pub fn free(live: [u64; 4]) -> Option<HandleNo>
    ensures { result ≡ free_in live }
{
    let word = live.iter().position(|word| *word != u64::MAX)?;
    let zeros = (!live[word]).trailing_zeros();
    Some(HandleNo((word * 64) as u8 + zeros as u8))
}

pub fn is_live(live: [u64; 4], h: HandleNo) -> bool
    ensures { result ≡ bit live h.0 }
{
    let n = h.0;
    live[usize::from(n / 64)] >> (n % 64) & 1 == 1
}

// The words with the handle's bit set, or cleared, and every other as it was.
pub fn set(live: [u64; 4], h: HandleNo, to: bool) -> [u64; 4]
    ensures { BitSet live h.0 to result }
{
    let bit = 1 << (h.0 % 64);
    let word = usize::from(h.0 / 64);
    let mut words = live;
    if to {
        words[word] |= bit;
    } else {
        words[word] &= !bit;
    }
    words
}

// The words with the handle's bit set.
pub fn set_live(live: [u64; 4], h: HandleNo) -> [u64; 4]
    ensures { BitSet live h.0 true result }
{
    set(live, h, true)
}

// The words with the handle's bit cleared.
pub fn set_dead(live: [u64; 4], h: HandleNo) -> [u64; 4]
    ensures { BitSet live h.0 false result }
{
    set(live, h, false)
}
