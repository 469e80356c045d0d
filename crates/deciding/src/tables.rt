// The constant tables of document 01: the flag bytes that each policy grants, and the flag that a command needs on its first handle.
ghost use Rattle.std.specs.Prelude.{◌≡◌, not, ◌&&◌, ◌||◌};
ghost use Rattle.rules.specs.Flags.{W, X, N, T, has};
ghost use Rattle.deciding.specs.Decisions.{granted_by};
ghost use Rattle.deciding.specs.Tables.{flag_of, making_of, needed_by, place, policy_number};

use shapes::policy::Policy;

// The flags, each with its value in a flag byte.
#[derive(Clone, Copy)]
pub enum Flag {
    Wrap = 1,
    Unwrap = 2,
    Encrypt = 4,
    Decrypt = 8,
    Extractable = 16,
    TrustedOnly = 32,
    Trusted = 64,
}

// The two ways to make a handle.
#[derive(Clone, Copy)]
pub enum Making {
    Generate,
    Unwrap,
}

// The commands that need a flag on their first handle.
#[derive(Clone, Copy)]
pub enum Use {
    Wrap,
    Unwrap,
    Encrypt,
    Decrypt,
}

// All flags together: plain policy grants every flag byte up to this one.
const ALL_FLAGS: u8 = 127;

// A row for STP and a row for STP+: the flag bytes by GENERATE, and those by UNWRAP.
const GRANTED: [[&[u8]; 2]; 2] = [[&[12, 28, 3, 19], &[22]], [&[67, 51, 28], &[54]]];

// By use.
const NEEDED: [Flag; 4] = [Flag::Wrap, Flag::Unwrap, Flag::Encrypt, Flag::Decrypt];

// Does the policy grant this flag byte to a handle made so?
#[tactic(auto, using(std::proofs::lemmas::Bool::Decides::nat_tests), unfolding(crate::proofs::TableRules::grants_opened))]
pub fn granted(policy: Policy, making: Making, flags: u8) -> bool
    ensures { result ≡ granted_by (policy_number policy) (making_of making) flags }
{
    let row = match policy {
        Policy::Plain => return flags <= ALL_FLAGS,
        Policy::Stp => 0,
        Policy::StpPlus => 1,
    };
    GRANTED[row][making as usize].contains(&flags)
}

// Is the flag in the flag byte?
#[tactic(auto, using(crate::proofs::TableRules::bit_tested), unfolding(rules::specs::Flags::value))]
pub fn has(flag: Flag, flags: u8) -> bool
    ensures { result ≡ has (flag_of flag) flags }
{
    flags & flag as u8 != 0
}

// Does the flag byte lack what a command needs on its first handle?
pub fn lacks(command: Use, flags: u8) -> bool
    ensures { result ≡ not (has (needed_by (place command)) flags) }
{
    !has(NEEDED[command as usize], flags)
}

// Is a flag missing that WRAP needs: W on the outer, X on the inner, and T on the outer where N is on the inner?
pub fn bars_wrap(outer: u8, inner: u8) -> bool
    ensures { result ≡ (not (has W outer) || not (has X inner) || (has N inner && not (has T outer))) }
{
    lacks(Use::Wrap, outer)
        || !has(Flag::Extractable, inner)
        || has(Flag::TrustedOnly, inner) && !has(Flag::Trusted, outer)
}
