// The policies, by name and by the number that a sheet has.
ghost use Rattle.std.specs.Prelude.{◌≡◌};
ghost use Rattle.shapes.specs.Policies.{policy_of};

#[derive(Clone, Copy, PartialEq, Eq)]
pub enum Policy {
    Plain,
    Stp,
    StpPlus,
}

// Every number from 2 on stands for STP+.
impl From<u8> for Policy {
    ghost from_gives = { λ number policy. policy ≡ policy_of number };

    fn from(number: u8) -> Policy {
        match number {
            0 => Policy::Plain,
            1 => Policy::Stp,
            _ => Policy::StpPlus,
        }
    }
}
