// How a construct stands to a scope, as far as a marker in it is concerned.
#[derive(Clone, Copy, PartialEq, Eq)]
pub enum Standing {
    // in no scope that its marker could belong to
    Outside,
    // in a scope
    InScope,
    // inside an alternative of the scope
    InAlternative,
    // a branch of such an alternative
    Branch,
    // its last branch, where all others are marked
    LastBranch,
    // first in a branch
    Leading,
    // first in such a last branch
    LeadingLast,
}

// The standing of a number, as `Records.reach_numbered` has it: for callers that count standings.
impl From<u64> for Standing {
    ghost use Rattle.std.specs.Prelude.{◌≡◌};
    ghost use Rattle.records.specs.Records.{reach_of, last_of, reach_numbered, last_numbered};

    ghost from_gives = { λ number standing. (reach_of standing ≡ reach_numbered number) × (last_of standing ≡ last_numbered number) };

    fn from(number: u64) -> Standing {
        match number {
            0 => Standing::Outside,
            1 => Standing::InScope,
            3 => Standing::Branch,
            4 => Standing::LastBranch,
            5 => Standing::Leading,
            6 => Standing::LeadingLast,
            _ => Standing::InAlternative,
        }
    }
}
