// What is wrong with a sheet, or with what is lent beside it: the fourteen refusals, and where one is given.
ghost use Rattle.std.specs.Prelude.{◌≡◌};

// A refusal by its name; docs/REFUSALS.md says when each is given.
#[derive(Clone, Copy, PartialEq, Eq)]
pub enum Fault {
    NoRoom = 1,
    TooLong = 2,
    Cut = 3,
    BadKind = 4,
    BadLength = 5,
    BadField = 6,
    BadCall = 7,
    TooDeep = 8,
    StrayMarker = 9,
    NoPlainBranch = 10,
    Extra = 11,
    TooBig = 12,
    ShortList = 13,
    BadDeadline = 14,
}

// The refusal's number.
impl From<Fault> for u64 {
    ghost use Rattle.records.specs.Faults.{number_of};

    ghost from_gives = { λ fault number. number ≡ number_of fault };

    fn from(fault: Fault) -> u64 {
        fault as u64
    }
}

// A fault, and its place.
#[derive(Clone, Copy, PartialEq, Eq)]
pub struct Refusal {
    pub fault: Fault,
    pub place: usize,
}
