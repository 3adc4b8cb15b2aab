// What is told of the records read besides their values.
ghost use Rattle.std.specs.Prelude.{◌≤◌};

// Where the first one ended with too large a value; what the markers of the scope that is being read add to it; the limit of the marker that
// leads what is being read; and how many constructs were valued in the lists that have ended.
#[derive(Drop)]
pub(crate) struct Notes {
    pub over: Option<usize>,
    pub added: u64,
    pub mark: Option<u64>,
    pub constructs: u64,
    ghost at_most: { added ≤ 1099511627776 },
}
