// What is known where a construct is read.
ghost use Rattle.std.specs.Prelude.{ℕ, ◌≤◌, length, get_or};
ghost use Rattle.meaning.specs.Answer.{value_limit};

// The sheet's bytes, the bounds of the routines before the one that is read, and its number.
#[derive(Clone, Copy)]
pub(crate) struct Known<'a> {
    pub sheet: &'a [u8],
    pub bounds: &'a [u64; 64],
    pub own: u64,
    ghost short: { length sheet.now ≤ 60000 },
    ghost small: { (i : ℕ) → get_or bounds.now i 0 ≤ value_limit },
    ghost few: { own ≤ 64 },
}

// How a list of constructs is reached: the depths left, and the passes that the counts allow there; no limit is over 1,000,000. How a construct stands
// goes beside it, since that changes from child to child.
#[derive(Drop)]
pub(crate) struct Way {
    pub left: u64,
    pub passes: u64,
    ghost at_most: { passes ≤ 1000000 },
}
