//! What words can ask for.
ghost use Rattle.std.specs.Prelude.{◌≤◌};

/// A command, with what its words give.
#[derive(Clone, Copy)]
pub enum Command<'a> {
    Check(Check<'a>),
    /// A verification of the derivation file of this name.
    Verify(&'a str),
}

/// A check of the book, whose derivation goes into the file `out`, within a budget of steps.
#[derive(Clone, Copy)]
pub struct Check<'a> {
    pub book: &'a str,
    pub out: &'a str,
    pub budget: u64,
    ghost few: { budget ≤ 1000000000 },
}
