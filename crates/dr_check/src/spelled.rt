//! A record of a file with its numbers.
use crate::rules::{EqualRule, NodeRule};

/// What a record of a node says: over the first of the entries, so many, and in the context of this number, the term
/// has the type. The numbers are those of the file.
#[derive(Clone, Copy, Debug)]
pub(crate) struct Claim {
    pub entries: usize,
    pub ctx: usize,
    pub term: usize,
    pub of: usize,
}

/// A record, with the numbers of what it rests on. Names are borrowed from the file.
#[derive(Debug, Drop)]
pub(crate) enum Spelled<'a> {
    Star,
    Box_,
    Var(usize),
    App(usize, usize),
    Lam(usize, usize),
    Pi(usize, usize),
    /// An instance of an entry, with its arguments in order.
    Const(usize, Vec<usize>),
    /// A context, and the term by which it is extended.
    Context(usize, usize),
    /// The left side and the right side.
    Equal(usize, usize, EqualRule),
    Node(Claim, NodeRule),
    /// A name and a node: of a line, whose body and type are the node's term and type.
    Entry(&'a [u8], usize),
    /// A name and a node: of a primitive, whose type is the node's term.
    PrimEntry(&'a [u8], usize),
    Flag(usize),
    End(usize),
}
