//! The rules that the records of a file name, with the numbers of their premises.

/// A rule for an equality, with the numbers of the equalities that it rests on.
#[derive(Debug, Drop)]
pub(crate) enum EqualRule {
    Refl,
    Sym(usize),
    Trans(usize, usize),
    Beta,
    Delta,
    App(usize, usize),
    Lam(usize, usize),
    Pi(usize, usize),
    Const(Vec<usize>),
}

/// A rule for a node, with the numbers of the nodes that it rests on, and for `Conv` that of an equality.
#[derive(Debug, Drop)]
pub(crate) enum NodeRule {
    Sort,
    Var(usize),
    Weak(usize, usize),
    Form(usize, usize),
    Appl(usize, usize),
    Abst(usize, usize),
    Conv(usize, usize, usize),
    Def(usize),
    DefPrim(usize),
    Inst(usize, Vec<usize>),
    InstPrim(usize, Vec<usize>),
}
