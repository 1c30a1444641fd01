//! What the records so far say of a number: its equality, its node or its entry.
ghost use Rattle.std.specs.Prelude.{◌↔◌, ◌<◌, ◌≤◌, length, IsTrue, MatchOption};
ghost use Rattle.ld_terms.specs.Tree.{Star, Box, ◌▸◌};
ghost use Rattle.ld_terms.specs.Bank.{tree_at, list_at, IsTermAt, IsListAt};
ghost use Rattle.ld_terms.specs.Known.{Equates, Judges};
ghost use Rattle.dr_check.specs.Entered.{IsEnteredAt, HasSortAt};

use crate::checker::Checker;
use crate::compare::{is_extended, is_sort, same_lists, same_terms};
use ld_env::Entry;
use ld_terms::{Node, TermId};

/// Whether an equality has these sides.
pub(crate) fn equates(checker: &Checker, e: usize, l: TermId, r: TermId) -> bool
    requires there { e < length checker.now.state.known.equalities }
    requires left { IsTermAt checker.now.items l }
    requires right { IsTermAt checker.now.items r }
    ensures { IsTrue result ↔ Equates checker.now.state.known e (tree_at checker.now.items l) (tree_at checker.now.items r) }
{
    let equality = checker.equality(e);
    same_terms(checker.bank(), equality.left, l) && same_terms(checker.bank(), equality.right, r)
}

/// Whether a node is over so many entries and the context, and gives the term this type.
pub(crate) fn judges(checker: &Checker, n: usize, m: u32, ctx: TermId, t: TermId, u: TermId) -> bool
    requires there { n < length checker.now.state.known.nodes }
    requires ctx { IsListAt checker.now.items ctx }
    requires term { IsTermAt checker.now.items t }
    requires type_ { IsTermAt checker.now.items u }
    ensures { IsTrue result ↔ Judges checker.now.state.known n m (list_at checker.now.items ctx) (tree_at checker.now.items t) (tree_at checker.now.items u) }
{
    let node = checker.node(n);
    let bank = checker.bank();
    node.entries == m
        && same_lists(bank, node.ctx, ctx)
        && same_terms(bank, node.term, t)
        && same_terms(bank, node.of, u)
}

/// The same in the context with one more type at its end.
pub(crate) fn judges_below(
    checker: &Checker,
    n: usize,
    m: u32,
    ctx: TermId,
    a: TermId,
    t: TermId,
    u: TermId,
) -> bool
    requires there { n < length checker.now.state.known.nodes }
    requires ctx { IsListAt checker.now.items ctx }
    requires bound { IsTermAt checker.now.items a }
    requires term { IsTermAt checker.now.items t }
    requires type_ { IsTermAt checker.now.items u }
    ensures { IsTrue result ↔ Judges checker.now.state.known n m (list_at checker.now.items ctx ▸ tree_at checker.now.items a) (tree_at checker.now.items t) (tree_at checker.now.items u) }
{
    let node = checker.node(n);
    let bank = checker.bank();
    node.entries == m
        && is_extended(bank, node.ctx, ctx, a)
        && same_terms(bank, node.term, t)
        && same_terms(bank, node.of, u)
}

/// Whether a node is over so many entries and the context, and gives the term a sort.
pub(crate) fn judges_sort(checker: &Checker, n: usize, m: u32, ctx: TermId, t: TermId) -> bool
    requires there { n < length checker.now.state.known.nodes }
    requires ctx { IsListAt checker.now.items ctx }
    requires term { IsTermAt checker.now.items t }
    ensures { IsTrue result ↔ HasSortAt checker.now.state.known n m (list_at checker.now.items ctx) (tree_at checker.now.items t) }
{
    let node = checker.node(n);
    is_sort(checker.bank(), node.of) && judges(checker, n, m, ctx, t, node.of)
}

/// Whether a node is over so many entries and the context, and gives the least sort the other.
pub(crate) fn judges_star(checker: &Checker, n: usize, m: u32, ctx: TermId) -> bool
    requires there { n < length checker.now.state.known.nodes }
    requires ctx { IsListAt checker.now.items ctx }
    ensures { IsTrue result ↔ Judges checker.now.state.known n m (list_at checker.now.items ctx) Star Box }
{
    let node = checker.node(n);
    match (checker.bank().node(node.term), checker.bank().node(node.of)) {
        (Node::Star, Node::Box_) => judges(checker, n, m, ctx, node.term, node.of),
        _ => false,
    }
}

/// The entry of a number, if there is one.
pub(crate) fn entry_at(checker: &Checker, k: u32) -> Option<&Entry>
    ensures { MatchOption result (length checker.now.state.known.env ≤ k) (λ entry. IsEnteredAt checker.now.items checker.now.state.known.env k entry.now) }
{
    if k < checker.env().len() {
        Some(checker.env().entry(k))
    } else {
        None
    }
}
