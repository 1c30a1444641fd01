//! Comparisons of terms and lists of a bank, as trees.
ghost use Rattle.std.specs.Prelude.{◌≡◌, ◌↔◌, IsTrue};
ghost use Rattle.ld_terms.specs.Tree.{Var, Nil, ◌▸◌, count};
ghost use Rattle.ld_terms.specs.Put.{lift, put};
ghost use Rattle.ld_terms.specs.Derivable.{IsSort};
ghost use Rattle.ld_terms.specs.Bank.{tree_at, list_at, IsTermAt, IsListAt};
ghost use Rattle.dr_check.specs.Filling.{filling_of, IsFillingAt};

use crate::shape::{Filling, is_lifted, is_put};
use ld_terms::{Bank, Node, TermId};

/// Whether two terms are one tree.
pub(crate) fn same_terms(bank: &Bank, a: TermId, b: TermId) -> bool
    requires first { IsTermAt bank.now a }
    requires second { IsTermAt bank.now b }
    ensures { IsTrue result ↔ (tree_at bank.now a ≡ tree_at bank.now b) }
{
    bank.same(a, b)
}

/// Whether two lists have the same trees.
pub(crate) fn same_lists(bank: &Bank, a: TermId, b: TermId) -> bool
    requires first { IsListAt bank.now a }
    requires second { IsListAt bank.now b }
    ensures { IsTrue result ↔ (list_at bank.now a ≡ list_at bank.now b) }
{
    bank.same(a, b)
}

/// Whether a list is the context with one more tree at its end.
pub(crate) fn is_extended(bank: &Bank, list: TermId, ctx: TermId, last: TermId) -> bool
    requires list { IsListAt bank.now list }
    requires ctx { IsListAt bank.now ctx }
    requires last { IsTermAt bank.now last }
    ensures { IsTrue result ↔ (list_at bank.now list ≡ list_at bank.now ctx ▸ tree_at bank.now last) }
{
    match bank.node(list) {
        Node::Cons(t, others) => same_terms(bank, t, last) && same_lists(bank, others, ctx),
        _ => false,
    }
}

/// Whether a list has no trees.
pub(crate) fn is_empty(bank: &Bank, list: TermId) -> bool
    requires { IsListAt bank.now list }
    ensures { IsTrue result ↔ (list_at bank.now list ≡ Nil) }
{
    match bank.node(list) {
        Node::Nil => true,
        _ => false,
    }
}

/// Whether a list has so many trees.
pub(crate) fn has_count(bank: &Bank, list: TermId, number: usize) -> bool
    requires { IsListAt bank.now list }
    ensures { IsTrue result ↔ (count (list_at bank.now list) ≡ number) }
{
    let mut rest = list;
    for _i in 0..number {
        match bank.node(rest) {
            Node::Cons(_, others) => rest = others,
            _ => return false,
        }
    }
    is_empty(bank, rest)
}

/// Whether a term is a sort.
pub(crate) fn is_sort(bank: &Bank, t: TermId) -> bool
    requires { IsTermAt bank.now t }
    ensures { IsTrue result ↔ IsSort (tree_at bank.now t) }
{
    match bank.node(t) {
        Node::Star | Node::Box_ => true,
        _ => false,
    }
}

/// Whether a term is the innermost variable.
pub(crate) fn is_innermost(bank: &Bank, t: TermId) -> bool
    requires { IsTermAt bank.now t }
    ensures { IsTrue result ↔ (tree_at bank.now t ≡ Var 0) }
{
    match bank.node(t) {
        Node::Var(i) => i == 0,
        _ => false,
    }
}

/// Whether a term is the other as it stands below one more binder.
pub(crate) fn is_weakened(bank: &Bank, lifted: TermId, t: TermId) -> bool
    requires lifted { IsTermAt bank.now lifted }
    requires term { IsTermAt bank.now t }
    ensures { IsTrue result ↔ (tree_at bank.now lifted ≡ lift (tree_at bank.now t) 1 0) }
{
    let _height = bank.height(t);
    is_lifted(bank, lifted, t, 1, 0)
}

/// Whether a term is the body with the filling put in.
pub(crate) fn is_instance(bank: &Bank, instance: TermId, body: TermId, filling: Filling) -> bool
    requires instance { IsTermAt bank.now instance }
    requires body { IsTermAt bank.now body }
    requires filling { IsFillingAt bank.now filling }
    ensures { IsTrue result ↔ (tree_at bank.now instance ≡ put (tree_at bank.now body) (filling_of bank.now filling)) }
{
    let _height = bank.height(body);
    is_put(bank, instance, body, filling, 0)
}
