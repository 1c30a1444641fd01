//! Whether a term is another one lifted, or a body with terms put in. Nothing is made: the terms are gone down together.
ghost use Rattle.std.specs.Prelude.{◌≡◌, ◌↔◌, ◌<◌, ◌+◌, ◌^◌, suc, nat_lt, if◌then◌else◌, IsTrue};
ghost use Rattle.ld_terms.specs.Tree.{Var};
ghost use Rattle.ld_terms.specs.Put.{lift, in_place, in_place_below};
ghost use Rattle.ld_terms.specs.Item.{One, height_of, lift_item, put_item};
ghost use Rattle.ld_terms.specs.Bank.{item_at, list_at, IsLive, IsListAt};
ghost use Rattle.dr_check.specs.Filling.{filling_of, IsFillingAt};

use ld_terms::{Bank, Node, TermId};

/// What is put in for the innermost variables of a body: the terms of a list of the bank, or one term.
#[derive(Clone, Copy, Debug)]
pub(crate) enum Filling {
    List(TermId),
    One(TermId),
}

// The other trees of a list come last in each comparison, so that a built program goes down a long list without using stack.

/// Whether a term is the other with `by` added to each free index that is at least `from`.
pub(crate) fn is_lifted(bank: &Bank, lifted: TermId, t: TermId, by: u32, from: u32) -> bool
    requires lifted { IsLive bank.now lifted }
    requires live { IsLive bank.now t }
    requires room { from + height_of (item_at bank.now t) < 2 ^ 32 }
    ensures { IsTrue result ↔ (item_at bank.now lifted ≡ lift_item (item_at bank.now t) by from) }
{
    match (bank.node(lifted), bank.node(t)) {
        (Node::Star, Node::Star) | (Node::Box_, Node::Box_) | (Node::Nil, Node::Nil) => true,
        (Node::Var(j), Node::Var(i)) => is_raised(j, i, by, from),
        (Node::App(g, v), Node::App(f, u)) => {
            is_lifted(bank, g, f, by, from) && is_lifted(bank, v, u, by, from)
        }
        (Node::Lam(b, n), Node::Lam(a, m)) => {
            is_lifted(bank, b, a, by, from) && is_lifted(bank, n, m, by, deeper(from))
        }
        (Node::Pi(c, d), Node::Pi(a, b)) => {
            is_lifted(bank, c, a, by, from) && is_lifted(bank, d, b, by, deeper(from))
        }
        (Node::Const(l, vs), Node::Const(k, us)) => l == k && is_lifted(bank, vs, us, by, from),
        (Node::Cons(v, vs), Node::Cons(u, us)) => {
            is_lifted(bank, v, u, by, from) && is_lifted(bank, vs, us, by, from)
        }
        _ => false,
    }
}

// The number of binders, one binder further in.
fn deeper(binders: u32) -> u32
    requires { binders + 1 < 2 ^ 32 }
    ensures { result ≡ suc binders }
{
    binders + 1
}

// Whether a variable's index is another's, raised by `by` where that is at least `from`.
fn is_raised(index: u32, before: u32, by: u32, from: u32) -> bool
    ensures { IsTrue result ↔ (index ≡ (if nat_lt before from then before else before + by)) }
{
    if before < from {
        index == before
    } else {
        before <= index && index - before == by
    }
}

/// Whether a term is the body with the filling put in for its innermost variables, below some binders.
pub(crate) fn is_put(bank: &Bank, put: TermId, body: TermId, filling: Filling, below: u32) -> bool
    requires put { IsLive bank.now put }
    requires body { IsLive bank.now body }
    requires filling { IsFillingAt bank.now filling }
    requires room { below + height_of (item_at bank.now body) < 2 ^ 32 }
    ensures { IsTrue result ↔ (item_at bank.now put ≡ put_item (item_at bank.now body) (filling_of bank.now filling) below) }
{
    if let Node::Var(i) = bank.node(body) {
        return is_placed(bank, put, filling, i, below);
    }
    match (bank.node(put), bank.node(body)) {
        (Node::Star, Node::Star) | (Node::Box_, Node::Box_) | (Node::Nil, Node::Nil) => true,
        (Node::App(g, v), Node::App(f, u)) => {
            is_put(bank, g, f, filling, below) && is_put(bank, v, u, filling, below)
        }
        (Node::Lam(b, n), Node::Lam(a, m)) => {
            is_put(bank, b, a, filling, below) && is_put(bank, n, m, filling, deeper(below))
        }
        (Node::Pi(c, d), Node::Pi(a, b)) => {
            is_put(bank, c, a, filling, below) && is_put(bank, d, b, filling, deeper(below))
        }
        (Node::Const(l, vs), Node::Const(k, us)) => l == k && is_put(bank, vs, us, filling, below),
        (Node::Cons(v, vs), Node::Cons(u, us)) => {
            is_put(bank, v, u, filling, below) && is_put(bank, vs, us, filling, below)
        }
        _ => false,
    }
}

// Whether a term is what stands for a variable of the body, below some binders.
fn is_placed(bank: &Bank, put: TermId, filling: Filling, i: u32, below: u32) -> bool
    requires put { IsLive bank.now put }
    requires filling { IsFillingAt bank.now filling }
    ensures { IsTrue result ↔ (item_at bank.now put ≡ One (in_place_below (filling_of bank.now filling) below i)) }
{
    if i < below {
        is_variable(bank, put, i)
    } else {
        is_filled(bank, put, filling, i - below, below)
    }
}

// Whether a term is the variable of an index.
fn is_variable(bank: &Bank, t: TermId, index: u32) -> bool
    requires { IsLive bank.now t }
    ensures { IsTrue result ↔ (item_at bank.now t ≡ One (Var index)) }
{
    match bank.node(t) {
        Node::Var(i) => i == index,
        _ => false,
    }
}

// Whether a term is what the filling has for a variable, lifted.
fn is_filled(bank: &Bank, put: TermId, filling: Filling, i: u32, below: u32) -> bool
    requires put { IsLive bank.now put }
    requires filling { IsFillingAt bank.now filling }
    requires room { i + below < 2 ^ 32 }
    ensures { IsTrue result ↔ (item_at bank.now put ≡ One (lift (in_place (filling_of bank.now filling) i) below 0)) }
{
    match filling {
        Filling::List(us) => is_in_place(bank, put, us, i, below),
        Filling::One(u) => {
            let _height = bank.height(u);
            if i == 0 {
                is_lifted(bank, put, u, below, 0)
            } else {
                is_variable(bank, put, i - 1 + below)
            }
        }
    }
}

// Whether a term is what the list has for a variable, lifted.
fn is_in_place(bank: &Bank, put: TermId, us: TermId, i: u32, below: u32) -> bool
    requires put { IsLive bank.now put }
    requires list { IsListAt bank.now us }
    requires room { i + below < 2 ^ 32 }
    ensures { IsTrue result ↔ (item_at bank.now put ≡ One (lift (in_place (list_at bank.now us) i) below 0)) }
{
    match bank.node(us) {
        Node::Cons(u, rest) => {
            if i == 0 {
                is_lifted(bank, put, u, below, 0)
            } else {
                is_in_place(bank, put, rest, i - 1, below)
            }
        }
        Node::Nil => is_variable(bank, put, i + below),
        _ => unreachable!(),
    }
}
