//! Small trees, with answers worked out by hand.
use crate::{Bank, Node, TermFault, Terms};
use std::process::Abort;
use std::test::Fail;

// With `*` and `3` for its two variables `1 0` is `* 3`, and the free `2` is `0`.
fn instantiate_in_order(rt: &impl Abort, bank: &mut Bank) -> Result<(), Fail> {
    let outer = bank.add(Node::Var(1))?;
    let inner = bank.add(Node::Var(0))?;
    let body = bank.add(Node::App(outer, inner))?;
    let free = bank.add(Node::Var(2))?;
    let first = bank.add(Node::Star)?;
    let second = bank.add(Node::Var(3))?;
    let found = bank.instantiate(body, &[first, second])?;
    let lowered = bank.instantiate(free, &[first, second])?;
    let wanted = bank.add(Node::App(first, second))?;
    assert!(rt; bank.same(found, wanted));
    assert!(rt; bank.same(lowered, inner));
    Ok(())
}

#[test]
fn instantiates_in_order(rt: HostRuntime) -> Result<(), Fail> {
    instantiate_in_order(&rt, &mut Bank::new(rt.alloc()))
}

// With the list of `*` alone `0` is `*`.
fn instantiate_by_a_list(rt: &impl Abort, bank: &mut Bank) -> Result<(), Fail> {
    let body = bank.add(Node::Var(0))?;
    let star = bank.add(Node::Star)?;
    let none = bank.add(Node::Nil)?;
    let one = bank.add(Node::Cons(star, none))?;
    let found = bank.instantiate_list(body, one)?;
    assert!(rt; bank.same(found, star));
    Ok(())
}

#[test]
fn instantiates_by_a_list(rt: HostRuntime) -> Result<(), Fail> {
    instantiate_by_a_list(&rt, &mut Bank::new(rt.alloc()))
}

// Under a binder the argument is lifted: with `4` for `0` the term `fun 0, 1` is `fun 4, 5`.
fn instantiate_under_a_binder(rt: &impl Abort, bank: &mut Bank) -> Result<(), Fail> {
    let outer = bank.add(Node::Var(0))?;
    let inner = bank.add(Node::Var(1))?;
    let body = bank.add(Node::Lam(outer, inner))?;
    let argument = bank.add(Node::Var(4))?;
    let found = bank.instantiate(body, &[argument])?;
    let lifted = bank.add(Node::Var(5))?;
    let wanted = bank.add(Node::Lam(argument, lifted))?;
    assert!(rt; bank.same(found, wanted));
    Ok(())
}

#[test]
fn instantiates_under_a_binder(rt: HostRuntime) -> Result<(), Fail> {
    instantiate_under_a_binder(&rt, &mut Bank::new(rt.alloc()))
}

// `all 0, 0 1` by two is `all 2, 0 3`.
fn lift_under_a_binder(rt: &impl Abort, bank: &mut Bank) -> Result<(), Fail> {
    let bound = bank.add(Node::Var(0))?;
    let free = bank.add(Node::Var(1))?;
    let pair = bank.add(Node::App(bound, free))?;
    let product = bank.add(Node::Pi(bound, pair))?;
    let found = bank.lift(product, 2, 0)?;
    let domain = bank.add(Node::Var(2))?;
    let free = bank.add(Node::Var(3))?;
    let pair = bank.add(Node::App(bound, free))?;
    let wanted = bank.add(Node::Pi(domain, pair))?;
    assert!(rt; bank.same(found, wanted));
    Ok(())
}

#[test]
fn lifts_under_a_binder(rt: HostRuntime) -> Result<(), Fail> {
    lift_under_a_binder(&rt, &mut Bank::new(rt.alloc()))
}

#[test]
fn keeps_the_limits(rt: HostRuntime) -> Result<(), Fail> {
    let mut bank = Bank::new(rt.alloc());
    let mut term = bank.add(Node::Star)?;
    for _ in 1..500 {
        term = bank.add(Node::App(term, term))?;
    }
    assert_eq!(rt; bank.height(term), 500);
    assert!(rt; matches!(bank.add(Node::App(term, term)), Err(TermFault::High)));
    assert!(rt; bank.add(Node::Var(65_535)).is_ok());
    assert!(rt; matches!(bank.add(Node::Var(65_536)), Err(TermFault::High)));
    Ok(())
}

fn compare_trees(rt: &impl Abort, bank: &mut Bank) -> Result<(), Fail> {
    let star = bank.add(Node::Star)?;
    let none = bank.add(Node::Nil)?;
    let one = bank.add(Node::Cons(star, none))?;
    let first = bank.add(Node::Const(1, one))?;
    let again = bank.add(Node::Const(1, one))?;
    let second = bank.add(Node::Const(2, one))?;
    let without = bank.add(Node::Const(1, none))?;
    assert!(rt; bank.same(first, again));
    assert!(rt; !bank.same(first, second));
    assert!(rt; !bank.same(first, without));
    assert_eq!(rt; bank.len(), 6);
    Ok(())
}

#[test]
fn compares_trees(rt: HostRuntime) -> Result<(), Fail> {
    compare_trees(&rt, &mut Bank::new(rt.alloc()))
}

#[test]
fn keeps_a_list(rt: HostRuntime) -> Result<(), Fail> {
    let mut bank = Bank::new(rt.alloc());
    let star = bank.add(Node::Star)?;
    let over = bank.add(Node::Box_)?;
    let mut terms = Vec::new(rt.alloc());
    terms.push(star)?;
    terms.push(over)?;
    let list = Terms::from_vec(terms);
    assert_eq!(rt; list.as_slice(), [star, over].as_slice());
    Ok(())
}

fn cut_back(rt: &impl Abort, bank: &mut Bank) -> Result<(), Fail> {
    let star = bank.add(Node::Star)?;
    let mark = bank.mark();
    let pair = bank.add(Node::App(star, star))?;
    bank.cut(mark);
    assert_eq!(rt; bank.len(), 1);
    let square = bank.add(Node::Box_)?;
    assert_eq!(rt; square.number(), pair.number());
    assert!(rt; !bank.same(square, star));
    Ok(())
}

#[test]
fn cuts_back(rt: HostRuntime) -> Result<(), Fail> {
    cut_back(&rt, &mut Bank::new(rt.alloc()))
}

// `fun *, 0 3` reaches two further than its own variable.
fn look_outside(rt: &impl Abort, bank: &mut Bank) -> Result<(), Fail> {
    let star = bank.add(Node::Star)?;
    let bound = bank.add(Node::Var(0))?;
    let free = bank.add(Node::Var(3))?;
    let pair = bank.add(Node::App(bound, free))?;
    let function = bank.add(Node::Lam(star, pair))?;
    assert_eq!(rt; bank.reach(star), 0);
    assert_eq!(rt; bank.reach(pair), 4);
    assert_eq!(rt; bank.reach(function), 3);
    Ok(())
}

#[test]
fn looks_outside(rt: HostRuntime) -> Result<(), Fail> {
    look_outside(&rt, &mut Bank::new(rt.alloc()))
}
