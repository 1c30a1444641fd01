//! Small terms, lifted and put in by hand.
ghost use Rattle.std.specs.Prelude.{IfOk};
ghost use Rattle.ld_terms.specs.Bank.{IsTermAt, IsListAt, Extends};

use crate::compare::{is_instance, is_weakened};
use crate::shape::Filling;
use ld_terms::{Bank, Node, TermFault, TermId};
use std::test::Fail;

// The application of a variable to another one.
fn application(bank: &mut Bank, function: u32, argument: u32) -> Result<TermId, TermFault>
    ensures term { IfOk result (λ t. IsTermAt bank.new t) }
    ensures kept { Extends bank.old bank.new }
{
    let function = bank.add(Node::Var(function))?;
    let argument = bank.add(Node::Var(argument))?;
    bank.add(Node::App(function, argument))
}

// `*` applied to a variable.
fn applied_star(bank: &mut Bank, argument: u32) -> Result<TermId, TermFault>
    ensures term { IfOk result (λ t. IsTermAt bank.new t) }
    ensures kept { Extends bank.old bank.new }
{
    let star = bank.add(Node::Star)?;
    let argument = bank.add(Node::Var(argument))?;
    bank.add(Node::App(star, argument))
}

// The list of `*` and a variable.
fn star_and_variable(bank: &mut Bank, index: u32) -> Result<TermId, TermFault>
    ensures list { IfOk result (λ us. IsListAt bank.new us) }
    ensures kept { Extends bank.old bank.new }
{
    let star = bank.add(Node::Star)?;
    let none = bank.add(Node::Nil)?;
    let one = bank.add(Node::Cons(star, none))?;
    let variable = bank.add(Node::Var(index))?;
    bank.add(Node::Cons(variable, one))
}

// A function whose domain and body are variables.
fn constant(bank: &mut Bank, domain: u32, body: u32) -> Result<TermId, TermFault>
    ensures term { IfOk result (λ t. IsTermAt bank.new t) }
    ensures kept { Extends bank.old bank.new }
{
    let domain = bank.add(Node::Var(domain))?;
    let body = bank.add(Node::Var(body))?;
    bank.add(Node::Lam(domain, body))
}

// A function whose domain is a variable and whose body is an application of the innermost variable to another one.
fn applying(bank: &mut Bank, domain: u32, argument: u32) -> Result<TermId, TermFault>
    ensures term { IfOk result (λ t. IsTermAt bank.new t) }
    ensures kept { Extends bank.old bank.new }
{
    let domain = bank.add(Node::Var(domain))?;
    let body = application(bank, 0, argument)?;
    bank.add(Node::Lam(domain, body))
}

// Lifted by one, `fun 0, 0 1` is `fun 1, 0 2`: what the binder binds stays.
#[test]
fn lifts_what_is_free(rt: HostRuntime) -> Result<(), Fail> {
    let mut bank = Bank::new(rt.alloc());
    let term = applying(&mut bank, 0, 1)?;
    let lifted = applying(&mut bank, 1, 2)?;
    let not_raised = applying(&mut bank, 1, 1)?;
    assert!(rt; is_weakened(&bank, lifted, term));
    assert!(rt; !is_weakened(&bank, not_raised, term));
    assert!(rt; !is_weakened(&bank, term, term));
    Ok(())
}

// With `*` and `4` for its two variables `1 0` is `* 4`.
#[test]
fn puts_a_list_in(rt: HostRuntime) -> Result<(), Fail> {
    let mut bank = Bank::new(rt.alloc());
    let body = application(&mut bank, 1, 0)?;
    let put = applied_star(&mut bank, 4)?;
    let both = star_and_variable(&mut bank, 4)?;
    assert!(rt; is_instance(&bank, put, body, Filling::List(both)));
    assert!(rt; !is_instance(&bank, body, body, Filling::List(both)));
    Ok(())
}

// Under a binder the term is lifted: with `4` for `0` the term `fun 0, 1` is `fun 4, 5`.
#[test]
fn puts_one_term_in(rt: HostRuntime) -> Result<(), Fail> {
    let mut bank = Bank::new(rt.alloc());
    let body = constant(&mut bank, 0, 1)?;
    let put = constant(&mut bank, 4, 5)?;
    let not_lifted = constant(&mut bank, 4, 4)?;
    let four = bank.add(Node::Var(4))?;
    assert!(rt; is_instance(&bank, put, body, Filling::One(four)));
    assert!(rt; !is_instance(&bank, not_lifted, body, Filling::One(four)));
    Ok(())
}

// An index that is greater than that of the variable goes down.
#[test]
fn lowers_a_greater_index(rt: HostRuntime) -> Result<(), Fail> {
    let mut bank = Bank::new(rt.alloc());
    let zero = bank.add(Node::Var(0))?;
    let four = bank.add(Node::Var(4))?;
    let five = bank.add(Node::Var(5))?;
    assert!(rt; is_instance(&bank, four, five, Filling::One(zero)));
    Ok(())
}
