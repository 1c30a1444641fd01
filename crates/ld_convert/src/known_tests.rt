//! Comparisons that end early, for want of steps or of nesting, and the pairs that are known after comparisons.
ghost use Rattle.std.specs.Prelude.{IfOk};
ghost use Rattle.ld_terms.specs.Bank.{IsTermAt};
ghost use Rattle.ld_record.specs.Kept.{known_of};
ghost use Rattle.ld_convert.specs.Turned.{IsReady, AreComparable};

use crate::Job;
use crate::sample::ready;
use crate::tests::{
    Found, Outcome, application, comes_to, comparison, instances, instances_of_redex, redex,
    redex_and_reduct,
};
use ld_env::Env;
use ld_record::Deriv;
use ld_reduce::Stop;
use ld_terms::{Bank, Node, TermFault, TermId};
use std::alloc::Global;
use std::test::Fail;

// Both sides would be unfolded.
#[test]
fn stops_where_no_step_is_left(rt: HostRuntime) -> Result<(), Fail> {
    let mut bank = Bank::new(rt.alloc());
    let ends = instances(&mut bank, (2, 3), (2, 4))?;
    let expected = (Err(Stop::Spent), (0, 1), 0);
    comes_to(&rt, rt.alloc(), &mut bank, ends, (1, 1), expected)
}

#[test]
fn compares_nothing_at_nesting_1001(rt: HostRuntime) -> Result<(), Fail> {
    let mut bank = Bank::new(rt.alloc());
    let ends = instances(&mut bank, (2, 3), (2, 3))?;
    let expected = (Err(Stop::Nested), (10, 0), 0);
    comes_to(&rt, rt.alloc(), &mut bank, ends, (1001, 10), expected)
}

#[test]
fn compares_no_parts_at_nesting_1000(rt: HostRuntime) -> Result<(), Fail> {
    let mut bank = Bank::new(rt.alloc());
    let ends = instances_of_redex(&mut bank, 0)?;
    let expected = (Err(Stop::Nested), (10, 0), 0);
    comes_to(&rt, rt.alloc(), &mut bank, ends, (1000, 10), expected)
}

#[test]
fn compares_parts_at_nesting_999(rt: HostRuntime) -> Result<(), Fail> {
    let mut bank = Bank::new(rt.alloc());
    let ends = instances_of_redex(&mut bank, 0)?;
    let expected = (Ok(Found::Same), (9, 1), 2);
    comes_to(&rt, rt.alloc(), &mut bank, ends, (999, 10), expected)
}

// `9 3 4` and `9 5 6`
fn two_applications(bank: &mut Bank) -> Result<(TermId, TermId), TermFault>
    ensures first { IfOk result (λ ends. IsTermAt bank.new ends.0) }
    ensures second { IfOk result (λ ends. IsTermAt bank.new ends.1) }
{
    let three = bank.add(Node::Var(3))?;
    let four = bank.add(Node::Var(4))?;
    let first = application(bank, three, four)?;
    let five = bank.add(Node::Var(5))?;
    let six = bank.add(Node::Var(6))?;
    let second = application(bank, five, six)?;
    Ok((first, second))
}

#[test]
fn compares_arguments_from_the_left(rt: HostRuntime) -> Result<(), Fail> {
    let mut bank = Bank::new(rt.alloc());
    let ends = two_applications(&mut bank)?;
    let apart = Found::Apart(Node::Var(3), Node::Var(5), 0);
    let expected = (Ok(apart), (10, 0), 0);
    comes_to(&rt, rt.alloc(), &mut bank, ends, (1, 10), expected)
}

// `9 r r` and `9 3 3`, where `r` is `(fun x : *. x) 3`
fn redex_twice(bank: &mut Bank) -> Result<(TermId, TermId), TermFault>
    ensures first { IfOk result (λ ends. IsTermAt bank.new ends.0) }
    ensures second { IfOk result (λ ends. IsTermAt bank.new ends.1) }
{
    let (redex, reduct) = redex_and_reduct(bank)?;
    let first = application(bank, redex, redex)?;
    let second = application(bank, reduct, reduct)?;
    Ok((first, second))
}

// The second argument costs no step.
#[test]
fn knows_the_first_arguments(rt: HostRuntime) -> Result<(), Fail> {
    let mut bank = Bank::new(rt.alloc());
    let ends = redex_twice(&mut bank)?;
    let expected = (Ok(Found::Same), (9, 1), 2);
    comes_to(&rt, rt.alloc(), &mut bank, ends, (1, 10), expected)
}

// `9 r 3` and `9 3 4`
fn redex_once(bank: &mut Bank) -> Result<(TermId, TermId), TermFault>
    ensures first { IfOk result (λ ends. IsTermAt bank.new ends.0) }
    ensures second { IfOk result (λ ends. IsTermAt bank.new ends.1) }
{
    let three = bank.add(Node::Var(3))?;
    let redex = redex(bank, three)?;
    let first = application(bank, redex, three)?;
    let four = bank.add(Node::Var(4))?;
    let second = application(bank, three, four)?;
    Ok((first, second))
}

// The first arguments are a known pair, though the second are apart.
#[test]
fn keeps_the_pair_of_the_first_arguments(rt: HostRuntime) -> Result<(), Fail> {
    let mut bank = Bank::new(rt.alloc());
    let ends = redex_once(&mut bank)?;
    let apart = Found::Apart(Node::Var(3), Node::Var(4), 0);
    let expected = (Ok(apart), (9, 1), 1);
    comes_to(&rt, rt.alloc(), &mut bank, ends, (1, 10), expected)
}

// Two comparisons: of the two, and then of the two again, or exchanged.
fn first_and_second(
    alloc: Global,
    bank: &mut Bank,
    env: &Env,
    deriv: &mut Deriv,
    ends: (TermId, TermId),
    is_exchanged: bool,
    job: &mut Job,
) -> (Outcome, Outcome)
    requires ready { IsReady bank.old deriv.old env.now job.old.known }
    requires terms { AreComparable bank.old (known_of bank.old deriv.old) ends.0 ends.1 }
{
    let first = comparison(alloc, bank, env, deriv, ends, 1, job);
    if is_exchanged {
        let ends = (ends.1, ends.0);
        return (first, comparison(alloc, bank, env, deriv, ends, 1, job));
    }
    (first, comparison(alloc, bank, env, deriv, ends, 1, job))
}

// The two over the lines.
fn compare_twice(
    alloc: Global,
    bank: &mut Bank,
    ends: (TermId, TermId),
    is_exchanged: bool,
) -> Result<(Outcome, Outcome), Fail>
    requires first { IsTermAt bank.old ends.0 }
    requires second { IsTermAt bank.old ends.1 }
{
    let mut env = Env::new(alloc);
    let mut deriv = Deriv::new(alloc);
    let mut job = ready(alloc, bank, &mut env, &mut deriv, ends, 10)?;
    Ok(first_and_second(alloc, bank, &env, &mut deriv, ends, is_exchanged, &mut job))
}

#[test]
fn finds_a_known_pair(rt: HostRuntime) -> Result<(), Fail> {
    let mut bank = Bank::new(rt.alloc());
    let ends = redex_and_reduct(&mut bank)?;
    let outcomes = compare_twice(rt.alloc(), &mut bank, ends, false)?;
    let first = (Ok(Found::Same), (9, 1), 1);
    let second = (Ok(Found::Same), (9, 1), 1);
    assert_eq!(rt; outcomes, (first, second));
    Ok(())
}

// The pair of the two is not that of the two exchanged.
#[test]
fn knows_a_pair_in_its_order(rt: HostRuntime) -> Result<(), Fail> {
    let mut bank = Bank::new(rt.alloc());
    let ends = redex_and_reduct(&mut bank)?;
    let outcomes = compare_twice(rt.alloc(), &mut bank, ends, true)?;
    let first = (Ok(Found::Same), (9, 1), 1);
    let second = (Ok(Found::Same), (8, 2), 2);
    assert_eq!(rt; outcomes, (first, second));
    Ok(())
}
