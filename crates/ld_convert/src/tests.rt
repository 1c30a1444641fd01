//! Comparisons of small terms, with answers worked out by hand. Constants 0, 1 and 2 are the lines of the sample: the
//! primitive `p`, `c := *` and `k := x`, each with one parameter x.
ghost use Rattle.std.specs.Prelude.{◌≡◌, ◌≤◌, [], IfOk, OnOk};
ghost use Rattle.ld_terms.specs.Bank.{IsTermAt, Extends};
ghost use Rattle.ld_record.specs.Kept.{known_of};
ghost use Rattle.ld_convert.specs.Turned.{IsReady, AreComparable};

use crate::sample::ready;
use crate::{Compared, Job, compare};
use ld_env::Env;
use ld_record::Deriv;
use ld_reduce::Stop;
use ld_terms::{Bank, Node, TermFault, TermId};
use std::alloc::Global;
use std::process::Abort;
use std::test::Fail;

// What a comparison finds, with the nodes of terms that are apart.
#[derive(Clone, Copy, Debug, PartialEq, Eq)]
pub(crate) enum Found {
    Same,
    Apart(Node, Node, u32),
}

// What a comparison comes to: what it finds, the steps that are left and that were made, and how many pairs are known.
pub(crate) type Outcome = (Result<Found, Stop>, (u64, u64), usize);

// One comparison, after which there may be another.
pub(crate) fn comparison(
    alloc: Global,
    bank: &mut Bank,
    env: &Env,
    deriv: &mut Deriv,
    ends: (TermId, TermId),
    nest: u32,
    job: &mut Job,
) -> Outcome
    requires ready { IsReady bank.old deriv.old env.now job.old.known }
    requires terms { AreComparable bank.old (known_of bank.old deriv.old) ends.0 ends.1 }
    requires nest { nest ≤ 1001 }
    ensures ready { IsReady bank.new deriv.new env.now job.new.known }
    ensures terms { AreComparable bank.new (known_of bank.new deriv.new) ends.0 ends.1 }
    ensures exchanged { AreComparable bank.new (known_of bank.new deriv.new) ends.1 ends.0 }
{
    let found = match compare(alloc, bank, env, deriv, ends.0, ends.1, nest, job) {
        Ok(Compared::Same(_)) => Ok(Found::Same),
        Ok(Compared::Apart { left, right, under }) => Ok(Found::Apart(
            bank.node(left),
            bank.node(right),
            under,
        )),
        Err(stop) => Err(stop),
    };
    let steps = (job.budget.left(), job.budget.spent());
    (found, steps, job.known.len())
}

// One comparison over the lines.
fn compare_once(
    alloc: Global,
    bank: &mut Bank,
    ends: (TermId, TermId),
    nest: u32,
    steps: u64,
) -> Result<Outcome, Fail>
    requires first { IsTermAt bank.old ends.0 }
    requires second { IsTermAt bank.old ends.1 }
    requires nest { nest ≤ 1001 }
{
    let mut env = Env::new(alloc);
    let mut deriv = Deriv::new(alloc);
    let mut job = ready(alloc, bank, &mut env, &mut deriv, ends, steps)?;
    Ok(comparison(alloc, bank, &env, &mut deriv, ends, nest, &mut job))
}

// One comparison over the lines comes to what is expected, at a nesting and with so many steps.
pub(crate) fn comes_to(
    rt: &impl Abort,
    alloc: Global,
    bank: &mut Bank,
    ends: (TermId, TermId),
    limits: (u32, u64),
    expected: Outcome,
) -> Result<(), Fail>
    requires first { IsTermAt bank.old ends.0 }
    requires second { IsTermAt bank.old ends.1 }
    requires nest { limits.0 ≤ 1001 }
{
    let outcome = compare_once(alloc, bank, ends, limits.0, limits.1)?;
    assert_eq!(rt; outcome, expected);
    Ok(())
}

// `(fun x : *. x) u`
pub(crate) fn redex(bank: &mut Bank, u: TermId) -> Result<TermId, TermFault>
    requires { IsTermAt bank.old u }
    ensures term { IfOk result (λ t. IsTermAt bank.new t) }
    ensures kept { OnOk result (Extends bank.old bank.new) }
{
    let star = bank.add(Node::Star)?;
    let x = bank.add(Node::Var(0))?;
    let function = bank.add(Node::Lam(star, x))?;
    bank.add(Node::App(function, u))
}

// The instance of a constant for one argument.
pub(crate) fn instance(bank: &mut Bank, k: u32, u: TermId) -> Result<TermId, TermFault>
    requires { IsTermAt bank.old u }
    ensures term { IfOk result (λ t. IsTermAt bank.new t) }
    ensures kept { OnOk result (Extends bank.old bank.new) }
{
    let none = bank.add(Node::Nil)?;
    let one = bank.add(Node::Cons(u, none))?;
    bank.add(Node::Const(k, one))
}

// `9 u v`
pub(crate) fn application(bank: &mut Bank, u: TermId, v: TermId) -> Result<TermId, TermFault>
    requires first { IsTermAt bank.old u }
    requires second { IsTermAt bank.old v }
    ensures term { IfOk result (λ t. IsTermAt bank.new t) }
    ensures kept { OnOk result (Extends bank.old bank.new) }
{
    let head = bank.add(Node::Var(9))?;
    let one = bank.add(Node::App(head, u))?;
    bank.add(Node::App(one, v))
}

// The instances of two constants, each for a variable.
pub(crate) fn instances(
    bank: &mut Bank,
    left: (u32, u32),
    right: (u32, u32),
) -> Result<(TermId, TermId), TermFault>
    ensures first { IfOk result (λ ends. IsTermAt bank.new ends.0) }
    ensures second { IfOk result (λ ends. IsTermAt bank.new ends.1) }
{
    let i = bank.add(Node::Var(left.1))?;
    let first = instance(bank, left.0, i)?;
    let j = bank.add(Node::Var(right.1))?;
    let second = instance(bank, right.0, j)?;
    Ok((first, second))
}

// `(fun x : *. x) 3` and `3`
pub(crate) fn redex_and_reduct(bank: &mut Bank) -> Result<(TermId, TermId), TermFault>
    ensures first { IfOk result (λ ends. IsTermAt bank.new ends.0) }
    ensures second { IfOk result (λ ends. IsTermAt bank.new ends.1) }
{
    let three = bank.add(Node::Var(3))?;
    let redex = redex(bank, three)?;
    Ok((redex, three))
}

// The instances of a constant for the two.
pub(crate) fn instances_of_redex(bank: &mut Bank, k: u32) -> Result<(TermId, TermId), TermFault>
    ensures first { IfOk result (λ ends. IsTermAt bank.new ends.0) }
    ensures second { IfOk result (λ ends. IsTermAt bank.new ends.1) }
{
    let (redex, reduct) = redex_and_reduct(bank)?;
    let first = instance(bank, k, redex)?;
    let second = instance(bank, k, reduct)?;
    Ok((first, second))
}

// `k (c 3)` and `c 3`
fn nested_instances(bank: &mut Bank) -> Result<(TermId, TermId), TermFault>
    ensures first { IfOk result (λ ends. IsTermAt bank.new ends.0) }
    ensures second { IfOk result (λ ends. IsTermAt bank.new ends.1) }
{
    let three = bank.add(Node::Var(3))?;
    let inner = instance(bank, 1, three)?;
    let outer = instance(bank, 2, inner)?;
    Ok((outer, inner))
}

#[test]
fn finds_equal_trees_at_once(rt: HostRuntime) -> Result<(), Fail> {
    let mut bank = Bank::new(rt.alloc());
    let ends = instances(&mut bank, (2, 3), (2, 3))?;
    let expected = (Ok(Found::Same), (10, 0), 0);
    comes_to(&rt, rt.alloc(), &mut bank, ends, (1, 10), expected)
}

#[test]
fn makes_a_beta_step(rt: HostRuntime) -> Result<(), Fail> {
    let mut bank = Bank::new(rt.alloc());
    let ends = redex_and_reduct(&mut bank)?;
    let expected = (Ok(Found::Same), (9, 1), 1);
    comes_to(&rt, rt.alloc(), &mut bank, ends, (1, 10), expected)
}

// `k`, unfolded, gives `c 3`. From `c`, unfolded first, it would be two steps more.
#[test]
fn unfolds_the_later_constant(rt: HostRuntime) -> Result<(), Fail> {
    let mut bank = Bank::new(rt.alloc());
    let ends = nested_instances(&mut bank)?;
    let expected = (Ok(Found::Same), (9, 1), 1);
    comes_to(&rt, rt.alloc(), &mut bank, ends, (1, 10), expected)
}

#[test]
fn unfolds_the_later_constant_on_the_right(rt: HostRuntime) -> Result<(), Fail> {
    let mut bank = Bank::new(rt.alloc());
    let (later, earlier) = nested_instances(&mut bank)?;
    let expected = (Ok(Found::Same), (9, 1), 1);
    comes_to(
        &rt,
        rt.alloc(),
        &mut bank,
        (earlier, later),
        (1, 10),
        expected,
    )
}

// `c` isn't unfolded. The arguments are a pair, and the instances.
#[test]
fn compares_arguments_before_unfolding(rt: HostRuntime) -> Result<(), Fail> {
    let mut bank = Bank::new(rt.alloc());
    let ends = instances_of_redex(&mut bank, 1)?;
    let expected = (Ok(Found::Same), (9, 1), 2);
    comes_to(&rt, rt.alloc(), &mut bank, ends, (1, 10), expected)
}

// Both instances of `c` are `*`.
#[test]
fn unfolds_both_where_arguments_are_apart(rt: HostRuntime) -> Result<(), Fail> {
    let mut bank = Bank::new(rt.alloc());
    let ends = instances(&mut bank, (1, 3), (1, 4))?;
    let expected = (Ok(Found::Same), (8, 2), 1);
    comes_to(&rt, rt.alloc(), &mut bank, ends, (1, 10), expected)
}

#[test]
fn keeps_no_pair_that_is_apart(rt: HostRuntime) -> Result<(), Fail> {
    let mut bank = Bank::new(rt.alloc());
    let ends = instances(&mut bank, (2, 3), (2, 4))?;
    let apart = Found::Apart(Node::Var(3), Node::Var(4), 0);
    let expected = (Ok(apart), (8, 2), 0);
    comes_to(&rt, rt.alloc(), &mut bank, ends, (1, 10), expected)
}

#[test]
fn unfolds_no_primitive(rt: HostRuntime) -> Result<(), Fail> {
    let mut bank = Bank::new(rt.alloc());
    let ends = instances(&mut bank, (0, 3), (1, 3))?;
    let (found, steps, pairs) = compare_once(rt.alloc(), &mut bank, ends, 1, 10)?;
    let Ok(Found::Apart(Node::Const(left, _), right, under)) = found else {
        return Err(Fail::from("no primitive on the left"));
    };
    assert_eq!(rt; (left, right, under), (0, Node::Star, 0));
    assert_eq!(rt; (steps, pairs), ((9, 1), 0));
    Ok(())
}

#[test]
fn compares_arguments_of_a_primitive(rt: HostRuntime) -> Result<(), Fail> {
    let mut bank = Bank::new(rt.alloc());
    let ends = instances(&mut bank, (0, 3), (0, 4))?;
    let apart = Found::Apart(Node::Var(3), Node::Var(4), 0);
    let expected = (Ok(apart), (10, 0), 0);
    comes_to(&rt, rt.alloc(), &mut bank, ends, (1, 10), expected)
}

// `*` and `all x : *. *`
fn sort_and_product(bank: &mut Bank) -> Result<(TermId, TermId), TermFault>
    ensures first { IfOk result (λ ends. IsTermAt bank.new ends.0) }
    ensures second { IfOk result (λ ends. IsTermAt bank.new ends.1) }
{
    let star = bank.add(Node::Star)?;
    let product = bank.add(Node::Pi(star, star))?;
    Ok((star, product))
}

#[test]
fn tells_a_sort_from_a_product(rt: HostRuntime) -> Result<(), Fail> {
    let mut bank = Bank::new(rt.alloc());
    let ends = sort_and_product(&mut bank)?;
    let apart = Found::Apart(Node::Star, Node::Pi(ends.0, ends.0), 0);
    let expected = (Ok(apart), (10, 0), 0);
    comes_to(&rt, rt.alloc(), &mut bank, ends, (1, 10), expected)
}

// `fun x : *. all y : *. i`
fn under_two_binders(bank: &mut Bank, i: u32) -> Result<TermId, TermFault>
    ensures term { IfOk result (λ t. IsTermAt bank.new t) }
    ensures kept { OnOk result (Extends bank.old bank.new) }
{
    let star = bank.add(Node::Star)?;
    let variable = bank.add(Node::Var(i))?;
    let inner = bank.add(Node::Pi(star, variable))?;
    bank.add(Node::Lam(star, inner))
}

// `fun x : *. all y : *. x` and `fun x : *. all y : *. y`
pub(crate) fn two_under_binders(bank: &mut Bank) -> Result<(TermId, TermId), TermFault>
    ensures first { IfOk result (λ ends. IsTermAt bank.new ends.0) }
    ensures second { IfOk result (λ ends. IsTermAt bank.new ends.1) }
{
    let first = under_two_binders(bank, 1)?;
    let second = under_two_binders(bank, 0)?;
    Ok((first, second))
}

#[test]
fn counts_binders(rt: HostRuntime) -> Result<(), Fail> {
    let mut bank = Bank::new(rt.alloc());
    let ends = two_under_binders(&mut bank)?;
    let apart = Found::Apart(Node::Var(1), Node::Var(0), 2);
    let expected = (Ok(apart), (10, 0), 0);
    comes_to(&rt, rt.alloc(), &mut bank, ends, (1, 10), expected)
}
