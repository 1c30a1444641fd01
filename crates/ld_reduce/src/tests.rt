//! Head forms of small terms, with answers worked out by hand.
ghost use Rattle.std.specs.Prelude.{◌≡◌, [], IfOk, OnOk, is_some, true};
ghost use Rattle.ld_terms.specs.Tree as tree;
ghost use Rattle.ld_terms.specs.Tree.{◌▸◌};
ghost use Rattle.ld_terms.specs.Bank.{tree_at, IsTermAt, StandsFor};
ghost use Rattle.ld_terms.specs.Named.{IsNamed};
ghost use Rattle.ld_env.specs.Entries.{env_of, AreLive};
ghost use Rattle.ld_record.specs.Kept.{known_of, IsSound};
ghost use Rattle.ld_reduce.specs.Heads.{delta_step};

use crate::sample::lines;
use crate::{Budget, Stop, beta_head, defined_head, expose, has_beta, unfold};
use ld_env::Env;
use ld_record::Deriv;
use ld_terms::{Bank, Node, TermFault, TermId};
use std::alloc::Global;
use std::test::Fail;

// `(fun x : *. fun y : *. x) 3 4 5`
fn chosen(bank: &mut Bank) -> Result<TermId, TermFault>
    ensures { IfOk result (λ t. StandsFor bank.new t
        (tree.App (tree.App (tree.App (tree.Lam tree.Star (tree.Lam tree.Star (tree.Var 1))) (tree.Var 3)) (tree.Var 4)) (tree.Var 5))) }
{
    let star = bank.add(Node::Star)?;
    let outer = bank.add(Node::Var(1))?;
    let inner = bank.add(Node::Lam(star, outer))?;
    let function = bank.add(Node::Lam(star, inner))?;
    let first = bank.add(Node::Var(3))?;
    let one = bank.add(Node::App(function, first))?;
    let second = bank.add(Node::Var(4))?;
    let two = bank.add(Node::App(one, second))?;
    let third = bank.add(Node::Var(5))?;
    bank.add(Node::App(two, third))
}

// `*` on arguments `*`, so that it has the height.
fn tall(bank: &mut Bank, height: u32) -> Result<TermId, TermFault>
    ensures term { IfOk result (λ t. IsTermAt bank.new t) }
    ensures named { IfOk result (λ t. IsNamed [] (tree_at bank.new t)) }
{
    let star = bank.add(Node::Star)?;
    let mut term = star;
    for _ in 1..height {
        term = bank.add(Node::App(term, star))?;
    }
    Ok(term)
}

// `(fun x : *. * (* x)) u`, where the argument has the height.
fn grows(bank: &mut Bank, height: u32) -> Result<TermId, TermFault>
    ensures term { IfOk result (λ t. IsTermAt bank.new t) }
    ensures named { IfOk result (λ t. IsNamed [] (tree_at bank.new t)) }
{
    let argument = tall(bank, height)?;
    let star = bank.add(Node::Star)?;
    let element = bank.add(Node::Var(0))?;
    let inner = bank.add(Node::App(star, element))?;
    let body = bank.add(Node::App(star, inner))?;
    let function = bank.add(Node::Lam(star, body))?;
    bank.add(Node::App(function, argument))
}

// The same on an argument `*`.
fn grows_under(bank: &mut Bank, height: u32) -> Result<TermId, TermFault>
    ensures term { IfOk result (λ t. IsTermAt bank.new t) }
    ensures named { IfOk result (λ t. IsNamed [] (tree_at bank.new t)) }
{
    let function = grows(bank, height)?;
    let star = bank.add(Node::Star)?;
    bank.add(Node::App(function, star))
}

// `fun x : *. .. fun x : *. x` with so many abstractions, on as many arguments `*`.
fn nested(bank: &mut Bank, count: u32) -> Result<TermId, TermFault>
    ensures term { IfOk result (λ t. IsTermAt bank.new t) }
    ensures named { IfOk result (λ t. IsNamed [] (tree_at bank.new t)) }
{
    let star = bank.add(Node::Star)?;
    let mut term = bank.add(Node::Var(0))?;
    'functions: for _ in 0..count {
        term = bank.add(Node::Lam(star, term))?;
    }
    'arguments: for _ in 0..count {
        term = bank.add(Node::App(term, star))?;
    }
    Ok(term)
}

#[test]
fn makes_two_beta_steps(rt: HostRuntime) -> Result<(), Fail> {
    let mut bank = Bank::new(rt.alloc());
    let mut deriv = Deriv::new(rt.alloc());
    let term = chosen(&mut bank)?;
    let mut budget = Budget::new(10);
    let (to, equal) = beta_head(&mut bank, &mut deriv, term, &mut budget)?;
    assert_eq!(rt; (budget.left(), budget.spent()), (8, 2));
    // 3 5
    let Node::App(function, argument) = bank.node(to) else {
        return Err(Fail::from("no application"));
    };
    assert_eq!(rt; bank.node(function), Node::Var(3));
    assert_eq!(rt; bank.node(argument), Node::Var(5));
    // The first step, under the second argument, and the second step after it; both under the third argument at once.
    assert_eq!(rt; (deriv.count(), equal.number()), (7, 6));
    let joined = format!(in rt.alloc(); "{:?}", deriv.kept(4))?;
    assert!(rt; joined.as_str().ends_with("Trans(EqId(2), EqId(3)))"));
    let last = format!(in rt.alloc(); "{:?}", deriv.kept(6))?;
    assert!(rt; last.as_str().ends_with("App(EqId(4), EqId(5)))"));
    Ok(())
}

#[test]
fn keeps_four_records_a_step(rt: HostRuntime) -> Result<(), Fail> {
    let mut bank = Bank::new(rt.alloc());
    let mut deriv = Deriv::new(rt.alloc());
    let term = nested(&mut bank, 200)?;
    let mut budget = Budget::new(200);
    let (to, _) = beta_head(&mut bank, &mut deriv, term, &mut budget)?;
    assert_eq!(rt; (budget.left(), budget.spent()), (0, 200));
    assert_eq!(rt; bank.node(to), Node::Star);
    // The first step is one. For each other: the argument with itself, the application of what was led to, the step, and
    // both one after the other.
    assert_eq!(rt; deriv.count(), 4 * 200 - 3);
    Ok(())
}

#[test]
fn stops_where_no_step_is_left(rt: HostRuntime) -> Result<(), Fail> {
    let mut bank = Bank::new(rt.alloc());
    let mut deriv = Deriv::new(rt.alloc());
    let term = chosen(&mut bank)?;
    let mut budget = Budget::new(1);
    let result = beta_head(&mut bank, &mut deriv, term, &mut budget);
    assert!(rt; matches!(result, Err(Stop::Spent)));
    assert_eq!(rt; (budget.left(), budget.spent()), (0, 1));
    Ok(())
}

#[test]
fn counts_the_step_to_a_high_term(rt: HostRuntime) -> Result<(), Fail> {
    let mut bank = Bank::new(rt.alloc());
    let mut deriv = Deriv::new(rt.alloc());
    let term = grows(&mut bank, 499)?;
    let mut budget = Budget::new(10);
    let result = beta_head(&mut bank, &mut deriv, term, &mut budget);
    assert!(rt; matches!(result, Err(Stop::High)));
    assert_eq!(rt; (budget.left(), budget.spent()), (9, 1));
    Ok(())
}

#[test]
fn counts_the_step_that_is_too_high_under_an_argument(rt: HostRuntime) -> Result<(), Fail> {
    let mut bank = Bank::new(rt.alloc());
    let mut deriv = Deriv::new(rt.alloc());
    let term = grows_under(&mut bank, 498)?;
    let mut budget = Budget::new(10);
    let result = beta_head(&mut bank, &mut deriv, term, &mut budget);
    assert!(rt; matches!(result, Err(Stop::High)));
    assert_eq!(rt; (budget.left(), budget.spent()), (9, 1));
    Ok(())
}

#[test]
fn makes_a_term_of_the_greatest_height(rt: HostRuntime) -> Result<(), Fail> {
    let mut bank = Bank::new(rt.alloc());
    let mut deriv = Deriv::new(rt.alloc());
    let term = grows_under(&mut bank, 497)?;
    let mut budget = Budget::new(10);
    let (to, _) = beta_head(&mut bank, &mut deriv, term, &mut budget)?;
    assert_eq!(rt; (bank.height(to), budget.spent()), (500, 1));
    Ok(())
}

#[test]
fn leaves_a_head_form(rt: HostRuntime) -> Result<(), Fail> {
    let mut bank = Bank::new(rt.alloc());
    let mut deriv = Deriv::new(rt.alloc());
    let term = tall(&mut bank, 500)?;
    let mut budget = Budget::new(0);
    let (to, equal) = beta_head(&mut bank, &mut deriv, term, &mut budget)?;
    assert_eq!(rt; to, term);
    assert_eq!(rt; (deriv.count(), equal.number()), (1, 0));
    Ok(())
}

// `k 5 6`
fn instance(bank: &mut Bank) -> Result<TermId, TermFault>
    ensures { IfOk result (λ t. StandsFor bank.new t (tree.Const 2 (tree.Nil ▸ tree.Var 5 ▸ tree.Var 6))) }
{
    let none = bank.add(Node::Nil)?;
    let first = bank.add(Node::Var(5))?;
    let one = bank.add(Node::Cons(first, none))?;
    let second = bank.add(Node::Var(6))?;
    let both = bank.add(Node::Cons(second, one))?;
    bank.add(Node::Const(2, both))
}

// `f q`
fn application(bank: &mut Bank) -> Result<TermId, TermFault>
    ensures { IfOk result (λ t. StandsFor bank.new t (tree.App (tree.Const 1 tree.Nil) (tree.Const 0 tree.Nil))) }
{
    let none = bank.add(Node::Nil)?;
    let function = bank.add(Node::Const(1, none))?;
    let argument = bank.add(Node::Const(0, none))?;
    bank.add(Node::App(function, argument))
}

// `k 5 6` over the lines.
fn sample_instance(
    alloc: Global,
    bank: &mut Bank,
    env: &mut Env,
    deriv: &mut Deriv,
) -> Result<TermId, Fail>
    requires none { env.old ≡ [] }
    requires no_records { deriv.old ≡ [] }
    ensures sound { OnOk result (IsSound bank.new deriv.new) }
    ensures env { OnOk result (env_of bank.new env.new ≡ (known_of bank.new deriv.new).env) }
    ensures live { OnOk result (AreLive bank.new env.new) }
    ensures term { IfOk result (λ t. IsTermAt bank.new t) }
    ensures named { IfOk result (λ t. IsNamed (known_of bank.new deriv.new).env (tree_at bank.new t)) }
    ensures head { IfOk result (λ t. is_some (delta_step (known_of bank.new deriv.new).env (tree_at bank.new t)) ≡ true) }
{
    let term = instance(bank)?;
    lines(alloc, bank, env, deriv)?;
    Ok(term)
}

// `f q` over the lines.
fn sample_application(
    alloc: Global,
    bank: &mut Bank,
    env: &mut Env,
    deriv: &mut Deriv,
) -> Result<TermId, Fail>
    requires none { env.old ≡ [] }
    requires no_records { deriv.old ≡ [] }
    ensures sound { OnOk result (IsSound bank.new deriv.new) }
    ensures env { OnOk result (env_of bank.new env.new ≡ (known_of bank.new deriv.new).env) }
    ensures live { OnOk result (AreLive bank.new env.new) }
    ensures term { IfOk result (λ t. IsTermAt bank.new t) }
    ensures named { IfOk result (λ t. IsNamed (known_of bank.new deriv.new).env (tree_at bank.new t)) }
{
    let term = application(bank)?;
    lines(alloc, bank, env, deriv)?;
    Ok(term)
}

#[test]
fn puts_both_arguments_in(rt: HostRuntime) -> Result<(), Fail> {
    let mut bank = Bank::new(rt.alloc());
    let mut env = Env::new(rt.alloc());
    let mut deriv = Deriv::new(rt.alloc());
    let term = sample_instance(rt.alloc(), &mut bank, &mut env, &mut deriv)?;
    let mut budget = Budget::new(1);
    let (to, equal) = unfold(&mut bank, &env, &mut deriv, term, &mut budget)?;
    assert_eq!(rt; (budget.left(), budget.spent()), (0, 1));
    // The first parameter is what `k` stands for.
    assert_eq!(rt; bank.node(to), Node::Var(5));
    assert_eq!(rt; equal.number(), 0);
    Ok(())
}

// Delta to `(fun x : *. x) q`, beta to `q`, delta to `all x : *. *`.
#[test]
fn exposes_a_product(rt: HostRuntime) -> Result<(), Fail> {
    let mut bank = Bank::new(rt.alloc());
    let mut env = Env::new(rt.alloc());
    let mut deriv = Deriv::new(rt.alloc());
    let term = sample_application(rt.alloc(), &mut bank, &mut env, &mut deriv)?;
    assert!(rt; !has_beta(&bank, term));
    assert_eq!(rt; defined_head(&bank, &env, term), Some(1));
    let mut budget = Budget::new(3);
    let (to, equal) = expose(&mut bank, &env, &mut deriv, term, &mut budget)?;
    assert_eq!(rt; (budget.left(), budget.spent()), (0, 3));
    let Node::Pi(domain, range) = bank.node(to) else {
        return Err(Fail::from("no product"));
    };
    assert_eq!(rt; bank.node(domain), Node::Star);
    assert_eq!(rt; bank.node(range), Node::Star);
    // Delta, the argument with itself, both in the application; beta and delta, each joined to what is before it.
    assert_eq!(rt; equal.number(), 6);
    Ok(())
}

#[test]
fn exposes_no_further_than_the_budget(rt: HostRuntime) -> Result<(), Fail> {
    let mut bank = Bank::new(rt.alloc());
    let mut env = Env::new(rt.alloc());
    let mut deriv = Deriv::new(rt.alloc());
    let term = sample_application(rt.alloc(), &mut bank, &mut env, &mut deriv)?;
    let mut budget = Budget::new(2);
    let result = expose(&mut bank, &env, &mut deriv, term, &mut budget);
    assert!(rt; matches!(result, Err(Stop::Spent)));
    assert_eq!(rt; (budget.left(), budget.spent()), (0, 2));
    Ok(())
}
