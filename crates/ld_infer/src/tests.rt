//! Two variables, `A : *` and `x : A`, and what a theory tells of them; terms to be read, among them instances of a primitive
//! that has the two as its parameters.
ghost use Rattle.std.specs.Prelude.{◌≡◌, ◌<◌, [], length, IfOk, OnOk, IfSome};
ghost use Rattle.ld_terms.specs.Tree.{Star, Var, Nil, ◌▸◌, count};
ghost use Rattle.ld_terms.specs.Item.{One, IsSmall};
ghost use Rattle.ld_terms.specs.Record.{params_at};
ghost use Rattle.ld_infer.specs.Standing.{known, env, Continues};
ghost use Rattle.ld_infer.specs.Infers.{IsReadable};

mod reading;

use crate::Theory;
use ld_record::JudgeId;
use ld_terms::{Node, TermFault, TermId};
use std::alloc::Global;
use std::test::Fail;

// Enters `A : *` into the empty context.
fn enter_type(theory: &mut Theory) -> Result<(), TermFault>
    requires { theory.old.context ≡ Nil }
    ensures context { OnOk result (theory.new.context ≡ Nil ▸ Star) }
    ensures env { OnOk result (env theory.new ≡ env theory.old) }
{
    let of = theory.add(Node::Star)?;
    let Ok(sort) = theory.star_judgement() else {
        return Err(TermFault::Memory);
    };
    if theory.enter(of, sort).is_err() {
        return Err(TermFault::Memory);
    }
    Ok(())
}

// Enters `x : A` behind it.
fn enter_element(theory: &mut Theory) -> Result<(), TermFault>
    requires { theory.old.context ≡ Nil ▸ Star }
    ensures context { OnOk result (theory.new.context ≡ Nil ▸ Star ▸ Var 0) }
    ensures env { OnOk result (env theory.new ≡ env theory.old) }
{
    let of = theory.add(Node::Var(0))?;
    let typed = theory.variable(0)?;
    if theory.enter(of, typed.judge).is_err() {
        return Err(TermFault::Memory);
    }
    Ok(())
}

// A judgement: the context's number, the term and the type.
fn parts(theory: &Theory, j: JudgeId) -> (usize, Node, Node)
    requires { j.0 < length (known theory.now).nodes }
{
    let judge = theory.deriv().judge(theory.bank(), j);
    let bank = theory.bank();
    (
        judge.ctx.number(),
        bank.node(judge.term),
        bank.node(judge.of),
    )
}

// Enters both, and tells how many variables there are.
fn enter_both(theory: &mut Theory) -> Result<u32, TermFault>
    requires { theory.old.context ≡ Nil }
    ensures context { OnOk result (theory.new.context ≡ Nil ▸ Star ▸ Var 0) }
    ensures env { OnOk result (env theory.new ≡ env theory.old) }
{
    enter_type(theory)?;
    enter_element(theory)?;
    Ok(theory.depth())
}

// Whether two nodes are the same.
fn are_same(left: Node, right: Node) -> bool {
    left == right
}

// Whether this is what is told of a judgement: the context's number, the term and the type.
fn is_told(told: (usize, Node, Node), term: Node, of: Node) -> bool {
    told.0 == 2 && are_same(told.1, term) && are_same(told.2, of)
}

// Whether this type is told of a variable, and this sort of the type.
fn has_type(theory: &mut Theory, i: u32, of: Node, sort: Node) -> Result<bool, TermFault>
    requires there { i < count theory.old.context }
    requires small { IsSmall (One (Var i)) }
    ensures { OnOk result (theory.new.context ≡ theory.old.context) }
{
    let typed = theory.variable(i)?;
    let is_judged = is_told(parts(theory, typed.judge), Node::Var(i), of);
    Ok(is_judged && is_told(parts(theory, typed.sort), of, sort))
}

// Enters the two, and takes the last away: whether each has its type, and how many there are before that and afterwards.
fn both_typed(theory: &mut Theory) -> Result<(bool, bool, u32, u32), TermFault>
    requires { theory.old.context ≡ Nil }
{
    let before = enter_both(theory)?;
    // x : A, where A is the variable before it, and A : *
    let element = has_type(theory, 0, Node::Var(1), Node::Star)?;
    // A : *, and * : box
    let of = has_type(theory, 1, Node::Star, Node::Box_)?;
    theory.leave();
    Ok((element, of, before, theory.depth()))
}

// The same in a new theory.
fn new_typed(alloc: Global) -> Result<(bool, bool, u32, u32), TermFault> {
    match Theory::new(alloc) {
        Ok(mut theory) => both_typed(&mut theory),
        Err(_) => Err(TermFault::Memory),
    }
}

#[test]
fn types_two_variables(rt: HostRuntime) -> Result<(), Fail> {
    let (element, of, before, after) = new_typed(rt.alloc())?;
    assert!(rt; element && of);
    assert!(rt; before == 2 && after == 1);
    Ok(())
}

// `λ A : *. λ x : A. x`
fn identity(theory: &mut Theory) -> Result<TermId, TermFault>
    requires { theory.old.context ≡ Nil }
    ensures readable { IfOk result (λ t. IsReadable theory.new t) }
    ensures empty { OnOk result (count theory.new.context ≡ 0) }
{
    let star = theory.add(Node::Star)?;
    let element = theory.add(Node::Var(0))?;
    let inner = theory.add(Node::Lam(element, element))?;
    let term = theory.add(Node::Lam(star, inner))?;
    Ok(term)
}

// `(λ A : *. A) (Π A : *. A)`
fn chosen(theory: &mut Theory) -> Result<TermId, TermFault>
    requires { theory.old.context ≡ Nil }
    ensures readable { IfOk result (λ t. IsReadable theory.new t) }
    ensures empty { OnOk result (count theory.new.context ≡ 0) }
{
    let star = theory.add(Node::Star)?;
    let element = theory.add(Node::Var(0))?;
    let function = theory.add(Node::Lam(star, element))?;
    let argument = theory.add(Node::Pi(star, element))?;
    let term = theory.add(Node::App(function, argument))?;
    Ok(term)
}

// `λ A : *. *`
fn constant(theory: &mut Theory) -> Result<TermId, TermFault>
    requires { theory.old.context ≡ Nil }
    ensures readable { IfOk result (λ t. IsReadable theory.new t) }
    ensures empty { OnOk result (count theory.new.context ≡ 0) }
{
    let star = theory.add(Node::Star)?;
    let term = theory.add(Node::Lam(star, star))?;
    Ok(term)
}

// Enters `A : *` and `x : A`, and keeps a primitive of the type `A` under them.
fn keep_primitive(alloc: Global, theory: &mut Theory) -> Result<u32, TermFault>
    requires context { theory.old.context ≡ Nil }
    requires none { env theory.old ≡ [] }
    ensures there { IfOk result (λ k. k < length (env theory.new)) }
    ensures params { IfOk result (λ k. params_at (env theory.new) k ≡ 2) }
    ensures context { OnOk result (theory.new.context ≡ Nil ▸ Star ▸ Var 0) }
{
    enter_both(theory)?;
    let of = theory.add(Node::Var(1))?;
    let typed = theory.variable(1)?;
    match theory.keep_primitive(alloc, b"chosen", of, typed.judge) {
        Ok(k) => Ok(k),
        Err(_) => Err(TermFault::Memory),
    }
}

// A variable under the two, or `box`.
fn leaf(theory: &mut Theory, index: Option<u32>) -> Result<TermId, TermFault>
    requires context { theory.old.context ≡ Nil ▸ Star ▸ Var 0 }
    requires below { IfSome index (λ i. i < 2) }
    ensures readable { IfOk result (λ t. IsReadable theory.new t) }
    ensures continues { Continues theory.old theory.new }
{
    match index {
        Some(i) => theory.add(Node::Var(i)),
        None => theory.add(Node::Box_),
    }
}

// The primitive's instance for `A` and another argument.
fn instance_with(theory: &mut Theory, k: u32, argument: Option<u32>) -> Result<TermId, TermFault>
    requires context { theory.old.context ≡ Nil ▸ Star ▸ Var 0 }
    requires there { k < length (env theory.old) }
    requires params { params_at (env theory.old) k ≡ 2 }
    requires below { IfSome argument (λ i. i < 2) }
    ensures readable { IfOk result (λ t. IsReadable theory.new t) }
    ensures two { OnOk result (count theory.new.context ≡ 2) }
{
    let first = leaf(theory, Some(1))?;
    let second = leaf(theory, argument)?;
    let none = theory.add(Node::Nil)?;
    let one = theory.add(Node::Cons(first, none))?;
    let both = theory.add(Node::Cons(second, one))?;
    let term = theory.add(Node::Const(k, both))?;
    Ok(term)
}

// The same in an empty theory, in which the primitive is kept first.
fn instance(alloc: Global, theory: &mut Theory, argument: Option<u32>) -> Result<TermId, TermFault>
    requires context { theory.old.context ≡ Nil }
    requires none { env theory.old ≡ [] }
    requires below { IfSome argument (λ i. i < 2) }
    ensures readable { IfOk result (λ t. IsReadable theory.new t) }
    ensures two { OnOk result (count theory.new.context ≡ 2) }
{
    let k = keep_primitive(alloc, theory)?;
    instance_with(theory, k, argument)
}
