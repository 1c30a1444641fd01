//! The types of closed terms, and of instances of a primitive in a context.
ghost use Rattle.std.specs.Prelude.{◌≡◌, ◌<◌, ◌≤◌, [], length, IfOk, OnOk};
ghost use Rattle.ld_terms.specs.Tree.{Nil, count};
ghost use Rattle.ld_terms.specs.Bank.{IsTermAt};
ghost use Rattle.ld_infer.specs.Standing.{known, env};
ghost use Rattle.ld_infer.specs.Infers.{IsReadable};

use super::{are_same, chosen, constant, identity, instance, is_told, parts};
use crate::{Failure, InferFault, Job, PathStep, RuleName, Theory, Typed, Why, infer};
use ld_terms::{Bank, Node, TermFault, TermId};
use std::alloc::Global;
use std::test::Fail;

// What is read: a closed term, or the primitive's instance for `A` and `x`, or for `A` and another argument.
#[derive(Clone, Copy)]
enum Case {
    Identity,
    Application,
    Constant,
    Instance,
    OfType,
    OfBox,
}

fn term_of(alloc: Global, theory: &mut Theory, case: Case) -> Result<TermId, TermFault>
    requires context { theory.old.context ≡ Nil }
    requires none { env theory.old ≡ [] }
    ensures readable { IfOk result (λ t. IsReadable theory.new t) }
    ensures few { OnOk result (count theory.new.context ≤ 2) }
{
    match case {
        Case::Identity => identity(theory),
        Case::Application => chosen(theory),
        Case::Constant => constant(theory),
        Case::Instance => instance(alloc, theory, Some(0)),
        Case::OfType => instance(alloc, theory, Some(1)),
        Case::OfBox => instance(alloc, theory, None),
    }
}

// The domains of a product whose range is a product, and the range of that one.
fn two_products(bank: &Bank, t: TermId) -> Option<[Node; 3]>
    requires { IsTermAt bank.now t }
{
    let Node::Pi(first, under) = bank.node(t) else {
        return None;
    };
    let Node::Pi(second, range) = bank.node(under) else {
        return None;
    };
    Some([bank.node(first), bank.node(second), bank.node(range)])
}

// What is told of the type of a whole term, and how many steps were made.
#[derive(Clone, Copy)]
struct Typing {
    judged: (usize, Node, Node),
    term: Node,
    of: Node,
    products: Option<[Node; 3]>,
    is_sorted: bool,
    spent: u64,
}

// What is told of the refusal of a whole term, with how many steps its path has and the first of them.
#[derive(Clone, Copy)]
struct Refusal {
    rule: RuleName,
    premise: u32,
    depth: u32,
    path: (usize, Option<PathStep>),
    why: Why,
    spent: u64,
}

fn told_typing(theory: &Theory, term: TermId, typed: Typed, spent: u64) -> Typing
    requires term { IsTermAt theory.now.items term }
    requires of { IsTermAt theory.now.items typed.of }
    requires judge { typed.judge.0 < length (known theory.now).nodes }
{
    Typing {
        judged: parts(theory, typed.judge),
        term: theory.bank().node(term),
        of: theory.bank().node(typed.of),
        products: two_products(theory.bank(), typed.of),
        is_sorted: typed.of_judge.is_some(),
        spent,
    }
}

fn told_refusal(failure: &Failure, spent: u64) -> Refusal {
    let many = failure.path.len();
    let first = if many > 0 {
        Some(failure.path.step(0))
    } else {
        None
    };
    Refusal {
        rule: failure.rule,
        premise: failure.premise,
        depth: failure.depth,
        path: (many, first),
        why: failure.why,
        spent,
    }
}

// What is told where a term is read as a whole.
fn read_term(alloc: Global, theory: &mut Theory, t: TermId) -> Option<Result<Typing, Refusal>>
    requires readable { IsReadable theory.old t }
    requires few { count theory.old.context ≤ 2 }
{
    let mut job = Job::new(alloc, 10);
    match infer(alloc, theory, (RuleName::Def, 2), t, 1, &mut job) {
        Ok(typed) => Some(Ok(told_typing(theory, t, typed, job.budget.spent()))),
        Err(InferFault::Refused(failure)) => Some(Err(told_refusal(&failure, job.budget.spent()))),
        Err(InferFault::Stop(_)) => None,
    }
}

fn read_case(alloc: Global, theory: &mut Theory, case: Case) -> Option<Result<Typing, Refusal>>
    requires context { theory.old.context ≡ Nil }
    requires none { env theory.old ≡ [] }
{
    match term_of(alloc, theory, case) {
        Ok(term) => read_term(alloc, theory, term),
        Err(_) => None,
    }
}

// The same in a new theory.
fn read(alloc: Global, case: Case) -> Option<Result<Typing, Refusal>> {
    match Theory::new(alloc) {
        Ok(mut theory) => read_case(alloc, &mut theory, case),
        Err(_) => None,
    }
}

fn typed(alloc: Global, case: Case) -> Result<Typing, Fail> {
    match read(alloc, case) {
        Some(Ok(typing)) => Ok(typing),
        _ => Err(Fail::from("no type")),
    }
}

fn refused(alloc: Global, case: Case) -> Result<Refusal, Fail> {
    match read(alloc, case) {
        Some(Err(refusal)) => Ok(refusal),
        _ => Err(Fail::from("no refusal")),
    }
}

// Whether these are the parts of a product of products.
fn are_products(products: Option<[Node; 3]>, domains: [Node; 2], range: Node) -> bool {
    let Some(found) = products else {
        return false;
    };
    are_same(found[0], domains[0]) && are_same(found[1], domains[1]) && are_same(found[2], range)
}

// Π A : *. Π x : A. A
#[test]
fn types_the_identity(rt: HostRuntime) -> Result<(), Fail> {
    let typing = typed(rt.alloc(), Case::Identity)?;
    assert!(rt; are_products(typing.products, [Node::Star, Node::Var(0)], Node::Var(1)));
    assert!(rt; typing.is_sorted && typing.spent == 0);
    Ok(())
}

#[test]
fn types_an_application(rt: HostRuntime) -> Result<(), Fail> {
    let typing = typed(rt.alloc(), Case::Application)?;
    assert!(rt; are_same(typing.of, Node::Star));
    assert!(rt; !typing.is_sorted && typing.spent == 0);
    Ok(())
}

// The type of `x` is the second parameter's, with `A` put in.
#[test]
fn types_an_instance(rt: HostRuntime) -> Result<(), Fail> {
    let typing = typed(rt.alloc(), Case::Instance)?;
    assert!(rt; is_told(typing.judged, typing.term, Node::Var(1)));
    assert!(rt; are_same(typing.of, Node::Var(1)));
    assert!(rt; !typing.is_sorted && typing.spent == 0);
    Ok(())
}

// Whether the second premise of a rule fails, under so many variables.
fn is_by(refusal: Refusal, rule: RuleName, depth: u32) -> bool {
    refusal.rule == rule && refusal.premise == 2 && refusal.depth == depth
}

// Whether the second argument of an instance under the two variables is refused.
fn is_of_second(refusal: Refusal) -> bool {
    let at = refusal.path.0 == 1 && refusal.path.1 == Some(PathStep::Nth(2));
    at && is_by(refusal, RuleName::InstPrim, 2)
}

fn is_box_body(refusal: Refusal) -> bool {
    let is = matches!(refusal.why, Why::BoxBody);
    is && refusal.path.0 == 0 && is_by(refusal, RuleName::Abst, 0)
}

fn is_apart(refusal: Refusal) -> bool {
    let Why::NotSame { under, .. } = refusal.why else {
        return false;
    };
    under == 0 && refusal.spent == 0 && is_of_second(refusal)
}

fn has_no_type(refusal: Refusal) -> bool {
    matches!(refusal.why, Why::NoType) && is_of_second(refusal)
}

#[test]
fn refuses_a_body_of_type_box(rt: HostRuntime) -> Result<(), Fail> {
    assert!(rt; is_box_body(refused(rt.alloc(), Case::Constant)?));
    Ok(())
}

// The type of `A` isn't the second parameter's.
#[test]
fn compares_an_argument(rt: HostRuntime) -> Result<(), Fail> {
    assert!(rt; is_apart(refused(rt.alloc(), Case::OfType)?));
    Ok(())
}

#[test]
fn refuses_an_argument_that_is_box(rt: HostRuntime) -> Result<(), Fail> {
    assert!(rt; has_no_type(refused(rt.alloc(), Case::OfBox)?));
    Ok(())
}
