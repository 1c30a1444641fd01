//! The parts of two terms, the equality of two terms from that of their part, and pairs that are kept.
ghost use Rattle.std.specs.Prelude.{◌≡◌, [], All, IfOk, OnOk};
ghost use Rattle.ld_terms.specs.Tree as tree;
ghost use Rattle.ld_terms.specs.Bank.{IsTermAt, StandsFor, Extends};
ghost use Rattle.ld_convert.specs.Pairs.{HasTerms};
ghost use Rattle.ld_convert.specs.Walks.{IsLivePart};

use crate::tests::{instance, two_under_binders};
use crate::{Known, Part, congruence, gather, remember, same_at_once};
use fb_base::NoMemory;
use ld_record::{Deriv, EqId};
use ld_terms::{Bank, Node, TermFault, TermId};
use std::alloc::Global;
use std::test::Fail;

// The nodes of a part, and how many binders are passed to it.
fn part_at(bank: &Bank, parts: &[Part], place: usize) -> Option<(Node, Node, u32)>
    requires { All (IsLivePart bank.now) parts.now }
{
    let part = parts.get(place)?;
    Some((bank.node(part.left), bank.node(part.right), part.under))
}

// `c i j`
fn applied_instance(bank: &mut Bank, i: u32, j: u32) -> Result<TermId, TermFault>
    ensures term { IfOk result (λ t. IsTermAt bank.new t) }
    ensures kept { OnOk result (Extends bank.old bank.new) }
{
    let first = bank.add(Node::Var(i))?;
    let head = instance(bank, 1, first)?;
    let second = bank.add(Node::Var(j))?;
    bank.add(Node::App(head, second))
}

// `c 3 4` and `c 5 6`
fn two_applied_instances(bank: &mut Bank) -> Result<(TermId, TermId), TermFault>
    ensures first { IfOk result (λ ends. IsTermAt bank.new ends.0) }
    ensures second { IfOk result (λ ends. IsTermAt bank.new ends.1) }
{
    let first = applied_instance(bank, 3, 4)?;
    let second = applied_instance(bank, 5, 6)?;
    Ok((first, second))
}

// The first two parts of two terms, and how many there are.
fn two_parts(
    alloc: Global,
    bank: &Bank,
    ends: (TermId, TermId),
) -> Result<(Option<(Node, Node, u32)>, Option<(Node, Node, u32)>, usize), Fail>
    requires first { IsTermAt bank.now ends.0 }
    requires second { IsTermAt bank.now ends.1 }
{
    let mut parts = Vec::new(alloc);
    if !gather(bank, ends.0, ends.1, &mut parts)? {
        return Err(Fail::from("no parts"));
    }
    let first = part_at(bank, &parts, 0);
    let second = part_at(bank, &parts, 1);
    Ok((first, second, parts.len()))
}

// The argument of the instances, and then that to which they are applied.
#[test]
fn gathers_parts_from_the_left(rt: HostRuntime) -> Result<(), Fail> {
    let mut bank = Bank::new(rt.alloc());
    let ends = two_applied_instances(&mut bank)?;
    let found = two_parts(rt.alloc(), &bank, ends)?;
    let first = Some((Node::Var(3), Node::Var(5), 0));
    let second = Some((Node::Var(4), Node::Var(6), 0));
    assert_eq!(rt; found, (first, second, 2));
    Ok(())
}

#[test]
fn gathers_bodies_under_a_binder(rt: HostRuntime) -> Result<(), Fail> {
    let mut bank = Bank::new(rt.alloc());
    let ends = two_under_binders(&mut bank)?;
    let (first, second, count) = two_parts(rt.alloc(), &bank, ends)?;
    let Some((Node::Pi(_, _), Node::Pi(_, _), under)) = second else {
        return Err(Fail::from("no bodies"));
    };
    let stars = Some((Node::Star, Node::Star, 0));
    assert_eq!(rt; (first, under, count), (stars, 1, 2));
    Ok(())
}

// `3` twice, and `9` applied to the one and to the other
fn twins(bank: &mut Bank) -> Result<((TermId, TermId), (TermId, TermId)), TermFault>
    ensures arguments { IfOk result (λ p. StandsFor bank.new p.0.0 (tree.Var 3) × StandsFor bank.new p.0.1 (tree.Var 3)) }
    ensures wholes { IfOk result (λ p. StandsFor bank.new p.1.0 (tree.App (tree.Var 9) (tree.Var 3)) × StandsFor bank.new p.1.1 (tree.App (tree.Var 9) (tree.Var 3))) }
{
    let one = bank.add(Node::Var(3))?;
    let other = bank.add(Node::Var(3))?;
    let head = bank.add(Node::Var(9))?;
    let first = bank.add(Node::App(head, one))?;
    let second = bank.add(Node::App(head, other))?;
    Ok(((one, other), (first, second)))
}

// The equality of the arguments, and from it that of the applications.
fn equalities(
    alloc: Global,
    bank: &Bank,
    deriv: &mut Deriv,
    arguments: (TermId, TermId),
    wholes: (TermId, TermId),
) -> Result<(EqId, EqId), Fail>
    requires none { deriv.old ≡ [] }
    requires arguments { StandsFor bank.now arguments.0 (tree.Var 3) × StandsFor bank.now arguments.1 (tree.Var 3) }
    requires wholes { StandsFor bank.now wholes.0 (tree.App (tree.Var 9) (tree.Var 3)) × StandsFor bank.now wholes.1 (tree.App (tree.Var 9) (tree.Var 3)) }
{
    let known = Known::new(alloc);
    let Some(equal) = same_at_once(bank, deriv, &known, arguments.0, arguments.1)? else {
        return Err(Fail::from("the arguments differ"));
    };
    let mut equals = Vec::new(alloc);
    equals.push(equal)?;
    let whole = congruence(bank, deriv, wholes.0, wholes.1, equals)?;
    Ok((equal, whole))
}

// The equality of the arguments, that of the heads, and that of the applications.
#[test]
fn joins_the_equalities_of_parts(rt: HostRuntime) -> Result<(), Fail> {
    let mut bank = Bank::new(rt.alloc());
    let mut deriv = Deriv::new(rt.alloc());
    let (arguments, wholes) = twins(&mut bank)?;
    let (equal, whole) = equalities(rt.alloc(), &bank, &mut deriv, arguments, wholes)?;
    assert_eq!(rt; (equal.number(), whole.number(), deriv.count()), (0, 2, 3));
    let last = format!(in rt.alloc(); "{:?}", deriv.kept(2))?;
    assert!(rt; last.as_str().ends_with("App(EqId(1), EqId(0)))"));
    Ok(())
}

// Keeps two terms as a known pair.
fn keep(bank: &Bank, known: &mut Known, ends: (TermId, TermId), equal: EqId) -> Result<(), NoMemory>
    requires pairs { All (HasTerms bank.now) known.old }
    requires first { IsTermAt bank.now ends.0 }
    requires second { IsTermAt bank.now ends.1 }
    ensures { All (HasTerms bank.now) known.new }
{
    remember(bank, known, ends.0, ends.1, equal)
}

// How many pairs are known where the arguments are kept twice, what is found for them and for the first of them beside the
// second whole, and how many are known with the wholes.
fn keep_pairs(
    bank: &Bank,
    known: &mut Known,
    arguments: (TermId, TermId),
    wholes: (TermId, TermId),
    equals: (EqId, EqId),
) -> Result<(usize, Option<EqId>, Option<EqId>, usize), NoMemory>
    requires pairs { All (HasTerms bank.now) known.old }
    requires first { IsTermAt bank.now arguments.0 }
    requires second { IsTermAt bank.now arguments.1 }
    requires whole { IsTermAt bank.now wholes.0 }
    requires other { IsTermAt bank.now wholes.1 }
{
    keep(bank, known, arguments, equals.0)?;
    keep(bank, known, arguments, equals.1)?;
    let once = known.len();
    let found = known.find(bank, arguments.0, arguments.1);
    let none = known.find(bank, arguments.0, wholes.1);
    keep(bank, known, wholes, equals.1)?;
    Ok((once, found, none, known.len()))
}

#[test]
fn keeps_a_pair_once(rt: HostRuntime) -> Result<(), Fail> {
    let mut bank = Bank::new(rt.alloc());
    let mut deriv = Deriv::new(rt.alloc());
    let mut known = Known::new(rt.alloc());
    let (arguments, wholes) = twins(&mut bank)?;
    let equals = equalities(rt.alloc(), &bank, &mut deriv, arguments, wholes)?;
    let kept = keep_pairs(&bank, &mut known, arguments, wholes, equals)?;
    assert_eq!(rt; kept, (1, Some(equals.0), None, 2));
    Ok(())
}
