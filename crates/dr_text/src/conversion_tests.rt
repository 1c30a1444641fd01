//! The file of a derivation in which a type is exchanged for one that it is equal to by a beta step, byte by byte.
ghost use Rattle.std.specs.Prelude.{◌≡◌, [], IfOk, OnOk};
ghost use Rattle.ld_terms.specs.Tree as tree;
ghost use Rattle.ld_terms.specs.Bank.{StandsFor, Extends};
ghost use Rattle.ld_record.specs.Kept.{known_of, IsSound};
ghost use Rattle.ld_record.specs.Growth.{Knows, KnowsContext, Adds};
ghost use Rattle.ld_record.specs.Tests.{judged, one_type, same_type};
ghost use Rattle.dr_text.specs.Written.{last_judgement};

use crate::tests::{joined, written};
use crate::variable_tests::{Terms, first_sort, one_type, variable_terms};
use fb_base::NoMemory;
use ld_record::{CtxId, Deriv, EqStep, Judge, JudgeId, Step};
use ld_terms::{Bank, Node, TermFault, TermId};
use std::alloc::Global;
use std::test::Fail;

// `(fun B : * . B)` and its type, and the applications of it to the innermost variable and the next one.
#[derive(Clone, Copy)]
struct Redex {
    product: TermId,
    function: TermId,
    first: TermId,
    second: TermId,
}

fn redex_terms(bank: &mut Bank, terms: Terms) -> Result<Redex, TermFault>
    requires star { StandsFor bank.old terms.star tree.Star }
    requires first { StandsFor bank.old terms.first (tree.Var 0) }
    requires second { StandsFor bank.old terms.second (tree.Var 1) }
    ensures product { IfOk result (λ r. StandsFor bank.new r.product (tree.Pi tree.Star tree.Star)) }
    ensures function { IfOk result (λ r. StandsFor bank.new r.function same_type) }
    ensures first { IfOk result (λ r. StandsFor bank.new r.first (tree.App same_type (tree.Var 0))) }
    ensures second { IfOk result (λ r. StandsFor bank.new r.second (tree.App same_type (tree.Var 1))) }
    ensures kept { Extends bank.old bank.new }
{
    let product = bank.add(Node::Pi(terms.star, terms.star))?;
    let function = bank.add(Node::Lam(terms.star, terms.first))?;
    let first = bank.add(Node::App(function, terms.first))?;
    let second = bank.add(Node::App(function, terms.second))?;
    Ok(Redex {
        product,
        function,
        first,
        second,
    })
}

// `fun B : * . B : * -> *`, where `j` is `* : box`, and `sort` and `typed` are `* : box` and `A : *` under `A : *`.
fn function(
    deriv: &mut Deriv,
    bank: &Bank,
    terms: Terms,
    redex: Redex,
    j: JudgeId,
    sort: JudgeId,
    typed: JudgeId,
) -> Result<JudgeId, NoMemory>
    requires sound { IsSound bank.now deriv.old }
    requires box_sort { StandsFor bank.now terms.box_sort tree.Box }
    requires product { StandsFor bank.now redex.product (tree.Pi tree.Star tree.Star) }
    requires function { StandsFor bank.now redex.function same_type }
    requires j { Knows (known_of bank.now deriv.old) j (judged 0 tree.Nil tree.Star tree.Box) }
    requires sort { Knows (known_of bank.now deriv.old) sort (judged 0 one_type tree.Star tree.Box) }
    requires typed { Knows (known_of bank.now deriv.old) typed (judged 0 one_type (tree.Var 0) tree.Star) }
    ensures number { IfOk result (λ k. Knows (known_of bank.now deriv.new) k (judged 0 tree.Nil same_type (tree.Pi tree.Star tree.Star))) }
    ensures adds { Adds (known_of bank.now deriv.old) (known_of bank.now deriv.new) }
    ensures sound { IsSound bank.now deriv.new }
{
    let judge = Judge {
        entries: 0,
        ctx: deriv.empty(),
        term: redex.product,
        of: terms.box_sort,
    };
    let formed = deriv.emit(bank, judge, Step::Form(j, sort))?;
    let judge = Judge {
        entries: 0,
        ctx: deriv.empty(),
        term: redex.function,
        of: redex.product,
    };
    deriv.emit(bank, judge, Step::Abst(typed, formed))
}

// `(fun B : * . B) A : *` under `A : *`.
fn applied(
    deriv: &mut Deriv,
    bank: &Bank,
    star: TermId,
    redex: Redex,
    ctx: CtxId,
    function: JudgeId,
    j: JudgeId,
    typed: JudgeId,
) -> Result<JudgeId, NoMemory>
    requires sound { IsSound bank.now deriv.old }
    requires star { StandsFor bank.now star tree.Star }
    requires product { StandsFor bank.now redex.product (tree.Pi tree.Star tree.Star) }
    requires function { StandsFor bank.now redex.function same_type }
    requires first { StandsFor bank.now redex.first (tree.App same_type (tree.Var 0)) }
    requires ctx { KnowsContext (known_of bank.now deriv.old) ctx one_type }
    requires known { Knows (known_of bank.now deriv.old) function (judged 0 tree.Nil same_type (tree.Pi tree.Star tree.Star)) }
    requires j { Knows (known_of bank.now deriv.old) j (judged 0 tree.Nil tree.Star tree.Box) }
    requires typed { Knows (known_of bank.now deriv.old) typed (judged 0 one_type (tree.Var 0) tree.Star) }
    ensures number { IfOk result (λ k. Knows (known_of bank.now deriv.new) k (judged 0 one_type (tree.App same_type (tree.Var 0)) tree.Star)) }
    ensures adds { Adds (known_of bank.now deriv.old) (known_of bank.now deriv.new) }
    ensures sound { IsSound bank.now deriv.new }
{
    let judge = Judge {
        entries: 0,
        ctx,
        term: redex.function,
        of: redex.product,
    };
    let under = deriv.emit(bank, judge, Step::Weak(function, j))?;
    let judge = Judge {
        entries: 0,
        ctx,
        term: redex.first,
        of: star,
    };
    deriv.emit(bank, judge, Step::Appl(under, typed))
}

// `x : A` under `A : *` and `x : (fun B : * . B) A`.
fn converted(
    deriv: &mut Deriv,
    bank: &Bank,
    terms: Terms,
    redex: Redex,
    outer: CtxId,
    typed: JudgeId,
    applied: JudgeId,
    j: JudgeId,
) -> Result<(), NoMemory>
    requires sound { IsSound bank.now deriv.old }
    requires env { (known_of bank.now deriv.old).env ≡ [] }
    requires j { Knows (known_of bank.now deriv.old) j (judged 0 tree.Nil tree.Star tree.Box) }
    requires star { StandsFor bank.now terms.star tree.Star }
    requires first { StandsFor bank.now terms.first (tree.Var 0) }
    requires second { StandsFor bank.now terms.second (tree.Var 1) }
    requires inner { StandsFor bank.now redex.first (tree.App same_type (tree.Var 0)) }
    requires left { StandsFor bank.now redex.second (tree.App same_type (tree.Var 1)) }
    requires outer { KnowsContext (known_of bank.now deriv.old) outer one_type }
    requires typed { Knows (known_of bank.now deriv.old) typed (judged 0 one_type (tree.Var 0) tree.Star) }
    requires applied { Knows (known_of bank.now deriv.old) applied (judged 0 one_type (tree.App same_type (tree.Var 0)) tree.Star) }
    ensures last { OnOk result (Knows (known_of bank.now deriv.new) j (last_judgement (known_of bank.now deriv.new))) }
    ensures sound { IsSound bank.now deriv.new }
{
    let ctx = deriv.extend(bank, outer, redex.first)?;
    let judge = Judge {
        entries: 0,
        ctx,
        term: terms.first,
        of: redex.second,
    };
    let member = deriv.emit(bank, judge, Step::Var(applied))?;
    let judge = Judge {
        entries: 0,
        ctx,
        term: terms.second,
        of: terms.star,
    };
    let wanted = deriv.emit(bank, judge, Step::Weak(typed, applied))?;
    let equal = deriv.emit_eq(bank, redex.second, terms.second, EqStep::Beta)?;
    let judge = Judge {
        entries: 0,
        ctx,
        term: terms.first,
        of: terms.second,
    };
    deriv.emit(bank, judge, Step::Conv(member, wanted, equal))?;
    Ok(())
}

// The derivation of it, from no judgement, and its last judgement.
fn derived(deriv: &mut Deriv, bank: &Bank, terms: Terms, redex: Redex) -> Result<JudgeId, NoMemory>
    requires none { deriv.old ≡ [] }
    requires star { StandsFor bank.now terms.star tree.Star }
    requires box_sort { StandsFor bank.now terms.box_sort tree.Box }
    requires first { StandsFor bank.now terms.first (tree.Var 0) }
    requires second { StandsFor bank.now terms.second (tree.Var 1) }
    requires product { StandsFor bank.now redex.product (tree.Pi tree.Star tree.Star) }
    requires function { StandsFor bank.now redex.function same_type }
    requires inner { StandsFor bank.now redex.first (tree.App same_type (tree.Var 0)) }
    requires left { StandsFor bank.now redex.second (tree.App same_type (tree.Var 1)) }
    ensures last { IfOk result (λ j. Knows (known_of bank.now deriv.new) j (last_judgement (known_of bank.now deriv.new))) }
    ensures sound { IsSound bank.now deriv.new }
{
    let j = first_sort(deriv, bank, terms)?;
    let (ctx, sort, typed) = one_type(deriv, bank, terms, j)?;
    let function = function(deriv, bank, terms, redex, j, sort, typed)?;
    let applied = applied(deriv, bank, terms.star, redex, ctx, function, j, typed)?;
    converted(deriv, bank, terms, redex, ctx, typed, applied, j)?;
    Ok(j)
}

// The file of it.
fn file(alloc: Global) -> Result<Vec<u8>, Fail> {
    let mut bank = Bank::new(alloc);
    let terms = variable_terms(&mut bank)?;
    let redex = redex_terms(&mut bank, terms)?;
    let mut deriv = Deriv::new(alloc);
    let last = derived(&mut deriv, &bank, terms, redex)?;
    written(alloc, &bank, &deriv, last)
}

#[test]
fn writes_a_conversion(rt: HostRuntime) -> Result<(), Fail> {
    let out = file(rt.alloc())?;
    let variable =
        b"LDDERIV1\x01\x02\x30\x00\x00\x00\x01\x10\x00\x00\x32\x00\x01\x00\x01\x00\x00\x03\x00\x31\x00\x01\x02\x00\x00";
    let applied =
        b"\x06\x00\x00\x33\x00\x00\x03\x01\x00\x01\x05\x00\x02\x35\x00\x00\x04\x03\x02\x03\x32\x00\x01\x04\x03\x04\x00\x04\x04\x02\x34\x00\x01\x05\x00\x05\x02";
    let converted =
        b"\x10\x01\x05\x03\x01\x04\x04\x06\x31\x00\x02\x02\x07\x06\x32\x00\x02\x06\x00\x02\x06\x23\x07\x06\x36\x00\x02\x02\x06\x07\x08\x00\x60\x00";
    let wanted = joined(rt.alloc(), variable, applied, converted)?;
    assert_eq!(rt; out.as_slice(), wanted.as_slice());
    Ok(())
}
