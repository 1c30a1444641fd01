//! The file of a derivation with an instance of two arguments, byte by byte.
ghost use Rattle.std.specs.Prelude.{◌≡◌, ◌≤◌, ◌<◌, ◌∷◌, [], length, IfOk, OnOk};
ghost use Rattle.ld_terms.specs.Tree as tree;
ghost use Rattle.ld_terms.specs.Tree.{◌▸◌};
ghost use Rattle.ld_terms.specs.Bank.{StandsFor, Extends};
ghost use Rattle.ld_terms.specs.Entry.{Primitive};
ghost use Rattle.ld_record.specs.Follows.{entry_at};
ghost use Rattle.ld_record.specs.Kept.{known_of, IsSound};
ghost use Rattle.ld_record.specs.Growth.{Knows, KnowsContext, Adds};
ghost use Rattle.ld_record.specs.Tests.{judged, one_type, type_and_member};
ghost use Rattle.dr_text.specs.Written.{last_judgement};

use crate::tests::{joined, start, written};
use fb_base::{NoMemory, Text};
use ld_record::{CtxId, Deriv, Judge, JudgeId, Judges, Step};
use ld_terms::{Bank, Node, TermFault, TermId};
use std::alloc::Global;
use std::test::Fail;

// The sorts, and the two innermost variables.
#[derive(Clone, Copy)]
pub(crate) struct Terms {
    pub(crate) star: TermId,
    pub(crate) box_sort: TermId,
    pub(crate) first: TermId,
    pub(crate) second: TermId,
}

pub(crate) fn variable_terms(bank: &mut Bank) -> Result<Terms, TermFault>
    ensures star { IfOk result (λ t. StandsFor bank.new t.star tree.Star) }
    ensures box_sort { IfOk result (λ t. StandsFor bank.new t.box_sort tree.Box) }
    ensures first { IfOk result (λ t. StandsFor bank.new t.first (tree.Var 0)) }
    ensures second { IfOk result (λ t. StandsFor bank.new t.second (tree.Var 1)) }
{
    let star = bank.add(Node::Star)?;
    let box_sort = bank.add(Node::Box_)?;
    let first = bank.add(Node::Var(0))?;
    let second = bank.add(Node::Var(1))?;
    Ok(Terms {
        star,
        box_sort,
        first,
        second,
    })
}

// The instance of the entry with the two variables.
fn instance(bank: &mut Bank, first: TermId, second: TermId) -> Result<TermId, TermFault>
    requires first { StandsFor bank.old first (tree.Var 0) }
    requires second { StandsFor bank.old second (tree.Var 1) }
    ensures tree { IfOk result (λ t. StandsFor bank.new t (tree.Const 0 (tree.Nil ▸ tree.Var 1 ▸ tree.Var 0))) }
    ensures kept { Extends bank.old bank.new }
{
    let none = bank.add(Node::Nil)?;
    let one = bank.add(Node::Cons(second, none))?;
    let two = bank.add(Node::Cons(first, one))?;
    bank.add(Node::Const(0, two))
}

// `* : box` over no entries, as the first judgement.
pub(crate) fn first_sort(deriv: &mut Deriv, bank: &Bank, terms: Terms) -> Result<JudgeId, NoMemory>
    requires none { deriv.old ≡ [] }
    requires star { StandsFor bank.now terms.star tree.Star }
    requires box_sort { StandsFor bank.now terms.box_sort tree.Box }
    ensures number { IfOk result (λ j. Knows (known_of bank.now deriv.new) j (judged 0 tree.Nil tree.Star tree.Box)) }
    ensures env { OnOk result ((known_of bank.now deriv.new).env ≡ []) }
    ensures sound { IsSound bank.now deriv.new }
{
    let j = start(deriv, bank, terms.star, terms.box_sort)?;
    Ok(j)
}

// The context of `A : *`, and there `* : box` and `A : *`.
pub(crate) fn one_type(
    deriv: &mut Deriv,
    bank: &Bank,
    terms: Terms,
    j: JudgeId,
) -> Result<(CtxId, JudgeId, JudgeId), NoMemory>
    requires sound { IsSound bank.now deriv.old }
    requires star { StandsFor bank.now terms.star tree.Star }
    requires box_sort { StandsFor bank.now terms.box_sort tree.Box }
    requires first { StandsFor bank.now terms.first (tree.Var 0) }
    requires j { Knows (known_of bank.now deriv.old) j (judged 0 tree.Nil tree.Star tree.Box) }
    ensures ctx { IfOk result (λ r. KnowsContext (known_of bank.now deriv.new) r.0 one_type) }
    ensures sort { IfOk result (λ r. Knows (known_of bank.now deriv.new) r.1 (judged 0 one_type tree.Star tree.Box)) }
    ensures typed { IfOk result (λ r. Knows (known_of bank.now deriv.new) r.2 (judged 0 one_type (tree.Var 0) tree.Star)) }
    ensures adds { Adds (known_of bank.now deriv.old) (known_of bank.now deriv.new) }
    ensures sound { IsSound bank.now deriv.new }
{
    let empty = deriv.empty();
    let ctx = deriv.extend(bank, empty, terms.star)?;
    let judge = Judge {
        entries: 0,
        ctx,
        term: terms.star,
        of: terms.box_sort,
    };
    let sort = deriv.emit(bank, judge, Step::Weak(j, j))?;
    let judge = Judge {
        entries: 0,
        ctx,
        term: terms.first,
        of: terms.star,
    };
    let typed = deriv.emit(bank, judge, Step::Var(j))?;
    Ok((ctx, sort, typed))
}

// `* : box`, `A : *` and `x : A` in the context of `A : *` and `x : A`.
fn member(
    deriv: &mut Deriv,
    bank: &Bank,
    terms: Terms,
    outer: CtxId,
    sort: JudgeId,
    typed: JudgeId,
) -> Result<(JudgeId, JudgeId, JudgeId), NoMemory>
    requires sound { IsSound bank.now deriv.old }
    requires star { StandsFor bank.now terms.star tree.Star }
    requires box_sort { StandsFor bank.now terms.box_sort tree.Box }
    requires first { StandsFor bank.now terms.first (tree.Var 0) }
    requires second { StandsFor bank.now terms.second (tree.Var 1) }
    requires outer { KnowsContext (known_of bank.now deriv.old) outer one_type }
    requires sort { Knows (known_of bank.now deriv.old) sort (judged 0 one_type tree.Star tree.Box) }
    requires typed { Knows (known_of bank.now deriv.old) typed (judged 0 one_type (tree.Var 0) tree.Star) }
    ensures sort { IfOk result (λ r. Knows (known_of bank.now deriv.new) r.0 (judged 0 type_and_member tree.Star tree.Box)) }
    ensures outer { IfOk result (λ r. Knows (known_of bank.now deriv.new) r.1 (judged 0 type_and_member (tree.Var 1) tree.Star)) }
    ensures member { IfOk result (λ r. Knows (known_of bank.now deriv.new) r.2 (judged 0 type_and_member (tree.Var 0) (tree.Var 1))) }
    ensures adds { Adds (known_of bank.now deriv.old) (known_of bank.now deriv.new) }
    ensures sound { IsSound bank.now deriv.new }
{
    let ctx = deriv.extend(bank, outer, terms.first)?;
    let judge = Judge {
        entries: 0,
        ctx,
        term: terms.star,
        of: terms.box_sort,
    };
    let sort = deriv.emit(bank, judge, Step::Weak(sort, typed))?;
    let judge = Judge {
        entries: 0,
        ctx,
        term: terms.second,
        of: terms.star,
    };
    let outer = deriv.emit(bank, judge, Step::Weak(typed, typed))?;
    let judge = Judge {
        entries: 0,
        ctx,
        term: terms.first,
        of: terms.second,
    };
    let member = deriv.emit(bank, judge, Step::Var(typed))?;
    Ok((sort, outer, member))
}

// The same from no judgement, and `* : box`.
fn variables(
    deriv: &mut Deriv,
    bank: &Bank,
    terms: Terms,
) -> Result<(JudgeId, JudgeId, JudgeId, JudgeId), NoMemory>
    requires none { deriv.old ≡ [] }
    requires star { StandsFor bank.now terms.star tree.Star }
    requires box_sort { StandsFor bank.now terms.box_sort tree.Box }
    requires first { StandsFor bank.now terms.first (tree.Var 0) }
    requires second { StandsFor bank.now terms.second (tree.Var 1) }
    ensures sort { IfOk result (λ r. Knows (known_of bank.now deriv.new) r.0 (judged 0 type_and_member tree.Star tree.Box)) }
    ensures outer { IfOk result (λ r. Knows (known_of bank.now deriv.new) r.1 (judged 0 type_and_member (tree.Var 1) tree.Star)) }
    ensures member { IfOk result (λ r. Knows (known_of bank.now deriv.new) r.2 (judged 0 type_and_member (tree.Var 0) (tree.Var 1))) }
    ensures j { IfOk result (λ r. Knows (known_of bank.now deriv.new) r.3 (judged 0 tree.Nil tree.Star tree.Box)) }
    ensures env { OnOk result ((known_of bank.now deriv.new).env ≡ []) }
    ensures sound { IsSound bank.now deriv.new }
{
    let j = first_sort(deriv, bank, terms)?;
    let (ctx, sort, typed) = one_type(deriv, bank, terms, j)?;
    let (sort, outer, member) = member(deriv, bank, terms, ctx, sort, typed)?;
    Ok((sort, outer, member, j))
}

// The primitive of these parameters and the type `*`, and the same judgements over it.
fn primitive(
    deriv: &mut Deriv,
    bank: &Bank,
    name: Text,
    sort: JudgeId,
    outer: JudgeId,
    member: JudgeId,
    j: JudgeId,
) -> Result<(JudgeId, JudgeId, JudgeId, JudgeId), NoMemory>
    requires sound { IsSound bank.now deriv.old }
    requires env { (known_of bank.now deriv.old).env ≡ [] }
    requires some { 0 < length name }
    requires short { length name ≤ 255 }
    requires sort { Knows (known_of bank.now deriv.old) sort (judged 0 type_and_member tree.Star tree.Box) }
    requires outer { Knows (known_of bank.now deriv.old) outer (judged 0 type_and_member (tree.Var 1) tree.Star) }
    requires member { Knows (known_of bank.now deriv.old) member (judged 0 type_and_member (tree.Var 0) (tree.Var 1)) }
    requires j { Knows (known_of bank.now deriv.old) j (judged 0 tree.Nil tree.Star tree.Box) }
    ensures there { OnOk result (length (known_of bank.now deriv.new).env ≡ 1) }
    ensures params { OnOk result ((entry_at (known_of bank.now deriv.new).env 0).params ≡ type_and_member) }
    ensures body { OnOk result ((entry_at (known_of bank.now deriv.new).env 0).body ≡ Primitive) }
    ensures of { OnOk result ((entry_at (known_of bank.now deriv.new).env 0).type ≡ tree.Star) }
    ensures sort { IfOk result (λ r. Knows (known_of bank.now deriv.new) r.0 (judged 1 type_and_member tree.Star tree.Box)) }
    ensures outer { IfOk result (λ r. Knows (known_of bank.now deriv.new) r.1 (judged 1 type_and_member (tree.Var 1) tree.Star)) }
    ensures member { IfOk result (λ r. Knows (known_of bank.now deriv.new) r.2 (judged 1 type_and_member (tree.Var 0) (tree.Var 1))) }
    ensures last { IfOk result (λ r. Knows (known_of bank.now deriv.new) r.3 (judged 1 tree.Nil tree.Star tree.Box)) }
    ensures sound { IsSound bank.now deriv.new }
{
    deriv.entry(bank, name, sort, true)?;
    let over = deriv.lift_by_def(bank, sort, 1)?;
    let first = deriv.lift_by_def(bank, outer, 1)?;
    let second = deriv.lift_by_def(bank, member, 1)?;
    let last = deriv.lift_by_def(bank, j, 1)?;
    Ok((over, first, second, last))
}

// The judgements of the two arguments.
fn arguments(alloc: Global, outer: JudgeId, member: JudgeId) -> Result<Judges, NoMemory>
    ensures { IfOk result (λ ns. ns ≡ outer ∷ member ∷ []) }
{
    let mut judges = Vec::new(alloc);
    judges.push(outer).map_err(|_| NoMemory)?;
    judges.push(member).map_err(|_| NoMemory)?;
    Ok(Judges::from_vec(judges))
}

// The instance of the primitive with the two variables has the type `*`.
fn judged_instance(
    deriv: &mut Deriv,
    bank: &Bank,
    term: TermId,
    star: TermId,
    sort: JudgeId,
    outer: JudgeId,
    member: JudgeId,
    judges: Judges,
    last: JudgeId,
) -> Result<(), NoMemory>
    requires sound { IsSound bank.now deriv.old }
    requires there { length (known_of bank.now deriv.old).env ≡ 1 }
    requires params { (entry_at (known_of bank.now deriv.old).env 0).params ≡ type_and_member }
    requires body { (entry_at (known_of bank.now deriv.old).env 0).body ≡ Primitive }
    requires of { (entry_at (known_of bank.now deriv.old).env 0).type ≡ tree.Star }
    requires term { StandsFor bank.now term (tree.Const 0 (tree.Nil ▸ tree.Var 1 ▸ tree.Var 0)) }
    requires star { StandsFor bank.now star tree.Star }
    requires sort { Knows (known_of bank.now deriv.old) sort (judged 1 type_and_member tree.Star tree.Box) }
    requires outer { Knows (known_of bank.now deriv.old) outer (judged 1 type_and_member (tree.Var 1) tree.Star) }
    requires member { Knows (known_of bank.now deriv.old) member (judged 1 type_and_member (tree.Var 0) (tree.Var 1)) }
    requires judges { judges ≡ outer ∷ member ∷ [] }
    requires last { Knows (known_of bank.now deriv.old) last (judged 1 tree.Nil tree.Star tree.Box) }
    ensures last { OnOk result (Knows (known_of bank.now deriv.new) last (last_judgement (known_of bank.now deriv.new))) }
    ensures sound { IsSound bank.now deriv.new }
{
    let judge = Judge {
        entries: 1,
        ctx: deriv.judge(bank, sort).ctx,
        term,
        of: star,
    };
    deriv.emit(bank, judge, Step::InstPrim(sort, judges))?;
    Ok(())
}

// The derivation of the instance, and its last judgement.
fn derived(
    alloc: Global,
    deriv: &mut Deriv,
    bank: &Bank,
    terms: Terms,
    term: TermId,
) -> Result<JudgeId, Fail>
    requires none { deriv.old ≡ [] }
    requires star { StandsFor bank.now terms.star tree.Star }
    requires box_sort { StandsFor bank.now terms.box_sort tree.Box }
    requires first { StandsFor bank.now terms.first (tree.Var 0) }
    requires second { StandsFor bank.now terms.second (tree.Var 1) }
    requires term { StandsFor bank.now term (tree.Const 0 (tree.Nil ▸ tree.Var 1 ▸ tree.Var 0)) }
    ensures last { IfOk result (λ j. Knows (known_of bank.now deriv.new) j (last_judgement (known_of bank.now deriv.new))) }
    ensures sound { OnOk result (IsSound bank.now deriv.new) }
{
    let (sort, outer, member, j) = variables(deriv, bank, terms)?;
    let name = Text::from_bytes(alloc, b"p")?;
    let (sort, outer, member, last) = primitive(deriv, bank, name, sort, outer, member, j)?;
    let judges = arguments(alloc, outer, member)?;
    judged_instance(
        deriv, bank, term, terms.star, sort, outer, member, judges, last,
    )?;
    Ok(last)
}

// The file of it.
fn file(alloc: Global) -> Result<Vec<u8>, Fail> {
    let mut bank = Bank::new(alloc);
    let terms = variable_terms(&mut bank)?;
    let term = instance(&mut bank, terms.first, terms.second)?;
    let mut deriv = Deriv::new(alloc);
    let last = derived(alloc, &mut deriv, &bank, terms, term)?;
    written(alloc, &bank, &deriv, last)
}

#[test]
fn writes_an_instance_with_arguments(rt: HostRuntime) -> Result<(), Fail> {
    let out = file(rt.alloc())?;
    let variables =
        b"LDDERIV1\x01\x02\x30\x00\x00\x00\x01\x10\x00\x00\x32\x00\x01\x00\x01\x00\x00\x03\x00\x31\x00\x01\x02\x00\x00\x10\x01\x02\x32\x00\x02\x00\x01\x01\x02\x03\x01\x32\x00\x02\x03\x00\x02\x02\x31\x00\x02\x02\x03\x02";
    let entry =
        b"\x41\x01p\x03\x38\x01\x02\x00\x01\x03\x38\x01\x02\x03\x00\x04\x38\x01\x02\x02\x03\x05\x38\x01\x00\x00\x01\x00";
    let instance = b"\x07\x00\x02\x03\x02\x3a\x01\x02\x04\x00\x06\x02\x07\x08\x60\x09";
    let wanted = joined(rt.alloc(), variables, entry, instance)?;
    assert_eq!(rt; out.as_slice(), wanted.as_slice());
    Ok(())
}
