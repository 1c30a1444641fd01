//! Derivation files, byte by byte.
ghost use Rattle.std.specs.Prelude.{◌≡◌, ◌<◌, ◌≤◌, [], length, Some, IfOk, OnOk};
ghost use Rattle.ld_terms.specs.Tree as tree;
ghost use Rattle.ld_terms.specs.Bank.{StandsFor};
ghost use Rattle.ld_terms.specs.Known.{nothing, no_judgement, with_node};
ghost use Rattle.ld_record.specs.Kept.{known_of, IsSound};
ghost use Rattle.ld_record.specs.Growth.{Knows};
ghost use Rattle.dr_text.specs.Written.{last_judgement};

use crate::{Writer, header};
use fb_base::{NoMemory, Text};
use ld_record::{Deriv, Judge, JudgeId, Step};
use ld_terms::{Bank, Node, TermFault, TermId};
use std::alloc::Global;
use std::test::Fail;

// `* : box` over no entries.
pub(crate) fn start(
    deriv: &mut Deriv,
    bank: &Bank,
    star: TermId,
    box_sort: TermId,
) -> Result<JudgeId, NoMemory>
    requires none { deriv.old ≡ [] }
    requires star { StandsFor bank.now star tree.Star }
    requires box_sort { StandsFor bank.now box_sort tree.Box }
    ensures known { OnOk result (known_of bank.now deriv.new ≡ with_node nothing no_judgement) }
    ensures number { IfOk result (λ j. j.0 ≡ 0) }
    ensures sound { IsSound bank.now deriv.new }
{
    let judge = Judge {
        entries: 0,
        ctx: deriv.empty(),
        term: star,
        of: box_sort,
    };
    deriv.emit(bank, judge, Step::Sort)
}

// The entry of a primitive, and `* : box` over it.
fn primitive(
    deriv: &mut Deriv,
    bank: &Bank,
    name: Text,
    star: TermId,
    box_sort: TermId,
    j: JudgeId,
) -> Result<JudgeId, NoMemory>
    requires sound { IsSound bank.now deriv.old }
    requires known { known_of bank.now deriv.old ≡ with_node nothing no_judgement }
    requires number { j.0 ≡ 0 }
    requires some { 0 < length name }
    requires short { length name ≤ 255 }
    requires star { StandsFor bank.now star tree.Star }
    requires box_sort { StandsFor bank.now box_sort tree.Box }
    ensures number { IfOk result (λ k. Knows (known_of bank.now deriv.new) k (last_judgement (known_of bank.now deriv.new))) }
    ensures sound { IsSound bank.now deriv.new }
{
    deriv.entry(bank, name, j, true)?;
    let judge = Judge {
        entries: 1,
        ctx: deriv.empty(),
        term: star,
        of: box_sort,
    };
    deriv.emit(bank, judge, Step::DefPrim(j))
}

// A flag of a variable of the type `*`.
fn flagged(deriv: &mut Deriv, bank: &Bank, j: JudgeId) -> Result<(), NoMemory>
    requires sound { IsSound bank.now deriv.old }
    requires known { known_of bank.now deriv.old ≡ with_node nothing no_judgement }
    requires number { j.0 ≡ 0 }
    ensures number { OnOk result (Knows (known_of bank.now deriv.new) j (last_judgement (known_of bank.now deriv.new))) }
    ensures sound { IsSound bank.now deriv.new }
{
    deriv.flag(bank, j)
}

// What is derived behind `* : box`.
#[derive(Clone, Copy)]
enum Behind {
    Nothing,
    Primitive,
    Flag,
}

// The name and the entry of a primitive, and `* : box` over it.
fn named(
    alloc: Global,
    deriv: &mut Deriv,
    bank: &Bank,
    star: TermId,
    box_sort: TermId,
    j: JudgeId,
) -> Result<JudgeId, NoMemory>
    requires sound { IsSound bank.now deriv.old }
    requires known { known_of bank.now deriv.old ≡ with_node nothing no_judgement }
    requires number { j.0 ≡ 0 }
    requires star { StandsFor bank.now star tree.Star }
    requires box_sort { StandsFor bank.now box_sort tree.Box }
    ensures number { IfOk result (λ k. Knows (known_of bank.now deriv.new) k (last_judgement (known_of bank.now deriv.new))) }
    ensures sound { IsSound bank.now deriv.new }
{
    let name = Text::from_bytes(alloc, b"A")?;
    primitive(deriv, bank, name, star, box_sort, j)
}

// A derivation from no judgement, and its last judgement.
fn derived(
    alloc: Global,
    deriv: &mut Deriv,
    bank: &Bank,
    star: TermId,
    box_sort: TermId,
    behind: Behind,
) -> Result<JudgeId, NoMemory>
    requires none { deriv.old ≡ [] }
    requires star { StandsFor bank.now star tree.Star }
    requires box_sort { StandsFor bank.now box_sort tree.Box }
    ensures last { IfOk result (λ j. Knows (known_of bank.now deriv.new) j (last_judgement (known_of bank.now deriv.new))) }
    ensures sound { IsSound bank.now deriv.new }
{
    let first = start(deriv, bank, star, box_sort)?;
    match behind {
        Behind::Nothing => Ok(first),
        Behind::Primitive => named(alloc, deriv, bank, star, box_sort, first),
        Behind::Flag => {
            flagged(deriv, bank, first)?;
            Ok(first)
        }
    }
}

// All that a writer writes of a derivation, with its end.
pub(crate) fn written(
    alloc: Global,
    bank: &Bank,
    deriv: &Deriv,
    last: JudgeId,
) -> Result<Vec<u8>, Fail>
    requires sound { IsSound bank.now deriv.now }
    requires last { Knows (known_of bank.now deriv.now) last (last_judgement (known_of bank.now deriv.now)) }
{
    let mut out = header().to_vec(alloc)?;
    Writer::new(alloc).chunk(bank, deriv, Some(last), &mut out)?;
    Ok(out)
}

// Three parts of a file, one after the other.
pub(crate) fn joined(
    alloc: Global,
    first: &[u8],
    second: &[u8],
    third: &[u8],
) -> Result<Vec<u8>, Fail> {
    let mut all = first.to_vec(alloc)?;
    all.extend_from_slice(second)?;
    all.extend_from_slice(third)?;
    Ok(all)
}

// The sorts.
fn sorts(bank: &mut Bank) -> Result<(TermId, TermId), TermFault>
    ensures star { IfOk result (λ r. StandsFor bank.new r.0 tree.Star) }
    ensures box_sort { IfOk result (λ r. StandsFor bank.new r.1 tree.Box) }
{
    let star = bank.add(Node::Star)?;
    let box_sort = bank.add(Node::Box_)?;
    Ok((star, box_sort))
}

// The file of a derivation.
fn file(alloc: Global, behind: Behind) -> Result<Vec<u8>, Fail> {
    let mut bank = Bank::new(alloc);
    let (star, box_sort) = sorts(&mut bank)?;
    let mut deriv = Deriv::new(alloc);
    let last = derived(alloc, &mut deriv, &bank, star, box_sort, behind)?;
    written(alloc, &bank, &deriv, last)
}

#[test]
fn writes_no_entries(rt: HostRuntime) -> Result<(), Fail> {
    let out = file(rt.alloc(), Behind::Nothing)?;
    let wanted = b"LDDERIV1\x01\x02\x30\x00\x00\x00\x01\x60\x00";
    assert_eq!(rt; out.as_slice(), wanted.as_slice());
    Ok(())
}

#[test]
fn writes_a_primitive(rt: HostRuntime) -> Result<(), Fail> {
    let out = file(rt.alloc(), Behind::Primitive)?;
    let wanted =
        b"LDDERIV1\x01\x02\x30\x00\x00\x00\x01\x41\x01A\x00\x38\x01\x00\x00\x01\x00\x60\x01";
    assert_eq!(rt; out.as_slice(), wanted.as_slice());
    Ok(())
}

#[test]
fn writes_a_flag(rt: HostRuntime) -> Result<(), Fail> {
    let out = file(rt.alloc(), Behind::Flag)?;
    let wanted = b"LDDERIV1\x01\x02\x30\x00\x00\x00\x01\x50\x00\x60\x00";
    assert_eq!(rt; out.as_slice(), wanted.as_slice());
    Ok(())
}
