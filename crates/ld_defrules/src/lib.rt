//! Items of a book judged by the rules: a flag, a primitive, a line (docs/calculus.md, "Items"; Nederpelt and Geuvers,
//! *Type Theory and Formal Proof*, chapters 8 to 11).
#![tactic(auto)]

ghost use Rattle.std.specs.Prelude.{◌≡◌, ◌<◌, ◌≤◌, ◌+◌, ◌-◌, ◌^◌, ◌↔◌, List, length, Contains, IsTrue, true, false, Err, IfOk, OnErr};
ghost use Rattle.ld_terms.specs.Tree.{Trees, count};
ghost use Rattle.ld_terms.specs.Tests.{is_box};
ghost use Rattle.ld_terms.specs.Entry.{IsFresh};
ghost use Rattle.ld_terms.specs.Item.{Item};
ghost use Rattle.ld_terms.specs.Bank.{tree_at, IsTermAt};
ghost use Rattle.ld_terms.specs.Derivable.{Derivable};
ghost use Rattle.ld_record.specs.Growth.{Knows};
ghost use Rattle.ld_infer.specs.Standing.{known, env, here, account, Continues, Goes, AddsEntry, AddsFlag, KnowsSort, KnowsPairs, without};
ghost use Rattle.ld_infer.specs.Infers.{IsReadable, Infers};
ghost use Rattle.ld_infer.specs.Refusals.{HasNoSort};
ghost use Rattle.ld_infer.specs.declared.failure.Why.TheVariants as why;
ghost use Rattle.ld_defrules.specs.declared.ItemFault.TheVariants.{Refused};
ghost use Rattle.ld_defrules.specs.Judged.{Judges, flag_judged, primitive_judged, type_judged, body_judged, line_judged, primitive_of, line_of, same_as_stated, has_box, SortsType, TypesLine, BodyTypes, IsOtherType};
ghost use Rattle.ld_env.specs.Named.{names_of};

pub mod laws;

use ld_convert::{Compared, Job};
use ld_infer::{
    Failure, InferFault, Path, PathStep, RuleName, Stop, Theory, Typed, Why, infer, sort_of, within,
};
use ld_record::{JudgeId, Step};
use ld_terms::{Node, TermId};
use std::alloc::Global;
use thiserror::Error;

/// Why an item is not accepted.
#[derive(Debug, Drop, Error)]
pub enum ItemFault {
    #[error("the name is taken")]
    NameTaken,
    #[error("a rule refuses the item")]
    Refused(Failure),
    #[error("the check stops")]
    Stop(Stop),
}

impl From<InferFault> for ItemFault {
    ghost use Rattle.std.specs.Prelude.{◌≡◌};
    ghost use Rattle.ld_defrules.specs.Judged.{item_fault};

    ghost from_gives = { λ fault item. item ≡ item_fault fault };

    fn from(fault: InferFault) -> Self {
        match fault {
            InferFault::Refused(failure) => ItemFault::Refused(failure),
            InferFault::Stop(stop) => ItemFault::Stop(stop),
        }
    }
}

/// Judges a flag: its type must have a sort. It is opened behind the flags that are open, and its record is kept. How
/// many flags may be open is the caller's rule.
pub fn open_flag(
    alloc: Global,
    theory: &mut Theory,
    of: TermId,
    job: &mut Job,
) -> Result<(), ItemFault>
    requires of { IsReadable theory.old of }
    requires deep { count theory.old.context + 1001 < 2 ^ 32 }
    requires pairs { KnowsPairs theory.old job.old.known }
    ensures judges { Judges theory.new.items (flag_judged (env theory.old) theory.old.context (tree_at theory.old.items of))
        ⊥ (AddsFlag theory.old theory.new (tree_at theory.old.items of)) (account theory.old job.old) (account theory.new job.new) result }
    ensures refused { (f : Failure) → result ≡ Err (Refused f) → HasNoSort (env theory.old) theory.old.context (tree_at theory.old.items of) }
    ensures goes { Goes theory.old theory.new }
    ensures err { OnErr result (Continues theory.old theory.new) }
    ensures most { job.new.budget.left ≤ job.old.budget.left }
{
    theory.keeps_legal();
    theory.keeps_convertible(job);
    let judge = type_sort(alloc, theory, RuleName::Weak, of, job)?;
    match theory.open_flag(of, judge) {
        Ok(()) => Ok(()),
        Err(_) => Err(ItemFault::Stop(Stop::Memory)),
    }
}

/// Closes flags, the last first, down to a depth.
pub fn close_to(theory: &mut Theory, depth: u32)
    requires depth { depth ≤ count theory.old.context }
    requires deep { count theory.old.context < 2 ^ 32 }
    ensures { theory.new ≡ record theory.old { context = without (count theory.old.context - depth) theory.old.context } }
{
    while theory.depth() > depth {
        theory.leave();
    }
}

/// Judges a primitive: its type must have a sort. It is kept as an entry under its name, with the types of the open
/// flags as parameters, and its number is given. The name has 1 to 255 bytes.
pub fn primitive(
    alloc: Global,
    theory: &mut Theory,
    name: &[u8],
    of: TermId,
    job: &mut Job,
) -> Result<u32, ItemFault>
    requires of { IsReadable theory.old of }
    requires some { 0 < length name.now }
    requires short { length name.now ≤ 255 }
    requires room { length (env theory.old) + 1 < 2 ^ 32 }
    requires deep { count theory.old.context + 1001 < 2 ^ 32 }
    requires pairs { KnowsPairs theory.old job.old.known }
    ensures judges { Judges theory.new.items (primitive_judged (env theory.old) theory.old.context (tree_at theory.old.items of))
        (Contains (names_of theory.old.entries) name.now)
        (AddsEntry theory.old theory.new (primitive_of name.now theory.old.context (tree_at theory.old.items of))) (account theory.old job.old) (account theory.new job.new) result }
    ensures refused { (f : Failure) → result ≡ Err (Refused f) → HasNoSort (env theory.old) theory.old.context (tree_at theory.old.items of) }
    ensures number { IfOk result (λ k. k ≡ length (env theory.old)) }
    ensures taken { (result ≡ Err ItemFault.NameTaken) ↔ Contains (names_of theory.old.entries) name.now }
    ensures goes { Goes theory.old theory.new }
    ensures err { OnErr result (Continues theory.old theory.new) }
    ensures most { job.new.budget.left ≤ job.old.budget.left }
{
    if is_taken(theory, name) {
        return Err(ItemFault::NameTaken);
    }
    theory.keeps_legal();
    theory.keeps_convertible(job);
    let judge = type_sort(alloc, theory, RuleName::DefPrim, of, job)?;
    match theory.keep_primitive(alloc, name, of, judge) {
        Ok(number) => Ok(number),
        Err(_) => Err(ItemFault::Stop(Stop::Memory)),
    }
}

/// Judges a line: its stated type must have a sort, or be `box`, and its body must have that type. It is kept as
/// an entry under its name, with the types of the open flags as parameters, and its number is given. The name has 1 to
/// 255 bytes.
pub fn define(
    alloc: Global,
    theory: &mut Theory,
    name: &[u8],
    body: TermId,
    of: TermId,
    job: &mut Job,
) -> Result<u32, ItemFault>
    requires body { IsReadable theory.old body }
    requires of { IsReadable theory.old of }
    requires some { 0 < length name.now }
    requires short { length name.now ≤ 255 }
    requires room { length (env theory.old) + 1 < 2 ^ 32 }
    requires deep { count theory.old.context + 1001 < 2 ^ 32 }
    requires pairs { KnowsPairs theory.old job.old.known }
    ensures judges { Judges theory.new.items (line_judged (env theory.old) theory.old.context (tree_at theory.old.items body) (tree_at theory.old.items of))
        (Contains (names_of theory.old.entries) name.now)
        (AddsEntry theory.old theory.new (line_of name.now theory.old.context (tree_at theory.old.items body) (tree_at theory.old.items of))) (account theory.old job.old) (account theory.new job.new) result }
    ensures refused { (f : Failure) → result ≡ Err (Refused f) → ¬ Derivable (env theory.old) theory.old.context (tree_at theory.old.items body) (tree_at theory.old.items of) }
    ensures number { IfOk result (λ k. k ≡ length (env theory.old)) }
    ensures taken { (result ≡ Err ItemFault.NameTaken) ↔ Contains (names_of theory.old.entries) name.now }
    ensures goes { Goes theory.old theory.new }
    ensures err { OnErr result (Continues theory.old theory.new) }
    ensures most { job.new.budget.left ≤ job.old.budget.left }
{
    if is_taken(theory, name) {
        return Err(ItemFault::NameTaken);
    }
    theory.keeps_legal();
    theory.keeps_convertible(job);
    let judge = line_judgement(alloc, theory, body, of, job)?;
    match theory.keep_line(alloc, name, body, of, judge) {
        Ok(number) => Ok(number),
        Err(_) => Err(ItemFault::Stop(Stop::Memory)),
    }
}

// Whether an entry has the name.
fn is_taken(theory: &Theory, name: &[u8]) -> bool
    ensures taken { IsTrue result ↔ Contains (names_of theory.now.entries) name.now }
    ensures fresh { result ≡ false → IsFresh name.now (env theory.now) }
{
    theory.env().find(name).is_some()
}

// The judgement for a sort of an item's type, for which a rule asks as its second premise.
fn type_sort(
    alloc: Global,
    theory: &mut Theory,
    rule: RuleName,
    of: TermId,
    job: &mut Job,
) -> Result<JudgeId, ItemFault>
    requires of { IsReadable theory.old of }
    requires deep { count theory.old.context + 1001 < 2 ^ 32 }
    requires pairs { KnowsPairs theory.old job.old.known }
    ensures answer { SortsType theory.old theory.new (type_judged (env theory.old) theory.old.context rule (tree_at theory.old.items of)) of (account theory.old job.old) (account theory.new job.new) result }
    ensures continues { Continues theory.old theory.new }
    ensures pairs { KnowsPairs theory.new job.new.known }
    ensures most { job.new.budget.left ≤ job.old.budget.left }
{
    match sort_of(alloc, theory, (rule, 2), of, 1, job) {
        Ok(sort) => Ok(sort.1),
        Err(fault) => Err(ItemFault::from(within(PathStep::Of, fault))),
    }
}

// The type of the body of a line.
fn body_type(
    alloc: Global,
    theory: &mut Theory,
    body: TermId,
    job: &mut Job,
) -> Result<Typed, ItemFault>
    requires body { IsReadable theory.old body }
    requires deep { count theory.old.context + 1001 < 2 ^ 32 }
    requires pairs { KnowsPairs theory.old job.old.known }
    ensures answer { BodyTypes theory.old theory.new (body_judged (env theory.old) theory.old.context (tree_at theory.old.items body)) body (account theory.old job.old) (account theory.new job.new) result }
    ensures continues { Continues theory.old theory.new }
    ensures pairs { KnowsPairs theory.new job.new.known }
    ensures most { job.new.budget.left ≤ job.old.budget.left }
{
    match infer(alloc, theory, (RuleName::Def, 2), body, 1, job) {
        Ok(typed) => Ok(typed),
        Err(fault) => Err(ItemFault::from(within(PathStep::Body, fault))),
    }
}

// The judgement of a line's body and its stated type.
fn line_judgement(
    alloc: Global,
    theory: &mut Theory,
    body: TermId,
    of: TermId,
    job: &mut Job,
) -> Result<JudgeId, ItemFault>
    requires body { IsReadable theory.old body }
    requires of { IsReadable theory.old of }
    requires deep { count theory.old.context + 1001 < 2 ^ 32 }
    requires pairs { KnowsPairs theory.old job.old.known }
    ensures answer { TypesLine theory.old theory.new (line_judged (env theory.old) theory.old.context (tree_at theory.old.items body) (tree_at theory.old.items of)) body of (account theory.old job.old) (account theory.new job.new) result }
    ensures continues { Continues theory.old theory.new }
    ensures pairs { KnowsPairs theory.new job.new.known }
    ensures most { job.new.budget.left ≤ job.old.budget.left }
{
    if is_box(theory, of) {
        return box_judgement(alloc, theory, body, of, job);
    }
    let sort = type_sort(alloc, theory, RuleName::Def, of, job)?;
    let typed = body_type(alloc, theory, body, job)?;
    if theory.bank().same(typed.of, of) {
        return Ok(typed.judge);
    }
    compared_judgement(alloc, theory, body, of, typed, sort, job)
}

// The same where the type found isn't the stated one as it stands: the two are compared. The stated type has a sort.
fn compared_judgement(
    alloc: Global,
    theory: &mut Theory,
    body: TermId,
    of: TermId,
    typed: Typed,
    sort: JudgeId,
    job: &mut Job,
) -> Result<JudgeId, ItemFault>
    requires body { IsTermAt theory.old.items body }
    requires of { IsReadable theory.old of }
    requires found { IsTermAt theory.old.items typed.of }
    requires judge { Knows (known theory.old) typed.judge (here theory.old (tree_at theory.old.items body) (tree_at theory.old.items typed.of)) }
    requires sort { KnowsSort theory.old sort (tree_at theory.old.items of) }
    requires deep { count theory.old.context < 2 ^ 32 }
    requires pairs { KnowsPairs theory.old job.old.known }
    ensures answer { TypesLine theory.old theory.new
        (same_as_stated (env theory.old) theory.old.context false (tree_at theory.old.items typed.of) (tree_at theory.old.items of)) body of (account theory.old job.old) (account theory.new job.new) result }
    ensures continues { Continues theory.old theory.new }
    ensures pairs { KnowsPairs theory.new job.new.known }
    ensures most { job.new.budget.left ≤ job.old.budget.left }
{
    match theory.compare(alloc, typed, of, 1, job) {
        Ok(Compared::Same(equal)) => {
            match theory.conclude(body, of, Step::Conv(typed.judge, sort, equal)) {
                Ok(judge) => Ok(judge),
                Err(_) => Err(ItemFault::Stop(Stop::Memory)),
            }
        }
        Ok(Compared::Apart { left, right, under }) => {
            let parts = (left, right, under);
            Err(other_type(alloc, theory, typed.of, of, parts))
        }
        Err(stop) => Err(ItemFault::Stop(stop)),
    }
}

// Whether a term is the word box.
fn is_box(theory: &Theory, t: TermId) -> bool
    requires { IsTermAt theory.now.items t }
    ensures { result ≡ is_box (tree_at theory.now.items t) }
{
    matches!(theory.bank().node(t), Node::Box_)
}

// The same where the stated type is the word box.
fn box_judgement(
    alloc: Global,
    theory: &mut Theory,
    body: TermId,
    of: TermId,
    job: &mut Job,
) -> Result<JudgeId, ItemFault>
    requires body { IsReadable theory.old body }
    requires of { IsTermAt theory.old.items of }
    requires stated { is_box (tree_at theory.old.items of) ≡ true }
    requires deep { count theory.old.context + 1001 < 2 ^ 32 }
    requires pairs { KnowsPairs theory.old job.old.known }
    ensures answer { TypesLine theory.old theory.new (has_box (env theory.old) theory.old.context (tree_at theory.old.items body)) body of (account theory.old job.old) (account theory.new job.new) result }
    ensures continues { Continues theory.old theory.new }
    ensures pairs { KnowsPairs theory.new job.new.known }
    ensures most { job.new.budget.left ≤ job.old.budget.left }
{
    let typed = body_type(alloc, theory, body, job)?;
    if theory.bank().same(typed.of, of) {
        Ok(typed.judge)
    } else {
        let parts = (typed.of, of, 0);
        Err(other_type(alloc, theory, typed.of, of, parts))
    }
}

// The refusal of a body whose type is another than the stated one: the two come apart at these parts, under so many binders.
fn other_type(
    alloc: Global,
    theory: &Theory,
    found: TermId,
    wanted: TermId,
    parts: (TermId, TermId, u32),
) -> ItemFault
    requires { count theory.now.context < 2 ^ 32 }
    ensures { (items : List Item) → IsOtherType items theory.now.context (why.NotSame found wanted parts.0 parts.1 parts.2) result }
{
    let mut path = Path::new(alloc);
    if path.within(PathStep::Body).is_err() {
        return ItemFault::Stop(Stop::Memory);
    }
    let (left, right, under) = parts;
    ItemFault::Refused(Failure {
        rule: RuleName::Def,
        premise: 2,
        path,
        depth: theory.depth(),
        why: Why::NotSame {
            found,
            wanted,
            left,
            right,
            under,
        },
    })
}
