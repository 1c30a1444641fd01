//! The type of a term, by the form of the term.
ghost use Rattle.std.specs.Prelude.{◌≡◌, ◌<◌, ◌≤◌, ◌+◌, ◌^◌, is_some, IfSome};
ghost use Rattle.ld_terms.specs.Tree.{Tree, Trees, App, Lam, Pi, ◌▸◌, count};
ghost use Rattle.ld_terms.specs.Bank.{tree_at, IsTermAt};
ghost use Rattle.ld_convert.specs.Compares.{Compares};
ghost use Rattle.ld_infer.specs.Reading.{Types, SortOf, part_reading, within as part, product_reading, abstraction_reading, body_reading, application_reading, again, again_unless};
ghost use Rattle.ld_infer.specs.Standing.{env, account, Continues, KnowsSort, KnowsPairs};
ghost use Rattle.ld_infer.specs.Infers.{Infers, InfersSort, TypesAgain, InfersBody, IsReadable};
ghost use Rattle.ld_infer.specs.declared.failure.RuleName.TheVariants as rule;
ghost use Rattle.ld_infer.specs.declared.failure.PathStep.TheVariants.{Dom};

use crate::argument::argument_judgement;
use crate::exposing::exposed_sort;
use crate::failure::{InferFault, PathStep, RuleName, Why};
use crate::function::function_type;
use crate::instance::instance;
use crate::leaf::{sort_of_sort, star, variable};
use crate::refusal::{box_body, refusal, within};
use crate::theory::Theory;
use ld_convert::Job;
use ld_record::{JudgeId, Step};
use ld_reduce::Stop;
use ld_terms::{Node, TermId};
use std::alloc::Global;

const GREATEST_NESTING: u32 = 1000;

/// The type of a term, with a judgement of the term and its type, and where the type's sort came with it a judgement of
/// the type and its sort. The judgements are in the theory's context, over all entries.
#[derive(Clone, Copy, Debug)]
pub struct Typed {
    pub of: TermId,
    pub judge: JudgeId,
    pub of_judge: Option<JudgeId>,
}

// The type of an abstraction's body, with judgements of the body and its type and of the type and its sort, which is the
// first of the pair.
#[derive(Clone, Copy, Debug)]
struct BodyTyped {
    of: TermId,
    judge: JudgeId,
    sort: (TermId, JudgeId),
}

// The type of a term or of a part of one, by the rules for its form.
#[cycle(infer)]
pub(crate) fn infer_part(
    alloc: Global,
    theory: &mut Theory,
    asked: (RuleName, u32),
    t: TermId,
    nest: u32,
    job: &mut Job,
) -> Result<Typed, InferFault>
    requires term { IsReadable theory.old t }
    requires nest { nest ≤ 1001 }
    requires room { count theory.old.context + 1001 < 2 ^ 32 + nest }
    requires pairs { KnowsPairs theory.old job.old.known }
    ensures answer { Infers theory.old theory.new (Types (env theory.old) theory.old.context nest asked (tree_at theory.old.items t)) t (account theory.old job.old) (account theory.new job.new) result }
    ensures continues { Continues theory.old theory.new }
    ensures pairs { KnowsPairs theory.new job.new.known }
    ensures most { job.new.budget.left ≤ job.old.budget.left }
{
    if nest > GREATEST_NESTING {
        return Err(InferFault::Stop(Stop::Nested));
    }
    match theory.bank().node(t) {
        Node::Star => star(theory, t),
        Node::Box_ => Err(refusal(alloc, theory, asked, Why::NoType)),
        Node::Var(i) => variable(theory, t, i),
        Node::Pi(a, b) => product(alloc, theory, t, a, b, nest, job),
        Node::Lam(a, m) => abstraction(alloc, theory, t, a, m, nest, job),
        Node::App(f, u) => application(alloc, theory, t, f, u, nest, job),
        Node::Const(k, us) => instance(alloc, theory, t, k, us, nest, job),
        Node::Nil | Node::Cons(..) => unreachable!(),
    }
}

// The sort of a term or of a part of one: the type that it has is a sort as it stands, or leads to `*` at its head.
#[cycle(infer)]
pub(crate) fn sort_of_part(
    alloc: Global,
    theory: &mut Theory,
    asked: (RuleName, u32),
    t: TermId,
    nest: u32,
    job: &mut Job,
) -> Result<(TermId, JudgeId), InferFault>
    requires term { IsReadable theory.old t }
    requires nest { nest ≤ 1001 }
    requires room { count theory.old.context + 1001 < 2 ^ 32 + nest }
    requires pairs { KnowsPairs theory.old job.old.known }
    ensures answer { InfersSort theory.old theory.new (SortOf (env theory.old) theory.old.context nest asked (tree_at theory.old.items t)) t (account theory.old job.old) (account theory.new job.new) result }
    ensures continues { Continues theory.old theory.new }
    ensures pairs { KnowsPairs theory.new job.new.known }
    ensures most { job.new.budget.left ≤ job.old.budget.left }
{
    let typed = infer_part(alloc, theory, asked, t, nest, job)?;
    match theory.bank().node(typed.of) {
        Node::Star | Node::Box_ => Ok((typed.of, typed.judge)),
        _ => exposed_sort(alloc, theory, asked, t, typed, job),
    }
}

// Types a type again: one step, and then its sort.
#[cycle(infer)]
pub(crate) fn type_again(
    alloc: Global,
    theory: &mut Theory,
    asked: (RuleName, u32),
    t: TermId,
    nest: u32,
    job: &mut Job,
) -> Result<(TermId, JudgeId), InferFault>
    requires term { IsReadable theory.old t }
    requires nest { nest ≤ 1000 }
    requires room { count theory.old.context + 1000 < 2 ^ 32 + nest }
    requires pairs { KnowsPairs theory.old job.old.known }
    ensures answer { TypesAgain theory.old theory.new
        (again (env theory.old) (count theory.old.context) (part_reading nest (env theory.old) theory.old.context) asked (tree_at theory.old.items t)) t (account theory.old job.old) (account theory.new job.new) result }
    ensures continues { Continues theory.old theory.new }
    ensures pairs { KnowsPairs theory.new job.new.known }
    ensures most { job.new.budget.left ≤ job.old.budget.left }
{
    job.budget.step()?;
    sort_of_part(alloc, theory, asked, t, nest + 1, job)
}

// The type of a product is the sort of its range, below one variable more.
#[cycle(infer)]
fn product(
    alloc: Global,
    theory: &mut Theory,
    t: TermId,
    a: TermId,
    b: TermId,
    nest: u32,
    job: &mut Job,
) -> Result<Typed, InferFault>
    requires term { IsReadable theory.old t }
    requires parts { IsTermAt theory.old.items a × IsTermAt theory.old.items b }
    requires is { tree_at theory.old.items t ≡ Pi (tree_at theory.old.items a) (tree_at theory.old.items b) }
    requires nest { nest ≤ 1000 }
    requires room { count theory.old.context + 1001 < 2 ^ 32 + nest }
    requires pairs { KnowsPairs theory.old job.old.known }
    ensures answer { Infers theory.old theory.new
        (product_reading (env theory.old) (part_reading nest (env theory.old)) theory.old.context (tree_at theory.old.items a) (tree_at theory.old.items b)) t (account theory.old job.old) (account theory.new job.new) result }
    ensures continues { Continues theory.old theory.new }
    ensures pairs { KnowsPairs theory.new job.new.known }
    ensures most { job.new.budget.left ≤ job.old.budget.left }
{
    let domain = domain_sort(alloc, theory, RuleName::Form, a, nest, job)?;
    theory.enter(a, domain.1)?;
    let range = sort_of_part(alloc, theory, (RuleName::Form, 2), b, nest + 1, job);
    theory.leave();
    let range = match range {
        Ok(range) => range,
        Err(fault) => return Err(within(PathStep::Ran, fault)),
    };
    let judge = theory.conclude(t, range.0, Step::Form(domain.1, range.1))?;
    let of_judge = sort_of_sort(theory, range.0)?;
    Ok(Typed {
        of: range.0,
        judge,
        of_judge,
    })
}

// The sort of a domain, for which a rule asks as its first premise.
#[cycle(infer)]
fn domain_sort(
    alloc: Global,
    theory: &mut Theory,
    rule: RuleName,
    a: TermId,
    nest: u32,
    job: &mut Job,
) -> Result<(TermId, JudgeId), InferFault>
    requires term { IsReadable theory.old a }
    requires nest { nest ≤ 1000 }
    requires room { count theory.old.context + 1000 < 2 ^ 32 + nest }
    requires pairs { KnowsPairs theory.old job.old.known }
    ensures answer { InfersSort theory.old theory.new
        (part Dom (SortOf (env theory.old) theory.old.context (nest + 1) (rule, 1) (tree_at theory.old.items a))) a (account theory.old job.old) (account theory.new job.new) result }
    ensures continues { Continues theory.old theory.new }
    ensures pairs { KnowsPairs theory.new job.new.known }
    ensures most { job.new.budget.left ≤ job.old.budget.left }
{
    match sort_of_part(alloc, theory, (rule, 1), a, nest + 1, job) {
        Ok(domain) => Ok(domain),
        Err(fault) => Err(within(PathStep::Dom, fault)),
    }
}

// The type of an abstraction is a product.
#[cycle(infer)]
fn abstraction(
    alloc: Global,
    theory: &mut Theory,
    t: TermId,
    a: TermId,
    m: TermId,
    nest: u32,
    job: &mut Job,
) -> Result<Typed, InferFault>
    requires term { IsReadable theory.old t }
    requires parts { IsTermAt theory.old.items a × IsTermAt theory.old.items m }
    requires is { tree_at theory.old.items t ≡ Lam (tree_at theory.old.items a) (tree_at theory.old.items m) }
    requires nest { nest ≤ 1000 }
    requires room { count theory.old.context + 1001 < 2 ^ 32 + nest }
    requires pairs { KnowsPairs theory.old job.old.known }
    ensures answer { Infers theory.old theory.new
        (abstraction_reading (env theory.old) (part_reading nest (env theory.old)) theory.old.context (tree_at theory.old.items a) (tree_at theory.old.items m)) t (account theory.old job.old) (account theory.new job.new) result }
    ensures continues { Continues theory.old theory.new }
    ensures pairs { KnowsPairs theory.new job.new.known }
    ensures most { job.new.budget.left ≤ job.old.budget.left }
{
    let domain = domain_sort(alloc, theory, RuleName::Abst, a, nest, job)?;
    theory.enter(a, domain.1)?;
    let body = body_type(alloc, theory, m, nest, job);
    theory.leave();
    let body = body?;
    let of = theory.add(Node::Pi(a, body.of))?;
    let formed = theory.conclude(of, body.sort.0, Step::Form(domain.1, body.sort.1))?;
    let judge = theory.conclude(t, of, Step::Abst(body.judge, formed))?;
    Ok(Typed {
        of,
        judge,
        of_judge: Some(formed),
    })
}

// The type of the body of an abstraction, and its sort, in the context that has the variable.
#[cycle(infer)]
fn body_type(
    alloc: Global,
    theory: &mut Theory,
    m: TermId,
    nest: u32,
    job: &mut Job,
) -> Result<BodyTyped, InferFault>
    requires term { IsReadable theory.old m }
    requires inner { 0 < count theory.old.context }
    requires nest { nest ≤ 1000 }
    requires room { count theory.old.context + 1000 < 2 ^ 32 + nest }
    requires pairs { KnowsPairs theory.old job.old.known }
    ensures answer { (ctx : Trees) (a : Tree) → theory.old.context ≡ ctx ▸ a → InfersBody theory.old theory.new
        (body_reading (env theory.old) (part_reading nest (env theory.old)) ctx a (tree_at theory.old.items m)) m (account theory.old job.old) (account theory.new job.new) result }
    ensures continues { Continues theory.old theory.new }
    ensures pairs { KnowsPairs theory.new job.new.known }
    ensures most { job.new.budget.left ≤ job.old.budget.left }
{
    let typed = match infer_part(alloc, theory, (RuleName::Abst, 1), m, nest + 1, job) {
        Ok(typed) => typed,
        Err(fault) => return Err(within(PathStep::Body, fault)),
    };
    if let Node::Box_ = theory.bank().node(typed.of) {
        return Err(box_body(alloc, theory));
    }
    theory.keeps_well_formed();
    let sort = sort_of_type(alloc, theory, typed, nest, job)?;
    Ok(BodyTyped {
        of: typed.of,
        judge: typed.judge,
        sort,
    })
}

// The sort of a body's type: the one that came with it, or else the type is typed again.
#[cycle(infer)]
fn sort_of_type(
    alloc: Global,
    theory: &mut Theory,
    typed: Typed,
    nest: u32,
    job: &mut Job,
) -> Result<(TermId, JudgeId), InferFault>
    requires term { IsReadable theory.old typed.of }
    requires sorted { IfSome typed.of_judge (λ j. KnowsSort theory.old j (tree_at theory.old.items typed.of)) }
    requires nest { nest ≤ 1000 }
    requires room { count theory.old.context + 1000 < 2 ^ 32 + nest }
    requires pairs { KnowsPairs theory.old job.old.known }
    ensures answer { TypesAgain theory.old theory.new
        (again_unless (env theory.old) (count theory.old.context) (part_reading nest (env theory.old) theory.old.context) (is_some typed.of_judge) (rule.Abst, 2) (tree_at theory.old.items typed.of))
        typed.of (account theory.old job.old) (account theory.new job.new) result }
    ensures continues { Continues theory.old theory.new }
    ensures pairs { KnowsPairs theory.new job.new.known }
    ensures most { job.new.budget.left ≤ job.old.budget.left }
{
    match typed.of_judge {
        Some(j) => Ok((theory.type_of(j), j)),
        None => type_again(alloc, theory, (RuleName::Abst, 2), typed.of, nest, job),
    }
}

// The type of an application is the range of its function's type, with the argument put in.
#[cycle(infer)]
fn application(
    alloc: Global,
    theory: &mut Theory,
    t: TermId,
    f: TermId,
    u: TermId,
    nest: u32,
    job: &mut Job,
) -> Result<Typed, InferFault>
    requires term { IsReadable theory.old t }
    requires parts { IsTermAt theory.old.items f × IsTermAt theory.old.items u }
    requires is { tree_at theory.old.items t ≡ App (tree_at theory.old.items f) (tree_at theory.old.items u) }
    requires nest { nest ≤ 1000 }
    requires room { count theory.old.context + 1001 < 2 ^ 32 + nest }
    requires pairs { KnowsPairs theory.old job.old.known }
    ensures answer { Infers theory.old theory.new
        (application_reading (env theory.old) (Compares (env theory.old) (nest + 1)) (part_reading nest (env theory.old)) theory.old.context (tree_at theory.old.items f) (tree_at theory.old.items u)) t (account theory.old job.old) (account theory.new job.new) result }
    ensures continues { Continues theory.old theory.new }
    ensures pairs { KnowsPairs theory.new job.new.known }
    ensures most { job.new.budget.left ≤ job.old.budget.left }
{
    let function = function_type(alloc, theory, f, nest, job)?;
    theory.keeps_well_formed();
    let asked = (RuleName::Appl, 2);
    let domain = function.domain;
    let argument = argument_judgement(alloc, theory, PathStep::Arg, asked, domain, u, nest, job)?;
    let of = theory.instantiate(function.range, &[u])?;
    let judge = theory.conclude(t, of, Step::Appl(function.judge, argument))?;
    Ok(Typed {
        of,
        judge,
        of_judge: None,
    })
}
