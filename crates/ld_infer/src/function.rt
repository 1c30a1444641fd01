//! The product that a function's type is, or exposes.
ghost use Rattle.std.specs.Prelude.{◌≤◌, ◌<◌, ◌+◌, ◌^◌, None};
ghost use Rattle.ld_terms.specs.Tree.{count};
ghost use Rattle.ld_terms.specs.Bank.{tree_at, IsTermAt};
ghost use Rattle.ld_record.specs.Growth.{Knows};
ghost use Rattle.ld_infer.specs.Reading.{part_reading, product_in, product_read, function_reading};
ghost use Rattle.ld_infer.specs.Standing.{known, env, here, account, Continues, KnowsPairs};
ghost use Rattle.ld_infer.specs.Infers.{InfersFunction, IsReadable};
ghost use Rattle.ld_infer.specs.declared.failure.RuleName.TheVariants as rule;

use crate::failure::{InferFault, PathStep, RuleName, Why};
use crate::inference::{Typed, infer_part, type_again};
use crate::refusal::{refusal, within};
use crate::theory::Theory;
use ld_convert::Job;
use ld_record::{JudgeId, Step};
use ld_terms::{Node, TermId};
use std::alloc::Global;

// The domain and the range of a function's type, with a judgement of the function and its type.
#[derive(Clone, Copy, Debug)]
pub(crate) struct FunctionTyped {
    pub(crate) judge: JudgeId,
    pub(crate) domain: TermId,
    pub(crate) range: TermId,
}

// The product that the function of an application has as its type. The function stands at its step.
#[cycle(infer)]
pub(crate) fn function_type(
    alloc: Global,
    theory: &mut Theory,
    f: TermId,
    nest: u32,
    job: &mut Job,
) -> Result<FunctionTyped, InferFault>
    requires term { IsReadable theory.old f }
    requires nest { nest ≤ 1000 }
    requires room { count theory.old.context + 1000 < 2 ^ 32 + nest }
    requires pairs { KnowsPairs theory.old job.old.known }
    ensures answer { InfersFunction theory.old theory.new
        (function_reading (env theory.old) (part_reading nest (env theory.old)) theory.old.context (tree_at theory.old.items f)) f (account theory.old job.old) (account theory.new job.new) result }
    ensures continues { Continues theory.old theory.new }
    ensures pairs { KnowsPairs theory.new job.new.known }
    ensures most { job.new.budget.left ≤ job.old.budget.left }
{
    match product_type(alloc, theory, f, nest, job) {
        Ok(function) => Ok(function),
        Err(fault) => Err(within(PathStep::Fun, fault)),
    }
}

// The same, told of the function itself.
#[cycle(infer)]
fn product_type(
    alloc: Global,
    theory: &mut Theory,
    f: TermId,
    nest: u32,
    job: &mut Job,
) -> Result<FunctionTyped, InferFault>
    requires term { IsReadable theory.old f }
    requires nest { nest ≤ 1000 }
    requires room { count theory.old.context + 1000 < 2 ^ 32 + nest }
    requires pairs { KnowsPairs theory.old job.old.known }
    ensures answer { InfersFunction theory.old theory.new
        (product_read (env theory.old) (part_reading nest (env theory.old)) theory.old.context (tree_at theory.old.items f)) f (account theory.old job.old) (account theory.new job.new) result }
    ensures continues { Continues theory.old theory.new }
    ensures pairs { KnowsPairs theory.new job.new.known }
    ensures most { job.new.budget.left ≤ job.old.budget.left }
{
    let typed = infer_part(alloc, theory, (RuleName::Appl, 1), f, nest + 1, job)?;
    match theory.bank().node(typed.of) {
        Node::Pi(domain, range) => Ok(FunctionTyped {
            judge: typed.judge,
            domain,
            range,
        }),
        _ => exposed_product(alloc, theory, f, typed, nest, job),
    }
}

// The product that a type exposes, where it is none as it stands: the product is typed again, and the function led to it.
#[cycle(infer)]
fn exposed_product(
    alloc: Global,
    theory: &mut Theory,
    f: TermId,
    typed: Typed,
    nest: u32,
    job: &mut Job,
) -> Result<FunctionTyped, InferFault>
    requires term { IsTermAt theory.old.items f }
    requires of { IsTermAt theory.old.items typed.of }
    requires judge { Knows (known theory.old) typed.judge (here theory.old (tree_at theory.old.items f) (tree_at theory.old.items typed.of)) }
    requires nest { nest ≤ 1000 }
    requires room { count theory.old.context + 1000 < 2 ^ 32 + nest }
    requires pairs { KnowsPairs theory.old job.old.known }
    ensures answer { InfersFunction theory.old theory.new
        (product_in (env theory.old) (count theory.old.context) (part_reading nest (env theory.old) theory.old.context) None (rule.Appl, 1) (tree_at theory.old.items typed.of)) f (account theory.old job.old) (account theory.new job.new) result }
    ensures continues { Continues theory.old theory.new }
    ensures pairs { KnowsPairs theory.new job.new.known }
    ensures most { job.new.budget.left ≤ job.old.budget.left }
{
    let asked = (RuleName::Appl, 1);
    let (product, equal) = theory.expose(typed, job)?;
    match theory.bank().node(product) {
        Node::Pi(domain, range) => {
            let sort = type_again(alloc, theory, asked, product, nest, job)?;
            let judge = theory.conclude(f, product, Step::Conv(typed.judge, sort.1, equal))?;
            Ok(FunctionTyped {
                judge,
                domain,
                range,
            })
        }
        _ => Err(refusal(alloc, theory, asked, Why::NotFunction { found: typed.of })),
    }
}
