//! The judgement of an argument and the type that is wanted of it.
ghost use Rattle.std.specs.Prelude.{◌<◌, ◌≤◌, ◌+◌, ◌^◌, false};
ghost use Rattle.ld_terms.specs.Tree.{count};
ghost use Rattle.ld_terms.specs.Bank.{tree_at, IsTermAt};
ghost use Rattle.ld_record.specs.Growth.{Knows};
ghost use Rattle.ld_convert.specs.Compares.{Compares};
ghost use Rattle.ld_infer.specs.Reading.{part_reading, suits, suited_reading, argument_reading};
ghost use Rattle.ld_infer.specs.Standing.{known, env, here, account, Continues, KnowsPairs};
ghost use Rattle.ld_infer.specs.Infers.{Suits, IsReadable};

use crate::failure::{InferFault, PathStep, RuleName};
use crate::inference::{Typed, infer_part, type_again};
use crate::refusal::{not_same, within};
use crate::theory::Theory;
use ld_convert::{Compared, Job};
use ld_record::{JudgeId, Step};
use ld_terms::TermId;
use std::alloc::Global;

// The judgement of an argument and the type that is wanted of it. The argument stands at the step, and is read for the rule
// and the premise that are named.
#[cycle(infer)]
pub(crate) fn argument_judgement(
    alloc: Global,
    theory: &mut Theory,
    step: PathStep,
    asked: (RuleName, u32),
    wanted: TermId,
    u: TermId,
    nest: u32,
    job: &mut Job,
) -> Result<JudgeId, InferFault>
    requires term { IsReadable theory.old u }
    requires wanted { IsReadable theory.old wanted }
    requires nest { nest ≤ 1000 }
    requires room { count theory.old.context + 1000 < 2 ^ 32 + nest }
    requires pairs { KnowsPairs theory.old job.old.known }
    ensures answer { Suits theory.old theory.new
        (argument_reading (env theory.old) (Compares (env theory.old) (nest + 1)) (count theory.old.context) (part_reading nest (env theory.old) theory.old.context) step asked (tree_at theory.old.items wanted) (tree_at theory.old.items u))
        (tree_at theory.old.items u) (tree_at theory.old.items wanted) (account theory.old job.old) (account theory.new job.new) result }
    ensures continues { Continues theory.old theory.new }
    ensures pairs { KnowsPairs theory.new job.new.known }
    ensures most { job.new.budget.left ≤ job.old.budget.left }
{
    match suited_judgement(alloc, theory, asked, wanted, u, nest, job) {
        Ok(judge) => Ok(judge),
        Err(fault) => Err(within(step, fault)),
    }
}

// The same, told of the argument itself.
#[cycle(infer)]
fn suited_judgement(
    alloc: Global,
    theory: &mut Theory,
    asked: (RuleName, u32),
    wanted: TermId,
    u: TermId,
    nest: u32,
    job: &mut Job,
) -> Result<JudgeId, InferFault>
    requires term { IsReadable theory.old u }
    requires wanted { IsReadable theory.old wanted }
    requires nest { nest ≤ 1000 }
    requires room { count theory.old.context + 1000 < 2 ^ 32 + nest }
    requires pairs { KnowsPairs theory.old job.old.known }
    ensures answer { Suits theory.old theory.new
        (suited_reading (env theory.old) (Compares (env theory.old) (nest + 1)) (count theory.old.context) (part_reading nest (env theory.old) theory.old.context) asked (tree_at theory.old.items wanted) (tree_at theory.old.items u))
        (tree_at theory.old.items u) (tree_at theory.old.items wanted) (account theory.old job.old) (account theory.new job.new) result }
    ensures continues { Continues theory.old theory.new }
    ensures pairs { KnowsPairs theory.new job.new.known }
    ensures most { job.new.budget.left ≤ job.old.budget.left }
{
    let typed = infer_part(alloc, theory, asked, u, nest + 1, job)?;
    if theory.bank().same(typed.of, wanted) {
        return Ok(typed.judge);
    }
    compared_judgement(alloc, theory, asked, wanted, u, typed, nest, job)
}

// The same where the type found isn't the one wanted as it stands: the two are compared, and the one wanted is typed again.
#[cycle(infer)]
fn compared_judgement(
    alloc: Global,
    theory: &mut Theory,
    asked: (RuleName, u32),
    wanted: TermId,
    u: TermId,
    typed: Typed,
    nest: u32,
    job: &mut Job,
) -> Result<JudgeId, InferFault>
    requires term { IsTermAt theory.old.items u }
    requires of { IsTermAt theory.old.items typed.of }
    requires judge { Knows (known theory.old) typed.judge (here theory.old (tree_at theory.old.items u) (tree_at theory.old.items typed.of)) }
    requires wanted { IsReadable theory.old wanted }
    requires nest { nest ≤ 1000 }
    requires room { count theory.old.context + 1000 < 2 ^ 32 + nest }
    requires pairs { KnowsPairs theory.old job.old.known }
    ensures answer { Suits theory.old theory.new
        (suits (env theory.old) (Compares (env theory.old) (nest + 1)) (count theory.old.context) (part_reading nest (env theory.old) theory.old.context) false asked (tree_at theory.old.items typed.of) (tree_at theory.old.items wanted))
        (tree_at theory.old.items u) (tree_at theory.old.items wanted) (account theory.old job.old) (account theory.new job.new) result }
    ensures continues { Continues theory.old theory.new }
    ensures pairs { KnowsPairs theory.new job.new.known }
    ensures most { job.new.budget.left ≤ job.old.budget.left }
{
    let compared = theory.compare(alloc, typed, wanted, nest + 1, job)?;
    match compared {
        Compared::Same(equal) => {
            let sort = type_again(alloc, theory, asked, wanted, nest, job)?;
            let judge = theory.conclude(u, wanted, Step::Conv(typed.judge, sort.1, equal))?;
            Ok(judge)
        }
        Compared::Apart { left, right, under } => {
            let parts = (left, right, under);
            Err(not_same(alloc, theory, asked, typed.of, wanted, parts))
        }
    }
}
