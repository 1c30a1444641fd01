//! The sort that a type exposes.
ghost use Rattle.std.specs.Prelude.{◌<◌, ◌≤◌, ◌^◌, false};
ghost use Rattle.ld_terms.specs.Tree.{count};
ghost use Rattle.ld_terms.specs.Bank.{tree_at, IsTermAt};
ghost use Rattle.ld_record.specs.Growth.{Knows};
ghost use Rattle.ld_infer.specs.Reading.{sort_in};
ghost use Rattle.ld_infer.specs.Standing.{known, env, here, account, Continues, KnowsPairs};
ghost use Rattle.ld_infer.specs.Infers.{InfersSort};

use crate::failure::{InferFault, RuleName, Why};
use crate::inference::Typed;
use crate::refusal::refusal;
use crate::theory::Theory;
use ld_convert::Job;
use ld_record::{JudgeId, Step};
use ld_terms::{Node, TermId};
use std::alloc::Global;

// The sort of a term whose type is no sort as it stands: the type has to expose `*`, and the term is led to it.
pub(crate) fn exposed_sort(
    alloc: Global,
    theory: &mut Theory,
    asked: (RuleName, u32),
    t: TermId,
    typed: Typed,
    job: &mut Job,
) -> Result<(TermId, JudgeId), InferFault>
    requires term { IsTermAt theory.old.items t }
    requires of { IsTermAt theory.old.items typed.of }
    requires judge { Knows (known theory.old) typed.judge (here theory.old (tree_at theory.old.items t) (tree_at theory.old.items typed.of)) }
    requires room { count theory.old.context < 2 ^ 32 }
    requires pairs { KnowsPairs theory.old job.old.known }
    ensures answer { InfersSort theory.old theory.new
        (sort_in (env theory.old) (count theory.old.context) false asked (tree_at theory.old.items typed.of)) t (account theory.old job.old) (account theory.new job.new) result }
    ensures continues { Continues theory.old theory.new }
    ensures pairs { KnowsPairs theory.new job.new.known }
    ensures most { job.new.budget.left ≤ job.old.budget.left }
{
    let (sort, equal) = theory.expose(typed, job)?;
    match theory.bank().node(sort) {
        Node::Star => {
            let star = theory.star_judgement()?;
            let judge = theory.conclude(t, sort, Step::Conv(typed.judge, star, equal))?;
            Ok((sort, judge))
        }
        _ => Err(refusal(alloc, theory, asked, Why::NotSort { found: typed.of })),
    }
}
