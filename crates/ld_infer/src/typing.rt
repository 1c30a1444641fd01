//! The type and the sort of a term, and what their refusal means.
ghost use Rattle.std.specs.Prelude.{◌≡◌, ◌<◌, ◌≤◌, ◌+◌, ◌^◌, Err};
ghost use Rattle.ld_terms.specs.Tree.{count};
ghost use Rattle.ld_terms.specs.Bank.{tree_at};
ghost use Rattle.ld_infer.specs.declared.failure.InferFault.TheVariants.{Refused};
ghost use Rattle.ld_infer.specs.Reading.{Types, SortOf};
ghost use Rattle.ld_infer.specs.Refusals.{IsUntyped, IsUnsorted};
ghost use Rattle.ld_infer.specs.Standing.{env, account, Continues, KnowsPairs};
ghost use Rattle.ld_infer.specs.Infers.{Infers, InfersSort, IsReadable, refusal_of};

use crate::failure::{Failure, InferFault, RuleName};
use crate::inference::{Typed, infer_part, sort_of_part};
use crate::theory::Theory;
use ld_convert::Job;
use ld_record::JudgeId;
use ld_terms::TermId;
use std::alloc::Global;

/// The type of a term in the theory's context, by the rules for its form. `asked` is the rule and the number of the
/// premise for which the type is wanted: they are reported where the term is `box`. `nest` is the nesting of this reading,
/// 1 for a whole term; readings nested deeper than 1,000 are stopped. A fault is a premise of a rule that fails, or a stop.
pub fn infer(
    alloc: Global,
    theory: &mut Theory,
    asked: (RuleName, u32),
    t: TermId,
    nest: u32,
    job: &mut Job,
) -> Result<Typed, InferFault>
    requires term { IsReadable theory.old t }
    requires nest { nest ≤ 1001 }
    requires room { count theory.old.context + 1001 < 2 ^ 32 + nest }
    requires pairs { KnowsPairs theory.old job.old.known }
    ensures answer { Infers theory.old theory.new (Types (env theory.old) theory.old.context nest asked (tree_at theory.old.items t)) t (account theory.old job.old) (account theory.new job.new) result }
    ensures refused { (f : Failure) → result ≡ Err (Refused f) → IsUntyped (env theory.old) theory.old.context (tree_at theory.old.items t) (refusal_of theory.new.items f) }
    ensures continues { Continues theory.old theory.new }
    ensures pairs { KnowsPairs theory.new job.new.known }
    ensures most { job.new.budget.left ≤ job.old.budget.left }
{
    theory.keeps_legal();
    theory.keeps_convertible(job);
    infer_part(alloc, theory, asked, t, nest, job)
}

/// The sort of a term, with a judgement of the term and the sort. A type that isn't `*` or `box` as it stands is reduced at
/// its head. It faults as [`infer`] does, and where that doesn't lead to `*`.
pub fn sort_of(
    alloc: Global,
    theory: &mut Theory,
    asked: (RuleName, u32),
    t: TermId,
    nest: u32,
    job: &mut Job,
) -> Result<(TermId, JudgeId), InferFault>
    requires term { IsReadable theory.old t }
    requires nest { nest ≤ 1001 }
    requires room { count theory.old.context + 1001 < 2 ^ 32 + nest }
    requires pairs { KnowsPairs theory.old job.old.known }
    ensures answer { InfersSort theory.old theory.new (SortOf (env theory.old) theory.old.context nest asked (tree_at theory.old.items t)) t (account theory.old job.old) (account theory.new job.new) result }
    ensures refused { (f : Failure) → result ≡ Err (Refused f) → IsUnsorted (env theory.old) theory.old.context (tree_at theory.old.items t) (refusal_of theory.new.items f) }
    ensures continues { Continues theory.old theory.new }
    ensures pairs { KnowsPairs theory.new job.new.known }
    ensures most { job.new.budget.left ≤ job.old.budget.left }
{
    theory.keeps_legal();
    theory.keeps_convertible(job);
    sort_of_part(alloc, theory, asked, t, nest, job)
}
