//! Refusals, and how those of parts are told.
ghost use Rattle.std.specs.Prelude.{◌<◌, ◌-◌, ◌^◌, List};
ghost use Rattle.ld_terms.specs.Tree.{count};
ghost use Rattle.ld_terms.specs.Item.{Item};
ghost use Rattle.ld_infer.specs.Reading as reading;
ghost use Rattle.ld_infer.specs.Infers.{IsRefusedBy, IsWithin, reason_of};
ghost use Rattle.ld_infer.specs.declared.failure.RuleName.TheVariants as rule;
ghost use Rattle.ld_infer.specs.declared.failure.Why.TheVariants as why;

use crate::failure::{Failure, InferFault, Path, PathStep, RuleName, Why};
use crate::theory::Theory;
use ld_reduce::Stop;
use ld_terms::TermId;
use std::alloc::Global;

// A refusal of the term itself.
pub(crate) fn refusal(
    alloc: Global,
    theory: &Theory,
    asked: (RuleName, u32),
    why: Why,
) -> InferFault
    requires { count theory.now.context < 2 ^ 32 }
    ensures { (items : List Item) → IsRefusedBy items (reading.refusal asked (count theory.now.context) (reason_of items why)) result }
{
    InferFault::Refused(Failure {
        rule: asked.0,
        premise: asked.1,
        path: Path::new(alloc),
        depth: theory.depth(),
        why,
    })
}

// The refusal of an abstraction whose body has the type box. The theory is in the context of the body.
pub(crate) fn box_body(alloc: Global, theory: &Theory) -> InferFault
    requires inner { 0 < count theory.now.context }
    requires room { count theory.now.context < 2 ^ 32 }
    ensures { (items : List Item) → IsRefusedBy items (reading.refusal (rule.Abst, 2) (count theory.now.context - 1) reading.BoxBody) result }
{
    InferFault::Refused(Failure {
        rule: RuleName::Abst,
        premise: 2,
        path: Path::new(alloc),
        depth: theory.depth() - 1,
        why: Why::BoxBody,
    })
}

// The refusal of a term whose type isn't the one that is wanted: the two come apart at these parts, under so many binders.
pub(crate) fn not_same(
    alloc: Global,
    theory: &Theory,
    asked: (RuleName, u32),
    found: TermId,
    wanted: TermId,
    parts: (TermId, TermId, u32),
) -> InferFault
    requires { count theory.now.context < 2 ^ 32 }
    ensures { (items : List Item) → IsRefusedBy items
        (reading.refusal asked (count theory.now.context) (reason_of items (why.NotSame found wanted parts.0 parts.1 parts.2))) result }
{
    let (left, right, under) = parts;
    let why = Why::NotSame {
        found,
        wanted,
        left,
        right,
        under,
    };
    refusal(alloc, theory, asked, why)
}

/// The fault of a part that stands at a step: the step goes in front of a refusal's path.
pub fn within(step: PathStep, fault: InferFault) -> InferFault
    ensures { IsWithin step fault result }
{
    match fault {
        InferFault::Refused(mut failure) => match failure.path.within(step) {
            Ok(()) => InferFault::Refused(failure),
            Err(_) => InferFault::Stop(Stop::Memory),
        },
        other => other,
    }
}
