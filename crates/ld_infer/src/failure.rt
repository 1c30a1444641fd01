//! What a rule refuses, and where.
ghost use Rattle.std.specs.Prelude.{◌≡◌, ◌∷◌, [], ◌<◌, length, slice_get, Some, OnOk, OnErr};

use fb_base::NoMemory;
use ld_reduce::Stop;
use ld_terms::{TermFault, TermId};
use std::alloc::Global;
use std::marker::Model;
use thiserror::Error;

/// A rule that can refuse, by its name in the rule table (docs/calculus.md), which is after Nederpelt and Geuvers,
/// *Type Theory and Formal Proof*, chapters 8 to 11.
#[derive(Clone, Copy, Debug, PartialEq, Eq)]
pub enum RuleName {
    Weak,
    Form,
    Appl,
    Abst,
    Def,
    DefPrim,
    Inst,
    InstPrim,
}

/// A step from an item inwards: to its stated type or its body, or to a part of a term.
#[derive(Clone, Copy, Debug, PartialEq, Eq)]
pub enum PathStep {
    Of,
    Body,
    Dom,
    Ran,
    Fun,
    Arg,
    /// An argument, counted from 1.
    Nth(u32),
}

/// The steps to a part, from the item inwards.
#[derive(Debug, Drop)]
pub struct Path {
    // the last step first
    steps: Vec<PathStep>,
}

impl Model for Path {
    ghost use Rattle.std.specs.Prelude.{List, reverse};
    ghost use Rattle.ld_infer.specs.declared.failure.PathStep.{PathStep};

    ghost Value = { List PathStep };

    ghost view = { λ p. reverse p.steps.items };
}

impl Path {
    /// The path to the item itself.
    pub fn new(alloc: Global) -> Path
        ensures { result ≡ [] }
    {
        Path {
            steps: Vec::new(alloc),
        }
    }

    /// Puts a step in front.
    pub fn within(&mut self, step: PathStep) -> Result<(), NoMemory>
        ensures ok { OnOk result (self.new ≡ step ∷ self.old) }
        ensures err { OnErr result (self.new ≡ self.old) }
    {
        self.steps.push(step).map_err(|_| NoMemory)?;
        Ok(())
    }

    /// How many steps there are.
    pub fn len(&self) -> usize
        ensures { result ≡ length self.now }
    {
        self.steps.len()
    }

    /// The step at a place, counted from the item inwards.
    pub fn step(&self, i: usize) -> PathStep
        requires { i < length self.now }
        ensures { slice_get self.now i ≡ Some result }
    {
        self.steps[self.steps.len() - 1 - i]
    }
}

/// Why a premise fails. The terms stand in the context of the failure's depth.
#[derive(Clone, Copy, Debug, PartialEq, Eq)]
pub enum Why {
    /// The part is `box`, which has no type.
    NoType,
    /// The type found for the part is no sort, and doesn't lead to `*` at its head.
    NotSort {
        found: TermId,
    },
    /// The type found for the part is no product, and doesn't lead to one at its head.
    NotFunction {
        found: TermId,
    },
    /// The body of an abstraction has the type `box`.
    BoxBody,
    /// The type found is not the one wanted. `left` and `right` are the parts of the two that differ, below
    /// so many further binders.
    NotSame {
        found: TermId,
        wanted: TermId,
        left: TermId,
        right: TermId,
        under: u32,
    },
}

/// A premise that fails: the rule that asks for it, the premise's number in the rule table, the path to the
/// part at which it fails, and how many variables the context has there.
#[derive(Debug, Drop)]
pub struct Failure {
    pub rule: RuleName,
    pub premise: u32,
    pub path: Path,
    pub depth: u32,
    pub why: Why,
}

/// Why no type of a term is found.
#[derive(Debug, Drop, Error)]
pub enum InferFault {
    #[error("a rule refuses the term")]
    Refused(Failure),
    #[error("the check stops")]
    Stop(Stop),
}

impl From<Stop> for InferFault {
    ghost use Rattle.std.specs.Prelude.{◌≡◌};
    ghost use Rattle.ld_infer.specs.declared.failure.InferFault.TheVariants.{Stop};

    ghost from_gives = { λ stop fault. fault ≡ Stop stop };

    fn from(stop: Stop) -> Self {
        InferFault::Stop(stop)
    }
}

impl From<NoMemory> for InferFault {
    ghost use Rattle.std.specs.Prelude.{◌≡◌};
    ghost use Rattle.ld_infer.specs.declared.failure.InferFault.TheVariants.{Stop};
    ghost use Rattle.ld_reduce.specs.declared.stop.Stop.TheVariants.{Memory};

    ghost from_gives = { λ _ fault. fault ≡ Stop Memory };

    fn from(_: NoMemory) -> Self {
        InferFault::Stop(Stop::Memory)
    }
}

impl From<TermFault> for InferFault {
    ghost use Rattle.std.specs.Prelude.{◌≡◌};
    ghost use Rattle.ld_infer.specs.declared.failure.InferFault.TheVariants.{Stop};
    ghost use Rattle.ld_reduce.specs.Cost.{stop_of};

    ghost from_gives = { λ fault f. f ≡ Stop (stop_of fault) };

    fn from(fault: TermFault) -> Self {
        InferFault::Stop(Stop::from(fault))
    }
}

#[cfg(test)]
mod tests {
    use super::*;
    use std::test::Fail;

    #[test]
    fn steps_stand_in_front(rt: HostRuntime) -> Result<(), Fail> {
        let mut path = Path::new(rt.alloc());
        path.within(PathStep::Ran).map_err(|_| "memory")?;
        path.within(PathStep::Of).map_err(|_| "memory")?;
        assert_eq!(rt; path.len(), 2);
        assert!(rt; path.step(0) == PathStep::Of);
        assert!(rt; path.step(1) == PathStep::Ran);
        Ok(())
    }
}
