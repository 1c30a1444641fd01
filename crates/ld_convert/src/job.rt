//! What a comparison works with, and what it answers.
ghost use Rattle.std.specs.Prelude.{◌≡◌, []};
ghost use Rattle.ld_reduce.specs.Work.{work};

use crate::Known;
use ld_record::EqId;
use ld_reduce::Budget;
use ld_terms::TermId;
use std::alloc::Global;

/// The budget of an item, and the pairs of terms that were found the same in it.
#[derive(Debug, Drop)]
pub struct Job {
    pub budget: Budget,
    pub known: Known,
}

impl Job {
    /// A job of so many steps, none of which is made, with no pairs.
    pub fn new(alloc: Global, budget: u64) -> Job
        ensures budget { result.budget ≡ work budget 0 }
        ensures known { result.known ≡ [] }
    {
        Job {
            budget: Budget::new(budget),
            known: Known::new(alloc),
        }
    }
}

/// The answer of a comparison.
#[derive(Clone, Copy, Debug)]
pub enum Compared {
    /// The two are the same, by a kept equality.
    Same(EqId),
    /// Two terms whose heads differ, under so many binders of the two that were compared.
    Apart {
        left: TermId,
        right: TermId,
        under: u32,
    },
}
