//! How many steps may be made.
ghost use Rattle.std.specs.Prelude.{◌≡◌, OnOk, OnErr};
ghost use Rattle.ld_reduce.specs.Work.{work, Takes};

use crate::Stop;
use std::marker::Model;

/// The steps that are left, and those that were made. One budget serves a whole item.
#[derive(Debug, Drop)]
pub struct Budget {
    left: u64,
    spent: u64,
}

impl Model for Budget {
    ghost use Rattle.std.specs.Prelude.{◌<◌, ◌+◌, ◌^◌};
    ghost use Rattle.std.specs.Coded.{codes};
    ghost use Rattle.ld_reduce.specs.Work.{Work, work};

    ghost Value = { Work };

    ghost coded = { Prim.hlevel codes };

    ghost view = { λ b. work b.left b.spent };

    ghost invariant = { λ b. b.left + b.spent < 2 ^ 64 };
}

impl Budget {
    /// A budget of so many steps, none of which is made.
    pub fn new(steps: u64) -> Budget
        ensures { result ≡ work steps 0 }
    {
        Budget {
            left: steps,
            spent: 0,
        }
    }

    /// How many steps are left.
    pub fn left(&self) -> u64
        ensures { result ≡ self.now.left }
    {
        self.left
    }

    /// How many steps were made.
    pub fn spent(&self) -> u64
        ensures { result ≡ self.now.spent }
    {
        self.spent
    }

    /// Makes one step, if one is left.
    pub fn step(&mut self) -> Result<(), Stop>
        ensures ok { OnOk result (Takes self.old self.new 1) }
        ensures none { OnErr result ((self.old.left ≡ 0) × (self.new ≡ self.old)) }
        ensures spent { (stop : Stop) → result ≡ Err stop → stop ≡ Stop.Spent }
    {
        if self.left == 0 {
            return Err(Stop::Spent);
        }
        self.left -= 1;
        self.spent += 1;
        Ok(())
    }
}
