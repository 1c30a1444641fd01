//! The pairs of terms that were found the same.
ghost use Rattle.std.specs.Prelude.{◌≡◌, ◌++◌, ◌∷◌, [], length, All, false, OnOk, OnErr, MatchOption};
ghost use Rattle.ld_terms.specs.Bank.{tree_at, IsTermAt};
ghost use Rattle.ld_convert.specs.Known.{is_known};
ghost use Rattle.ld_convert.specs.Pairs.{pairs_of, has_pair, HasTerms, IsFound};

use fb_base::NoMemory;
use indexmap::IndexMap;
use ld_record::EqId;
use ld_terms::{Bank, TermId};
use std::alloc::Global;
use std::marker::Model;

/// Two terms that were found the same, with a kept equality of them.
#[derive(Clone, Copy, Debug)]
pub struct Pair {
    pub left: TermId,
    pub right: TermId,
    pub equal: EqId,
}

/// The pairs of an item that were found the same, each behind those found before, with the equality of each.
#[derive(Debug, Drop)]
pub struct Known {
    equals: IndexMap<(TermId, TermId), EqId>,
}

impl Model for Known {
    ghost use Rattle.std.specs.Prelude.{List};
    ghost use Rattle.ld_convert.specs.declared.known.Pair.{Pair};
    ghost use Rattle.ld_convert.specs.Pairs.{pairs_in};

    ghost Value = { List Pair };

    ghost view = { λ k. pairs_in k.equals.entries };
}

impl Known {
    /// No pairs.
    pub fn new(alloc: Global) -> Known
        ensures { result ≡ [] }
    {
        Known {
            equals: IndexMap::new(alloc),
        }
    }

    /// How many pairs there are.
    pub fn len(&self) -> usize
        ensures { result ≡ length self.now }
    {
        self.equals.len()
    }

    /// The equality of the pair that has the trees of these terms.
    pub fn find(&self, bank: &Bank, a: TermId, b: TermId) -> Option<EqId>
        requires pairs { All (HasTerms bank.now) self.now }
        requires first { IsTermAt bank.now a }
        requires second { IsTermAt bank.now b }
        ensures { MatchOption result (is_known (pairs_of bank.now self.now) (tree_at bank.now a) (tree_at bank.now b) ≡ false)
            (IsFound bank.now self.now (tree_at bank.now a) (tree_at bank.now b)) }
    {
        bank.keeps_once();
        match self.equals.get(&(a, b)) {
            Some(equal) => Some(*equal),
            None => None,
        }
    }

    /// Adds a pair at the end.
    pub fn add(&mut self, pair: Pair) -> Result<(), NoMemory>
        requires { has_pair self.old pair.left pair.right ≡ false }
        ensures ok { OnOk result (self.new ≡ self.old ++ pair ∷ []) }
        ensures err { OnErr result (self.new ≡ self.old) }
    {
        self.equals
            .insert((pair.left, pair.right), pair.equal)
            .map_err(|_| NoMemory)?;
        Ok(())
    }
}
