//! How a theory keeps judgements of its context, also as entries, and its variables.
ghost use Rattle.std.specs.Prelude.{◌≡◌, ◌<◌, ◌+◌, ◌^◌, length, IfOk, OnOk, OnErr};
ghost use Rattle.ld_terms.specs.Tree.{Tree, Star, count};
ghost use Rattle.ld_terms.specs.Bank.{tree_at, IsTermAt};
ghost use Rattle.ld_terms.specs.Named.{IsWellFormed};
ghost use Rattle.ld_terms.specs.Derivable.{IsLegalContext};
ghost use Rattle.ld_terms.specs.Known.{line_entry, primitive_entry, IsFree};
ghost use Rattle.ld_record.specs.Growth.{Knows};
ghost use Rattle.ld_record.specs.Follows.{Follows};
ghost use Rattle.ld_convert.specs.Sameness.{AreConvertible};
ghost use Rattle.ld_infer.specs.Standing.{known, env, here, account, KnowsSort, KnowsPairs, Enters, AddsEntry, Continues, Goes};

use crate::theory::Theory;
use fb_base::NoMemory;
use ld_convert::Job;
use ld_env::Entry;
use ld_record::{JudgeId, Step};
use ld_terms::TermId;
use std::alloc::Global;

impl Theory {
    // Terms and types of judgements are over the entries and variables that are there: for the proofs of what reads a type.
    pub(crate) fn keeps_well_formed(&self)
        ensures { (j : JudgeId) (t type : Tree) → Knows (known self.now) j (here self.now t type)
            → IsWellFormed (env self.now) (count self.now.context) t × IsWellFormed (env self.now) (count self.now.context) type }
    {
        let _deriv = self.deriv();
    }

    /// The context is legal over the environment. It does nothing: callers call it for what it says.
    pub fn keeps_legal(&self)
        ensures { IsLegalContext (env self.now) self.now.context }
    {
        let _deriv = self.deriv();
    }

    /// The terms of each pair that a job knows are convertible. It does nothing: callers call it for what it says.
    pub fn keeps_convertible(&self, job: &Job)
        requires pairs { KnowsPairs self.now job.now.known }
        ensures { AreConvertible (env self.now) (account self.now job.now).known }
    {
        let _deriv = self.deriv();
        let _left = job.budget.left();
    }

    /// Puts a variable of the type `of` at the end of the context. `sort` is a judgement for a sort of the type.
    pub fn enter(&mut self, of: TermId, sort: JudgeId) -> Result<(), NoMemory>
        requires of { IsTermAt self.old.items of }
        requires sort { KnowsSort self.old sort (tree_at self.old.items of) }
        ensures ok { OnOk result (Enters self.old self.new (tree_at self.old.items of)) }
        ensures err { OnErr result (Continues self.old self.new) }
    {
        let star = self.star_judgement()?;
        self.enter_by(of, star, sort)
    }

    /// Keeps a judgement of the context, over all entries, that follows by a rule.
    pub fn conclude(&mut self, term: TermId, of: TermId, step: Step) -> Result<JudgeId, NoMemory>
        requires term { IsTermAt self.old.items term }
        requires of { IsTermAt self.old.items of }
        requires follows { Follows (known self.old) (here self.old (tree_at self.old.items term) (tree_at self.old.items of)) step }
        ensures number { IfOk result (λ j. Knows (known self.new) j (here self.old (tree_at self.old.items term) (tree_at self.old.items of))) }
        ensures continues { Continues self.old self.new }
    {
        self.conclude_without(0, term, of, step)
    }

    /// Keeps a judgement of the context as the entry of a line under a name that is free. The context's types are the
    /// entry's parameters.
    pub fn keep_line(
        &mut self,
        alloc: Global,
        name: &[u8],
        body: TermId,
        of: TermId,
        judge: JudgeId,
    ) -> Result<u32, NoMemory>
        requires body { IsTermAt self.old.items body }
        requires of { IsTermAt self.old.items of }
        requires judge { Knows (known self.old) judge (here self.old (tree_at self.old.items body) (tree_at self.old.items of)) }
        requires free { IsFree (known self.old) name.now }
        requires room { length (env self.old) + 1 < 2 ^ 32 }
        ensures number { IfOk result (λ k. k ≡ length (env self.old)) }
        ensures ok { OnOk result (AddsEntry self.old self.new (line_entry name.now (here self.old (tree_at self.old.items body) (tree_at self.old.items of)))) }
        ensures goes { Goes self.old self.new }
        ensures err { OnErr result (self.new ≡ self.old) }
    {
        let entry = Entry {
            params: self.parameters(alloc)?,
            body: Some(body),
            of,
        };
        self.keep(alloc, name, entry, judge, false)
    }

    /// Keeps a judgement of the context, whose type is a sort, as a primitive under a name that is free.
    pub fn keep_primitive(
        &mut self,
        alloc: Global,
        name: &[u8],
        of: TermId,
        judge: JudgeId,
    ) -> Result<u32, NoMemory>
        requires of { IsTermAt self.old.items of }
        requires judge { KnowsSort self.old judge (tree_at self.old.items of) }
        requires free { IsFree (known self.old) name.now }
        requires room { length (env self.old) + 1 < 2 ^ 32 }
        ensures number { IfOk result (λ k. k ≡ length (env self.old)) }
        ensures ok { OnOk result (AddsEntry self.old self.new (primitive_entry name.now (here self.old (tree_at self.old.items of) Star))) }
        ensures goes { Goes self.old self.new }
        ensures err { OnErr result (self.new ≡ self.old) }
    {
        let entry = Entry {
            params: self.parameters(alloc)?,
            body: None,
            of,
        };
        self.keep(alloc, name, entry, judge, true)
    }
}
