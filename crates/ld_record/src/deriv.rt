//! A derivation: its records in the order in which they were made.
ghost use Rattle.std.specs.Prelude.{◌≡◌, ◌≤◌, ◌++◌, ◌∷◌, ◌+◌, ◌<◌, [], List, length, slice_get, Some, IfOk, OnOk, OnErr};
ghost use Rattle.ld_terms.specs.Item.{Item};
ghost use Rattle.ld_terms.specs.Bank.{tree_at};
ghost use Rattle.ld_terms.specs.Tree.{◌▸◌};
ghost use Rattle.ld_terms.specs.Known.{context_at, judgement_at, with_node, with_entry, with_context, with_equality, with_flag};

use crate::record::{CtxId, EqId, EqStep, Judge, JudgeId, Kept, Step};
use fb_base::{NoMemory, Text};
use ld_terms::{Bank, TermId};
use std::alloc::Global;
use std::marker::Model;

/// The records that were kept. Terms are numbers of a bank that is passed to the calls.
#[derive(Debug, Drop)]
pub struct Deriv {
    kept: Vec<Kept>,
    // tables over the records: the judgements, whether each entry is a primitive, and how many contexts and equalities there are
    judges: Vec<Judge>,
    prims: Vec<bool>,
    contexts: usize,
    equalities: usize,
}

impl Model for Deriv {
    ghost use Rattle.std.specs.Prelude.{List};
    ghost use Rattle.ld_record.specs.declared.record.Kept.{Kept};

    ghost Value = { List Kept };

    ghost use Rattle.ld_record.specs.Tables.{AreTables};

    ghost view = { λ d. d.kept.items };

    ghost invariant = { λ d. AreTables d.kept.items d.judges.items d.prims.items d.contexts d.equalities };
}

impl Deriv {
    ghost use Rattle.ld_record.specs.Kept.{known_of, judgement_of, equality_of, entry_by, IsSound, FitsContext, FitsEqual, FitsNode, FitsEntry, FitsFlag, Begins};
    ghost use Rattle.ld_record.specs.Growth.{Knows, KnowsContext, KnowsEquality, IsNodeOf, Adds, over_first, LeadsOver};

    /// A derivation with no records.
    pub fn new(alloc: Global) -> Deriv
        ensures none { result ≡ [] }
        ensures sound { (items : List Item) → IsSound items result }
    {
        Deriv {
            kept: Vec::new(alloc),
            judges: Vec::new(alloc),
            prims: Vec::new(alloc),
            contexts: 0,
            equalities: 0,
        }
    }

    /// How many records are kept.
    pub fn count(&self) -> usize
        ensures { result ≡ length self.now }
    {
        self.kept.len()
    }

    /// The record at a place, in the order in which they were made.
    pub fn kept(&self, place: usize) -> &Kept
        requires { place < length self.now }
        ensures { slice_get self.now place ≡ Some result.now }
    {
        &self.kept[place]
    }

    /// The empty context.
    pub fn empty(&self) -> CtxId
        ensures { result.0 ≡ 0 }
    {
        CtxId(0)
    }

    /// A context extended at its end by a variable of the type `t`.
    pub fn extend(&mut self, bank: &Bank, ctx: CtxId, t: TermId) -> Result<CtxId, NoMemory>
        requires sound { IsSound bank.now self.old }
        requires fits { FitsContext bank.now (known_of bank.now self.old) ctx t }
        ensures known { OnOk result (known_of bank.now self.new
            ≡ with_context (known_of bank.now self.old) (context_at (known_of bank.now self.old) ctx.0 ▸ tree_at bank.now t)) }
        ensures number { IfOk result (λ c. KnowsContext (known_of bank.now self.new) c (context_at (known_of bank.now self.old) ctx.0 ▸ tree_at bank.now t)) }
        ensures adds { Adds (known_of bank.now self.old) (known_of bank.now self.new) }
        ensures sound { IsSound bank.now self.new }
        ensures kept { OnOk result (self.new ≡ self.old ++ Kept.Context ctx t ∷ []) }
        ensures begins { Begins self.old self.new }
        ensures err { OnErr result (self.new ≡ self.old) }
    {
        self.kept.push(Kept::Context(ctx, t)).map_err(|_| NoMemory)?;
        self.contexts += 1;
        Ok(CtxId(self.contexts))
    }

    /// Keeps two terms that are equal by a rule.
    pub fn emit_eq(
        &mut self,
        bank: &Bank,
        left: TermId,
        right: TermId,
        step: EqStep,
    ) -> Result<EqId, NoMemory>
        requires sound { IsSound bank.now self.old }
        requires fits { FitsEqual bank.now (known_of bank.now self.old) left right step }
        ensures known { OnOk result (known_of bank.now self.new
            ≡ with_equality (known_of bank.now self.old) (equality_of bank.now (known_of bank.now self.old) left right step)) }
        ensures number { IfOk result (λ e. KnowsEquality (known_of bank.now self.new) e (equality_of bank.now (known_of bank.now self.old) left right step)) }
        ensures adds { Adds (known_of bank.now self.old) (known_of bank.now self.new) }
        ensures sound { IsSound bank.now self.new }
        ensures kept { OnOk result (self.new ≡ self.old ++ Kept.Equal left right step ∷ []) }
        ensures begins { Begins self.old self.new }
        ensures err { OnErr result (self.new ≡ self.old) }
    {
        self.kept
            .push(Kept::Equal(left, right, step))
            .map_err(|_| NoMemory)?;
        let number = self.equalities;
        self.equalities += 1;
        Ok(EqId(number))
    }

    /// Keeps a judgement that follows from earlier ones by a rule.
    pub fn emit(&mut self, bank: &Bank, judge: Judge, step: Step) -> Result<JudgeId, NoMemory>
        requires sound { IsSound bank.now self.old }
        requires fits { FitsNode bank.now (known_of bank.now self.old) judge step }
        ensures known { OnOk result (known_of bank.now self.new
            ≡ with_node (known_of bank.now self.old) (judgement_of bank.now (known_of bank.now self.old) judge)) }
        ensures number { IfOk result (λ j. Knows (known_of bank.now self.new) j (judgement_of bank.now (known_of bank.now self.old) judge)) }
        ensures adds { Adds (known_of bank.now self.old) (known_of bank.now self.new) }
        ensures sound { IsSound bank.now self.new }
        ensures kept { OnOk result (self.new ≡ self.old ++ Kept.Node judge step ∷ []) }
        ensures begins { Begins self.old self.new }
        ensures err { OnErr result (self.new ≡ self.old) }
    {
        let number = self.judges.len();
        self.judges.push(judge).map_err(|_| NoMemory)?;
        if self.kept.push(Kept::Node(judge, step)).is_err() {
            self.judges.pop();
            return Err(NoMemory);
        }
        Ok(JudgeId(number))
    }

    /// The judgement of a number.
    pub fn judge(&self, bank: &Bank, j: JudgeId) -> Judge
        requires sound { IsSound bank.now self.now }
        requires live { j.0 < length (known_of bank.now self.now).nodes }
        ensures { IsNodeOf bank.now (known_of bank.now self.now) result j }
    {
        self.judges[j.0]
    }

    /// Keeps a judgement as an entry: of a line, whose body and type are the judgement's term and type, or of a
    /// primitive, whose type is the judgement's term.
    pub fn entry(
        &mut self,
        bank: &Bank,
        name: Text,
        of_item: JudgeId,
        prim: bool,
    ) -> Result<(), NoMemory>
        requires sound { IsSound bank.now self.old }
        requires fits { FitsEntry (known_of bank.now self.old) name of_item prim }
        ensures known { OnOk result (known_of bank.now self.new ≡ with_entry (known_of bank.now self.old)
            (entry_by prim name (judgement_at (known_of bank.now self.old) of_item.0))) }
        ensures sound { IsSound bank.now self.new }
        ensures kept { OnOk result (self.new ≡ self.old ++ Kept.Entry name of_item prim ∷ []) }
        ensures begins { Begins self.old self.new }
        ensures err { OnErr result (self.new ≡ self.old) }
    {
        self.prims.push(prim).map_err(|_| NoMemory)?;
        if self.kept.push(Kept::Entry(name, of_item, prim)).is_err() {
            self.prims.pop();
            return Err(NoMemory);
        }
        Ok(())
    }

    /// Notes a judgement as a flag, whose type is the judgement's term in the judgement's context. Nothing is judged by
    /// it: it keeps in the derivation which flags a book has opened, in their order among the entries.
    pub fn flag(&mut self, bank: &Bank, of_item: JudgeId) -> Result<(), NoMemory>
        requires sound { IsSound bank.now self.old }
        requires fits { FitsFlag (known_of bank.now self.old) of_item }
        ensures known { OnOk result (known_of bank.now self.new
            ≡ with_flag (known_of bank.now self.old) (judgement_at (known_of bank.now self.old) of_item.0)) }
        ensures sound { IsSound bank.now self.new }
        ensures kept { OnOk result (self.new ≡ self.old ++ Kept.Flag of_item ∷ []) }
        ensures begins { Begins self.old self.new }
        ensures err { OnErr result (self.new ≡ self.old) }
    {
        self.kept.push(Kept::Flag(of_item)).map_err(|_| NoMemory)?;
        Ok(())
    }

    /// The same judgement over the first `to` entries.
    pub fn lift_by_def(&mut self, bank: &Bank, j: JudgeId, to: u32) -> Result<JudgeId, NoMemory>
        requires sound { IsSound bank.now self.old }
        requires live { j.0 < length (known_of bank.now self.old).nodes }
        requires from { (judgement_at (known_of bank.now self.old) j.0).entries ≤ to }
        requires to { to ≤ length (known_of bank.now self.old).env }
        ensures number { IfOk result (λ k. Knows (known_of bank.now self.new) k
            (over_first (judgement_at (known_of bank.now self.old) j.0) to)) }
        ensures adds { Adds (known_of bank.now self.old) (known_of bank.now self.new) }
        ensures sound { IsSound bank.now self.new }
        ensures begins { Begins self.old self.new }
        ensures added { OnOk result (length self.new + (judgement_at (known_of bank.now self.old) j.0).entries ≡ length self.old + to) }
    {
        let judge = self.judge(bank, j);
        let mut lifted = j;
        for entries in judge.entries..to {
            let step = self.step_over(bank, entries, lifted);
            let over = Judge {
                entries: entries + 1,
                ctx: judge.ctx,
                term: judge.term,
                of: judge.of,
            };
            lifted = self.emit(bank, over, step)?;
        }
        Ok(lifted)
    }

    // The rule that leads a judgement over one entry more.
    fn step_over(&self, bank: &Bank, entry: u32, j: JudgeId) -> Step
        requires { entry < length (known_of bank.now self.now).env }
        ensures { LeadsOver (known_of bank.now self.now) entry j result }
    {
        if self.prims[entry as usize] {
            Step::DefPrim(j)
        } else {
            Step::Def(j)
        }
    }
}
