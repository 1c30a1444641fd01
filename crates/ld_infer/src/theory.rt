//! A theory: an environment with its derivation, and a context.
ghost use Rattle.std.specs.Prelude.{◌≡◌, ◌<◌, ◌≤◌, ◌+◌, ◌-◌, ◌^◌, [], length, IfOk, OnOk, OnErr};
ghost use Rattle.ld_terms.specs.Tree.{Tree, Star, Box, Nil, count};
ghost use Rattle.ld_terms.specs.Bank.{tree_at, list_at, item_at, item_of, listed, HasParts, IsTermAt, IsListAt, StandsFor, Holds};
ghost use Rattle.ld_terms.specs.Derivable.{IsLegalContext};
ghost use Rattle.ld_terms.specs.Known.{nothing, judgement_at};
ghost use Rattle.ld_terms.specs.Named.{IsNamed};
ghost use Rattle.ld_env.specs.Entries.{entry_of, env_of, IsLiveEntry, AreLive};

use crate::inference::Typed;
use crate::variable::Variable;
use fb_base::{NoMemory, Text};
use ld_convert::{Compared, Job, compare};
use ld_env::{Entry, Env};
use ld_record::{CtxId, Deriv, EqId, Judge, JudgeId, Step};
use ld_reduce::{Stop, expose};
use ld_terms::{Bank, Node, TermFault, TermId, Terms};
use std::alloc::Global;
use std::marker::Model;

// A context, and a judgement for `* : box` in it, which may be over fewer entries than there are.
#[derive(Clone, Copy, Debug)]
struct Level {
    ctx: CtxId,
    star: JudgeId,
}

/// An environment with a derivation of it, and a context that is legal over it.
#[derive(Debug, Drop)]
pub struct Theory {
    bank: Bank,
    env: Env,
    deriv: Deriv,
    star: TermId,
    box_: TermId,
    // one for each prefix of the context, the empty one first
    levels: Vec<Level>,
    variables: Vec<Variable>,
}

impl Model for Theory {
    ghost use Rattle.std.specs.Coded.{codes};
    ghost use Rattle.ld_terms.specs.Item.{items_code};
    ghost use Rattle.ld_terms.specs.TreeCode.{trees_code};
    ghost use Rattle.ld_infer.specs.Standing.{Standing};
    ghost use Rattle.ld_infer.specs.Theory.{IsTheory, context_of};

    ghost Value = { Standing };

    ghost coded = { Prim.hlevel (codes, items_code, trees_code) };

    ghost view = { λ t. record { items = t.bank; kept = t.deriv; entries = t.env; context = context_of t.bank t.variables.items } };

    ghost invariant = { λ t. IsTheory t.bank t.deriv t.env t.star t.box_ t.levels.items t.variables.items };
}

impl Theory {
    ghost use Rattle.std.specs.Prelude.{◌↔◌, All};
    ghost use Rattle.ld_terms.specs.Item.{One, IsSmall};
    ghost use Rattle.ld_terms.specs.Put.{lift, put};
    ghost use Rattle.ld_record.specs.Kept.{IsSound, FitsEntry, entry_by};
    ghost use Rattle.ld_record.specs.Growth.{Knows, Adds};
    ghost use Rattle.ld_record.specs.Follows.{Follows};
    ghost use Rattle.ld_infer.specs.Standing.{Standing, known, env, here, account, Continues, KnowsSort, KnowsType, KnowsPairs, Enters, AddsEntry, AddsFlag, Goes, without, without_last};
    ghost use Rattle.ld_infer.specs.Infers.{Exposes, ComparesTypes};
    ghost use Rattle.ld_infer.specs.Variables.{judged_in, EndsWith};

    /// The empty environment and context.
    pub fn new(alloc: Global) -> Result<Theory, NoMemory>
        ensures known { IfOk result (λ theory. Adds nothing (known theory)) }
        ensures context { IfOk result (λ theory. theory.context ≡ Nil) }
        ensures entries { IfOk result (λ theory. theory.entries ≡ []) }
        ensures sound { IfOk result (λ theory. IsSound theory.items theory.kept) }
    {
        let mut bank = Bank::new(alloc);
        let mut deriv = Deriv::new(alloc);
        let star = bank.add(Node::Star).map_err(|_| NoMemory)?;
        let box_ = bank.add(Node::Box_).map_err(|_| NoMemory)?;
        let ctx = deriv.empty();
        let judge = Judge {
            entries: 0,
            ctx,
            term: star,
            of: box_,
        };
        let first = Level {
            ctx,
            star: deriv.emit(&bank, judge, Step::Sort)?,
        };
        let mut levels = Vec::new(alloc);
        levels.push(first).map_err(|_| NoMemory)?;
        Ok(Theory {
            bank,
            env: Env::new(alloc),
            deriv,
            star,
            box_,
            levels,
            variables: Vec::new(alloc),
        })
    }

    /// The bank in which the theory's terms are numbers.
    pub fn bank(&self) -> &Bank
        ensures { result.now ≡ self.now.items }
    {
        &self.bank
    }

    /// The entries, by their names.
    pub fn env(&self) -> &Env
        ensures entries { result.now ≡ self.now.entries }
        ensures trees { env_of self.now.items self.now.entries ≡ env self.now }
        ensures live { AreLive self.now.items self.now.entries }
    {
        &self.env
    }

    /// The derivation that is kept. The context is legal over its entries.
    pub fn deriv(&self) -> &Deriv
        ensures kept { result.now ≡ self.now.kept }
        ensures sound { IsSound self.now.items result.now }
        ensures legal { IsLegalContext (env self.now) self.now.context }
    {
        &self.deriv
    }

    /// The term `box`.
    pub fn box_term(&self) -> TermId
        ensures { StandsFor self.now.items result Box }
    {
        self.box_
    }

    /// Adds a term by its parts.
    pub fn add(&mut self, node: Node) -> Result<TermId, TermFault>
        requires { HasParts self.old.items node }
        ensures tree { IfOk result (λ t. Holds self.new.items t (item_of self.old.items node)) }
        ensures small { IfOk result (λ t. IsSmall (item_at self.new.items t)) }
        ensures high { (result ≡ Err TermFault.High) ↔ ¬ IsSmall (item_of self.old.items node) }
        ensures err { OnErr result (self.new ≡ self.old) }
        ensures continues { Continues self.old self.new }
    {
        self.bank.add(node)
    }

    /// Puts arguments in for the innermost variables of a body, all at once.
    pub fn instantiate(&mut self, body: TermId, args: &[TermId]) -> Result<TermId, TermFault>
        requires body { IsTermAt self.old.items body }
        requires args { All (IsTermAt self.old.items) args.now }
        ensures tree { IfOk result (λ t. StandsFor self.new.items t (put (tree_at self.old.items body) (listed self.old.items Nil args.now))) }
        ensures small { IfOk result (λ t. IsSmall (item_at self.new.items t)) }
        ensures high { result ≡ Err TermFault.High → ¬ IsSmall (One (put (tree_at self.old.items body) (listed self.old.items Nil args.now))) }
        ensures continues { Continues self.old self.new }
    {
        self.bank.instantiate(body, args)
    }

    /// The same with the arguments as a list of the bank.
    pub fn instantiate_list(&mut self, body: TermId, list: TermId) -> Result<TermId, TermFault>
        requires body { IsTermAt self.old.items body }
        requires list { IsListAt self.old.items list }
        ensures tree { IfOk result (λ t. StandsFor self.new.items t (put (tree_at self.old.items body) (list_at self.old.items list))) }
        ensures small { IfOk result (λ t. IsSmall (item_at self.new.items t)) }
        ensures high { result ≡ Err TermFault.High → ¬ IsSmall (One (put (tree_at self.old.items body) (list_at self.old.items list))) }
        ensures continues { Continues self.old self.new }
    {
        self.bank.instantiate_list(body, list)
    }

    /// How many variables the context has.
    pub fn depth(&self) -> u32
        requires { count self.now.context < 2 ^ 32 }
        ensures { result ≡ count self.now.context }
    {
        self.variables.len() as u32
    }

    /// The term that a judgement has as its type.
    pub fn type_of(&self, j: JudgeId) -> TermId
        requires { j.0 < length (known self.now).nodes }
        ensures term { IsTermAt self.now.items result }
        ensures is { tree_at self.now.items result ≡ (judgement_at (known self.now) j.0).type }
    {
        self.deriv.judge(&self.bank, j).of
    }

    /// The judgement `* : box` in the context, over all entries.
    pub fn star_judgement(&mut self) -> Result<JudgeId, NoMemory>
        ensures number { IfOk result (λ j. Knows (known self.new) j (here self.old Star Box)) }
        ensures continues { Continues self.old self.new }
    {
        let place = self.levels.len() - 1;
        let level = self.levels[place];
        let star = self
            .deriv
            .lift_by_def(&self.bank, level.star, self.env.len())?;
        self.levels[place] = Level {
            ctx: level.ctx,
            star,
        };
        Ok(star)
    }

    // The head form of a type that was found, with an equality of the two.
    pub(crate) fn expose(&mut self, typed: Typed, job: &mut Job) -> Result<(TermId, EqId), Stop>
        requires of { IsTermAt self.old.items typed.of }
        requires judge { KnowsType self.old typed.judge (tree_at self.old.items typed.of) }
        requires pairs { KnowsPairs self.old job.old.known }
        ensures answer { Exposes self.old self.new (tree_at self.old.items typed.of) (account self.old job.old) (account self.new job.new) result }
        ensures continues { Continues self.old self.new }
        ensures pairs { KnowsPairs self.new job.new.known }
        ensures most { job.new.budget.left ≤ job.old.budget.left }
    {
        let bank = &mut self.bank;
        let deriv = &mut self.deriv;
        expose(bank, &self.env, deriv, typed.of, &mut job.budget)
    }

    /// Compares a type that was found with another term, at the nesting `nest`, as [`compare`](ld_convert::compare) does.
    pub fn compare(
        &mut self,
        alloc: Global,
        typed: Typed,
        wanted: TermId,
        nest: u32,
        job: &mut Job,
    ) -> Result<Compared, Stop>
        requires of { IsTermAt self.old.items typed.of }
        requires judge { KnowsType self.old typed.judge (tree_at self.old.items typed.of) }
        requires wanted { IsTermAt self.old.items wanted }
        requires named { IsNamed (env self.old) (tree_at self.old.items wanted) }
        requires nest { nest ≤ 1001 }
        requires pairs { KnowsPairs self.old job.old.known }
        ensures answer { ComparesTypes self.old self.new nest (tree_at self.old.items typed.of) (tree_at self.old.items wanted) (account self.old job.old) (account self.new job.new) result }
        ensures continues { Continues self.old self.new }
        ensures pairs { KnowsPairs self.new job.new.known }
        ensures most { job.new.budget.left ≤ job.old.budget.left }
    {
        let bank = &mut self.bank;
        let deriv = &mut self.deriv;
        compare(alloc, bank, &self.env, deriv, typed.of, wanted, nest, job)
    }

    // Keeps a judgement of the context without so many of its last variables, over all entries, that follows by a rule.
    pub(crate) fn conclude_without(
        &mut self,
        out: u32,
        term: TermId,
        of: TermId,
        step: Step,
    ) -> Result<JudgeId, NoMemory>
        requires there { out ≤ count self.old.context }
        requires term { IsTermAt self.old.items term }
        requires of { IsTermAt self.old.items of }
        requires follows { Follows (known self.old) (judged_in self.old (without out self.old.context) (tree_at self.old.items term) (tree_at self.old.items of)) step }
        ensures number { IfOk result (λ j. Knows (known self.new) j
            (judged_in self.old (without out self.old.context) (tree_at self.old.items term) (tree_at self.old.items of))) }
        ensures continues { Continues self.old self.new }
    {
        let level = self.levels[self.variables.len() - out as usize];
        let judge = Judge {
            entries: self.env.len(),
            ctx: level.ctx,
            term,
            of,
        };
        self.deriv.emit(&self.bank, judge, step)
    }

    // The last variable of the context without so many, with the judgement of its type over all entries.
    pub(crate) fn last_variable(&mut self, out: u32) -> Result<Variable, NoMemory>
        requires there { out < count self.old.context }
        ensures ends { IfOk result (λ v. EndsWith self.new out v) }
        ensures continues { Continues self.old self.new }
    {
        let place = self.variables.len() - 1 - out as usize;
        let variable = self.variables[place];
        let sort = self
            .deriv
            .lift_by_def(&self.bank, variable.sort, self.env.len())?;
        let last = Variable {
            of: variable.of,
            sort,
        };
        self.variables[place] = last;
        Ok(last)
    }

    // A term, below one more variable.
    pub(crate) fn lift(&mut self, t: TermId) -> Result<TermId, TermFault>
        requires { IsTermAt self.old.items t }
        ensures tree { IfOk result (λ r. StandsFor self.new.items r (lift (tree_at self.old.items t) 1 0)) }
        ensures small { IfOk result (λ r. IsSmall (item_at self.new.items r)) }
        ensures high { result ≡ Err TermFault.High → ¬ IsSmall (One (lift (tree_at self.old.items t) 1 0)) }
        ensures continues { Continues self.old self.new }
    {
        // each term of a bank is small
        let _height = self.bank.height(t);
        self.bank.lift(t, 1, 0)
    }

    // Puts a variable at the end of the context, as `enter` does, where the judgement for `* : box` is over all entries.
    pub(crate) fn enter_by(
        &mut self,
        of: TermId,
        star: JudgeId,
        sort: JudgeId,
    ) -> Result<(), NoMemory>
        requires of { IsTermAt self.old.items of }
        requires star { Knows (known self.old) star (here self.old Star Box) }
        requires sort { KnowsSort self.old sort (tree_at self.old.items of) }
        ensures ok { OnOk result (Enters self.old self.new (tree_at self.old.items of)) }
        ensures err { OnErr result (Continues self.old self.new) }
    {
        let outer = self.levels[self.levels.len() - 1];
        let ctx = self.deriv.extend(&self.bank, outer.ctx, of)?;
        let judge = Judge {
            entries: self.env.len(),
            ctx,
            term: self.star,
            of: self.box_,
        };
        let star = self.deriv.emit(&self.bank, judge, Step::Weak(star, sort))?;
        self.levels.push(Level { ctx, star }).map_err(|_| NoMemory)?;
        if self.variables.push(Variable { of, sort }).is_err() {
            self.levels.pop();
            return Err(NoMemory);
        }
        Ok(())
    }

    /// Takes the last variable of the context away.
    pub fn leave(&mut self)
        requires { 0 < count self.old.context }
        ensures { self.new ≡ record self.old { context = without_last self.old.context } }
    {
        self.levels.pop();
        self.variables.pop();
    }

    /// Opens a flag: its record is kept, and its variable put at the end of the context. `sort` is a judgement for a sort
    /// of its type.
    pub fn open_flag(&mut self, of: TermId, sort: JudgeId) -> Result<(), NoMemory>
        requires of { IsTermAt self.old.items of }
        requires sort { KnowsSort self.old sort (tree_at self.old.items of) }
        ensures ok { OnOk result (AddsFlag self.old self.new (tree_at self.old.items of)) }
        ensures goes { Goes self.old self.new }
        ensures err { OnErr result (Continues self.old self.new) }
    {
        self.enter(of, sort)?;
        if self.deriv.flag(&self.bank, sort).is_err() {
            self.leave();
            return Err(NoMemory);
        }
        Ok(())
    }

    // The types of the context's variables.
    pub(crate) fn parameters(&self, alloc: Global) -> Result<Terms, NoMemory>
        ensures types { IfOk result (λ ts. listed self.now.items Nil ts ≡ self.now.context) }
        ensures terms { IfOk result (λ ts. All (IsTermAt self.now.items) ts) }
    {
        let mut types = Vec::new(alloc);
        for variable in &self.variables {
            types.push(variable.of).map_err(|_| NoMemory)?;
        }
        Ok(Terms::from_vec(types))
    }

    // Keeps a judgement as an entry, in the derivation and under its name.
    pub(crate) fn keep(
        &mut self,
        alloc: Global,
        name: &[u8],
        entry: Entry,
        judge: JudgeId,
        prim: bool,
    ) -> Result<u32, NoMemory>
        requires live { IsLiveEntry self.old.items entry }
        requires fits { FitsEntry (known self.old) name.now judge prim }
        requires same { entry_of self.old.items (record { name = name.now; entry = entry }) ≡ entry_by prim name.now (judgement_at (known self.old) judge.0) }
        requires room { length (env self.old) + 1 < 2 ^ 32 }
        ensures number { IfOk result (λ k. k ≡ length (env self.old)) }
        ensures ok { OnOk result (AddsEntry self.old self.new (entry_by prim name.now (judgement_at (known self.old) judge.0))) }
        ensures goes { Goes self.old self.new }
        ensures err { OnErr result (self.new ≡ self.old) }
    {
        let kept = Text::from_bytes(alloc, name)?;
        let found = Text::from_bytes(alloc, name)?;
        let Ok(number) = self.env.push(found, entry) else {
            return Err(NoMemory);
        };
        if self.deriv.entry(&self.bank, kept, judge, prim).is_err() {
            self.env.pop();
            return Err(NoMemory);
        }
        Ok(number)
    }
}
