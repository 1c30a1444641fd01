//! The type of an instance of an entry, and the judgements of its arguments.
ghost use Rattle.std.specs.Prelude.{◌≡◌, ◌<◌, ◌≤◌, ◌+◌, ◌-◌, ◌^◌, List, length, slice_get, IfOk};
ghost use Rattle.ld_terms.specs.Tree.{Tree, Trees, Const, ◌▸◌, count};
ghost use Rattle.ld_terms.specs.Put.{put};
ghost use Rattle.ld_terms.specs.Item.{Item};
ghost use Rattle.ld_terms.specs.Bank.{tree_at, list_at, IsTermAt, IsListAt};
ghost use Rattle.ld_terms.specs.Named.{IsWellFormed};
ghost use Rattle.ld_terms.specs.Record.{params_at};
ghost use Rattle.ld_env.specs.Entries.{body_of};
ghost use Rattle.ld_record.specs.Follows.{entry_at};
ghost use Rattle.ld_convert.specs.Compares.{Compares};
ghost use Rattle.ld_infer.specs.Reading.{part_reading, instance_reading, next_argument, arguments as arguments_reading, instance_rule as rule_of};
ghost use Rattle.ld_infer.specs.Standing.{env, without, account, Continues, KnowsPairs};
ghost use Rattle.ld_infer.specs.Infers.{Infers, Suits, JudgesArguments, IsReadable, AreReadable, ArePrefixes, IsInstanceStep};

use crate::argument::argument_judgement;
use crate::failure::{InferFault, PathStep, RuleName};
use crate::inference::Typed;
use crate::theory::Theory;
use fb_base::NoMemory;
use ld_convert::Job;
use ld_record::{JudgeId, Judges, Step};
use ld_terms::{Bank, Node, TermId};
use std::alloc::Global;

// The type of an instance is the entry's type, with the arguments put in.
#[cycle(infer)]
pub(crate) fn instance(
    alloc: Global,
    theory: &mut Theory,
    t: TermId,
    k: u32,
    us: TermId,
    nest: u32,
    job: &mut Job,
) -> Result<Typed, InferFault>
    requires term { IsReadable theory.old t }
    requires list { IsListAt theory.old.items us }
    requires is { tree_at theory.old.items t ≡ Const k (list_at theory.old.items us) }
    requires nest { nest ≤ 1000 }
    requires room { count theory.old.context + 1001 < 2 ^ 32 + nest }
    requires pairs { KnowsPairs theory.old job.old.known }
    ensures answer { Infers theory.old theory.new
        (instance_reading (env theory.old) (Compares (env theory.old) (nest + 1)) (part_reading nest (env theory.old)) theory.old.context (slice_get (env theory.old) k) (list_at theory.old.items us)) t (account theory.old job.old) (account theory.new job.new) result }
    ensures continues { Continues theory.old theory.new }
    ensures pairs { KnowsPairs theory.new job.new.known }
    ensures most { job.new.budget.left ≤ job.old.budget.left }
{
    let entry = theory.env().entry(k);
    let entry_type = entry.of;
    let body = entry.body;
    let judges = arguments(alloc, theory, instance_rule(body), k, us, nest, job)?;
    let of = theory.instantiate_list(entry_type, us)?;
    let star = theory.star_judgement()?;
    let judge = theory.conclude(t, of, instance_step(body, star, Judges::from_vec(judges)))?;
    Ok(Typed {
        of,
        judge,
        of_judge: None,
    })
}

// The judgements of the arguments of an instance of the entry k, in order, for which the rule asks. They are read in a
// loop, so that nested instances with many arguments need no deeper stack than others.
#[cycle(infer)]
fn arguments(
    alloc: Global,
    theory: &mut Theory,
    rule: RuleName,
    k: u32,
    us: TermId,
    nest: u32,
    job: &mut Job,
) -> Result<Vec<JudgeId>, InferFault>
    requires list { IsListAt theory.old.items us }
    requires readable { AreReadable theory.old (list_at theory.old.items us) }
    requires there { k < length (env theory.old) }
    requires as_many { count (list_at theory.old.items us) ≡ params_at (env theory.old) k }
    requires nest { nest ≤ 1000 }
    requires room { count theory.old.context + 1000 < 2 ^ 32 + nest }
    requires pairs { KnowsPairs theory.old job.old.known }
    ensures answer { JudgesArguments theory.old theory.new
        (arguments_reading (env theory.old) (Compares (env theory.old) (nest + 1)) (count theory.old.context) (part_reading nest (env theory.old) theory.old.context) rule (entry_at (env theory.old) k).params (list_at theory.old.items us))
        (entry_at (env theory.old) k).params (list_at theory.old.items us) (account theory.old job.old) (account theory.new job.new) result }
    ensures continues { Continues theory.old theory.new }
    ensures pairs { KnowsPairs theory.new job.new.known }
    ensures most { job.new.budget.left ≤ job.old.budget.left }
{
    let lists = prefixes(alloc, theory.bank(), us)?;
    let mut judges = Vec::new(alloc);
    let mut left = lists.len();
    while 0 < left {
        left -= 1;
        let param = parameter(theory, k, judges.len());
        let number = argument_number(judges.len())?;
        let judge = argument(alloc, theory, (rule, number), lists[left], param, nest, job)?;
        judges.push(judge).map_err(|_| NoMemory)?;
    }
    Ok(judges)
}

// The judgement of the last argument of a list and its parameter's type, with the arguments before it put in.
#[cycle(infer)]
fn argument(
    alloc: Global,
    theory: &mut Theory,
    asked: (RuleName, u32),
    list: TermId,
    param: TermId,
    nest: u32,
    job: &mut Job,
) -> Result<JudgeId, InferFault>
    requires list { IsListAt theory.old.items list }
    requires readable { AreReadable theory.old (list_at theory.old.items list) }
    requires some { 0 < asked.1 }
    requires number { count (list_at theory.old.items list) ≡ asked.1 }
    requires param { IsTermAt theory.old.items param }
    requires formed { (us : Trees) (u : Tree) → list_at theory.old.items list ≡ us ▸ u → IsWellFormed (env theory.old) (count theory.old.context) (put (tree_at theory.old.items param) us) }
    requires nest { nest ≤ 1000 }
    requires room { count theory.old.context + 1000 < 2 ^ 32 + nest }
    requires pairs { KnowsPairs theory.old job.old.known }
    ensures answer { (us : Trees) (u : Tree) → list_at theory.old.items list ≡ us ▸ u → Suits theory.old theory.new
        (next_argument (env theory.old) (Compares (env theory.old) (nest + 1)) (count theory.old.context) (part_reading nest (env theory.old) theory.old.context) asked.0 (tree_at theory.old.items param) us u)
        u (put (tree_at theory.old.items param) us) (account theory.old job.old) (account theory.new job.new) result }
    ensures continues { Continues theory.old theory.new }
    ensures pairs { KnowsPairs theory.new job.new.known }
    ensures most { job.new.budget.left ≤ job.old.budget.left }
{
    let Node::Cons(u, before) = theory.bank().node(list) else {
        unreachable!();
    };
    let wanted = theory.instantiate_list(param, before)?;
    argument_judgement(
        alloc,
        theory,
        PathStep::Nth(asked.1),
        asked,
        wanted,
        u,
        nest,
        job,
    )
}

// The lists that are left of a list without its last trees, the list itself first. The empty list isn't among them.
fn prefixes(alloc: Global, bank: &Bank, us: TermId) -> Result<Vec<TermId>, NoMemory>
    requires { IsListAt bank.now us }
    ensures { IfOk result (λ lists. ArePrefixes bank.now (list_at bank.now us) lists.items) }
{
    let mut lists = Vec::new(alloc);
    let mut rest = us;
    while let Node::Cons(_, before) = bank.node(rest) {
        lists.push(rest).map_err(|_| NoMemory)?;
        rest = before;
    }
    Ok(lists)
}

// The type of a parameter of an entry, over the parameters before it. With arguments put in for those it is over the entries
// and variables that are there. Places are counted from 0.
fn parameter(theory: &Theory, k: u32, place: usize) -> TermId
    requires there { k < length (env theory.now) }
    requires place { place < params_at (env theory.now) k }
    ensures term { IsTermAt theory.now.items result }
    ensures is { (ps : Trees) (p : Tree) → without (params_at (env theory.now) k - (place + 1)) (entry_at (env theory.now) k).params ≡ ps ▸ p → tree_at theory.now.items result ≡ p }
    ensures formed { (ps us : Trees) (p : Tree) → without (params_at (env theory.now) k - (place + 1)) (entry_at (env theory.now) k).params ≡ ps ▸ p → count us ≡ count ps
        → AreReadable theory.now us → IsWellFormed (env theory.now) (count theory.now.context) (put p us) }
{
    let _deriv = theory.deriv();
    theory.env().entry(k).params.as_slice()[place]
}

// The number of the argument at a place, counted from 1. Memory doesn't hold so many arguments that it has none.
fn argument_number(place: usize) -> Result<u32, NoMemory>
    ensures { IfOk result (λ n. n ≡ place + 1) }
{
    match u32::try_from(place) {
        Ok(before) if before < u32::MAX => Ok(before + 1),
        _ => Err(NoMemory),
    }
}

// The rule for an instance of an entry with that body, or of a primitive where there is none.
fn instance_rule(body: Option<TermId>) -> RuleName
    ensures { (items : List Item) → result ≡ rule_of (body_of items body) }
{
    match body {
        Some(_) => RuleName::Inst,
        None => RuleName::InstPrim,
    }
}

// That rule, with the judgements that are its premises.
fn instance_step(body: Option<TermId>, star: JudgeId, judges: Judges) -> Step
    ensures { IsInstanceStep body star judges result }
{
    match body {
        Some(_) => Step::Inst(star, judges),
        None => Step::InstPrim(star, judges),
    }
}
