//! One item: its depth, its name, the names of its terms, the terms, and its judging.
ghost use Rattle.std.specs.Prelude.{◌≡◌, ◌<◌, ◌≤◌, ◌-◌, ℕ, List, length, position, None, Contains, Ok, Err, IsOk, OnOk, OnErr, MatchResult};
ghost use Rattle.std.specs.Str.{bytes_eq};
ghost use Rattle.ld_terms.specs.Tree.{count};
ghost use Rattle.ld_env.specs.Named.{names_of as names_in};
ghost use Rattle.ld_infer.specs.Standing.{env, Goes, without};
ghost use Rattle.fb_parse.specs.View.{view};
ghost use Rattle.fb_parse.specs.ItemView.{item_view, at_span, body_view};
ghost use Rattle.fb_scope.specs.State.{left_to, flag_fault};
ghost use Rattle.book_top.specs.Book.{names_of};
ghost use Rattle.book_top.specs.Book as book;
ghost use Rattle.book_top.specs.Names.{tree_of, term_of, fault_at as fault};
ghost use Rattle.book_top.specs.Built.{read};
ghost use Rattle.book_top.specs.Verdict.{flag_free, entry_free};
ghost use Rattle.book_top.specs.Judged.{IsNameSpan, IsInStep, HasRoom, JudgesItem};
ghost use Rattle.book_top.specs.Told.{Tells, ReadsItem, reading_by, AreRead, IsFreeFor, judge_stop, JudgesReading};

use crate::build::build;
use crate::names::{NameStop, check_names, fault_at};
use crate::status::{TextFault, TextWhat, Want};
use fb_base::Span;
use fb_parse::{Body, Item, ItemKind, Tree};
use fb_scope::{Scope, ScopeFault};
use ld_defrules::{ItemFault, close_to, define, open_flag, primitive};
use ld_env::Env;
use ld_infer::{Failure, Job, Stop, Theory};
use ld_terms::TermFault;
use std::alloc::Global;

/// The terms of an item of a form that is built.
#[derive(Clone, Copy)]
pub enum ItemTerms<'a> {
    Flag(Tree<'a>),
    Prim(Tree<'a>),
    Line { body: Tree<'a>, of: Tree<'a> },
}

/// Why an item is not accepted.
#[derive(Debug, Drop)]
pub enum ItemStop {
    /// It has no reading.
    Text(TextFault),
    /// It would open one flag more than 64.
    ManyFlags,
    /// A term of it is higher than 500.
    High,
    /// A premise of a rule fails.
    Refused(Failure),
    /// Judging it takes more than the budget, or passes a limit.
    Budget(Want),
    Memory,
}

impl From<TextFault> for ItemStop {
    ghost use Rattle.std.specs.Prelude.{◌≡◌};
    ghost use Rattle.book_top.specs.declared.item.ItemStop.TheVariants.{Text};

    ghost from_gives = { λ fault stop. stop ≡ Text fault };

    fn from(fault: TextFault) -> Self {
        ItemStop::Text(fault)
    }
}

impl From<NameStop> for ItemStop {
    ghost use Rattle.std.specs.Prelude.{◌≡◌};
    ghost use Rattle.book_top.specs.Told.{name_stop};

    ghost from_gives = { λ fault stop. stop ≡ name_stop fault };

    fn from(fault: NameStop) -> Self {
        match fault {
            NameStop::Text(fault) => ItemStop::Text(fault),
            NameStop::Memory => ItemStop::Memory,
        }
    }
}

impl From<TermFault> for ItemStop {
    ghost use Rattle.std.specs.Prelude.{◌≡◌};
    ghost use Rattle.book_top.specs.Told.{term_stop};

    ghost from_gives = { λ fault stop. stop ≡ term_stop fault };

    fn from(fault: TermFault) -> Self {
        match fault {
            TermFault::High => ItemStop::High,
            TermFault::Memory => ItemStop::Memory,
        }
    }
}

/// Reads and judges an item of the book with this text, and gives the steps that it took. Where it isn't accepted, flags
/// may be closed.
pub fn judge_item(
    alloc: Global,
    theory: &mut Theory,
    scope: &mut Scope,
    text: &[u8],
    item: &Item,
    budget: u64,
) -> Result<u64, ItemStop>
    requires name { IsNameSpan text.now item.now.name }
    requires step { IsInStep theory.old scope.old }
    requires room { HasRoom theory.old scope.old }
    ensures answer { JudgesItem budget theory.old theory.new scope.old scope.new (item_view text.now item.now) result }
    ensures goes { Goes theory.old theory.new }
    ensures step { OnOk result (IsInStep theory.new scope.new) }
{
    let name = &text[item.name.start..item.name.end];
    close_flags(theory, scope, item.bars, item.span)?;
    let terms = terms_of(theory.env(), scope, name, item)?;
    judge_terms(alloc, theory, scope, name, item.span, terms, budget)
}

// Closes the flags beyond the bars of an item.
fn close_flags(theory: &mut Theory, scope: &mut Scope, bars: u32, at: Span) -> Result<(), TextFault>
    requires step { IsInStep theory.old scope.old }
    ensures depth { MatchResult result (λ _. bars ≤ length scope.old.flags)
        (λ f. (length scope.old.flags < bars) × (f ≡ fault (TextWhat.DepthTooGreat bars (length scope.old.flags)) at)) }
    ensures scope { OnOk result (scope.new ≡ left_to bars scope.old) }
    ensures theory { OnOk result (theory.new ≡ record theory.old { context = without (count theory.old.context - bars) theory.old.context }) }
    ensures same { OnErr result (theory.new ≡ theory.old) }
{
    match scope.leave_to(bars) {
        Ok(()) => {
            close_to(theory, bars);
            Ok(())
        }
        Err(_) => {
            let flags = scope.depth();
            Err(fault_at(TextWhat::DepthTooGreat { bars, flags }, at))
        }
    }
}

// The terms of an item whose name is free and whose names are all there.
fn terms_of<'a>(
    env: &Env,
    scope: &mut Scope,
    name: &[u8],
    item: &Item<'a>,
) -> Result<ItemTerms<'a>, ItemStop>
    requires { length scope.old.marks ≡ length env.now }
    ensures reads { (text : List ℕ) → name.now ≡ at_span text item.now.name → ReadsItem scope.old (names_in env.now) (item_view text item.now) result }
    ensures same { scope.new ≡ scope.old }
{
    match item.kind {
        ItemKind::Flag(of) => {
            refuse_flag(scope, name, item.name)?;
            check_names(scope, env, of)?;
            Ok(ItemTerms::Flag(of))
        }
        ItemKind::Prim(of) => {
            refuse_taken(env, name, item.name)?;
            check_names(scope, env, of)?;
            Ok(ItemTerms::Prim(of))
        }
        ItemKind::Line { body, of } => {
            refuse_taken(env, name, item.name)?;
            let body = plain_body(item.span, body)?;
            check_names(scope, env, of)?;
            check_names(scope, env, body)?;
            Ok(ItemTerms::Line { body, of })
        }
    }
}

// Refuses the name of a flag that is open, and a flag more than 64.
fn refuse_flag(scope: &Scope, name: &[u8], at: Span) -> Result<(), ItemStop>
    ensures tells { Tells (flag_free at (flag_fault name.now scope.now.flags)) result }
    ensures free { OnOk result (flag_fault name.now scope.now.flags ≡ None) }
{
    match scope.flag_fault(name) {
        None => Ok(()),
        Some(ScopeFault::FlagTaken) => Err(ItemStop::Text(fault_at(TextWhat::FlagTaken, at))),
        Some(_) => Err(ItemStop::ManyFlags),
    }
}

// Refuses a name that an entry has.
fn refuse_taken(env: &Env, name: &[u8], at: Span) -> Result<(), ItemStop>
    ensures tells { Tells (entry_free at (position (bytes_eq name.now) (names_in env.now))) result }
    ensures free { OnOk result (Contains (names_in env.now) name.now → ⊥) }
{
    match env.find(name) {
        Some(_) => Err(ItemStop::Text(fault_at(TextWhat::NameTaken, at))),
        None => Ok(()),
    }
}

// The term that a body is as it is written; other forms are not built.
fn plain_body<'a>(at: Span, body: Body<'a>) -> Result<Tree<'a>, TextFault>
    ensures { (text : List ℕ) → MatchResult result (λ t. term_of at (body_view text body.entry) ≡ Ok (view t)) (λ f. term_of at (body_view text body.entry) ≡ Err f) }
{
    match body {
        Body::Plain(term) => Ok(term),
        Body::Intro(_) | Body::Elim(_) | Body::Same(_) | Body::Fill { .. } => {
            Err(fault_at(TextWhat::NotBuilt, at))
        }
    }
}

// Judges an item that was read.
fn judge_terms(
    alloc: Global,
    theory: &mut Theory,
    scope: &mut Scope,
    name: &[u8],
    at: Span,
    terms: ItemTerms,
    budget: u64,
) -> Result<u64, ItemStop>
    requires some { 0 < length name.now }
    requires short { length name.now ≤ 255 }
    requires free { IsFreeFor scope.old (names_in theory.old.entries) name.now terms }
    requires are { AreRead scope.old (names_of (env theory.old)) terms }
    requires marks { length scope.old.marks ≡ length theory.old.entries }
    requires step { IsInStep theory.old scope.old }
    requires room { HasRoom theory.old scope.old }
    ensures answer { JudgesReading budget theory.old theory.new scope.old scope.new name.now (reading_by scope.old (names_of (env theory.old)) terms.entry) result }
    ensures goes { Goes theory.old theory.new }
    ensures step { OnOk result (IsInStep theory.new scope.new) }
{
    match terms {
        ItemTerms::Flag(of) => judge_flag(alloc, theory, scope, name, at, of, budget),
        ItemTerms::Prim(of) => judge_primitive(alloc, theory, scope, name, at, of, budget),
        ItemTerms::Line { body, of } => {
            judge_line(alloc, theory, scope, name, at, body, of, budget)
        }
    }
}

fn judge_flag(
    alloc: Global,
    theory: &mut Theory,
    scope: &mut Scope,
    name: &[u8],
    at: Span,
    of: Tree,
    budget: u64,
) -> Result<u64, ItemStop>
    requires free { flag_fault name.now scope.old.flags ≡ None }
    requires read { IsOk (tree_of scope.old (names_of (env theory.old)) (view of)) }
    requires marks { length scope.old.marks ≡ length theory.old.entries }
    requires step { IsInStep theory.old scope.old }
    requires room { HasRoom theory.old scope.old }
    ensures answer { JudgesReading budget theory.old theory.new scope.old scope.new name.now (book.Flag (read (tree_of scope.old (names_of (env theory.old)) (view of.entry)))) result }
    ensures goes { Goes theory.old theory.new }
    ensures step { OnOk result (IsInStep theory.new scope.new) }
{
    let of = build(theory, scope, of)?;
    let mut job = Job::new(alloc, budget);
    match open_flag(alloc, theory, of, &mut job) {
        Ok(()) => match scope.enter(name) {
            Ok(()) => Ok(job.budget.spent()),
            Err(_) => Err(ItemStop::Memory),
        },
        Err(fault) => Err(stop_of(fault, at)),
    }
}

fn judge_primitive(
    alloc: Global,
    theory: &mut Theory,
    scope: &mut Scope,
    name: &[u8],
    at: Span,
    of: Tree,
    budget: u64,
) -> Result<u64, ItemStop>
    requires some { 0 < length name.now }
    requires short { length name.now ≤ 255 }
    requires free { Contains (names_in theory.old.entries) name.now → ⊥ }
    requires read { IsOk (tree_of scope.old (names_of (env theory.old)) (view of)) }
    requires marks { length scope.old.marks ≡ length theory.old.entries }
    requires step { IsInStep theory.old scope.old }
    requires room { HasRoom theory.old scope.old }
    ensures answer { JudgesReading budget theory.old theory.new scope.old scope.new name.now (book.Prim (read (tree_of scope.old (names_of (env theory.old)) (view of.entry)))) result }
    ensures goes { Goes theory.old theory.new }
    ensures step { OnOk result (IsInStep theory.new scope.new) }
{
    let of = build(theory, scope, of)?;
    let mut job = Job::new(alloc, budget);
    match primitive(alloc, theory, name, of, &mut job) {
        Ok(_) => match scope.note() {
            Ok(()) => Ok(job.budget.spent()),
            Err(_) => Err(ItemStop::Memory),
        },
        Err(fault) => Err(stop_of(fault, at)),
    }
}

fn judge_line(
    alloc: Global,
    theory: &mut Theory,
    scope: &mut Scope,
    name: &[u8],
    at: Span,
    body: Tree,
    of: Tree,
    budget: u64,
) -> Result<u64, ItemStop>
    requires some { 0 < length name.now }
    requires short { length name.now ≤ 255 }
    requires free { Contains (names_in theory.old.entries) name.now → ⊥ }
    requires read_body { IsOk (tree_of scope.old (names_of (env theory.old)) (view body)) }
    requires read_type { IsOk (tree_of scope.old (names_of (env theory.old)) (view of)) }
    requires marks { length scope.old.marks ≡ length theory.old.entries }
    requires step { IsInStep theory.old scope.old }
    requires room { HasRoom theory.old scope.old }
    ensures answer { JudgesReading budget theory.old theory.new scope.old scope.new name.now
        (book.Line (read (tree_of scope.old (names_of (env theory.old)) (view body.entry))) (read (tree_of scope.old (names_of (env theory.old)) (view of.entry)))) result }
    ensures goes { Goes theory.old theory.new }
    ensures step { OnOk result (IsInStep theory.new scope.new) }
{
    let of = build(theory, scope, of)?;
    let body = build(theory, scope, body)?;
    let mut job = Job::new(alloc, budget);
    match define(alloc, theory, name, body, of, &mut job) {
        Ok(_) => match scope.note() {
            Ok(()) => Ok(job.budget.spent()),
            Err(_) => Err(ItemStop::Memory),
        },
        Err(fault) => Err(stop_of(fault, at)),
    }
}

// Why an item is stopped whose name is free.
fn stop_of(fault: ItemFault, at: Span) -> ItemStop
    ensures { result ≡ judge_stop at fault }
{
    match fault {
        ItemFault::Refused(failure) => ItemStop::Refused(failure),
        ItemFault::Stop(Stop::Spent) => ItemStop::Budget(Want::Steps),
        ItemFault::Stop(Stop::High) => ItemStop::Budget(Want::Height),
        ItemFault::Stop(Stop::Nested) => ItemStop::Budget(Want::Nesting),
        ItemFault::Stop(Stop::Memory) => ItemStop::Memory,
        ItemFault::NameTaken => ItemStop::Text(fault_at(TextWhat::NameTaken, at)),
    }
}
