//! The command `check`: the check of a book.
ghost use Rattle.std.specs.Prelude.{◌≡◌, ◌≤◌, List, ℕ, IsTrue, length};
ghost use Rattle.fb_base.specs.Desk.{Rose, OthersStay};
ghost use Rattle.ld_terms.specs.Item.{Item};
ghost use Rattle.ld_infer.specs.Infers.{refusal_of, reason_of};
ghost use Rattle.book_top.specs.Command as commands;
ghost use Rattle.book_top.specs.Check.{IsFetched, Checks, MayCheck, IsRule, why_of};
ghost use Rattle.book_top.specs.Checked.{AnswersFault, AnswersStop};
ghost use Rattle.book_top.specs.Performed.{IsPerformed};

use super::say::say;
use crate::check::{Stop, check_items};
use crate::command::Check;
use crate::fetch::fetch;
use crate::item::ItemStop;
use crate::names::fault_at;
use crate::report::Subject;
use crate::status::{
    BudgetFault, LimitFault, RuleFault, Side, Status, TextFault, TextWhat, Want, WhyName,
};
use bumpalo::Bump;
use fb_base::{Desk, Span};
use fb_lex::LexFault;
use fb_parse::{ParseFault, parse_book};
use ld_infer::{Failure, Why};
use std::alloc::Global;

const BOOK_BYTES: usize = 4_194_304;

/// Checks a book, writes its derivation, and says the report.
pub fn check_book<D: Desk>(alloc: Global, asked: Check<'_>, desk: &mut D) -> Status
    ensures { IsPerformed (commands.Check asked.entry.book.now asked.entry.out.now asked.entry.budget) (D.seen desk.old) (D.seen desk.new)
        result }
{
    match fetch(alloc, desk, asked.book, BOOK_BYTES, LimitFault::BookBytes) {
        Ok(bytes) => {
            let text: &[u8] = &bytes;
            let status = check_text(alloc, text, asked.out, asked.budget, desk);
            say(alloc, desk, Subject::Book, text, status)
        }
        Err(status) => say(alloc, desk, Subject::Book, &[], status),
    }
}

// Checks the book with this text.
fn check_text<D: Desk>(alloc: Global, text: &[u8], out: &str, budget: u64, desk: &mut D) -> Status
    requires short { length text.now ≤ 4194304 }
    requires budget { budget ≤ 1000000000 }
    ensures checks { IsTrue (D.seen desk.old).tells_files → (book : List ℕ) → IsFetched (D.seen desk.old).files book text.now
        → Checks budget (D.seen desk.old).files (D.seen desk.new).files book out.now result }
    ensures may { MayCheck result }
    ensures others { IsTrue (D.seen desk.old).tells_files → OthersStay (D.seen desk.old) (D.seen desk.new) out.now }
    ensures said { (D.seen desk.new).said ≡ (D.seen desk.old).said }
    ensures tells_said { (D.seen desk.new).tells_said ≡ (D.seen desk.old).tells_said }
    ensures tells_files { (D.seen desk.new).tells_files ≡ (D.seen desk.old).tells_files }
    ensures never_falls { (D.seen desk.old).faults ≤ (D.seen desk.new).faults }
    ensures sound_stays { (D.seen desk.new).sound ≡ (D.seen desk.old).sound }
    ensures desk { result ≡ Status.Desk → Rose (D.seen desk.old).faults (D.seen desk.new).faults }
    ensures never { result ≡ Status.Desk → IsTrue (D.seen desk.old).tells_files → IsTrue (D.seen desk.old).sound → ⊥ }
{
    let arena = Bump::new(alloc);
    let parsed = match parse_book(&arena, text) {
        Ok(parsed) => parsed,
        Err(fault) => return parse_answer(fault),
    };
    match check_items(alloc, desk, out, text, parsed.items, budget) {
        Ok(summary) => Status::Done(summary),
        Err(stop) => stop_answer(stop),
    }
}

// The answer for a text that is no book.
fn parse_answer(fault: ParseFault) -> Status
    ensures { AnswersFault fault result }
{
    match fault {
        ParseFault::Lex(LexFault::BadByte(at)) => text_answer(TextWhat::BadByte, at),
        ParseFault::Lex(LexFault::LongName(at)) => text_answer(TextWhat::LongName, at),
        ParseFault::Syntax(at) => text_answer(TextWhat::Syntax, at),
        ParseFault::Deep(at) => Status::Limit(LimitFault::Nesting(at)),
        ParseFault::ManyItems(at) => Status::Limit(LimitFault::Items(at)),
        ParseFault::Memory => Status::Memory,
    }
}

// A fault of the text at one place.
fn text_answer(what: TextWhat, at: usize) -> Status
    ensures { result ≡ Status.Text (record { side = Side.Book; at = record { start = at; end = at }; what = what }) }
{
    Status::Text(fault_at(what, Span { start: at, end: at }))
}

// The answer for a check that stopped.
fn stop_answer(stop: Stop) -> Status
    ensures answers { AnswersStop stop result }
    ensures may { MayCheck result }
    ensures desk { result ≡ Status.Desk → stop ≡ Stop.Desk }
{
    match stop {
        Stop::Desk => Status::Desk,
        Stop::Memory => Status::Memory,
        Stop::Item(_, _, ItemStop::Text(fault)) => Status::Text(fault),
        Stop::Item(_, at, ItemStop::High) => Status::Limit(LimitFault::Height(at.start)),
        Stop::Item(_, at, ItemStop::ManyFlags) => Status::Limit(LimitFault::Flags(at.start)),
        Stop::Item(number, at, ItemStop::Budget(want)) => {
            Status::Budget(budget_fault(number, at, want))
        }
        Stop::Item(number, at, ItemStop::Refused(failure)) => {
            Status::Rule(rule_fault(number, at, failure))
        }
        Stop::Item(_, _, ItemStop::Memory) => Status::Memory,
    }
}

// That an item takes more than it may have.
fn budget_fault(item: u64, at: Span, want: Want) -> BudgetFault
    ensures { result ≡ record { side = Side.Book; item = item; at = at; want = want } }
{
    BudgetFault {
        side: Side::Book,
        item,
        at,
        want,
    }
}

// The refusal of an item by a rule.
fn rule_fault(item: u64, at: Span, failure: Failure) -> RuleFault
    ensures { (items : List Item) → IsRule item at (refusal_of items failure) result }
{
    let why = why_name(failure.why);
    RuleFault {
        side: Side::Book,
        item,
        at,
        rule: failure.rule,
        premise: failure.premise,
        path: failure.path,
        why,
    }
}

// Why a premise fails, without the terms.
fn why_name(why: Why) -> WhyName
    ensures { (items : List Item) → result ≡ why_of (reason_of items why) }
{
    match why {
        Why::NoType => WhyName::NoType,
        Why::NotSort { .. } => WhyName::NotSort,
        Why::NotFunction { .. } => WhyName::NotFunction,
        Why::BoxBody => WhyName::BoxBody,
        Why::NotSame { .. } => WhyName::NotSame,
    }
}
