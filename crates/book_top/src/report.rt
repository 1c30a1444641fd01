//! What is said of an answer.
ghost use Rattle.std.specs.Prelude.{◌≡◌, ◌++◌, IfOk, OnOk};
ghost use Rattle.std.specs.Fmt.{decimal};
ghost use Rattle.fb_parse.specs.ItemView.{at_span};
ghost use Rattle.book_top.specs.Report as said;

use crate::status::{
    BudgetFault, LimitFault, RuleFault, Status, Summary, TextFault, TextWhat, Want,
};
use dr_text::reader::RecordFault;
use fb_base::{NoMemory, Span, place};
use ld_infer::{Path, PathStep, RuleName};
use std::alloc::Global;

const USAGE: &str =
    "usage: flagbook check BOOK OUT, verify DERIV, print BOOK NAME, term BOOK TEXT, gen N OUT, with --budget N\n";

/// What an answer is about.
#[derive(Clone, Copy, Debug, PartialEq, Eq)]
pub enum Subject {
    Book,
    Derivation,
}

/// The report of an answer, one line, or nothing where a call on the desk failed. The text is the book's.
///
/// A place in a book is a line and a column, both from 1, a column in characters; one in a derivation file is an offset in
/// bytes or the number of a record, both from 0.
pub fn report(
    alloc: Global,
    subject: Subject,
    text: &[u8],
    status: &Status,
) -> Result<Vec<u8>, NoMemory>
    ensures { IfOk result (λ bytes. bytes.items ≡ said.report_of subject text.now status.now) }
{
    let mut out = Vec::new(alloc);
    match status {
        Status::Done(summary) => push_done(alloc, subject, summary, &mut out)?,
        Status::Text(fault) => push_fault(alloc, text, fault, &mut out)?,
        Status::Usage => push(USAGE, &mut out)?,
        Status::Rule(fault) => push_rule(alloc, text, fault, &mut out)?,
        Status::Budget(fault) => push_budget(alloc, text, fault, &mut out)?,
        Status::Desk => {}
        Status::Limit(limit) => push_limit(alloc, text, *limit, &mut out)?,
        Status::Memory => push("memory\n", &mut out)?,
        Status::BadRecord(fault) => push_record_fault(alloc, *fault, &mut out)?,
    }
    Ok(out)
}

fn push(words: &str, out: &mut Vec<u8>) -> Result<(), NoMemory>
    ensures { OnOk result (out.new.items ≡ out.old.items ++ words.now) }
{
    push_bytes(words.as_bytes(), out)
}

fn push_bytes(bytes: &[u8], out: &mut Vec<u8>) -> Result<(), NoMemory>
    ensures { OnOk result (out.new.items ≡ out.old.items ++ bytes.now) }
{
    out.extend_from_slice(bytes).map_err(|_| NoMemory)
}

fn push_done(
    alloc: Global,
    subject: Subject,
    summary: &Summary,
    out: &mut Vec<u8>,
) -> Result<(), NoMemory>
    ensures { OnOk result (out.new.items ≡ out.old.items ++ said.done_text subject summary.now) }
{
    match subject {
        Subject::Book => push_counts(alloc, summary, out),
        Subject::Derivation => push_entries(alloc, summary.entries, out),
    }
}

fn push_counts(alloc: Global, summary: &Summary, out: &mut Vec<u8>) -> Result<(), NoMemory>
    ensures { OnOk result (out.new.items ≡ out.old.items ++ said.counts_text summary.now) }
{
    let Summary {
        items,
        entries,
        steps,
    } = *summary;
    match format!(in alloc; "done: {items} items, {entries} entries, {steps} steps\n") {
        Ok(words) => push(&words, out),
        Err(_) => Err(NoMemory),
    }
}

fn push_entries(alloc: Global, entries: u64, out: &mut Vec<u8>) -> Result<(), NoMemory>
    ensures { OnOk result (out.new.items ≡ out.old.items ++ said.entries_text entries) }
{
    match format!(in alloc; "done: {entries} entries\n") {
        Ok(words) => push(&words, out),
        Err(_) => Err(NoMemory),
    }
}

// The place of an offset of the text.
fn push_place(alloc: Global, text: &[u8], offset: usize, out: &mut Vec<u8>) -> Result<(), NoMemory>
    ensures { OnOk result (out.new.items ≡ out.old.items ++ said.place_text text.now offset) }
{
    let (line, column) = place(text, offset.min(text.len()));
    match format!(in alloc; "{line}:{column}: ") {
        Ok(words) => push(&words, out),
        Err(_) => Err(NoMemory),
    }
}

fn push_number(alloc: Global, n: u32, out: &mut Vec<u8>) -> Result<(), NoMemory>
    ensures { OnOk result (out.new.items ≡ out.old.items ++ decimal n) }
{
    match format!(in alloc; "{n}") {
        Ok(words) => push(&words, out),
        Err(_) => Err(NoMemory),
    }
}

fn push_fault(
    alloc: Global,
    text: &[u8],
    fault: &TextFault,
    out: &mut Vec<u8>,
) -> Result<(), NoMemory>
    ensures { OnOk result (out.new.items ≡ out.old.items ++ said.report_of Subject.Book text.now (Status.Text fault.now)) }
{
    push_place(alloc, text, fault.at.start, out)?;
    push("text: ", out)?;
    push_what(alloc, text, fault.at, fault.what, out)?;
    push("\n", out)
}

fn push_what(
    alloc: Global,
    text: &[u8],
    at: Span,
    what: TextWhat,
    out: &mut Vec<u8>,
) -> Result<(), NoMemory>
    ensures { OnOk result (out.new.items ≡ out.old.items ++ said.what_text text.now at what) }
{
    match what {
        TextWhat::BadByte => push("bad byte", out),
        TextWhat::LongName => push("long name", out),
        TextWhat::Syntax => push("syntax", out),
        TextWhat::Unknown => {
            push("unknown name ", out)?;
            push_span(text, at, out)
        }
        TextWhat::NotAConstant => {
            push("not a constant ", out)?;
            push_span(text, at, out)
        }
        TextWhat::ParamsMissing { wanted, given } | TextWhat::ParamsMany { wanted, given } => {
            push_span(text, at, out)?;
            push_wants(alloc, wanted, given, out)
        }
        TextWhat::FlagTaken => {
            push("flag taken ", out)?;
            push_span(text, at, out)
        }
        TextWhat::DepthTooGreat { bars, flags } => push_depth(alloc, bars, flags, out),
        TextWhat::NameTaken => {
            push("name taken ", out)?;
            push_span(text, at, out)
        }
        TextWhat::NotBuilt => push("not built", out),
    }
}

// What is said of its arguments behind a name.
fn push_wants(alloc: Global, wanted: u32, given: u32, out: &mut Vec<u8>) -> Result<(), NoMemory>
    ensures { OnOk result (out.new.items ≡ out.old.items ++ said.wants_text wanted given) }
{
    match format!(in alloc; " wants {wanted}, given {given}") {
        Ok(words) => push(&words, out),
        Err(_) => Err(NoMemory),
    }
}

fn push_depth(alloc: Global, bars: u32, flags: u32, out: &mut Vec<u8>) -> Result<(), NoMemory>
    ensures { OnOk result (out.new.items ≡ out.old.items ++ said.depth_text bars flags) }
{
    match format!(in alloc; "depth {bars} over {flags}") {
        Ok(words) => push(&words, out),
        Err(_) => Err(NoMemory),
    }
}

// The bytes of the text at a span.
fn push_span(text: &[u8], at: Span, out: &mut Vec<u8>) -> Result<(), NoMemory>
    ensures { OnOk result (out.new.items ≡ out.old.items ++ at_span text.now at) }
{
    let end = at.end.min(text.len());
    push_bytes(&text[at.start.min(end)..end], out)
}

fn push_rule(
    alloc: Global,
    text: &[u8],
    fault: &RuleFault,
    out: &mut Vec<u8>,
) -> Result<(), NoMemory>
    ensures { OnOk result (out.new.items ≡ out.old.items ++ said.place_text text.now fault.now.at.start ++ said.rule_text fault.now) }
{
    push_place(alloc, text, fault.at.start, out)?;
    push("rule ", out)?;
    push(rule_name(fault.rule), out)?;
    push(" ", out)?;
    push_number(alloc, fault.premise, out)?;
    push(" at ", out)?;
    push_path(alloc, &fault.path, out)?;
    push("\n", out)
}

fn push_budget(
    alloc: Global,
    text: &[u8],
    fault: &BudgetFault,
    out: &mut Vec<u8>,
) -> Result<(), NoMemory>
    ensures { OnOk result (out.new.items ≡ out.old.items ++ said.budget_text text.now fault.now) }
{
    push_place(alloc, text, fault.at.start, out)?;
    push("budget: ", out)?;
    push(want_name(fault.want), out)?;
    push("\n", out)
}

fn want_name(want: Want) -> &'static str
    ensures { result.now ≡ said.want_name want }
{
    match want {
        Want::Steps => "steps",
        Want::Height => "height",
        Want::Nesting => "nesting",
    }
}

fn rule_name(rule: RuleName) -> &'static str
    ensures { result.now ≡ said.rule_name rule }
{
    match rule {
        RuleName::Weak => "weak",
        RuleName::Form => "form",
        RuleName::Appl => "appl",
        RuleName::Abst => "abst",
        RuleName::Def => "def",
        RuleName::DefPrim => "def-prim",
        RuleName::Inst => "inst",
        RuleName::InstPrim => "inst-prim",
    }
}

fn push_path(alloc: Global, path: &Path, out: &mut Vec<u8>) -> Result<(), NoMemory>
    ensures { OnOk result (out.new.items ≡ out.old.items ++ said.path_text path.now) }
{
    for i in 0..path.len() {
        push_dot(i, out)?;
        push_step(alloc, path.step(i), out)?;
    }
    Ok(())
}

// The dot before a step that has so many before it.
fn push_dot(before: usize, out: &mut Vec<u8>) -> Result<(), NoMemory>
    ensures { OnOk result (out.new.items ≡ out.old.items ++ said.dot_text before) }
{
    if before == 0 {
        return Ok(());
    }
    push(".", out)
}

fn push_step(alloc: Global, step: PathStep, out: &mut Vec<u8>) -> Result<(), NoMemory>
    ensures { OnOk result (out.new.items ≡ out.old.items ++ said.step_text step) }
{
    match step {
        PathStep::Of => push("type", out),
        PathStep::Body => push("body", out),
        PathStep::Dom => push("dom", out),
        PathStep::Ran => push("ran", out),
        PathStep::Fun => push("fun", out),
        PathStep::Arg => push("arg", out),
        PathStep::Nth(number) => push_number(alloc, number, out),
    }
}

fn push_limit(
    alloc: Global,
    text: &[u8],
    limit: LimitFault,
    out: &mut Vec<u8>,
) -> Result<(), NoMemory>
    ensures { OnOk result (out.new.items ≡ out.old.items ++ said.limit_text text.now limit) }
{
    match limit {
        LimitFault::BookBytes => push("limit: book bytes\n", out),
        LimitFault::DerivBytes => push("limit: derivation bytes\n", out),
        LimitFault::Nesting(at) => {
            push_place(alloc, text, at, out)?;
            push("limit: nesting\n", out)
        }
        LimitFault::Items(at) => {
            push_place(alloc, text, at, out)?;
            push("limit: items\n", out)
        }
        LimitFault::Height(at) => {
            push_place(alloc, text, at, out)?;
            push("limit: height\n", out)
        }
        LimitFault::Flags(at) => {
            push_place(alloc, text, at, out)?;
            push("limit: flags\n", out)
        }
    }
}

fn push_record_fault(alloc: Global, fault: RecordFault, out: &mut Vec<u8>) -> Result<(), NoMemory>
    ensures { OnOk result (out.new.items ≡ out.old.items ++ said.record_text fault) }
{
    match fault {
        RecordFault::Malformed(at) => push_offset(alloc, at, out),
        RecordFault::Unfinished => push("unfinished\n", out),
        RecordFault::BadRef(number) => push_record(alloc, number, "reference", out),
        RecordFault::BadStep(number) => push_record(alloc, number, "step", out),
        RecordFault::Memory => push("memory\n", out),
    }
}

fn push_offset(alloc: Global, at: usize, out: &mut Vec<u8>) -> Result<(), NoMemory>
    ensures { OnOk result (out.new.items ≡ out.old.items ++ said.offset_text at) }
{
    match format!(in alloc; "offset {at}: malformed\n") {
        Ok(words) => push(&words, out),
        Err(_) => Err(NoMemory),
    }
}

// What is wrong with the record of a number.
fn push_record(alloc: Global, number: u64, wrong: &str, out: &mut Vec<u8>) -> Result<(), NoMemory>
    ensures { OnOk result (out.new.items ≡ out.old.items ++ said.wrong_text number wrong.now) }
{
    match format!(in alloc; "record {number}: {wrong}\n") {
        Ok(words) => push(&words, out),
        Err(_) => Err(NoMemory),
    }
}
