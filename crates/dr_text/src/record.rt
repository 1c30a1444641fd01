//! The bytes of records.
ghost use Rattle.std.specs.Prelude.{◌≡◌, ◌++◌, ◌∷◌, ◌<◌, ◌^◌, List, ℕ, OnOk};
ghost use Rattle.std.specs.List.{AllByRecursion};
ghost use Rattle.ld_terms.specs.Record.{Record};
ghost use Rattle.ld_terms.specs.Rule.{equal_numbers, rule_numbers};
ghost use Rattle.ld_record.specs.Follows.{numbers_of, rule_of};
ghost use Rattle.ld_record.specs.Equal.{eq_numbers_of, eq_rule_of};
ghost use Rattle.dr_text.specs.Spelling.{tag, equal_tag, node_tag, numbers_bytes, header};
ghost use Rattle.dr_text.specs.Written.{Pushes, entry_record};

use crate::number::{push_number, push_numbers};
use fb_base::{NoMemory, Text};
use ld_record::{EqId, EqStep, Judge, JudgeId, Step};

/// The bytes with which a derivation file begins.
pub fn header() -> &'static [u8]
    ensures { result.now ≡ header }
{
    b"LDDERIV1"
}

/// Appends a tag and numbers.
pub fn push_record(tag: u8, numbers: &[usize], out: &mut Vec<u8>) -> Result<(), NoMemory>
    ensures bytes { OnOk result (out.new.items ≡ out.old.items ++ tag ∷ numbers_bytes numbers.now) }
    ensures range { AllByRecursion (λ n. n < 2 ^ 64) numbers.now }
{
    out.push(tag).map_err(|_| NoMemory)?;
    push_numbers(numbers, out)
}

/// Appends a judgement, whose term and type have these numbers.
pub fn push_node(
    judge: &Judge,
    step: &Step,
    term: usize,
    of: usize,
    out: &mut Vec<u8>,
) -> Result<(), NoMemory>
    ensures { OnOk result (Pushes out.old.items out.new.items
        (Record.Node judge.now.entries judge.now.ctx.0 term of (rule_of step.now))) }
{
    let numbers = [judge.entries as usize, judge.ctx.number(), term, of];
    push_record(step_tag(step), &numbers, out)?;
    push_premises(step, out)
}

fn step_tag(step: &Step) -> u8
    ensures { result ≡ node_tag (rule_of step.now) }
{
    match step {
        Step::Sort => 0x30,
        Step::Var(_) => 0x31,
        Step::Weak(..) => 0x32,
        Step::Form(..) => 0x33,
        Step::Appl(..) => 0x34,
        Step::Abst(..) => 0x35,
        Step::Conv(..) => 0x36,
        Step::Def(_) => 0x37,
        Step::DefPrim(_) => 0x38,
        Step::Inst(..) => 0x39,
        Step::InstPrim(..) => 0x3a,
    }
}

// The numbers of a rule's premises; an instance's judgements of arguments stand behind their count.
fn push_premises(step: &Step, out: &mut Vec<u8>) -> Result<(), NoMemory>
    ensures bytes { OnOk result (out.new.items ≡ out.old.items ++ numbers_bytes (rule_numbers (rule_of step.now))) }
    ensures range { OnOk result (AllByRecursion (λ n. n < 2 ^ 64) (rule_numbers (rule_of step.now))) }
{
    match step {
        Step::Sort => Ok(()),
        Step::Weak(n, m) | Step::Form(n, m) | Step::Appl(n, m) | Step::Abst(n, m) => {
            push_numbers(&[n.number(), m.number()], out)
        }
        Step::Conv(n, m, e) => push_numbers(&[n.number(), m.number(), e.number()], out),
        Step::Var(n) | Step::Def(n) | Step::DefPrim(n) => push_numbers(&[n.number()], out),
        Step::Inst(n, ns) | Step::InstPrim(n, ns) => {
            let judges = ns.as_slice();
            push_numbers(&[n.number(), judges.len()], out)?;
            push_judges(judges, out)
        }
    }
}

// Appends the numbers of some judgements.
fn push_judges(judges: &[JudgeId], out: &mut Vec<u8>) -> Result<(), NoMemory>
    ensures bytes { OnOk result (out.new.items ≡ out.old.items ++ numbers_bytes (numbers_of judges.now)) }
    ensures range { OnOk result (AllByRecursion (λ n. n < 2 ^ 64) (numbers_of judges.now)) }
{
    for j in judges {
        push_number(j.number(), out)?;
    }
    Ok(())
}

/// Appends an equality, whose sides have these numbers.
pub fn push_equal(
    step: &EqStep,
    left: usize,
    right: usize,
    out: &mut Vec<u8>,
) -> Result<(), NoMemory>
    ensures { OnOk result (Pushes out.old.items out.new.items (Record.Equal left right (eq_rule_of step.now))) }
{
    push_record(eq_tag(step), &[left, right], out)?;
    push_eq_premises(step, out)
}

fn eq_tag(step: &EqStep) -> u8
    ensures { result ≡ equal_tag (eq_rule_of step.now) }
{
    match step {
        EqStep::Refl => 0x20,
        EqStep::Sym(_) => 0x21,
        EqStep::Trans(..) => 0x22,
        EqStep::Beta => 0x23,
        EqStep::Delta => 0x24,
        EqStep::App(..) => 0x25,
        EqStep::Lam(..) => 0x26,
        EqStep::Pi(..) => 0x27,
        EqStep::Const(_) => 0x28,
    }
}

// The numbers of an equality's premises; those of arguments stand behind their count.
fn push_eq_premises(step: &EqStep, out: &mut Vec<u8>) -> Result<(), NoMemory>
    ensures bytes { OnOk result (out.new.items ≡ out.old.items ++ numbers_bytes (equal_numbers (eq_rule_of step.now))) }
    ensures range { OnOk result (AllByRecursion (λ n. n < 2 ^ 64) (equal_numbers (eq_rule_of step.now))) }
{
    match step {
        EqStep::Refl | EqStep::Beta | EqStep::Delta => Ok(()),
        EqStep::Sym(e) => push_numbers(&[e.number()], out),
        EqStep::Trans(e, f) | EqStep::App(e, f) | EqStep::Lam(e, f) | EqStep::Pi(e, f) => {
            push_numbers(&[e.number(), f.number()], out)
        }
        EqStep::Const(es) => {
            let eqs = es.as_slice();
            push_numbers(&[eqs.len()], out)?;
            push_eqs(eqs, out)
        }
    }
}

// Appends the numbers of some equalities.
fn push_eqs(eqs: &[EqId], out: &mut Vec<u8>) -> Result<(), NoMemory>
    ensures bytes { OnOk result (out.new.items ≡ out.old.items ++ numbers_bytes (eq_numbers_of eqs.now)) }
    ensures range { OnOk result (AllByRecursion (λ n. n < 2 ^ 64) (eq_numbers_of eqs.now)) }
{
    for e in eqs {
        push_number(e.number(), out)?;
    }
    Ok(())
}

/// Appends an entry.
pub fn push_entry(name: &Text, j: &JudgeId, prim: bool, out: &mut Vec<u8>) -> Result<(), NoMemory>
    ensures { OnOk result (Pushes out.old.items out.new.items (entry_record prim name.now j.now.0)) }
{
    let bytes = name.bytes();
    push_record(entry_tag(prim), &[bytes.len()], out)?;
    push_bytes(bytes, out)?;
    push_numbers(&[j.number()], out)
}

fn push_bytes(bytes: &[u8], out: &mut Vec<u8>) -> Result<(), NoMemory>
    ensures bytes { OnOk result (out.new.items ≡ out.old.items ++ bytes.now) }
    ensures range { AllByRecursion (λ b. b < 256) bytes.now }
{
    out.extend_from_slice(bytes).map_err(|_| NoMemory)?;
    Ok(())
}

fn entry_tag(prim: bool) -> u8
    ensures { (name : List ℕ) (n : ℕ) → result ≡ tag (entry_record prim name n) }
{
    if prim { 0x41 } else { 0x40 }
}

/// Appends a flag.
pub fn push_flag(j: &JudgeId, out: &mut Vec<u8>) -> Result<(), NoMemory>
    ensures { OnOk result (Pushes out.old.items out.new.items (Record.Flag j.now.0)) }
{
    push_record(0x50, &[j.number()], out)
}
