//! What a record makes, where it meets its condition.
ghost use Rattle.std.specs.Prelude.{◌≡◌, ◌↔◌, ◌<◌, ◌≤◌, ◌+◌, ◌^◌, length, IsTrue};
ghost use Rattle.std.specs.List.{AllByRecursion};
ghost use Rattle.ld_terms.specs.Item.{IsOne, tree};
ghost use Rattle.ld_terms.specs.Bank.{item_of, HasParts};
ghost use Rattle.ld_terms.specs.Known.{IsContext, IsNode};
ghost use Rattle.ld_terms.specs.Record.{Record, params_at, IsTerm, IsThere, EqRuleIsThere, RuleIsThere};
ghost use Rattle.dr_check.specs.Rules.{eq_rule_of, rule_of};
ghost use Rattle.dr_check.specs.Spelled.{record_of};
ghost use Rattle.dr_check.specs.Judging.{Makes, MakesTerm};

use crate::checker::{Checker, Equated, Judged};
use crate::equal::{bound_by, is_equal_by};
use crate::follow::follows;
use crate::known::entry_at;
use crate::meets::{may_be_flag, may_be_line, may_be_primitive, may_end};
use crate::rules::{EqualRule, NodeRule};
use crate::spelled::{Claim, Spelled};
use fb_base::NoMemory;
use ld_terms::{Node, TermFault};
use std::alloc::Global;

/// Why a record makes nothing.
#[derive(Clone, Copy, Debug)]
pub(crate) enum Unmet {
    /// It doesn't meet its condition.
    Condition,
    /// Memory ran out.
    Memory,
}

/// Adds what a record makes, where what it names is there and it meets its condition.
pub(crate) fn make(alloc: Global, checker: &mut Checker, spelled: &Spelled) -> Result<(), Unmet>
    requires there { IsThere checker.old.state (record_of spelled.now) }
    requires room { length checker.old.state.known.env + 1 < 2 ^ 32 }
    ensures { Makes checker.old.state checker.new.state (record_of spelled.now) result }
{
    match spelled {
        Spelled::Star => make_term(checker, Node::Star),
        Spelled::Box_ => make_term(checker, Node::Box_),
        Spelled::Var(i) => make_variable(checker, *i),
        Spelled::App(t, u) => {
            let node = Node::App(checker.term(*t), checker.term(*u));
            make_term(checker, node)
        }
        Spelled::Lam(t, u) => {
            let node = Node::Lam(checker.term(*t), checker.term(*u));
            make_term(checker, node)
        }
        Spelled::Pi(t, u) => {
            let node = Node::Pi(checker.term(*t), checker.term(*u));
            make_term(checker, node)
        }
        Spelled::Const(k, ts) => make_instance(checker, *k, ts),
        Spelled::Context(c, t) => make_context(checker, *c, *t),
        Spelled::Equal(l, r, rule) => make_equality(checker, *l, *r, rule),
        Spelled::Node(claim, rule) => make_node(checker, claim, rule),
        Spelled::Entry(name, n) => make_line(alloc, checker, name, *n),
        Spelled::PrimEntry(name, n) => make_primitive(alloc, checker, name, *n),
        Spelled::Flag(n) => make_flag(checker, *n),
        Spelled::End(n) => make_end(checker, *n),
    }
}

fn make_term(checker: &mut Checker, node: Node) -> Result<(), Unmet>
    requires parts { HasParts checker.old.items node }
    requires form { IsOne (item_of checker.old.items node) }
    ensures { MakesTerm checker.old.state checker.new.state (tree (item_of checker.old.items node)) result }
{
    match checker.add_term(node) {
        Ok(()) => Ok(()),
        Err(TermFault::High) => Err(Unmet::Condition),
        Err(TermFault::Memory) => Err(Unmet::Memory),
    }
}

// An index that has no place in a term of the bank is too great for any term.
fn make_variable(checker: &mut Checker, i: usize) -> Result<(), Unmet>
    ensures { Makes checker.old.state checker.new.state (Record.Var i) result }
{
    match u32::try_from(i) {
        Ok(index) => make_term(checker, Node::Var(index)),
        Err(_) => Err(Unmet::Condition),
    }
}

fn make_instance(checker: &mut Checker, k: usize, ts: &[usize]) -> Result<(), Unmet>
    requires entry { k < length checker.old.state.known.env }
    requires terms { AllByRecursion (IsTerm checker.old.state) ts.now }
    ensures { Makes checker.old.state checker.new.state (Record.Const k ts.now) result }
{
    if !has_params(checker, k, ts.len()) {
        return Err(Unmet::Condition);
    }
    let entry = narrowed(checker, k);
    match checker.add_instance(entry, ts) {
        Ok(()) => Ok(()),
        Err(TermFault::High) => Err(Unmet::Condition),
        Err(TermFault::Memory) => Err(Unmet::Memory),
    }
}

fn make_context(checker: &mut Checker, c: usize, t: usize) -> Result<(), Unmet>
    requires context { IsContext checker.old.state.known c }
    requires term { IsTerm checker.old.state t }
    ensures { Makes checker.old.state checker.new.state (Record.Context c t) result }
{
    let ctx = checker.context(c);
    let term = checker.term(t);
    match checker.add_context(ctx, term) {
        Ok(()) => Ok(()),
        Err(NoMemory) => Err(Unmet::Memory),
    }
}

fn make_equality(checker: &mut Checker, l: usize, r: usize, rule: &EqualRule) -> Result<(), Unmet>
    requires left { IsTerm checker.old.state l }
    requires right { IsTerm checker.old.state r }
    requires rule { EqRuleIsThere checker.old.state (eq_rule_of rule.now) }
    ensures { Makes checker.old.state checker.new.state (Record.Equal l r (eq_rule_of rule.now)) result }
{
    let left = checker.term(l);
    let right = checker.term(r);
    if !is_equal_by(checker, left, right, rule) {
        return Err(Unmet::Condition);
    }
    let bound = bound_by(checker, left, rule);
    match checker.add_equality(Equated { left, right, bound }) {
        Ok(()) => Ok(()),
        Err(NoMemory) => Err(Unmet::Memory),
    }
}

fn make_node(checker: &mut Checker, claim: &Claim, rule: &NodeRule) -> Result<(), Unmet>
    requires entries { claim.now.entries ≤ length checker.old.state.known.env }
    requires context { IsContext checker.old.state.known claim.now.ctx }
    requires term { IsTerm checker.old.state claim.now.term }
    requires type_ { IsTerm checker.old.state claim.now.of }
    requires rule { RuleIsThere checker.old.state (rule_of rule.now) }
    ensures { Makes checker.old.state checker.new.state
        (Record.Node claim.now.entries claim.now.ctx claim.now.term claim.now.of (rule_of rule.now)) result }
{
    let judged = Judged {
        entries: narrowed(checker, claim.entries),
        ctx: checker.context(claim.ctx),
        term: checker.term(claim.term),
        of: checker.term(claim.of),
    };
    if !follows(
        checker,
        judged.entries,
        judged.ctx,
        judged.term,
        judged.of,
        rule,
    ) {
        return Err(Unmet::Condition);
    }
    match checker.add_node(judged) {
        Ok(()) => Ok(()),
        Err(NoMemory) => Err(Unmet::Memory),
    }
}

fn make_line(alloc: Global, checker: &mut Checker, name: &[u8], n: usize) -> Result<(), Unmet>
    requires node { IsNode checker.old.state.known n }
    requires room { length checker.old.state.known.env + 1 < 2 ^ 32 }
    ensures { Makes checker.old.state checker.new.state (Record.Entry name.now n) result }
{
    if !may_be_line(checker, name, n) {
        return Err(Unmet::Condition);
    }
    let node = checker.node(n);
    match checker.add_entry(alloc, name, node, false) {
        Ok(()) => Ok(()),
        Err(NoMemory) => Err(Unmet::Memory),
    }
}

fn make_primitive(alloc: Global, checker: &mut Checker, name: &[u8], n: usize) -> Result<(), Unmet>
    requires node { IsNode checker.old.state.known n }
    requires room { length checker.old.state.known.env + 1 < 2 ^ 32 }
    ensures { Makes checker.old.state checker.new.state (Record.PrimEntry name.now n) result }
{
    if !may_be_primitive(checker, name, n) {
        return Err(Unmet::Condition);
    }
    let node = checker.node(n);
    match checker.add_entry(alloc, name, node, true) {
        Ok(()) => Ok(()),
        Err(NoMemory) => Err(Unmet::Memory),
    }
}

fn make_flag(checker: &mut Checker, n: usize) -> Result<(), Unmet>
    requires { IsNode checker.old.state.known n }
    ensures { Makes checker.old.state checker.new.state (Record.Flag n) result }
{
    if !may_be_flag(checker, n) {
        return Err(Unmet::Condition);
    }
    match checker.add_flag(n) {
        Ok(()) => Ok(()),
        Err(NoMemory) => Err(Unmet::Memory),
    }
}

fn make_end(checker: &mut Checker, n: usize) -> Result<(), Unmet>
    requires { IsNode checker.old.state.known n }
    ensures { Makes checker.old.state checker.new.state (Record.End n) result }
{
    if may_end(checker, n) {
        Ok(())
    } else {
        Err(Unmet::Condition)
    }
}

// Whether an entry has so many parameters.
fn has_params(checker: &Checker, k: usize, number: usize) -> bool
    requires { k < length checker.now.state.known.env }
    ensures { IsTrue result ↔ (number ≡ params_at checker.now.state.known.env k) }
{
    match entry_at(checker, narrowed(checker, k)) {
        Some(entry) => entry.params.as_slice().len() == number,
        None => false,
    }
}

// A number of entries that there are, in the size that the tables have for it.
fn narrowed(checker: &Checker, number: usize) -> u32
    requires { number ≤ length checker.now.state.known.env }
    ensures { result ≡ number }
{
    let _entries = checker.env().len();
    number as u32
}
