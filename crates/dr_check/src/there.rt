//! Whether what a record names is there.
ghost use Rattle.std.specs.Prelude.{◌↔◌, ◌<◌, ◌≤◌, length, IsTrue};
ghost use Rattle.std.specs.List.{AllByRecursion};
ghost use Rattle.ld_terms.specs.Known.{IsContext, IsEquality, IsNode};
ghost use Rattle.ld_terms.specs.Record.{IsTerm, IsThere, EqRuleIsThere, RuleIsThere};
ghost use Rattle.dr_check.specs.Rules.{eq_rule_of, rule_of};
ghost use Rattle.dr_check.specs.Spelled.{record_of};

use crate::checker::Checker;
use crate::rules::{EqualRule, NodeRule};
use crate::spelled::{Claim, Spelled};

/// Whether each number of the record is that of something earlier.
pub(crate) fn is_there(checker: &Checker, spelled: &Spelled) -> bool
    ensures { IsTrue result ↔ IsThere checker.now.state (record_of spelled.now) }
{
    match spelled {
        Spelled::Star | Spelled::Box_ | Spelled::Var(_) => true,
        Spelled::App(t, u) | Spelled::Lam(t, u) | Spelled::Pi(t, u) => {
            has_term(checker, *t) && has_term(checker, *u)
        }
        Spelled::Const(k, ts) => has_entry(checker, *k) && has_terms(checker, ts),
        Spelled::Context(c, t) => has_context(checker, *c) && has_term(checker, *t),
        Spelled::Equal(l, r, rule) => {
            has_term(checker, *l) && has_term(checker, *r) && has_equal_rule(checker, rule)
        }
        Spelled::Node(claim, rule) => has_claim(checker, claim) && has_node_rule(checker, rule),
        Spelled::Entry(_, n) | Spelled::PrimEntry(_, n) | Spelled::Flag(n) | Spelled::End(n) => {
            has_node(checker, *n)
        }
    }
}

fn has_term(checker: &Checker, t: usize) -> bool
    ensures { IsTrue result ↔ IsTerm checker.now.state t }
{
    t < checker.terms()
}

fn has_context(checker: &Checker, c: usize) -> bool
    ensures { IsTrue result ↔ IsContext checker.now.state.known c }
{
    c < checker.contexts()
}

fn has_equality(checker: &Checker, e: usize) -> bool
    ensures { IsTrue result ↔ IsEquality checker.now.state.known e }
{
    e < checker.equalities()
}

fn has_node(checker: &Checker, n: usize) -> bool
    ensures { IsTrue result ↔ IsNode checker.now.state.known n }
{
    n < checker.nodes()
}

fn has_entry(checker: &Checker, k: usize) -> bool
    ensures { IsTrue result ↔ (k < length checker.now.state.known.env) }
{
    k < checker.env().len() as usize
}

fn has_terms(checker: &Checker, ts: &[usize]) -> bool
    ensures { IsTrue result ↔ AllByRecursion (IsTerm checker.now.state) ts.now }
{
    are_below(ts, checker.terms())
}

fn has_equalities(checker: &Checker, es: &[usize]) -> bool
    ensures { IsTrue result ↔ AllByRecursion (IsEquality checker.now.state.known) es.now }
{
    are_below(es, checker.equalities())
}

fn has_nodes(checker: &Checker, ns: &[usize]) -> bool
    ensures { IsTrue result ↔ AllByRecursion (IsNode checker.now.state.known) ns.now }
{
    are_below(ns, checker.nodes())
}

fn are_below(numbers: &[usize], bound: usize) -> bool
    ensures { IsTrue result ↔ AllByRecursion (λ n. n < bound) numbers.now }
{
    for n in numbers {
        if *n >= bound {
            return false;
        }
    }
    true
}

fn has_claim(checker: &Checker, claim: &Claim) -> bool
    ensures { IsTrue result ↔ ((claim.now.entries ≤ length checker.now.state.known.env) × IsContext checker.now.state.known claim.now.ctx
        × IsTerm checker.now.state claim.now.term × IsTerm checker.now.state claim.now.of) }
{
    claim.entries <= checker.env().len() as usize
        && has_context(checker, claim.ctx)
        && has_term(checker, claim.term)
        && has_term(checker, claim.of)
}

fn has_equal_rule(checker: &Checker, rule: &EqualRule) -> bool
    ensures { IsTrue result ↔ EqRuleIsThere checker.now.state (eq_rule_of rule.now) }
{
    match rule {
        EqualRule::Refl | EqualRule::Beta | EqualRule::Delta => true,
        EqualRule::Sym(e) => has_equality(checker, *e),
        EqualRule::Trans(e, f)
        | EqualRule::App(e, f)
        | EqualRule::Lam(e, f)
        | EqualRule::Pi(e, f) => has_equality(checker, *e) && has_equality(checker, *f),
        EqualRule::Const(es) => has_equalities(checker, es),
    }
}

fn has_node_rule(checker: &Checker, rule: &NodeRule) -> bool
    ensures { IsTrue result ↔ RuleIsThere checker.now.state (rule_of rule.now) }
{
    match rule {
        NodeRule::Sort => true,
        NodeRule::Var(n) | NodeRule::Def(n) | NodeRule::DefPrim(n) => has_node(checker, *n),
        NodeRule::Weak(n, o) | NodeRule::Form(n, o) | NodeRule::Appl(n, o) | NodeRule::Abst(n, o) =>
            has_node(checker, *n) && has_node(checker, *o),
        NodeRule::Conv(n, o, e) => {
            has_node(checker, *n) && has_node(checker, *o) && has_equality(checker, *e)
        }
        NodeRule::Inst(n, ns) | NodeRule::InstPrim(n, ns) => {
            has_node(checker, *n) && has_nodes(checker, ns)
        }
    }
}
