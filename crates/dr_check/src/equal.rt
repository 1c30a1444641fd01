//! Whether two terms are equal by the rule of a record.
ghost use Rattle.std.specs.Prelude.{◌≡◌, ◌↔◌, ◌≤◌, max, length, map, IsTrue};
ghost use Rattle.std.specs.List.{AllByRecursion};
ghost use Rattle.ld_terms.specs.Tree.{Tree, Const};
ghost use Rattle.ld_terms.specs.Bank.{tree_at, list_at, IsTermAt, IsListAt};
ghost use Rattle.ld_terms.specs.Rule.{EqRule};
ghost use Rattle.ld_terms.specs.Known.{IsEqualBy, EquateAll, IsEquality, bound_by, bound_at, behind_entry, greatest};
ghost use Rattle.ld_terms.specs.Record.{EqRuleIsThere};
ghost use Rattle.dr_check.specs.Rules.{eq_rule_of};

use crate::checker::Checker;
use crate::compare::{has_count, is_empty, is_instance, same_terms};
use crate::known::{entry_at, equates};
use crate::rules::EqualRule;
use crate::shape::Filling;
use ld_terms::{Node, TermId};

/// Whether two terms are equal by the rule, over what the records so far have made.
pub(crate) fn is_equal_by(checker: &Checker, l: TermId, r: TermId, rule: &EqualRule) -> bool
    requires left { IsTermAt checker.now.items l }
    requires right { IsTermAt checker.now.items r }
    requires there { EqRuleIsThere checker.now.state (eq_rule_of rule.now) }
    ensures { IsTrue result ↔ IsEqualBy checker.now.state.known (tree_at checker.now.items l) (tree_at checker.now.items r) (eq_rule_of rule.now) }
{
    match rule {
        EqualRule::Refl => same_terms(checker.bank(), l, r),
        EqualRule::Sym(e) => equates(checker, *e, r, l),
        EqualRule::Trans(e, f) => by_trans(checker, l, r, *e, *f),
        EqualRule::Beta => by_beta(checker, l, r),
        EqualRule::Delta => by_delta(checker, l, r),
        EqualRule::App(e, f) => by_app(checker, l, r, *e, *f),
        EqualRule::Lam(e, f) => by_lam(checker, l, r, *e, *f),
        EqualRule::Pi(e, f) => by_pi(checker, l, r, *e, *f),
        EqualRule::Const(es) => by_const(checker, l, r, es),
    }
}

fn by_trans(checker: &Checker, l: TermId, r: TermId, e: usize, f: usize) -> bool
    requires left { IsTermAt checker.now.items l }
    requires right { IsTermAt checker.now.items r }
    requires first { IsEquality checker.now.state.known e }
    requires second { IsEquality checker.now.state.known f }
    ensures { IsTrue result ↔ IsEqualBy checker.now.state.known (tree_at checker.now.items l) (tree_at checker.now.items r) (EqRule.Trans e f) }
{
    let middle = checker.equality(e).right;
    equates(checker, e, l, middle) && equates(checker, f, middle, r)
}

fn by_beta(checker: &Checker, l: TermId, r: TermId) -> bool
    requires left { IsTermAt checker.now.items l }
    requires right { IsTermAt checker.now.items r }
    ensures { IsTrue result ↔ IsEqualBy checker.now.state.known (tree_at checker.now.items l) (tree_at checker.now.items r) EqRule.Beta }
{
    let bank = checker.bank();
    let Node::App(f, u) = bank.node(l) else {
        return false;
    };
    match bank.node(f) {
        Node::Lam(_, body) => is_instance(bank, r, body, Filling::One(u)),
        _ => false,
    }
}

fn by_delta(checker: &Checker, l: TermId, r: TermId) -> bool
    requires left { IsTermAt checker.now.items l }
    requires right { IsTermAt checker.now.items r }
    ensures { IsTrue result ↔ IsEqualBy checker.now.state.known (tree_at checker.now.items l) (tree_at checker.now.items r) EqRule.Delta }
{
    match checker.bank().node(l) {
        Node::Const(k, us) => unfolds(checker, k, us, r),
        _ => false,
    }
}

fn unfolds(checker: &Checker, k: u32, us: TermId, r: TermId) -> bool
    requires arguments { IsListAt checker.now.items us }
    requires right { IsTermAt checker.now.items r }
    ensures { IsTrue result ↔ IsEqualBy checker.now.state.known (Const k (list_at checker.now.items us)) (tree_at checker.now.items r) EqRule.Delta }
{
    let Some(entry) = entry_at(checker, k) else {
        return false;
    };
    let bank = checker.bank();
    match entry.body {
        Some(body) => {
            has_count(bank, us, entry.params.as_slice().len())
                && is_instance(bank, r, body, Filling::List(us))
        }
        None => false,
    }
}

fn by_app(checker: &Checker, l: TermId, r: TermId, e: usize, f: usize) -> bool
    requires left { IsTermAt checker.now.items l }
    requires right { IsTermAt checker.now.items r }
    requires first { IsEquality checker.now.state.known e }
    requires second { IsEquality checker.now.state.known f }
    ensures { IsTrue result ↔ IsEqualBy checker.now.state.known (tree_at checker.now.items l) (tree_at checker.now.items r) (EqRule.App e f) }
{
    match (checker.bank().node(l), checker.bank().node(r)) {
        (Node::App(g, u), Node::App(h, v)) => {
            equates(checker, e, g, h) && equates(checker, f, u, v)
        }
        _ => false,
    }
}

fn by_lam(checker: &Checker, l: TermId, r: TermId, e: usize, f: usize) -> bool
    requires left { IsTermAt checker.now.items l }
    requires right { IsTermAt checker.now.items r }
    requires first { IsEquality checker.now.state.known e }
    requires second { IsEquality checker.now.state.known f }
    ensures { IsTrue result ↔ IsEqualBy checker.now.state.known (tree_at checker.now.items l) (tree_at checker.now.items r) (EqRule.Lam e f) }
{
    match (checker.bank().node(l), checker.bank().node(r)) {
        (Node::Lam(a, m), Node::Lam(b, n)) => {
            equates(checker, e, a, b) && equates(checker, f, m, n)
        }
        _ => false,
    }
}

fn by_pi(checker: &Checker, l: TermId, r: TermId, e: usize, f: usize) -> bool
    requires left { IsTermAt checker.now.items l }
    requires right { IsTermAt checker.now.items r }
    requires first { IsEquality checker.now.state.known e }
    requires second { IsEquality checker.now.state.known f }
    ensures { IsTrue result ↔ IsEqualBy checker.now.state.known (tree_at checker.now.items l) (tree_at checker.now.items r) (EqRule.Pi e f) }
{
    match (checker.bank().node(l), checker.bank().node(r)) {
        (Node::Pi(a, c), Node::Pi(b, d)) => {
            equates(checker, e, a, b) && equates(checker, f, c, d)
        }
        _ => false,
    }
}

fn by_const(checker: &Checker, l: TermId, r: TermId, es: &[usize]) -> bool
    requires left { IsTermAt checker.now.items l }
    requires right { IsTermAt checker.now.items r }
    requires there { AllByRecursion (IsEquality checker.now.state.known) es.now }
    ensures { IsTrue result ↔ IsEqualBy checker.now.state.known (tree_at checker.now.items l) (tree_at checker.now.items r) (EqRule.Const es.now) }
{
    match (checker.bank().node(l), checker.bank().node(r)) {
        (Node::Const(k, us), Node::Const(j, vs)) => k == j && equate_all(checker, es, us, vs),
        _ => false,
    }
}

// Whether the equalities equate the terms of two lists, from the last to the first.
fn equate_all(checker: &Checker, es: &[usize], us: TermId, vs: TermId) -> bool
    requires left { IsListAt checker.now.items us }
    requires right { IsListAt checker.now.items vs }
    requires there { AllByRecursion (IsEquality checker.now.state.known) es.now }
    ensures { IsTrue result ↔ EquateAll checker.now.state.known es.now (list_at checker.now.items us) (list_at checker.now.items vs) }
{
    let bank = checker.bank();
    let mut left = us;
    let mut right = vs;
    let mut i = es.len();
    while i > 0 {
        i -= 1;
        let Node::Cons(u, us_before) = bank.node(left) else {
            return false;
        };
        let Node::Cons(v, vs_before) = bank.node(right) else {
            return false;
        };
        if !equates(checker, es[i], u, v) {
            return false;
        }
        left = us_before;
        right = vs_before;
    }
    is_empty(bank, left) && is_empty(bank, right)
}

/// The entries that the equality unfolds are below this number.
pub(crate) fn bound_by(checker: &Checker, l: TermId, rule: &EqualRule) -> u32
    requires left { IsTermAt checker.now.items l }
    requires there { EqRuleIsThere checker.now.state (eq_rule_of rule.now) }
    requires equal { (r : Tree) × IsEqualBy checker.now.state.known (tree_at checker.now.items l) r (eq_rule_of rule.now) }
    ensures { result ≡ bound_by checker.now.state.known (tree_at checker.now.items l) (eq_rule_of rule.now) }
{
    match rule {
        EqualRule::Refl | EqualRule::Beta => 0,
        EqualRule::Sym(e) => checker.equality(*e).bound,
        EqualRule::Trans(e, f)
        | EqualRule::App(e, f)
        | EqualRule::Lam(e, f)
        | EqualRule::Pi(e, f) => greater_bound(checker, *e, *f),
        EqualRule::Delta => behind_entry(checker, l),
        EqualRule::Const(es) => greatest_bound(checker, es),
    }
}

fn greater_bound(checker: &Checker, e: usize, f: usize) -> u32
    requires first { IsEquality checker.now.state.known e }
    requires second { IsEquality checker.now.state.known f }
    ensures { result ≡ max (bound_at checker.now.state.known e) (bound_at checker.now.state.known f) }
{
    greater(checker.equality(e).bound, checker.equality(f).bound)
}

fn greater(a: u32, b: u32) -> u32
    ensures { result ≡ max a b }
{
    a.max(b)
}

// One more than the number of an instance of an entry that is there.
fn behind_entry(checker: &Checker, l: TermId) -> u32
    requires left { IsTermAt checker.now.items l }
    requires there { behind_entry (tree_at checker.now.items l) ≤ length checker.now.state.known.env }
    ensures { result ≡ behind_entry (tree_at checker.now.items l) }
{
    match checker.bank().node(l) {
        Node::Const(k, _) => {
            let _entries = checker.env().len();
            k + 1
        }
        _ => 0,
    }
}

fn greatest_bound(checker: &Checker, es: &[usize]) -> u32
    requires { AllByRecursion (IsEquality checker.now.state.known) es.now }
    ensures { result ≡ greatest (map (bound_at checker.now.state.known) es.now) }
{
    let mut bound = 0;
    for e in es {
        bound = greater(bound, checker.equality(*e).bound);
    }
    bound
}
