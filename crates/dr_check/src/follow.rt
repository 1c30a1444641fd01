//! Whether a judgement follows by the rule of a record.
ghost use Rattle.std.specs.Prelude.{◌↔◌, IsTrue};
ghost use Rattle.ld_terms.specs.Bank.{tree_at, list_at, IsTermAt, IsListAt};
ghost use Rattle.ld_terms.specs.Rule.{Rule};
ghost use Rattle.ld_terms.specs.Known.{FollowsBy, IsNode, IsEquality};
ghost use Rattle.ld_terms.specs.Record.{RuleIsThere};
ghost use Rattle.dr_check.specs.Rules.{rule_of};

use crate::checker::Checker;
use crate::compare::{is_empty, is_innermost, is_instance, is_sort, is_weakened, same_terms};
use crate::instance::{by_inst, by_inst_prim};
use crate::known::{entry_at, equates, judges, judges_below, judges_sort};
use crate::rules::NodeRule;
use crate::shape::Filling;
use ld_terms::{Node, TermId};

/// Whether over so many entries and in the context the term has the type by the rule, over what the records so far have
/// made.
pub(crate) fn follows(
    checker: &Checker,
    m: u32,
    ctx: TermId,
    t: TermId,
    u: TermId,
    rule: &NodeRule,
) -> bool
    requires ctx { IsListAt checker.now.items ctx }
    requires term { IsTermAt checker.now.items t }
    requires type_ { IsTermAt checker.now.items u }
    requires there { RuleIsThere checker.now.state (rule_of rule.now) }
    ensures { IsTrue result ↔ FollowsBy checker.now.state.known m (list_at checker.now.items ctx) (tree_at checker.now.items t) (tree_at checker.now.items u) (rule_of rule.now) }
{
    match rule {
        NodeRule::Sort => by_sort(checker, m, ctx, t, u),
        NodeRule::Var(n) => by_var(checker, m, ctx, t, u, *n),
        NodeRule::Weak(n, o) => by_weak(checker, m, ctx, t, u, *n, *o),
        NodeRule::Form(n, o) => by_form(checker, m, ctx, t, u, *n, *o),
        NodeRule::Appl(n, o) => by_appl(checker, m, ctx, t, u, *n, *o),
        NodeRule::Abst(n, o) => by_abst(checker, m, ctx, t, u, *n, *o),
        NodeRule::Conv(n, o, e) => by_conv(checker, m, ctx, t, u, *n, *o, *e),
        NodeRule::Def(n) => by_def(checker, m, ctx, t, u, *n),
        NodeRule::DefPrim(n) => by_def_prim(checker, m, ctx, t, u, *n),
        NodeRule::Inst(n, ns) => by_inst(checker, m, ctx, t, u, *n, ns),
        NodeRule::InstPrim(n, ns) => by_inst_prim(checker, m, ctx, t, u, *n, ns),
    }
}

fn by_sort(checker: &Checker, m: u32, ctx: TermId, t: TermId, u: TermId) -> bool
    requires ctx { IsListAt checker.now.items ctx }
    requires term { IsTermAt checker.now.items t }
    requires type_ { IsTermAt checker.now.items u }
    ensures { IsTrue result ↔ FollowsBy checker.now.state.known m (list_at checker.now.items ctx) (tree_at checker.now.items t) (tree_at checker.now.items u) Rule.Sort }
{
    match (checker.bank().node(t), checker.bank().node(u)) {
        (Node::Star, Node::Box_) => m == 0 && is_empty(checker.bank(), ctx),
        _ => false,
    }
}

fn by_var(checker: &Checker, m: u32, ctx: TermId, t: TermId, u: TermId, n: usize) -> bool
    requires ctx { IsListAt checker.now.items ctx }
    requires term { IsTermAt checker.now.items t }
    requires type_ { IsTermAt checker.now.items u }
    requires there { IsNode checker.now.state.known n }
    ensures { IsTrue result ↔ FollowsBy checker.now.state.known m (list_at checker.now.items ctx) (tree_at checker.now.items t) (tree_at checker.now.items u) (Rule.Var n) }
{
    match checker.bank().node(ctx) {
        Node::Cons(a, outer) => {
            is_innermost(checker.bank(), t)
                && is_weakened(checker.bank(), u, a)
                && judges_sort(checker, n, m, outer, a)
        }
        _ => false,
    }
}

fn by_weak(checker: &Checker, m: u32, ctx: TermId, t: TermId, u: TermId, n: usize, o: usize) -> bool
    requires ctx { IsListAt checker.now.items ctx }
    requires term { IsTermAt checker.now.items t }
    requires type_ { IsTermAt checker.now.items u }
    requires there { IsNode checker.now.state.known n }
    requires sort { IsNode checker.now.state.known o }
    ensures { IsTrue result ↔ FollowsBy checker.now.state.known m (list_at checker.now.items ctx) (tree_at checker.now.items t) (tree_at checker.now.items u) (Rule.Weak n o) }
{
    match checker.bank().node(ctx) {
        Node::Cons(c, outer) => {
            let node = checker.node(n);
            judges(checker, n, m, outer, node.term, node.of)
                && judges_sort(checker, o, m, outer, c)
                && is_weakened(checker.bank(), t, node.term)
                && is_weakened(checker.bank(), u, node.of)
        }
        _ => false,
    }
}

fn by_form(checker: &Checker, m: u32, ctx: TermId, t: TermId, u: TermId, n: usize, o: usize) -> bool
    requires ctx { IsListAt checker.now.items ctx }
    requires term { IsTermAt checker.now.items t }
    requires type_ { IsTermAt checker.now.items u }
    requires there { IsNode checker.now.state.known n }
    requires range { IsNode checker.now.state.known o }
    ensures { IsTrue result ↔ FollowsBy checker.now.state.known m (list_at checker.now.items ctx) (tree_at checker.now.items t) (tree_at checker.now.items u) (Rule.Form n o) }
{
    match checker.bank().node(t) {
        Node::Pi(a, b) => {
            is_sort(checker.bank(), u)
                && judges_sort(checker, n, m, ctx, a)
                && judges_below(checker, o, m, ctx, a, b, u)
        }
        _ => false,
    }
}

fn by_appl(checker: &Checker, m: u32, ctx: TermId, t: TermId, u: TermId, n: usize, o: usize) -> bool
    requires ctx { IsListAt checker.now.items ctx }
    requires term { IsTermAt checker.now.items t }
    requires type_ { IsTermAt checker.now.items u }
    requires there { IsNode checker.now.state.known n }
    requires argument { IsNode checker.now.state.known o }
    ensures { IsTrue result ↔ FollowsBy checker.now.state.known m (list_at checker.now.items ctx) (tree_at checker.now.items t) (tree_at checker.now.items u) (Rule.Appl n o) }
{
    let product = checker.node(n).of;
    match (checker.bank().node(t), checker.bank().node(product)) {
        (Node::App(f, v), Node::Pi(a, b)) => {
            judges(checker, n, m, ctx, f, product)
                && judges(checker, o, m, ctx, v, a)
                && is_instance(checker.bank(), u, b, Filling::One(v))
        }
        _ => false,
    }
}

fn by_abst(checker: &Checker, m: u32, ctx: TermId, t: TermId, u: TermId, n: usize, o: usize) -> bool
    requires ctx { IsListAt checker.now.items ctx }
    requires term { IsTermAt checker.now.items t }
    requires type_ { IsTermAt checker.now.items u }
    requires there { IsNode checker.now.state.known n }
    requires product { IsNode checker.now.state.known o }
    ensures { IsTrue result ↔ FollowsBy checker.now.state.known m (list_at checker.now.items ctx) (tree_at checker.now.items t) (tree_at checker.now.items u) (Rule.Abst n o) }
{
    match (checker.bank().node(t), checker.bank().node(u)) {
        (Node::Lam(a, p), Node::Pi(c, b)) => {
            same_terms(checker.bank(), a, c)
                && judges_below(checker, n, m, ctx, a, p, b)
                && judges_sort(checker, o, m, ctx, u)
        }
        _ => false,
    }
}

fn by_conv(
    checker: &Checker,
    m: u32,
    ctx: TermId,
    t: TermId,
    u: TermId,
    n: usize,
    o: usize,
    e: usize,
) -> bool
    requires ctx { IsListAt checker.now.items ctx }
    requires term { IsTermAt checker.now.items t }
    requires type_ { IsTermAt checker.now.items u }
    requires there { IsNode checker.now.state.known n }
    requires sort { IsNode checker.now.state.known o }
    requires equality { IsEquality checker.now.state.known e }
    ensures { IsTrue result ↔ FollowsBy checker.now.state.known m (list_at checker.now.items ctx) (tree_at checker.now.items t) (tree_at checker.now.items u) (Rule.Conv n o e) }
{
    let before = checker.node(n).of;
    judges(checker, n, m, ctx, t, before)
        && judges_sort(checker, o, m, ctx, u)
        && equates(checker, e, before, u)
        && checker.equality(e).bound <= m
}

fn by_def(checker: &Checker, m: u32, ctx: TermId, t: TermId, u: TermId, n: usize) -> bool
    requires ctx { IsListAt checker.now.items ctx }
    requires term { IsTermAt checker.now.items t }
    requires type_ { IsTermAt checker.now.items u }
    requires there { IsNode checker.now.state.known n }
    ensures { IsTrue result ↔ FollowsBy checker.now.state.known m (list_at checker.now.items ctx) (tree_at checker.now.items t) (tree_at checker.now.items u) (Rule.Def n) }
{
    if m == 0 {
        return false;
    }
    let Some(entry) = entry_at(checker, m - 1) else {
        return false;
    };
    match entry.body {
        Some(_) => judges(checker, n, m - 1, ctx, t, u),
        None => false,
    }
}

fn by_def_prim(checker: &Checker, m: u32, ctx: TermId, t: TermId, u: TermId, n: usize) -> bool
    requires ctx { IsListAt checker.now.items ctx }
    requires term { IsTermAt checker.now.items t }
    requires type_ { IsTermAt checker.now.items u }
    requires there { IsNode checker.now.state.known n }
    ensures { IsTrue result ↔ FollowsBy checker.now.state.known m (list_at checker.now.items ctx) (tree_at checker.now.items t) (tree_at checker.now.items u) (Rule.DefPrim n) }
{
    if m == 0 {
        return false;
    }
    let Some(entry) = entry_at(checker, m - 1) else {
        return false;
    };
    match entry.body {
        Some(_) => false,
        None => judges(checker, n, m - 1, ctx, t, u),
    }
}
