//! Whether an instance of an entry has a type by the rule of a record.
ghost use Rattle.std.specs.Prelude.{◌≡◌, ◌↔◌, ◌<◌, IsTrue, All};
ghost use Rattle.std.specs.List.{AllByRecursion};
ghost use Rattle.ld_terms.specs.Tree.{Star, Box, Nil};
ghost use Rattle.ld_terms.specs.Put.{put};
ghost use Rattle.ld_terms.specs.Bank.{tree_at, list_at, listed, IsTermAt, IsListAt};
ghost use Rattle.ld_terms.specs.Rule.{Rule};
ghost use Rattle.ld_terms.specs.Known.{FollowsBy, Judges, JudgeArguments, IsNode};
ghost use Rattle.ld_env.specs.Entries.{IsLiveEntry};
ghost use Rattle.dr_check.specs.Entered.{IsArgument};

use crate::checker::Checker;
use crate::compare::{is_empty, is_instance, same_lists, same_terms};
use crate::known::{entry_at, judges_star};
use crate::shape::Filling;
use ld_env::Entry;
use ld_terms::{Node, TermId};

/// Whether an instance of an entry with a body follows from its nodes: one over the context, and one for each argument.
pub(crate) fn by_inst(
    checker: &Checker,
    m: u32,
    ctx: TermId,
    t: TermId,
    u: TermId,
    n: usize,
    ns: &[usize],
) -> bool
    requires ctx { IsListAt checker.now.items ctx }
    requires term { IsTermAt checker.now.items t }
    requires type_ { IsTermAt checker.now.items u }
    requires there { IsNode checker.now.state.known n }
    requires arguments { AllByRecursion (IsNode checker.now.state.known) ns.now }
    ensures { IsTrue result ↔ FollowsBy checker.now.state.known m (list_at checker.now.items ctx) (tree_at checker.now.items t) (tree_at checker.now.items u) (Rule.Inst n ns.now) }
{
    let Node::Const(k, us) = checker.bank().node(t) else {
        return false;
    };
    let Some(entry) = entry_at(checker, k) else {
        return false;
    };
    match entry.body {
        Some(_) => judges_instance(checker, m, ctx, k, us, u, entry, n, ns),
        None => false,
    }
}

/// The same for an entry without a body.
pub(crate) fn by_inst_prim(
    checker: &Checker,
    m: u32,
    ctx: TermId,
    t: TermId,
    u: TermId,
    n: usize,
    ns: &[usize],
) -> bool
    requires ctx { IsListAt checker.now.items ctx }
    requires term { IsTermAt checker.now.items t }
    requires type_ { IsTermAt checker.now.items u }
    requires there { IsNode checker.now.state.known n }
    requires arguments { AllByRecursion (IsNode checker.now.state.known) ns.now }
    ensures { IsTrue result ↔ FollowsBy checker.now.state.known m (list_at checker.now.items ctx) (tree_at checker.now.items t) (tree_at checker.now.items u) (Rule.InstPrim n ns.now) }
{
    let Node::Const(k, us) = checker.bank().node(t) else {
        return false;
    };
    let Some(entry) = entry_at(checker, k) else {
        return false;
    };
    match entry.body {
        Some(_) => false,
        None => judges_instance(checker, m, ctx, k, us, u, entry, n, ns),
    }
}

// Whether the nodes judge the instance of an entry, one over the context and one for each argument, and this is its type.
fn judges_instance(
    checker: &Checker,
    m: u32,
    ctx: TermId,
    k: u32,
    us: TermId,
    u: TermId,
    entry: &Entry,
    n: usize,
    ns: &[usize],
) -> bool
    requires ctx { IsListAt checker.now.items ctx }
    requires arguments { IsListAt checker.now.items us }
    requires type_ { IsTermAt checker.now.items u }
    requires entry { IsLiveEntry checker.now.items entry.now }
    requires there { IsNode checker.now.state.known n }
    requires nodes { AllByRecursion (IsNode checker.now.state.known) ns.now }
    ensures { IsTrue result ↔ ((k < m) × Judges checker.now.state.known n m (list_at checker.now.items ctx) Star Box
        × JudgeArguments checker.now.state.known ns.now m (list_at checker.now.items ctx) (listed checker.now.items Nil entry.now.params) (list_at checker.now.items us)
        × (tree_at checker.now.items u ≡ put (tree_at checker.now.items entry.now.of) (list_at checker.now.items us))) }
{
    k < m
        && judges_star(checker, n, m, ctx)
        && judge_arguments(checker, ns, m, ctx, entry.params.as_slice(), us)
        && is_instance(checker.bank(), u, entry.of, Filling::List(us))
}

// Whether the nodes give each argument its parameter's type, from the last to the first.
fn judge_arguments(
    checker: &Checker,
    ns: &[usize],
    m: u32,
    ctx: TermId,
    params: &[TermId],
    us: TermId,
) -> bool
    requires nodes { AllByRecursion (IsNode checker.now.state.known) ns.now }
    requires ctx { IsListAt checker.now.items ctx }
    requires params { All (IsTermAt checker.now.items) params.now }
    requires arguments { IsListAt checker.now.items us }
    ensures { IsTrue result ↔ JudgeArguments checker.now.state.known ns.now m (list_at checker.now.items ctx) (listed checker.now.items Nil params.now) (list_at checker.now.items us) }
{
    if ns.len() != params.len() {
        return false;
    }
    let mut rest = us;
    let mut i = ns.len();
    while i > 0 {
        i -= 1;
        let Node::Cons(u, before) = checker.bank().node(rest) else {
            return false;
        };
        if !is_argument(checker, ns[i], m, ctx, params[i], before, u) {
            return false;
        }
        rest = before;
    }
    is_empty(checker.bank(), rest)
}

// Whether a node gives the argument its parameter's type, with the arguments before it put in.
fn is_argument(
    checker: &Checker,
    n: usize,
    m: u32,
    ctx: TermId,
    param: TermId,
    before: TermId,
    u: TermId,
) -> bool
    requires there { IsNode checker.now.state.known n }
    requires ctx { IsListAt checker.now.items ctx }
    requires param { IsTermAt checker.now.items param }
    requires before { IsListAt checker.now.items before }
    requires argument { IsTermAt checker.now.items u }
    ensures { IsTrue result ↔ IsArgument checker.now.state.known n m (list_at checker.now.items ctx) (tree_at checker.now.items param) (list_at checker.now.items before) (tree_at checker.now.items u) }
{
    let node = checker.node(n);
    node.entries == m
        && same_lists(checker.bank(), node.ctx, ctx)
        && same_terms(checker.bank(), node.term, u)
        && is_instance(checker.bank(), node.of, param, Filling::List(before))
}
