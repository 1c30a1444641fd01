//! Three lines with their derivation, for the tests, each with a parameter x of type `*`: the primitive `p : *`, `c := *`
//! and `k := x`.
ghost use Rattle.std.specs.Prelude.{◌≡◌, [], IfOk, IfSome, OnOk, IsTrue};
ghost use Rattle.ld_terms.specs.Bank.{tree_at, IsTermAt, IsListAt, Extends};
ghost use Rattle.ld_terms.specs.Named.{IsNamed};
ghost use Rattle.ld_env.specs.Entries.{env_of, AreLive};
ghost use Rattle.ld_record.specs.Kept.{known_of, IsSound};
ghost use Rattle.ld_samples.specs.Samples.{AreTerms, AreJudged};
ghost use Rattle.ld_convert.specs.Samples as sample;
ghost use Rattle.ld_convert.specs.Turned.{IsReady, AreComparable};

use crate::Job;
use ld_env::Env;
use ld_record::Deriv;
use ld_samples::{SampleJudges, SampleTerms, entry, judgements, line, primitive, terms};
use ld_terms::{Bank, Node, TermId};
use std::alloc::Global;
use std::test::Fail;

/// The lines, with a job of so many steps for the comparison of two terms that name no other lines.
pub(crate) fn ready(
    alloc: Global,
    bank: &mut Bank,
    env: &mut Env,
    deriv: &mut Deriv,
    ends: (TermId, TermId),
    steps: u64,
) -> Result<Job, Fail>
    requires none { env.old ≡ [] }
    requires no_records { deriv.old ≡ [] }
    requires first { IsTermAt bank.old ends.0 }
    requires second { IsTermAt bank.old ends.1 }
    ensures ready { IfOk result (λ job. IsReady bank.new deriv.new env.new job.known) }
    ensures terms { OnOk result (AreComparable bank.new (known_of bank.new deriv.new) ends.0 ends.1) }
    ensures exchanged { OnOk result (AreComparable bank.new (known_of bank.new deriv.new) ends.1 ends.0) }
{
    if !is_over_lines(bank, ends.0) || !is_over_lines(bank, ends.1) {
        return Err(Fail::from("a term names no line"));
    }
    lines(alloc, bank, env, deriv)?;
    Ok(Job::new(alloc, steps))
}

// Whether a term names only the lines, each with one argument.
fn is_over_lines(bank: &Bank, t: TermId) -> bool
    requires { IsTermAt bank.now t }
    ensures { IsTrue result → IsNamed sample.lines (tree_at bank.now t) }
{
    match bank.node(t) {
        Node::Star | Node::Box_ | Node::Var(_) => true,
        Node::App(a, b) | Node::Lam(a, b) | Node::Pi(a, b) => {
            is_over_lines(bank, a) && is_over_lines(bank, b)
        }
        Node::Const(k, us) => match argument(bank, us) {
            Some(u) => k < 3 && is_over_lines(bank, u),
            None => false,
        },
        _ => false,
    }
}

// The one argument of a list.
fn argument(bank: &Bank, us: TermId) -> Option<TermId>
    requires { IsListAt bank.now us }
    ensures { IfSome result (sample.IsOnly bank.now us) }
{
    let Node::Cons(u, none) = bank.node(us) else {
        return None;
    };
    match bank.node(none) {
        Node::Nil => Some(u),
        _ => None,
    }
}

fn lines(alloc: Global, bank: &mut Bank, env: &mut Env, deriv: &mut Deriv) -> Result<(), Fail>
    requires none { env.old ≡ [] }
    requires no_records { deriv.old ≡ [] }
    ensures sound { OnOk result (IsSound bank.new deriv.new) }
    ensures env { OnOk result (env_of bank.new env.new ≡ (known_of bank.new deriv.new).env) }
    ensures live { OnOk result (AreLive bank.new env.new) }
    ensures lines { OnOk result ((known_of bank.new deriv.new).env ≡ sample.lines) }
    ensures kept { OnOk result (Extends bank.old bank.new) }
{
    let terms = terms(bank)?;
    let judges = judgements(deriv, bank, terms)?;
    entries(alloc, bank, env, deriv, terms, judges)
}

// The entries of the lines, by the judgements of `*` and of `x` in the context of a variable of type `*`.
fn entries(
    alloc: Global,
    bank: &Bank,
    env: &mut Env,
    deriv: &mut Deriv,
    terms: SampleTerms,
    judges: SampleJudges,
) -> Result<(), Fail>
    requires none { env.old ≡ [] }
    requires sound { IsSound bank.now deriv.old }
    requires terms { AreTerms bank.now terms }
    requires judged { AreJudged (known_of bank.now deriv.old) judges }
    ensures sound { OnOk result (IsSound bank.now deriv.new) }
    ensures env { OnOk result (env_of bank.now env.new ≡ (known_of bank.now deriv.new).env) }
    ensures live { OnOk result (AreLive bank.now env.new) }
    ensures lines { OnOk result ((known_of bank.now deriv.new).env ≡ sample.lines) }
{
    let types = [terms.star];
    let given = entry(alloc, &types, None, terms.star)?;
    primitive(alloc, bank, env, deriv, b'p', given, judges.inner_sort)?;
    let sort = entry(alloc, &types, Some(terms.star), terms.over)?;
    line(alloc, bank, env, deriv, b'c', sort, judges.inner_sort)?;
    let variable = entry(alloc, &types, Some(terms.inner), terms.star)?;
    line(alloc, bank, env, deriv, b'k', variable, judges.variable)?;
    Ok(())
}
