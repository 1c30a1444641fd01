//! The comparison of two terms, turn by turn.
ghost use Rattle.std.specs.Prelude.{◌≡◌, ◌≤◌, ◌+◌, ◌||◌, false, length, IfOk};
ghost use Rattle.ld_terms.specs.Tests.{equals};
ghost use Rattle.ld_terms.specs.Bank.{tree_at, IsTermAt};
ghost use Rattle.ld_terms.specs.Named.{IsNamed};
ghost use Rattle.ld_env.specs.Entries.{env_of, AreLive};
ghost use Rattle.ld_record.specs.Kept.{known_of, IsSound};
ghost use Rattle.ld_reduce.specs.Cost.{Goes};
ghost use Rattle.ld_convert.specs.Compares.{Compares, Turns};
ghost use Rattle.ld_convert.specs.Known.{is_known};
ghost use Rattle.ld_convert.specs.Pairs.{pairs_of, ArePairsLive};
ghost use Rattle.ld_convert.specs.Account.{ComparedAs};
ghost use Rattle.ld_convert.specs.Apartness.{ShowsApart};
ghost use Rattle.ld_convert.specs.Turned.{IsReady, AreComparable, IsShallow, IsShallowTurn, AreSpentLess, TurnedAs, next_turn};

use crate::turning::{Turned, follow, turn};
use crate::{Compared, Job, remember, same_at_once};
use ld_env::Env;
use ld_record::Deriv;
use ld_reduce::Stop;
use ld_terms::{Bank, TermId};
use std::alloc::Global;

const GREATEST_NESTING: u32 = 1000;

/// Compares two terms by their head forms, with an equality of the two where they are the same. `nest` is the nesting of
/// the comparison: 1 where it is no part of another, and one more for the parts of two terms. Each beta step and each
/// unfolding is a step of the job. Two terms that are found the same, but not at once, are a known pair from then on.
/// Where it answers `Apart`, the two aren't convertible, and neither are the two terms in the answer.
///
/// `Nested`: parts are nested deeper than 1,000. `High`, `Spent`: as in [`beta_head`](ld_reduce::beta_head).
#[cycle(compare)]
pub fn compare(
    alloc: Global,
    bank: &mut Bank,
    env: &Env,
    deriv: &mut Deriv,
    a: TermId,
    b: TermId,
    nest: u32,
    job: &mut Job,
) -> Result<Compared, Stop>
    requires sound { IsSound bank.old deriv.old }
    requires env { env_of bank.old env.now ≡ (known_of bank.old deriv.old).env }
    requires live { AreLive bank.old env.now }
    requires pairs { ArePairsLive bank.old (known_of bank.old deriv.old) (length (known_of bank.old deriv.old).env) job.old.known }
    requires first { IsTermAt bank.old a }
    requires second { IsTermAt bank.old b }
    requires first_named { IsNamed (known_of bank.old deriv.old).env (tree_at bank.old a) }
    requires second_named { IsNamed (known_of bank.old deriv.old).env (tree_at bank.old b) }
    requires nest { nest ≤ 1001 }
    ensures answer { ComparedAs (Compares (known_of bank.old deriv.old).env nest (tree_at bank.old a) (tree_at bank.old b)) (tree_at bank.old a) (tree_at bank.old b)
        (length (known_of bank.old deriv.old).env) bank.new (known_of bank.new deriv.new) (pairs_of bank.old job.old.known) (pairs_of bank.new job.new.known) job.old.budget job.new.budget result }
    ensures pairs { ArePairsLive bank.new (known_of bank.new deriv.new) (length (known_of bank.new deriv.new).env) job.new.known }
    ensures goes { Goes bank.old bank.new deriv.old deriv.new }
    ensures most { job.new.budget.left ≤ job.old.budget.left }
    ensures under { IfOk result (IsShallow nest) }
    ensures apart { IfOk result (ShowsApart (known_of bank.old deriv.old).env bank.new (tree_at bank.old a) (tree_at bank.old b)) }
{
    if nest > GREATEST_NESTING {
        return Err(Stop::Nested);
    }
    if let Some(equal) = same_at_once(bank, deriv, &job.known, a, b)? {
        return Ok(Compared::Same(equal));
    }
    let compared = turns(alloc, bank, env, deriv, a, b, nest, job)?;
    if let Compared::Same(equal) = compared {
        remember(bank, &mut job.known, a, b, equal)?;
    }
    Ok(compared)
}

// The comparison of two terms that aren't the same at once: turn after turn, until the two to which they lead are the same
// or apart.
#[cycle(compare)]
fn turns(
    alloc: Global,
    bank: &mut Bank,
    env: &Env,
    deriv: &mut Deriv,
    a: TermId,
    b: TermId,
    nest: u32,
    job: &mut Job,
) -> Result<Compared, Stop>
    requires ready { IsReady bank.old deriv.old env.now job.old.known }
    requires terms { AreComparable bank.old (known_of bank.old deriv.old) a b }
    requires not_at_once { (equals (tree_at bank.old a) (tree_at bank.old b) || is_known (pairs_of bank.old job.old.known) (tree_at bank.old a) (tree_at bank.old b)) ≡ false }
    requires nest { nest ≤ 1000 }
    ensures answer { ComparedAs (Turns (known_of bank.old deriv.old).env (Compares (known_of bank.old deriv.old).env (nest + 1)) (tree_at bank.old a) (tree_at bank.old b))
        (tree_at bank.old a) (tree_at bank.old b) (length (known_of bank.old deriv.old).env) bank.new (known_of bank.new deriv.new)
        (pairs_of bank.old job.old.known) (pairs_of bank.new job.new.known) job.old.budget job.new.budget result }
    ensures ready { IsReady bank.new deriv.new env.now job.new.known }
    ensures goes { Goes bank.old bank.new deriv.old deriv.new }
    ensures most { job.new.budget.left ≤ job.old.budget.left }
    ensures under { IfOk result (IsShallow nest) }
{
    let mut turned = turn(alloc, bank, env, deriv, (a, b), nest, job)?;
    'turns: loop {
        match turned {
            Turned::Done(compared) => return Ok(compared),
            Turned::Next(led) => {
                let next = next_turn(alloc, bank, env, deriv, (led.left, led.right), nest, job)?;
                turned = follow(bank, deriv, (a, b), led, next)?;
            }
        }
    }
}

// One turn more, unless the two are the same at once.
#[cycle(compare)]
fn next_turn(
    alloc: Global,
    bank: &mut Bank,
    env: &Env,
    deriv: &mut Deriv,
    ends: (TermId, TermId),
    nest: u32,
    job: &mut Job,
) -> Result<Turned, Stop>
    requires ready { IsReady bank.old deriv.old env.now job.old.known }
    requires terms { AreComparable bank.old (known_of bank.old deriv.old) ends.0 ends.1 }
    requires nest { nest ≤ 1000 }
    ensures answer { TurnedAs (next_turn (known_of bank.old deriv.old).env (Compares (known_of bank.old deriv.old).env (nest + 1)) (tree_at bank.old ends.0) (tree_at bank.old ends.1))
        (tree_at bank.old ends.0) (tree_at bank.old ends.1) (length (known_of bank.old deriv.old).env) bank.new (known_of bank.new deriv.new)
        (pairs_of bank.old job.old.known) (pairs_of bank.new job.new.known) job.old.budget job.new.budget result }
    ensures ready { IsReady bank.new deriv.new env.now job.new.known }
    ensures goes { Goes bank.old bank.new deriv.old deriv.new }
    ensures most { job.new.budget.left ≤ job.old.budget.left }
    ensures less { IfOk result (AreSpentLess job.old.budget job.new.budget) }
    ensures under { IfOk result (IsShallowTurn nest) }
{
    match same_at_once(bank, deriv, &job.known, ends.0, ends.1)? {
        Some(equal) => Ok(Turned::Done(Compared::Same(equal))),
        None => turn(alloc, bank, env, deriv, ends, nest, job),
    }
}
