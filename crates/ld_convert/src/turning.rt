//! One turn of a comparison: both terms are put in beta-head form, and then compared by their heads and parts, or unfolded.
ghost use Rattle.std.specs.Prelude.{◌≡◌, ◌≤◌, ◌+◌, length, All, IfOk};
ghost use Rattle.ld_terms.specs.Bank.{tree_at, IsTermAt};
ghost use Rattle.ld_record.specs.Kept.{known_of, IsSound};
ghost use Rattle.ld_reduce.specs.Cost.{Goes};
ghost use Rattle.ld_convert.specs.Compares.{Compares, turn, heads_turn, all_same};
ghost use Rattle.ld_convert.specs.Apart.{parts_of};
ghost use Rattle.ld_convert.specs.Pairs.{pairs_of};
ghost use Rattle.ld_convert.specs.Walks.{parts_in};
ghost use Rattle.ld_convert.specs.Account.{ComparedAs};
ghost use Rattle.ld_convert.specs.Turned.{IsReady, AreComparable, IsComparablePart, IsShallow, IsShallowTurn, IsShallowWalk, answer_of, IsTurned, IsLed, AreSpentLess, TurnedAs, same_parts, WalkedAs};

use crate::sides::{sides_to_unfold, unfold_sides};
use crate::{Compared, Job, Part, compare, congruence, gather};
use fb_base::NoMemory;
use ld_env::Env;
use ld_record::{Deriv, EqId, EqStep};
use ld_reduce::{Stop, beta_head};
use ld_terms::{Bank, TermId};
use std::alloc::Global;

// Two terms to which two others lead, with an equality for each side.
#[derive(Clone, Copy, Debug)]
pub(crate) struct Led {
    pub(crate) left: TermId,
    pub(crate) right: TermId,
    pub(crate) first: EqId,
    pub(crate) second: EqId,
}

// What a turn comes to: an answer, or two terms that are to be compared in place of the two.
#[derive(Clone, Copy, Debug)]
pub(crate) enum Turned {
    Done(Compared),
    Next(Led),
}

// The parts of two terms: each pair the same, with its equality, or the first that are apart.
#[derive(Debug, Drop)]
enum Walked {
    Same(Vec<EqId>),
    Apart {
        left: TermId,
        right: TermId,
        under: u32,
    },
}

// One turn: both terms are put in beta-head form.
#[cycle(compare)]
pub(crate) fn turn(
    alloc: Global,
    bank: &mut Bank,
    env: &Env,
    deriv: &mut Deriv,
    ends: (TermId, TermId),
    nest: u32,
    job: &mut Job,
) -> Result<Turned, Stop>
    requires ready { IsReady bank.old deriv.old env.now job.old.known }
    requires terms { AreComparable bank.old (known_of bank.old deriv.old) ends.0 ends.1 }
    requires nest { nest ≤ 1000 }
    ensures answer { TurnedAs (turn (known_of bank.old deriv.old).env (Compares (known_of bank.old deriv.old).env (nest + 1)) (tree_at bank.old ends.0) (tree_at bank.old ends.1))
        (tree_at bank.old ends.0) (tree_at bank.old ends.1) (length (known_of bank.old deriv.old).env) bank.new (known_of bank.new deriv.new)
        (pairs_of bank.old job.old.known) (pairs_of bank.new job.new.known) job.old.budget job.new.budget result }
    ensures ready { IsReady bank.new deriv.new env.now job.new.known }
    ensures goes { Goes bank.old bank.new deriv.old deriv.new }
    ensures most { job.new.budget.left ≤ job.old.budget.left }
    ensures less { IfOk result (AreSpentLess job.old.budget job.new.budget) }
    ensures under { IfOk result (IsShallowTurn nest) }
{
    let (left, first) = beta_head(bank, deriv, ends.0, &mut job.budget)?;
    let (right, second) = beta_head(bank, deriv, ends.1, &mut job.budget)?;
    let turned = by_heads(alloc, bank, env, deriv, left, right, nest, job)?;
    let led = Led {
        left,
        right,
        first,
        second,
    };
    Ok(follow(bank, deriv, ends, led, turned)?)
}

// What two terms in beta-head form come to: the same by their trees or their parts, apart, or unfolded.
#[cycle(compare)]
fn by_heads(
    alloc: Global,
    bank: &mut Bank,
    env: &Env,
    deriv: &mut Deriv,
    a: TermId,
    b: TermId,
    nest: u32,
    job: &mut Job,
) -> Result<Turned, Stop>
    requires ready { IsReady bank.old deriv.old env.now job.old.known }
    requires terms { AreComparable bank.old (known_of bank.old deriv.old) a b }
    requires nest { nest ≤ 1000 }
    ensures answer { TurnedAs (heads_turn (known_of bank.old deriv.old).env (Compares (known_of bank.old deriv.old).env (nest + 1)) (tree_at bank.old a) (tree_at bank.old b))
        (tree_at bank.old a) (tree_at bank.old b) (length (known_of bank.old deriv.old).env) bank.new (known_of bank.new deriv.new)
        (pairs_of bank.old job.old.known) (pairs_of bank.new job.new.known) job.old.budget job.new.budget result }
    ensures ready { IsReady bank.new deriv.new env.now job.new.known }
    ensures goes { Goes bank.old bank.new deriv.old deriv.new }
    ensures most { job.new.budget.left ≤ job.old.budget.left }
    ensures less { IfOk result (AreSpentLess job.old.budget job.new.budget) }
    ensures under { IfOk result (IsShallowTurn nest) }
{
    if bank.same(a, b) {
        let equal = deriv.emit_eq(bank, a, b, EqStep::Refl)?;
        return Ok(Turned::Done(Compared::Same(equal)));
    }
    let sides = sides_to_unfold(bank, env, a, b);
    let compared = by_parts(alloc, bank, env, deriv, a, b, nest, job)?;
    match compared {
        Compared::Apart { .. } if sides.is_some() => {
            let led = unfold_sides(bank, env, deriv, sides, (a, b), &mut job.budget)?;
            Ok(Turned::Next(led))
        }
        _ => Ok(Turned::Done(compared)),
    }
}

// The comparison of two terms by their parts. They are apart where their heads aren't alike or their spines as long.
#[cycle(compare)]
fn by_parts(
    alloc: Global,
    bank: &mut Bank,
    env: &Env,
    deriv: &mut Deriv,
    a: TermId,
    b: TermId,
    nest: u32,
    job: &mut Job,
) -> Result<Compared, Stop>
    requires ready { IsReady bank.old deriv.old env.now job.old.known }
    requires terms { AreComparable bank.old (known_of bank.old deriv.old) a b }
    requires nest { nest ≤ 1000 }
    ensures answer { ComparedAs (same_parts (known_of bank.old deriv.old).env (Compares (known_of bank.old deriv.old).env (nest + 1)) (parts_of (tree_at bank.old a) (tree_at bank.old b)) (tree_at bank.old a) (tree_at bank.old b))
        (tree_at bank.old a) (tree_at bank.old b) (length (known_of bank.old deriv.old).env) bank.new (known_of bank.new deriv.new)
        (pairs_of bank.old job.old.known) (pairs_of bank.new job.new.known) job.old.budget job.new.budget result }
    ensures ready { IsReady bank.new deriv.new env.now job.new.known }
    ensures goes { Goes bank.old bank.new deriv.old deriv.new }
    ensures most { job.new.budget.left ≤ job.old.budget.left }
    ensures under { IfOk result (IsShallow nest) }
{
    let mut parts = Vec::new(alloc);
    if !gather(bank, a, b, &mut parts)? {
        return Ok(Compared::Apart {
            left: a,
            right: b,
            under: 0,
        });
    }
    match walk(alloc, bank, env, deriv, &parts, nest, job)? {
        Walked::Same(equals) => {
            let equal = congruence(bank, deriv, a, b, equals)?;
            Ok(Compared::Same(equal))
        }
        Walked::Apart { left, right, under } => Ok(Compared::Apart { left, right, under }),
    }
}

// The comparison of parts one after another, until two are apart.
#[cycle(compare)]
fn walk(
    alloc: Global,
    bank: &mut Bank,
    env: &Env,
    deriv: &mut Deriv,
    parts: &[Part],
    nest: u32,
    job: &mut Job,
) -> Result<Walked, Stop>
    requires ready { IsReady bank.old deriv.old env.now job.old.known }
    requires parts { All (IsComparablePart bank.old (known_of bank.old deriv.old)) parts.now }
    requires nest { nest ≤ 1000 }
    ensures answer { WalkedAs (all_same (known_of bank.old deriv.old).env (Compares (known_of bank.old deriv.old).env (nest + 1)) (parts_in bank.old parts.now)) (parts_in bank.old parts.now)
        (length (known_of bank.old deriv.old).env) bank.new (known_of bank.new deriv.new)
        (pairs_of bank.old job.old.known) (pairs_of bank.new job.new.known) job.old.budget job.new.budget result }
    ensures ready { IsReady bank.new deriv.new env.now job.new.known }
    ensures goes { Goes bank.old bank.new deriv.old deriv.new }
    ensures most { job.new.budget.left ≤ job.old.budget.left }
    ensures under { IfOk result (IsShallowWalk nest) }
{
    let mut equals = Vec::new(alloc);
    'parts: for part in parts {
        let (a, b) = (part.left, part.right);
        match compare(alloc, bank, env, deriv, a, b, nest + 1, job)? {
            Compared::Same(equal) => equals.push(equal).map_err(|_| NoMemory)?,
            Compared::Apart { left, right, under } => {
                return Ok(Walked::Apart {
                    left,
                    right,
                    under: part.under + under,
                });
            }
        }
    }
    Ok(Walked::Same(equals))
}

// What two terms come to that lead to two others, from what those come to.
#[inline(never)]
pub(crate) fn follow(
    bank: &Bank,
    deriv: &mut Deriv,
    ends: (TermId, TermId),
    led: Led,
    turned: Turned,
) -> Result<Turned, NoMemory>
    requires sound { IsSound bank.now deriv.old }
    requires terms { IsTermAt bank.now ends.0 × IsTermAt bank.now ends.1 }
    requires led { IsLed bank.now (known_of bank.now deriv.old) (tree_at bank.now ends.0) (tree_at bank.now ends.1) (length (known_of bank.now deriv.old).env) led }
    requires turned { IsTurned bank.now (known_of bank.now deriv.old) (tree_at bank.now led.left) (tree_at bank.now led.right) (length (known_of bank.now deriv.old).env) turned }
    ensures answer { IfOk result (λ r. answer_of bank.now r ≡ answer_of bank.now turned) }
    ensures turned { IfOk result (IsTurned bank.now (known_of bank.now deriv.new) (tree_at bank.now ends.0) (tree_at bank.now ends.1) (length (known_of bank.now deriv.old).env)) }
    ensures goes { Goes bank.now bank.now deriv.old deriv.new }
{
    match turned {
        Turned::Done(Compared::Same(equal)) => {
            let there = deriv.emit_eq(bank, ends.0, led.right, EqStep::Trans(led.first, equal))?;
            let back = deriv.emit_eq(bank, led.right, ends.1, EqStep::Sym(led.second))?;
            let equal = deriv.emit_eq(bank, ends.0, ends.1, EqStep::Trans(there, back))?;
            Ok(Turned::Done(Compared::Same(equal)))
        }
        Turned::Done(apart) => Ok(Turned::Done(apart)),
        Turned::Next(next) => {
            let left = EqStep::Trans(led.first, next.first);
            let first = deriv.emit_eq(bank, ends.0, next.left, left)?;
            let right = EqStep::Trans(led.second, next.second);
            let second = deriv.emit_eq(bank, ends.1, next.right, right)?;
            Ok(Turned::Next(Led {
                left: next.left,
                right: next.right,
                first,
                second,
            }))
        }
    }
}
