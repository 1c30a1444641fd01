//! The head form of a term that has room for so much height. The function part of an application is brought to its own form
//! first, so each step is made where it is, and an equality of the whole is kept once for all steps of the part.
ghost use Rattle.std.specs.Prelude.{◌≡◌, ◌≤◌, option_copied};
ghost use Rattle.ld_terms.specs.Tree.{App};
ghost use Rattle.ld_terms.specs.Bank.{tree_at, IsTermAt};
ghost use Rattle.ld_terms.specs.Named.{IsNamed};
ghost use Rattle.ld_record.specs.Kept.{known_of, IsSound};
ghost use Rattle.ld_reduce.specs.Cost.{Goes};
ghost use Rattle.ld_reduce.specs.Steps.{IsOnArgument, Applies, bound_so_far};
ghost use Rattle.ld_reduce.specs.Forms.{HasEntries, next_of, bound_of, Fits, IsDone, IsPartDone, LeadsTo};

use crate::join::chained;
use crate::step::under_argument;
use crate::top::top_once;
use crate::{Budget, Stop};
use ld_env::Env;
use ld_record::{Deriv, EqId};
use ld_terms::{Bank, Node, TermId};

// The form, with an equality where a step was made. `env`: the entries whose constants are unfolded, or none are.
#[cycle(head_form)]
pub(crate) fn head_form(
    bank: &mut Bank,
    env: Option<&Env>,
    deriv: &mut Deriv,
    t: TermId,
    room: u32,
    budget: &mut Budget,
) -> Result<(TermId, Option<EqId>), Stop>
    requires sound { IsSound bank.old deriv.old }
    requires entries { HasEntries bank.old (known_of bank.old deriv.old).env (option_copied env) }
    requires term { IsTermAt bank.old t }
    requires named { IsNamed (known_of bank.old deriv.old).env (tree_at bank.old t) }
    requires room { room ≤ 500 }
    requires fits { Fits room (tree_at bank.old t) }
    ensures leads { LeadsTo IsDone (next_of (option_copied env.entry) (known_of bank.old deriv.old).env) room
        (bound_of (option_copied env.entry) (known_of bank.old deriv.old).env)
        (tree_at bank.old t) bank.new (known_of bank.new deriv.new) budget.old budget.new result }
    ensures goes { Goes bank.old bank.new deriv.old deriv.new }
    ensures most { budget.new.left ≤ budget.old.left }
{
    let mut to = t;
    let mut equal = None;
    'steps: loop {
        let (part, step) = part_form(bank, env, deriv, to, room, budget)?;
        equal = chained(bank, deriv, (t, part), equal, step)?;
        let Some((next, step)) = top_once(bank, env, deriv, part, room, budget)? else {
            return Ok((part, equal));
        };
        equal = chained(bank, deriv, (t, next), equal, Some(step))?;
        to = next;
    }
}

// The term with its function part in head form.
#[cycle(head_form)]
fn part_form(
    bank: &mut Bank,
    env: Option<&Env>,
    deriv: &mut Deriv,
    t: TermId,
    room: u32,
    budget: &mut Budget,
) -> Result<(TermId, Option<EqId>), Stop>
    requires sound { IsSound bank.old deriv.old }
    requires entries { HasEntries bank.old (known_of bank.old deriv.old).env (option_copied env) }
    requires term { IsTermAt bank.old t }
    requires named { IsNamed (known_of bank.old deriv.old).env (tree_at bank.old t) }
    requires room { room ≤ 500 }
    requires fits { Fits room (tree_at bank.old t) }
    ensures leads { LeadsTo IsPartDone (next_of (option_copied env.entry) (known_of bank.old deriv.old).env) room
        (bound_of (option_copied env.entry) (known_of bank.old deriv.old).env)
        (tree_at bank.old t) bank.new (known_of bank.new deriv.new) budget.old budget.new result }
    ensures goes { Goes bank.old bank.new deriv.old deriv.new }
    ensures most { budget.new.left ≤ budget.old.left }
{
    match bank.node(t) {
        Node::App(f, u) => {
            let part = head_form(bank, env, deriv, f, room - 1, budget)?;
            on_argument(bank, deriv, t, u, part)
        }
        _ => Ok((t, None)),
    }
}

// The application of the first of `part`, to which the function part of `t` is equal by the second, if it is another.
fn on_argument(
    bank: &mut Bank,
    deriv: &mut Deriv,
    t: TermId,
    u: TermId,
    part: (TermId, Option<EqId>),
) -> Result<(TermId, Option<EqId>), Stop>
    requires sound { IsSound bank.old deriv.old }
    requires term { IsTermAt bank.old t }
    requires argument { IsTermAt bank.old u }
    requires function { IsTermAt bank.old part.0 }
    requires on { IsOnArgument (known_of bank.old deriv.old) (tree_at bank.old t) (tree_at bank.old u) part.1 (tree_at bank.old part.0) }
    requires named { IsNamed (known_of bank.old deriv.old).env (tree_at bank.old t) }
    ensures applies { Applies (tree_at bank.old t) (App (tree_at bank.old part.0) (tree_at bank.old u)) (bound_so_far (known_of bank.old deriv.old) part.1)
        bank.new (known_of bank.new deriv.new) result }
    ensures goes { Goes bank.old bank.new deriv.old deriv.new }
{
    match part.1 {
        Some(equal) => {
            let (to, equal) = under_argument(bank, deriv, t, u, (part.0, equal))?;
            Ok((to, Some(equal)))
        }
        None => Ok((t, None)),
    }
}
