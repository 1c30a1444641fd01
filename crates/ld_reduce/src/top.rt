//! The step that a term has itself, and none under an argument: its kind is found, and it is made where the room is enough.
ghost use Rattle.std.specs.Prelude.{◌≡◌, ◌≤◌, option_copied};
ghost use Rattle.ld_terms.specs.Bank.{tree_at, IsTermAt};
ghost use Rattle.ld_terms.specs.Named.{IsNamed};
ghost use Rattle.ld_record.specs.Kept.{known_of, IsSound};
ghost use Rattle.ld_reduce.specs.Cost.{Goes};
ghost use Rattle.ld_reduce.specs.Steps.{Makes};
ghost use Rattle.ld_reduce.specs.Forms.{AreAllLive, HasEntries, next_of, bound_of, IsPartDone, IsTopOver, outcome, redex_bound, IsRedexOf, LeadsTop};

use crate::head::unfolding;
use crate::step::{contract_redex, unfold_instance};
use crate::{Budget, Stop};
use ld_env::Env;
use ld_record::{Deriv, EqId};
use ld_terms::{Bank, Node, TermId};

// What a step replaces: the body of an abstraction and its argument, or the body of an entry and the list of arguments.
#[derive(Clone, Copy)]
pub(crate) enum Redex {
    Beta(TermId, TermId),
    Delta(TermId, TermId),
}

// The redex that a term is, if it is one.
fn redex_of(bank: &Bank, env: Option<&Env>, t: TermId) -> Option<Redex>
    requires live { AreAllLive bank.now (option_copied env) }
    requires term { IsTermAt bank.now t }
    ensures { IsTopOver bank.now (option_copied env.entry) (tree_at bank.now t) result }
{
    match bank.node(t) {
        Node::App(f, u) => match bank.node(f) {
            Node::Lam(_, m) => Some(Redex::Beta(m, u)),
            _ => None,
        },
        Node::Const(k, us) => {
            let body = unfolding(bank, env?, k, us)?;
            Some(Redex::Delta(body, us))
        }
        _ => None,
    }
}

// A redex is replaced.
fn contract(
    bank: &mut Bank,
    deriv: &mut Deriv,
    t: TermId,
    redex: Redex,
) -> Result<(TermId, EqId), Stop>
    requires sound { IsSound bank.old deriv.old }
    requires term { IsTermAt bank.old t }
    requires redex { IsRedexOf bank.old (known_of bank.old deriv.old).env (tree_at bank.old t) redex }
    requires named { IsNamed (known_of bank.old deriv.old).env (tree_at bank.old t) }
    ensures makes { Makes (tree_at bank.old t) (outcome bank.old redex) (redex_bound (known_of bank.old deriv.old).env redex) bank.new (known_of bank.new deriv.new) result }
    ensures goes { Goes bank.old bank.new deriv.old deriv.new }
{
    match redex {
        Redex::Beta(m, u) => contract_redex(bank, deriv, t, m, u),
        Redex::Delta(body, us) => unfold_instance(bank, deriv, t, body, us),
    }
}

// The step that a term has itself, if it has one, charged to the budget. Its function part has none.
pub(crate) fn top_once(
    bank: &mut Bank,
    env: Option<&Env>,
    deriv: &mut Deriv,
    t: TermId,
    room: u32,
    budget: &mut Budget,
) -> Result<Option<(TermId, EqId)>, Stop>
    requires sound { IsSound bank.old deriv.old }
    requires entries { HasEntries bank.old (known_of bank.old deriv.old).env (option_copied env) }
    requires term { IsTermAt bank.old t }
    requires named { IsNamed (known_of bank.old deriv.old).env (tree_at bank.old t) }
    requires room { room ≤ 500 }
    requires part { IsPartDone (next_of (option_copied env) (known_of bank.old deriv.old).env) (tree_at bank.old t) }
    ensures leads { LeadsTop (next_of (option_copied env.entry) (known_of bank.old deriv.old).env) room
        (bound_of (option_copied env.entry) (known_of bank.old deriv.old).env)
        (tree_at bank.old t) bank.new (known_of bank.new deriv.new) budget.old budget.new result }
    ensures goes { Goes bank.old bank.new deriv.old deriv.new }
    ensures most { budget.new.left ≤ budget.old.left }
{
    let Some(redex) = redex_of(bank, env, t) else {
        return Ok(None);
    };
    budget.step()?;
    let (to, equal) = contract(bank, deriv, t, redex)?;
    if bank.height(to) > room {
        return Err(Stop::High);
    }
    Ok(Some((to, equal)))
}
