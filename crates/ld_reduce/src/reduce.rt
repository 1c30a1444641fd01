//! Head forms, with a budget.
ghost use Rattle.std.specs.Prelude.{◌≡◌, ◌≤◌, is_some, true, length, option_copied};
ghost use Rattle.ld_terms.specs.Bank.{tree_at, IsTermAt};
ghost use Rattle.ld_terms.specs.Named.{IsNamed};
ghost use Rattle.ld_env.specs.Entries.{env_of, AreLive};
ghost use Rattle.ld_record.specs.Kept.{known_of, IsSound};
ghost use Rattle.ld_reduce.specs.Heads.{delta_step, Runs, BetaHead, Unfold, Expose};
ghost use Rattle.ld_reduce.specs.Cost.{Answers, Goes};
ghost use Rattle.ld_reduce.specs.Forms.{HasEntries, next_of, bound_of};

use crate::form::head_form;
use crate::join::settled;
use crate::step::delta_once;
use crate::{Budget, Stop};
use ld_env::Env;
use ld_record::{Deriv, EqId};
use ld_terms::{Bank, TermId};

const GREATEST_HEIGHT: u32 = 500;

/// Beta steps at the head of a term, until the head is no abstraction or has no argument. Each is one step of the budget.
/// The answer is the form, with a kept equality of the term and the form.
///
/// `High`: a step, which is counted, leads to a term that is too high. `Spent`: the form is further than the budget.
#[inline(never)]
pub fn beta_head(
    bank: &mut Bank,
    deriv: &mut Deriv,
    t: TermId,
    budget: &mut Budget,
) -> Result<(TermId, EqId), Stop>
    requires sound { IsSound bank.old deriv.old }
    requires term { IsTermAt bank.old t }
    requires named { IsNamed (known_of bank.old deriv.old).env (tree_at bank.old t) }
    ensures answers { Answers (BetaHead (tree_at bank.old t)) (tree_at bank.old t) 0 bank.new (known_of bank.new deriv.new) budget.old budget.new result }
    ensures goes { Goes bank.old bank.new deriv.old deriv.new }
    ensures most { budget.new.left ≤ budget.old.left }
{
    form(bank, None, deriv, t, budget)
}

/// The head of a term, a defined constant, replaced by its body with the arguments put in: one step of the budget. The
/// answer is as that of [`beta_head`].
#[inline(never)]
pub fn unfold(
    bank: &mut Bank,
    env: &Env,
    deriv: &mut Deriv,
    t: TermId,
    budget: &mut Budget,
) -> Result<(TermId, EqId), Stop>
    requires sound { IsSound bank.old deriv.old }
    requires env { env_of bank.old env.now ≡ (known_of bank.old deriv.old).env }
    requires live { AreLive bank.old env.now }
    requires term { IsTermAt bank.old t }
    requires named { IsNamed (known_of bank.old deriv.old).env (tree_at bank.old t) }
    requires head { is_some (delta_step (known_of bank.old deriv.old).env (tree_at bank.old t)) ≡ true }
    ensures answers { Answers (Unfold (known_of bank.old deriv.old).env (tree_at bank.old t)) (tree_at bank.old t) (length (known_of bank.old deriv.old).env)
        bank.new (known_of bank.new deriv.new) budget.old budget.new result }
    ensures goes { Goes bank.old bank.new deriv.old deriv.new }
    ensures most { budget.new.left ≤ budget.old.left }
{
    budget.step()?;
    delta_once(bank, env, deriv, t)
}

/// Beta steps at the head of a term, and where none can be made and the head is a defined constant its unfolding, until
/// neither can be made. Each is one step of the budget. The answer is as that of [`beta_head`].
#[inline(never)]
pub fn expose(
    bank: &mut Bank,
    env: &Env,
    deriv: &mut Deriv,
    t: TermId,
    budget: &mut Budget,
) -> Result<(TermId, EqId), Stop>
    requires sound { IsSound bank.old deriv.old }
    requires env { env_of bank.old env.now ≡ (known_of bank.old deriv.old).env }
    requires live { AreLive bank.old env.now }
    requires term { IsTermAt bank.old t }
    requires named { IsNamed (known_of bank.old deriv.old).env (tree_at bank.old t) }
    ensures answers { Answers (Expose (known_of bank.old deriv.old).env (tree_at bank.old t)) (tree_at bank.old t) (length (known_of bank.old deriv.old).env)
        bank.new (known_of bank.new deriv.new) budget.old budget.new result }
    ensures goes { Goes bank.old bank.new deriv.old deriv.new }
    ensures most { budget.new.left ≤ budget.old.left }
{
    form(bank, Some(env), deriv, t, budget)
}

// The head form, by unfoldings too where there is an environment. The whole term has room for the greatest height.
fn form(
    bank: &mut Bank,
    env: Option<&Env>,
    deriv: &mut Deriv,
    t: TermId,
    budget: &mut Budget,
) -> Result<(TermId, EqId), Stop>
    requires sound { IsSound bank.old deriv.old }
    requires entries { HasEntries bank.old (known_of bank.old deriv.old).env (option_copied env) }
    requires term { IsTermAt bank.old t }
    requires named { IsNamed (known_of bank.old deriv.old).env (tree_at bank.old t) }
    ensures answers { Answers (Runs (next_of (option_copied env.entry) (known_of bank.old deriv.old).env) (tree_at bank.old t)) (tree_at bank.old t)
        (bound_of (option_copied env.entry) (known_of bank.old deriv.old).env) bank.new (known_of bank.new deriv.new) budget.old budget.new result }
    ensures goes { Goes bank.old bank.new deriv.old deriv.new }
    ensures most { budget.new.left ≤ budget.old.left }
{
    let _small = bank.height(t);
    let (to, equal) = head_form(bank, env, deriv, t, GREATEST_HEIGHT, budget)?;
    let equal = settled(bank, deriv, (t, to), equal)?;
    Ok((to, equal))
}
