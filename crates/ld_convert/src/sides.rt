//! The sides of a comparison that are unfolded.
ghost use Rattle.std.specs.Prelude.{◌≡◌, ◌≤◌, ◌<◌, ◌||◌, length, true, is_some, IfOk};
ghost use Rattle.ld_terms.specs.Bank.{tree_at, IsTermAt};
ghost use Rattle.ld_terms.specs.Named.{IsNamed};
ghost use Rattle.ld_env.specs.Entries.{env_of, AreLive};
ghost use Rattle.ld_record.specs.Kept.{known_of, IsSound};
ghost use Rattle.ld_reduce.specs.Heads.{delta_step};
ghost use Rattle.ld_reduce.specs.Task.{Pairs};
ghost use Rattle.ld_reduce.specs.Cost.{Goes};
ghost use Rattle.ld_convert.specs.Compares as spec;
ghost use Rattle.ld_convert.specs.Turned.{AreComparable};
ghost use Rattle.ld_convert.specs.Sides.{sides_in, CanUnfold, UnfoldsIf, SideAs, UnfoldsAs};

use crate::turning::Led;
use ld_env::Env;
use ld_record::{Deriv, EqId, EqStep};
use ld_reduce::{Budget, Stop, defined_head, unfold};
use ld_terms::{Bank, TermId};

// Which of two terms are unfolded.
#[derive(Clone, Copy, Debug)]
pub(crate) struct Sides {
    left: bool,
    right: bool,
}

impl Sides {
    // Whether one is.
    pub(crate) fn is_some(self) -> bool
        ensures { result ≡ (self.left || self.right) }
    {
        self.left || self.right
    }
}

// The sides of two terms to be unfolded: both where their heads are one defined constant, else the one whose constant was
// defined later.
#[inline(never)]
pub(crate) fn sides_to_unfold(bank: &Bank, env: &Env, a: TermId, b: TermId) -> Sides
    requires live { AreLive bank.now env.now }
    requires first { IsTermAt bank.now a }
    requires second { IsTermAt bank.now b }
    ensures sides { sides_in result ≡ spec.sides (env_of bank.now env.now) (tree_at bank.now a) (tree_at bank.now b) }
    ensures unfold { CanUnfold (env_of bank.now env.now) result (tree_at bank.now a) (tree_at bank.now b) }
{
    match (defined_head(bank, env, a), defined_head(bank, env, b)) {
        (Some(k), Some(l)) => Sides {
            left: k >= l,
            right: l >= k,
        },
        (first, second) => Sides {
            left: first.is_some(),
            right: second.is_some(),
        },
    }
}

// Unfolds the sides of two terms.
#[inline(never)]
pub(crate) fn unfold_sides(
    bank: &mut Bank,
    env: &Env,
    deriv: &mut Deriv,
    sides: Sides,
    ends: (TermId, TermId),
    budget: &mut Budget,
) -> Result<Led, Stop>
    requires sound { IsSound bank.old deriv.old }
    requires env { env_of bank.old env.now ≡ (known_of bank.old deriv.old).env }
    requires live { AreLive bank.old env.now }
    requires terms { AreComparable bank.old (known_of bank.old deriv.old) ends.0 ends.1 }
    requires unfold { CanUnfold (known_of bank.old deriv.old).env sides (tree_at bank.old ends.0) (tree_at bank.old ends.1) }
    requires some { (sides.left || sides.right) ≡ true }
    ensures answer { (K : Pairs) → UnfoldsAs (known_of bank.old deriv.old).env sides (tree_at bank.old ends.0) (tree_at bank.old ends.1) (length (known_of bank.old deriv.old).env)
        bank.new (known_of bank.new deriv.new) K budget.old budget.new result }
    ensures goes { Goes bank.old bank.new deriv.old deriv.new }
    ensures most { budget.new.left ≤ budget.old.left }
    ensures less { IfOk result (λ _. budget.new.left < budget.old.left) }
{
    let (left, first) = unfold_if(bank, env, deriv, sides.left, ends.0, budget)?;
    let (right, second) = unfold_if(bank, env, deriv, sides.right, ends.1, budget)?;
    Ok(Led {
        left,
        right,
        first,
        second,
    })
}

// Unfolds a term, where that is wanted.
fn unfold_if(
    bank: &mut Bank,
    env: &Env,
    deriv: &mut Deriv,
    wanted: bool,
    t: TermId,
    budget: &mut Budget,
) -> Result<(TermId, EqId), Stop>
    requires sound { IsSound bank.old deriv.old }
    requires env { env_of bank.old env.now ≡ (known_of bank.old deriv.old).env }
    requires live { AreLive bank.old env.now }
    requires term { IsTermAt bank.old t }
    requires named { IsNamed (known_of bank.old deriv.old).env (tree_at bank.old t) }
    requires head { wanted ≡ true → is_some (delta_step (known_of bank.old deriv.old).env (tree_at bank.old t)) ≡ true }
    ensures answer { SideAs (UnfoldsIf (known_of bank.old deriv.old).env wanted (tree_at bank.old t)) (tree_at bank.old t) (length (known_of bank.old deriv.old).env)
        bank.new (known_of bank.new deriv.new) budget.old budget.new result }
    ensures goes { Goes bank.old bank.new deriv.old deriv.new }
    ensures most { budget.new.left ≤ budget.old.left }
{
    if wanted {
        return unfold(bank, env, deriv, t, budget);
    }
    let equal = deriv.emit_eq(bank, t, t, EqStep::Refl)?;
    Ok((t, equal))
}
