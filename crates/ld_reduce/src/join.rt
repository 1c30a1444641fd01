//! Equalities one after another. Where no step was made, none is kept until one is wanted.
ghost use Rattle.std.specs.Prelude.{◌≡◌, length, IfOk};
ghost use Rattle.ld_terms.specs.Bank.{tree_at, IsTermAt};
ghost use Rattle.ld_terms.specs.Known.{equality_at};
ghost use Rattle.ld_terms.specs.Named.{IsNamed};
ghost use Rattle.ld_record.specs.Kept.{known_of, IsSound};
ghost use Rattle.ld_reduce.specs.Cost.{Equates, Goes};
ghost use Rattle.ld_reduce.specs.Steps.{Joins, IsFollowed, bound_after, bound_so_far};

use fb_base::NoMemory;
use ld_record::{Deriv, EqId, EqStep};
use ld_terms::{Bank, TermId};

// The equality of the first of `ends` and the second, from the one so far and the next.
pub(crate) fn chained(
    bank: &Bank,
    deriv: &mut Deriv,
    ends: (TermId, TermId),
    equal: Option<EqId>,
    next: Option<EqId>,
) -> Result<Option<EqId>, NoMemory>
    requires sound { IsSound bank.now deriv.old }
    requires first { IsTermAt bank.now ends.0 }
    requires last { IsTermAt bank.now ends.1 }
    requires joins { IsFollowed (known_of bank.now deriv.old) equal next (tree_at bank.now ends.0) (tree_at bank.now ends.1) }
    ensures equal { IfOk result (λ o. Joins (known_of bank.now deriv.new) o (tree_at bank.now ends.0) (tree_at bank.now ends.1)
        (bound_after (known_of bank.now deriv.old) equal next)) }
    ensures goes { Goes bank.now bank.now deriv.old deriv.new }
{
    match (equal, next) {
        (Some(e), Some(step)) => {
            let both = deriv.emit_eq(bank, ends.0, ends.1, EqStep::Trans(e, step))?;
            Ok(Some(both))
        }
        (Some(e), None) => Ok(Some(e)),
        (None, step) => Ok(step),
    }
}

// The equality of the first of `ends` and the second: the one so far, or of the term with itself.
pub(crate) fn settled(
    bank: &Bank,
    deriv: &mut Deriv,
    ends: (TermId, TermId),
    equal: Option<EqId>,
) -> Result<EqId, NoMemory>
    requires sound { IsSound bank.now deriv.old }
    requires first { IsTermAt bank.now ends.0 }
    requires last { IsTermAt bank.now ends.1 }
    requires named { IsNamed (known_of bank.now deriv.old).env (tree_at bank.now ends.0) }
    requires joins { Joins (known_of bank.now deriv.old) equal (tree_at bank.now ends.0) (tree_at bank.now ends.1) (bound_so_far (known_of bank.now deriv.old) equal) }
    ensures equal { IfOk result (λ e. Equates (known_of bank.now deriv.new) e (tree_at bank.now ends.0) (tree_at bank.now ends.1)
        (bound_so_far (known_of bank.now deriv.old) equal)) }
    ensures goes { Goes bank.now bank.now deriv.old deriv.new }
{
    match equal {
        Some(e) => Ok(e),
        None => deriv.emit_eq(bank, ends.0, ends.1, EqStep::Refl),
    }
}
