//! Two terms that are the same without a step.
ghost use Rattle.std.specs.Prelude.{◌≡◌, length, All, IfOk, OnOk, OnErr};
ghost use Rattle.ld_terms.specs.Bank.{tree_at, IsTermAt};
ghost use Rattle.ld_terms.specs.Named.{IsNamed};
ghost use Rattle.ld_record.specs.Kept.{known_of, IsSound};
ghost use Rattle.ld_reduce.specs.Cost.{Goes};
ghost use Rattle.ld_convert.specs.Known.{is_known, with_pair};
ghost use Rattle.ld_convert.specs.Pairs.{pairs_of, HasTerms, ArePairsLive, IsKeptWith};
ghost use Rattle.ld_convert.specs.AtOnce.{FoundAtOnce};

use crate::{Known, Pair};
use fb_base::NoMemory;
use ld_record::{Deriv, EqId, EqStep};
use ld_terms::{Bank, TermId};

/// The equality of two terms that have one tree, or are a known pair.
#[inline(never)]
pub fn same_at_once(
    bank: &Bank,
    deriv: &mut Deriv,
    known: &Known,
    a: TermId,
    b: TermId,
) -> Result<Option<EqId>, NoMemory>
    requires sound { IsSound bank.now deriv.old }
    requires pairs { ArePairsLive bank.now (known_of bank.now deriv.old) (length (known_of bank.now deriv.old).env) known.now }
    requires first { IsTermAt bank.now a }
    requires second { IsTermAt bank.now b }
    requires named { IsNamed (known_of bank.now deriv.old).env (tree_at bank.now a) }
    ensures found { IfOk result (FoundAtOnce (known_of bank.now deriv.new) (pairs_of bank.now known.now) (tree_at bank.now a) (tree_at bank.now b)) }
    ensures goes { Goes bank.now bank.now deriv.old deriv.new }
{
    if bank.same(a, b) {
        let equal = deriv.emit_eq(bank, a, b, EqStep::Refl)?;
        return Ok(Some(equal));
    }
    Ok(known.find(bank, a, b))
}

/// Keeps two terms that were found the same as a known pair, unless they are one.
#[inline(never)]
pub fn remember(
    bank: &Bank,
    known: &mut Known,
    a: TermId,
    b: TermId,
    equal: EqId,
) -> Result<(), NoMemory>
    requires pairs { All (HasTerms bank.now) known.old }
    requires first { IsTermAt bank.now a }
    requires second { IsTermAt bank.now b }
    ensures ok { OnOk result (pairs_of bank.now known.new
        ≡ with_pair (is_known (pairs_of bank.now known.old) (tree_at bank.now a) (tree_at bank.now b)) (pairs_of bank.now known.old) (tree_at bank.now a) (tree_at bank.now b)) }
    ensures kept { IsKeptWith known.old known.new (record { left = a; right = b; equal = equal }) }
    ensures err { OnErr result (known.new ≡ known.old) }
{
    match known.find(bank, a, b) {
        Some(_) => Ok(()),
        None => known.add(Pair {
            left: a,
            right: b,
            equal,
        }),
    }
}
