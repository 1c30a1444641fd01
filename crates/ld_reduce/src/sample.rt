//! Three lines with their derivation, for the tests: `q := all x : *. *`, `f := fun x : *. x`, and `k := x` with the
//! parameters x and y of type `*`.
ghost use Rattle.std.specs.Prelude.{◌≡◌, [], OnOk};
ghost use Rattle.ld_terms.specs.Bank.{Extends};
ghost use Rattle.ld_env.specs.Entries.{env_of, AreLive};
ghost use Rattle.ld_record.specs.Kept.{known_of, IsSound};
ghost use Rattle.ld_samples.specs.Samples.{AreTerms, AreJudged};
ghost use Rattle.ld_reduce.specs.Samples as sample;

use ld_env::Env;
use ld_record::Deriv;
use ld_samples::{SampleJudges, SampleTerms, entry, judgements, line, terms};
use ld_terms::Bank;
use std::alloc::Global;
use std::test::Fail;

/// The lines.
pub(crate) fn lines(
    alloc: Global,
    bank: &mut Bank,
    env: &mut Env,
    deriv: &mut Deriv,
) -> Result<(), Fail>
    requires none { env.old ≡ [] }
    requires no_records { deriv.old ≡ [] }
    ensures sound { OnOk result (IsSound bank.new deriv.new) }
    ensures env { OnOk result (env_of bank.new env.new ≡ (known_of bank.new deriv.new).env) }
    ensures live { OnOk result (AreLive bank.new env.new) }
    ensures lines { OnOk result ((known_of bank.new deriv.new).env ≡ sample.lines) }
    ensures kept { OnOk result (Extends bank.old bank.new) }
{
    let terms = terms(bank)?;
    let judges = judgements(deriv, bank, terms)?;
    entries(alloc, bank, env, deriv, terms, judges)
}

// The entries of the lines, by their judgements.
fn entries(
    alloc: Global,
    bank: &Bank,
    env: &mut Env,
    deriv: &mut Deriv,
    terms: SampleTerms,
    judges: SampleJudges,
) -> Result<(), Fail>
    requires none { env.old ≡ [] }
    requires sound { IsSound bank.now deriv.old }
    requires terms { AreTerms bank.now terms }
    requires judged { AreJudged (known_of bank.now deriv.old) judges }
    ensures sound { OnOk result (IsSound bank.now deriv.new) }
    ensures env { OnOk result (env_of bank.now env.new ≡ (known_of bank.now deriv.new).env) }
    ensures live { OnOk result (AreLive bank.now env.new) }
    ensures lines { OnOk result ((known_of bank.now deriv.new).env ≡ sample.lines) }
{
    let product = entry(alloc, &[], Some(terms.product), terms.over)?;
    line(alloc, bank, env, deriv, b'q', product, judges.product)?;
    let identity = entry(alloc, &[], Some(terms.identity), terms.product)?;
    line(alloc, bank, env, deriv, b'f', identity, judges.identity)?;
    let types = [terms.star, terms.star];
    let variable = entry(alloc, &types, Some(terms.outer), terms.star)?;
    line(
        alloc,
        bank,
        env,
        deriv,
        b'k',
        variable,
        judges.outer_variable,
    )?;
    Ok(())
}
