//! Entries, and lines of one letter.
ghost use Rattle.std.specs.Prelude.{◌≡◌, ◌+◌, ◌<◌, ◌^◌, ◌++◌, ◌∷◌, [], length, IfOk, OnOk};
ghost use Rattle.ld_terms.specs.Known.{Judgement, judgement_at, line_entry, primitive_entry};
ghost use Rattle.ld_env.specs.Entries.{env_of, AreLive};
ghost use Rattle.ld_record.specs.Kept.{known_of, IsSound};
ghost use Rattle.ld_record.specs.Growth.{Knows};
ghost use Rattle.ld_record.specs.declared.record.JudgeId.{JudgeId as Number};
ghost use Rattle.ld_samples.specs.Samples as sample;

use fb_base::{NoMemory, Text};
use ld_env::{Entry, Env};
use ld_record::{Deriv, JudgeId};
use ld_terms::{Bank, TermId, Terms};
use std::alloc::Global;
use std::test::Fail;

/// An entry with parameters of these types.
pub fn entry(
    alloc: Global,
    params: &[TermId],
    body: Option<TermId>,
    of: TermId,
) -> Result<Entry, NoMemory>
    ensures params { IfOk result (λ e. e.params ≡ params.now) }
    ensures body { IfOk result (λ e. e.body ≡ body) }
    ensures of { IfOk result (λ e. e.of ≡ of) }
{
    let types = Vec::from_slice(alloc, params).map_err(|_| NoMemory)?;
    Ok(Entry {
        params: Terms::from_vec(types),
        body,
        of,
    })
}

/// Keeps the entry of a judgement, under a name of one letter.
pub fn line(
    alloc: Global,
    bank: &Bank,
    env: &mut Env,
    deriv: &mut Deriv,
    letter: u8,
    entry: Entry,
    j: JudgeId,
) -> Result<(), Fail>
    requires sound { IsSound bank.now deriv.old }
    requires room { length env.old + 1 < 2 ^ 32 }
    requires env { env_of bank.now env.old ≡ (known_of bank.now deriv.old).env }
    requires live { AreLive bank.now env.old }
    requires judged { sample.IsOf bank.now (known_of bank.now deriv.old) entry j }
    ensures sound { IsSound bank.now deriv.new }
    ensures env { OnOk result (env_of bank.now env.new ≡ (known_of bank.now deriv.new).env) }
    ensures live { OnOk result (AreLive bank.now env.new) }
    ensures added { OnOk result ((known_of bank.now deriv.new).env ≡ (known_of bank.now deriv.old).env ++ line_entry (letter ∷ []) (judgement_at (known_of bank.now deriv.old) j.0) ∷ []) }
    ensures kept { OnOk result ((i : Number) (s : Judgement) → Knows (known_of bank.now deriv.old) i s → Knows (known_of bank.now deriv.new) i s) }
    ensures one { OnOk result (length env.new ≡ length env.old + 1) }
{
    let over = deriv.lift_by_def(bank, j, env.len())?;
    let first = name(alloc, letter)?;
    let second = name(alloc, letter)?;
    env.push(first, entry)?;
    deriv.entry(bank, second, over, false)?;
    Ok(())
}

/// Keeps a primitive whose type is the term of a judgement, under a name of one letter.
pub fn primitive(
    alloc: Global,
    bank: &Bank,
    env: &mut Env,
    deriv: &mut Deriv,
    letter: u8,
    entry: Entry,
    j: JudgeId,
) -> Result<(), Fail>
    requires sound { IsSound bank.now deriv.old }
    requires room { length env.old + 1 < 2 ^ 32 }
    requires env { env_of bank.now env.old ≡ (known_of bank.now deriv.old).env }
    requires live { AreLive bank.now env.old }
    requires judged { sample.IsPrimitiveOf bank.now (known_of bank.now deriv.old) entry j }
    ensures sound { IsSound bank.now deriv.new }
    ensures env { OnOk result (env_of bank.now env.new ≡ (known_of bank.now deriv.new).env) }
    ensures live { OnOk result (AreLive bank.now env.new) }
    ensures added { OnOk result ((known_of bank.now deriv.new).env ≡ (known_of bank.now deriv.old).env ++ primitive_entry (letter ∷ []) (judgement_at (known_of bank.now deriv.old) j.0) ∷ []) }
    ensures kept { OnOk result ((i : Number) (s : Judgement) → Knows (known_of bank.now deriv.old) i s → Knows (known_of bank.now deriv.new) i s) }
    ensures one { OnOk result (length env.new ≡ length env.old + 1) }
{
    let over = deriv.lift_by_def(bank, j, env.len())?;
    let first = name(alloc, letter)?;
    let second = name(alloc, letter)?;
    env.push(first, entry)?;
    deriv.entry(bank, second, over, true)?;
    Ok(())
}

// A name of one letter.
fn name(alloc: Global, letter: u8) -> Result<Text, NoMemory>
    ensures { IfOk result (λ t. t ≡ letter ∷ []) }
{
    Text::from_bytes(alloc, &[letter])
}
