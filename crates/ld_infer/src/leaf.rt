//! Terms whose type is read off at once: `*`, variables, and the sorts of sorts.
ghost use Rattle.std.specs.Prelude.{◌≡◌, false, is_some, IfOk, IfSome};
ghost use Rattle.ld_terms.specs.Tree.{Star, Box, Var};
ghost use Rattle.ld_terms.specs.Item.{One, IsSmall};
ghost use Rattle.ld_terms.specs.Bank.{tree_at, IsTermAt};
ghost use Rattle.ld_terms.specs.Tests.{is_star};
ghost use Rattle.ld_infer.specs.Account.{Account};
ghost use Rattle.ld_reduce.specs.Task.{gives};
ghost use Rattle.ld_infer.specs.Reading.{variable_reading, type_in};
ghost use Rattle.ld_infer.specs.Reading as reading;
ghost use Rattle.ld_infer.specs.Standing.{Continues, KnowsSort};
ghost use Rattle.ld_infer.specs.Infers.{Infers, IsReadable};

use crate::failure::InferFault;
use crate::inference::Typed;
use crate::theory::Theory;
use ld_record::JudgeId;
use ld_reduce::Stop;
use ld_terms::{Node, TermId};

// The sort `*` has the type `box`.
pub(crate) fn star(theory: &mut Theory, t: TermId) -> Result<Typed, InferFault>
    requires term { IsTermAt theory.old.items t }
    requires is { tree_at theory.old.items t ≡ Star }
    ensures answer { (work : Account) → Infers theory.old theory.new (gives (reading.found Box false)) t work work result }
    ensures continues { Continues theory.old theory.new }
{
    let judge = theory.star_judgement()?;
    Ok(Typed {
        of: theory.box_term(),
        judge,
        of_judge: None,
    })
}

// A variable has the type that the context gives it.
pub(crate) fn variable(theory: &mut Theory, t: TermId, i: u32) -> Result<Typed, InferFault>
    requires term { IsReadable theory.old t }
    requires is { tree_at theory.old.items t ≡ Var i }
    ensures answer { (work : Account) → Infers theory.old theory.new (variable_reading (type_in theory.old.context i)) t work work result }
    ensures continues { Continues theory.old theory.new }
{
    keeps_small(theory, t);
    let variable = theory.variable(i)?;
    Ok(Typed {
        of: variable.of,
        judge: variable.judge,
        of_judge: Some(variable.sort),
    })
}

// The judgement for the sort of a sort: `*` has one, `box` has none.
pub(crate) fn sort_of_sort(theory: &mut Theory, sort: TermId) -> Result<Option<JudgeId>, InferFault>
    requires term { IsTermAt theory.old.items sort }
    ensures there { IfOk result (λ o. is_some o ≡ is_star (tree_at theory.old.items sort)) }
    ensures sorted { IfOk result (λ o. IfSome o (λ j. KnowsSort theory.new j (tree_at theory.old.items sort))) }
    ensures memory { (fault : InferFault) → result ≡ Err fault → fault ≡ InferFault.Stop Stop.Memory }
    ensures continues { Continues theory.old theory.new }
{
    match theory.bank().node(sort) {
        Node::Star => Ok(Some(theory.star_judgement()?)),
        _ => Ok(None),
    }
}

// A term of the bank is small: for the proofs of what is told of variables and of types of entries.
fn keeps_small(theory: &Theory, t: TermId)
    requires { IsTermAt theory.now.items t }
    ensures { IsSmall (One (tree_at theory.now.items t)) }
{
    let _node = theory.bank().node(t);
}
