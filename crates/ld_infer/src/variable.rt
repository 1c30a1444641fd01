//! How a theory types a variable: in the context that ends with it, and then with each later variable.
ghost use Rattle.std.specs.Prelude.{◌≡◌, ◌≢◌, ◌<◌, ◌+◌, ◌-◌, Some, IfOk};
ghost use Rattle.ld_terms.specs.Tree.{Var, count};
ghost use Rattle.ld_terms.specs.Item.{One, IsSmall};
ghost use Rattle.ld_terms.specs.Put.{lift};
ghost use Rattle.ld_terms.specs.Bank.{tree_at, IsTermAt};
ghost use Rattle.ld_record.specs.Follows.{Follows};
ghost use Rattle.ld_infer.specs.Reading.{type_in};
ghost use Rattle.ld_infer.specs.Infers.{IsVariableTyped};
ghost use Rattle.ld_infer.specs.Standing.{known, without, Continues};
ghost use Rattle.ld_infer.specs.Variables.{judged_in, KnowsSortIn, EndsWith, IsTypeIn, IsTypedIn, IsHighIn};

use crate::theory::Theory;
use ld_record::{JudgeId, Step};
use ld_terms::{Node, TermFault, TermId};

// A variable of the context: its type, and a judgement for a sort of the type in the context before it.
#[derive(Clone, Copy, Debug)]
pub(crate) struct Variable {
    pub(crate) of: TermId,
    pub(crate) sort: JudgeId,
}

/// The type of a variable, with a judgement of the variable and its type and one of the type and its sort, both in the
/// context and over all entries.
#[derive(Clone, Copy, Debug)]
pub struct VariableTyped {
    pub of: TermId,
    pub judge: JudgeId,
    pub sort: JudgeId,
}

impl Theory {
    /// The type of a variable of the context, by the rules for variables and weakening. Index 0 is the last variable.
    pub fn variable(&mut self, i: u32) -> Result<VariableTyped, TermFault>
        requires there { i < count self.old.context }
        requires small { IsSmall (One (Var i)) }
        ensures typed { IfOk result (λ v. IsVariableTyped self.old self.new i v) }
        ensures high { result ≡ Err TermFault.High → IsHighIn self.old.context i }
        ensures continues { Continues self.old self.new }
    {
        let mut typed = self.own_variable(i)?;
        for index in 0..i {
            typed = self.weaken_variable(i - 1 - index, index + 1, typed)?;
        }
        Ok(typed)
    }

    // The last variable of the context without so many, by the rule for variables.
    fn own_variable(&mut self, out: u32) -> Result<VariableTyped, TermFault>
        requires there { out < count self.old.context }
        ensures typed { IfOk result (λ v. IsTypedIn self.new out 0 v) }
        ensures high { result ≡ Err TermFault.High → IsHighIn (without out self.old.context) 0 }
        ensures continues { Continues self.old self.new }
    {
        let Ok(last) = self.last_variable(out) else {
            return Err(TermFault::Memory);
        };
        let lifted = self.lift_type(out, last, last)?;
        self.type_variable(out, 0, lifted, Step::Var(last.sort))
    }

    // A variable that was typed in the context before the last one of those without so many, by the rule for weakening.
    fn weaken_variable(
        &mut self,
        out: u32,
        index: u32,
        typed: VariableTyped,
    ) -> Result<VariableTyped, TermFault>
        requires there { out < count self.old.context }
        requires some { 0 < index }
        requires small { IsSmall (One (Var index)) }
        requires typed { IsTypedIn self.old (out + 1) (index - 1) typed }
        ensures typed { IfOk result (λ v. IsTypedIn self.new out index v) }
        ensures high { result ≡ Err TermFault.High → IsHighIn (without out self.old.context) index }
        ensures continues { Continues self.old self.new }
    {
        let Ok(last) = self.last_variable(out) else {
            return Err(TermFault::Memory);
        };
        let inner = Variable {
            of: typed.of,
            sort: typed.sort,
        };
        let lifted = self.lift_type(out, inner, last)?;
        self.type_variable(out, index, lifted, Step::Weak(typed.judge, last.sort))
    }

    // A type of the context before the variable `last`, which ends the one without so many, led into that one.
    fn lift_type(
        &mut self,
        out: u32,
        inner: Variable,
        last: Variable,
    ) -> Result<Variable, TermFault>
        requires there { out < count self.old.context }
        requires last { EndsWith self.old out last }
        requires term { IsTermAt self.old.items inner.of }
        requires sort { KnowsSortIn self.old (without (out + 1) self.old.context) inner.sort (tree_at self.old.items inner.of) }
        ensures typed { IfOk result (λ v. IsTypeIn self.new out v) }
        ensures lifted { IfOk result (λ v. tree_at self.new.items v.of ≡ lift (tree_at self.old.items inner.of) 1 0) }
        ensures high { result ≡ Err TermFault.High → ¬ IsSmall (One (lift (tree_at self.old.items inner.of) 1 0)) }
        ensures continues { Continues self.old self.new }
    {
        let of = self.lift(inner.of)?;
        let sort_term = self.type_of(inner.sort);
        let step = Step::Weak(inner.sort, last.sort);
        let Ok(sort) = self.conclude_without(out, of, sort_term, step) else {
            return Err(TermFault::Memory);
        };
        Ok(Variable { of, sort })
    }

    // Keeps that a variable has this type, in the context without so many.
    fn type_variable(
        &mut self,
        out: u32,
        index: u32,
        of: Variable,
        step: Step,
    ) -> Result<VariableTyped, TermFault>
        requires there { out < count self.old.context }
        requires small { IsSmall (One (Var index)) }
        requires of { IsTypeIn self.old out of }
        requires found { type_in (without out self.old.context) index ≡ Some (tree_at self.old.items of.of) }
        requires follows { Follows (known self.old) (judged_in self.old (without out self.old.context) (Var index) (tree_at self.old.items of.of)) step }
        ensures typed { IfOk result (λ v. IsTypedIn self.new out index v) }
        ensures high { result ≢ Err TermFault.High }
        ensures continues { Continues self.old self.new }
    {
        let term = self.add(Node::Var(index))?;
        let Ok(judge) = self.conclude_without(out, term, of.of, step) else {
            return Err(TermFault::Memory);
        };
        Ok(VariableTyped {
            of: of.of,
            judge,
            sort: of.sort,
        })
    }
}
