//! An equality of an applied abstraction and its body with the argument put in.
ghost use Rattle.std.specs.Prelude.{IfOk};
ghost use Rattle.ld_terms.specs.Tree as tree;
ghost use Rattle.ld_terms.specs.Bank.{StandsFor, Extends};
ghost use Rattle.ld_record.specs.Kept.{IsSound};
ghost use Rattle.ld_record.specs.Tests.{same_type};

use crate::Deriv;
use crate::record::{EqId, EqStep};
use crate::sample::star;
use fb_base::NoMemory;
use ld_terms::{Bank, Node, TermFault, TermId};
use std::test::Fail;

// `(fun B : * . B) *`.
fn redex(bank: &mut Bank, star: TermId) -> Result<TermId, TermFault>
    requires { StandsFor bank.old star tree.Star }
    ensures tree { IfOk result (λ t. StandsFor bank.new t (tree.App same_type tree.Star)) }
    ensures kept { Extends bank.old bank.new }
{
    let variable = bank.add(Node::Var(0))?;
    let function = bank.add(Node::Lam(star, variable))?;
    bank.add(Node::App(function, star))
}

fn equated(deriv: &mut Deriv, bank: &Bank, redex: TermId, star: TermId) -> Result<EqId, NoMemory>
    requires sound { IsSound bank.now deriv.old }
    requires redex { StandsFor bank.now redex (tree.App same_type tree.Star) }
    requires star { StandsFor bank.now star tree.Star }
{
    deriv.emit_eq(bank, redex, star, EqStep::Beta)
}

#[test]
fn keeps_an_equality(rt: HostRuntime) -> Result<(), Fail> {
    let mut bank = Bank::new(rt.alloc());
    let star = star(&mut bank)?;
    let redex = redex(&mut bank, star)?;
    let mut deriv = Deriv::new(rt.alloc());
    let equal = equated(&mut deriv, &bank, redex, star)?;
    assert_eq!(rt; equal.number(), 0);
    assert_eq!(rt; deriv.count(), 1);
    let kept = format!(in rt.alloc(); "{:?}", deriv.kept(0))?;
    assert_eq!(rt; kept.as_str(), "Equal(TermId(3), TermId(0), Beta)");
    Ok(())
}
