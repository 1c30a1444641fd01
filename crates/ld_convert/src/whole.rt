//! The equality of two terms from those of their parts.
ghost use Rattle.std.specs.Prelude.{◌≡◌, ◌∷◌, [], length, IfOk};
ghost use Rattle.ld_terms.specs.Bank.{tree_at, IsTermAt};
ghost use Rattle.ld_terms.specs.Named.{IsNamed};
ghost use Rattle.ld_record.specs.Kept.{known_of, IsSound};
ghost use Rattle.ld_reduce.specs.Cost.{Equates, Goes};
ghost use Rattle.ld_convert.specs.Apart.{parts_of};
ghost use Rattle.ld_convert.specs.Walks.{SameParts};

use fb_base::NoMemory;
use ld_record::{Deriv, EqId, EqStep, Eqs};
use ld_terms::{Bank, Node, TermId};

/// The equality of two terms, from one for each of their parts, in the order in which [`gather`](crate::gather) gives them.
#[inline(never)]
pub fn congruence(
    bank: &Bank,
    deriv: &mut Deriv,
    a: TermId,
    b: TermId,
    mut equals: Vec<EqId>,
) -> Result<EqId, NoMemory>
    requires sound { IsSound bank.now deriv.old }
    requires first { IsTermAt bank.now a }
    requires second { IsTermAt bank.now b }
    requires named { IsNamed (known_of bank.now deriv.old).env (tree_at bank.now a) }
    requires same { SameParts (known_of bank.now deriv.old) equals.items (parts_of (tree_at bank.now a) (tree_at bank.now b)) }
    ensures equal { IfOk result (λ e. Equates (known_of bank.now deriv.new) e (tree_at bank.now a) (tree_at bank.now b) (length (known_of bank.now deriv.old).env)) }
    ensures goes { Goes bank.now bank.now deriv.old deriv.new }
{
    match (bank.node(a), bank.node(b)) {
        (Node::App(f, _), Node::App(g, _)) => {
            let Some(last) = equals.pop() else {
                unreachable!();
            };
            let first = congruence(bank, deriv, f, g, equals)?;
            deriv.emit_eq(bank, a, b, EqStep::App(first, last))
        }
        (Node::Lam(_, _), Node::Lam(_, _)) => {
            let (first, second) = two(&equals);
            deriv.emit_eq(bank, a, b, EqStep::Lam(first, second))
        }
        (Node::Pi(_, _), Node::Pi(_, _)) => {
            let (first, second) = two(&equals);
            deriv.emit_eq(bank, a, b, EqStep::Pi(first, second))
        }
        (Node::Const(_, _), Node::Const(_, _)) => {
            deriv.emit_eq(bank, a, b, EqStep::Const(Eqs::from_vec(equals)))
        }
        (Node::Star, Node::Star) | (Node::Box_, Node::Box_) | (Node::Var(_), Node::Var(_)) => {
            deriv.emit_eq(bank, a, b, EqStep::Refl)
        }
        _ => unreachable!(),
    }
}

// The two numbers of a list of two.
fn two(equals: &[EqId]) -> (EqId, EqId)
    requires { length equals.now ≡ 2 }
    ensures { equals.now ≡ result.0 ∷ result.1 ∷ [] }
{
    (equals[0], equals[1])
}
