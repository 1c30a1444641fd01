//! One step of a redex, or under an argument, and an equality that is kept of it.
ghost use Rattle.std.specs.Prelude.{◌≡◌, is_some, true, length, IfOk};
ghost use Rattle.ld_terms.specs.Tree.{App, Nil, ◌▸◌};
ghost use Rattle.ld_terms.specs.Put.{put};
ghost use Rattle.ld_terms.specs.Bank.{tree_at, list_at, IsTermAt, IsListAt};
ghost use Rattle.ld_terms.specs.Known.{equality_at};
ghost use Rattle.ld_terms.specs.Named.{IsNamed};
ghost use Rattle.ld_env.specs.Entries.{env_of, AreLive};
ghost use Rattle.ld_record.specs.Kept.{known_of, IsSound};
ghost use Rattle.ld_reduce.specs.Heads.{beta_step, delta_step, head_step};
ghost use Rattle.ld_reduce.specs.Cost.{Equates, Goes};
ghost use Rattle.ld_reduce.specs.Steps.{Makes, OneStep, IsRedex, IsInstance, IsUnder};

use crate::Stop;
use crate::head::{has_beta, unfolding};
use fb_base::NoMemory;
use ld_env::Env;
use ld_record::{Deriv, EqId, EqStep};
use ld_terms::{Bank, Node, TermId};

// The equality of a term with itself.
pub(crate) fn same(bank: &Bank, deriv: &mut Deriv, t: TermId) -> Result<EqId, NoMemory>
    requires sound { IsSound bank.now deriv.old }
    requires term { IsTermAt bank.now t }
    requires named { IsNamed (known_of bank.now deriv.old).env (tree_at bank.now t) }
    ensures equal { IfOk result (λ e. Equates (known_of bank.now deriv.new) e (tree_at bank.now t) (tree_at bank.now t) 0) }
    ensures goes { Goes bank.now bank.now deriv.old deriv.new }
{
    deriv.emit_eq(bank, t, t, EqStep::Refl)
}

// An abstraction of the body `m` on the argument `u` becomes the body with the argument put in.
pub(crate) fn contract_redex(
    bank: &mut Bank,
    deriv: &mut Deriv,
    t: TermId,
    m: TermId,
    u: TermId,
) -> Result<(TermId, EqId), Stop>
    requires sound { IsSound bank.old deriv.old }
    requires term { IsTermAt bank.old t }
    requires body { IsTermAt bank.old m }
    requires argument { IsTermAt bank.old u }
    requires redex { IsRedex (tree_at bank.old t) (tree_at bank.old m) (tree_at bank.old u) }
    requires named { IsNamed (known_of bank.old deriv.old).env (tree_at bank.old t) }
    ensures makes { Makes (tree_at bank.old t) (put (tree_at bank.old m) (Nil ▸ tree_at bank.old u)) 0 bank.new (known_of bank.new deriv.new) result }
    ensures goes { Goes bank.old bank.new deriv.old deriv.new }
{
    let to = bank.instantiate(m, &[u])?;
    let e = deriv.emit_eq(bank, t, to, EqStep::Beta)?;
    Ok((to, e))
}

// An instance with the arguments `us` becomes its entry's body with the arguments put in.
pub(crate) fn unfold_instance(
    bank: &mut Bank,
    deriv: &mut Deriv,
    t: TermId,
    body: TermId,
    us: TermId,
) -> Result<(TermId, EqId), Stop>
    requires sound { IsSound bank.old deriv.old }
    requires term { IsTermAt bank.old t }
    requires body { IsTermAt bank.old body }
    requires list { IsListAt bank.old us }
    requires instance { IsInstance (known_of bank.old deriv.old).env (tree_at bank.old t) (list_at bank.old us) (tree_at bank.old body) }
    requires named { IsNamed (known_of bank.old deriv.old).env (tree_at bank.old t) }
    ensures makes { Makes (tree_at bank.old t) (put (tree_at bank.old body) (list_at bank.old us)) (length (known_of bank.old deriv.old).env)
        bank.new (known_of bank.new deriv.new) result }
    ensures goes { Goes bank.old bank.new deriv.old deriv.new }
{
    let to = bank.instantiate_list(body, us)?;
    let e = deriv.emit_eq(bank, t, to, EqStep::Delta)?;
    Ok((to, e))
}

// The term `t` is an application on `u`; its function part is equal to the first of `part`, by the second.
pub(crate) fn under_argument(
    bank: &mut Bank,
    deriv: &mut Deriv,
    t: TermId,
    u: TermId,
    part: (TermId, EqId),
) -> Result<(TermId, EqId), Stop>
    requires sound { IsSound bank.old deriv.old }
    requires term { IsTermAt bank.old t }
    requires argument { IsTermAt bank.old u }
    requires function { IsTermAt bank.old part.0 }
    requires under { IsUnder (known_of bank.old deriv.old) (tree_at bank.old t) (tree_at bank.old u) part.1 (tree_at bank.old part.0) }
    requires named { IsNamed (known_of bank.old deriv.old).env (tree_at bank.old t) }
    ensures makes { Makes (tree_at bank.old t) (App (tree_at bank.old part.0) (tree_at bank.old u)) (equality_at (known_of bank.old deriv.old) part.1.0).bound
        bank.new (known_of bank.new deriv.new) result }
    ensures goes { Goes bank.old bank.new deriv.old deriv.new }
{
    let to = bank.add(Node::App(part.0, u))?;
    let argument = same(bank, deriv, u)?;
    let e = deriv.emit_eq(bank, t, to, EqStep::App(part.1, argument))?;
    Ok((to, e))
}

// The unfolding of the head.
pub(crate) fn delta_once(
    bank: &mut Bank,
    env: &Env,
    deriv: &mut Deriv,
    t: TermId,
) -> Result<(TermId, EqId), Stop>
    requires sound { IsSound bank.old deriv.old }
    requires env { env_of bank.old env.now ≡ (known_of bank.old deriv.old).env }
    requires live { AreLive bank.old env.now }
    requires term { IsTermAt bank.old t }
    requires named { IsNamed (known_of bank.old deriv.old).env (tree_at bank.old t) }
    requires step { is_some (delta_step (known_of bank.old deriv.old).env (tree_at bank.old t)) ≡ true }
    ensures step { OneStep (delta_step (known_of bank.old deriv.old).env) (tree_at bank.old t) (length (known_of bank.old deriv.old).env)
        bank.new (known_of bank.new deriv.new) result }
    ensures goes { Goes bank.old bank.new deriv.old deriv.new }
{
    match bank.node(t) {
        Node::App(f, u) => {
            let part = delta_once(bank, env, deriv, f)?;
            under_argument(bank, deriv, t, u, part)
        }
        Node::Const(k, us) => match unfolding(bank, env, k, us) {
            Some(body) => unfold_instance(bank, deriv, t, body, us),
            None => unreachable!(),
        },
        _ => unreachable!(),
    }
}
