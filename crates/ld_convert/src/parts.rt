//! The parts of two terms whose heads are alike and whose spines are as long.
ghost use Rattle.std.specs.Prelude.{◌≡◌, ◌++◌, ◌∷◌, [], true, All, IfOk};
ghost use Rattle.ld_terms.specs.Bank.{tree_at, list_at, IsTermAt, IsListAt};
ghost use Rattle.ld_convert.specs.Apart.{parts_of, arguments as arguments_of};
ghost use Rattle.ld_convert.specs.Walks.{IsLivePart, Gathered};

use fb_base::NoMemory;
use ld_terms::{Bank, Node, TermId};

/// Two parts to be compared, and how many binders are passed to them.
#[derive(Clone, Copy, Debug)]
pub struct Part {
    pub left: TermId,
    pub right: TermId,
    pub under: u32,
}

/// Gathers the parts of two terms behind those that are there: those of the heads, and then the spines, from left to right.
/// The answer is whether the heads are alike and the spines as long.
#[inline(never)]
pub fn gather(bank: &Bank, a: TermId, b: TermId, parts: &mut Vec<Part>) -> Result<bool, NoMemory>
    requires live { All (IsLivePart bank.now) parts.old.items }
    requires first { IsTermAt bank.now a }
    requires second { IsTermAt bank.now b }
    ensures { IfOk result (Gathered bank.now parts.old.items parts.new.items (parts_of (tree_at bank.now a) (tree_at bank.now b))) }
{
    match (bank.node(a), bank.node(b)) {
        (Node::Star, Node::Star) | (Node::Box_, Node::Box_) => Ok(true),
        (Node::Var(i), Node::Var(j)) => Ok(i == j),
        (Node::App(f, u), Node::App(g, v)) => {
            if !gather(bank, f, g, parts)? {
                return Ok(false);
            }
            push(parts, u, v, 0)
        }
        (Node::Lam(d, m), Node::Lam(e, n)) => push_two(parts, (d, e), (m, n)),
        (Node::Pi(d, m), Node::Pi(e, n)) => push_two(parts, (d, e), (m, n)),
        (Node::Const(k, us), Node::Const(l, vs)) => {
            if k != l {
                return Ok(false);
            }
            gather_arguments(bank, us, vs, parts)
        }
        _ => Ok(false),
    }
}

// The same of two lists of arguments.
fn gather_arguments(
    bank: &Bank,
    us: TermId,
    vs: TermId,
    parts: &mut Vec<Part>,
) -> Result<bool, NoMemory>
    requires live { All (IsLivePart bank.now) parts.old.items }
    requires first { IsListAt bank.now us }
    requires second { IsListAt bank.now vs }
    ensures { IfOk result (Gathered bank.now parts.old.items parts.new.items (arguments_of (list_at bank.now us) (list_at bank.now vs))) }
{
    match (bank.node(us), bank.node(vs)) {
        (Node::Nil, Node::Nil) => Ok(true),
        (Node::Cons(u, us), Node::Cons(v, vs)) => {
            if !gather_arguments(bank, us, vs, parts)? {
                return Ok(false);
            }
            push(parts, u, v, 0)
        }
        _ => Ok(false),
    }
}

// One part more.
fn push(parts: &mut Vec<Part>, left: TermId, right: TermId, under: u32) -> Result<bool, NoMemory>
    ensures { IfOk result (λ more. (more ≡ true) × (parts.new.items ≡ parts.old.items ++ record { left = left; right = right; under = under } ∷ [])) }
{
    let part = Part { left, right, under };
    parts.push(part).map_err(|_| NoMemory)?;
    Ok(true)
}

// The domains, and under one binder the bodies or ranges.
fn push_two(
    parts: &mut Vec<Part>,
    domains: (TermId, TermId),
    bodies: (TermId, TermId),
) -> Result<bool, NoMemory>
    ensures { IfOk result (λ more. (more ≡ true) × (parts.new.items ≡ (parts.old.items ++ record { left = domains.0; right = domains.1; under = 0 } ∷ []) ++ record { left = bodies.0; right = bodies.1; under = 1 } ∷ [])) }
{
    push(parts, domains.0, domains.1, 0)?;
    push(parts, bodies.0, bodies.1, 1)
}
