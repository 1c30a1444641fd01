//! Lifting a term, so that it can stand below more binders.
ghost use Rattle.std.specs.Prelude.{◌≡◌, ◌<◌, ◌+◌, ◌^◌, IfOk};
ghost use Rattle.ld_terms.specs.Tree.{Var};
ghost use Rattle.ld_terms.specs.Put.{lift};
ghost use Rattle.ld_terms.specs.Item.{One, height_of, IsSmall, lift_item};
ghost use Rattle.ld_terms.specs.Bank.{item_at, IsLive, Extends, Holds, StandsFor};

use crate::bank::{Bank, Node, TermFault, TermId, deeper};

impl Bank {
    /// Adds `by` to each free index that is at least `from`.
    pub fn lift(&mut self, t: TermId, by: u32, from: u32) -> Result<TermId, TermFault>
        requires live { IsLive self.old t }
        requires room { from + height_of (item_at self.old t) < 2 ^ 32 }
        ensures tree { IfOk result (λ r. Holds self.new r (lift_item (item_at self.old t) by from)) }
        ensures kept { Extends self.old self.new }
        ensures small { IfOk result (λ r. IsSmall (item_at self.new r)) }
        ensures high { result ≡ Err TermFault.High → ¬ IsSmall (lift_item (item_at self.old t) by from) }
    {
        if self.reach(t) <= from {
            return Ok(t);
        }
        match self.node(t) {
            Node::Var(i) => self.lift_variable(i, by, from),
            Node::App(f, u) => {
                let g = self.lift(f, by, from)?;
                let v = self.lift(u, by, from)?;
                self.add(Node::App(g, v))
            }
            Node::Lam(a, m) => {
                let b = self.lift(a, by, from)?;
                let n = self.lift(m, by, deeper(from))?;
                self.add(Node::Lam(b, n))
            }
            Node::Pi(a, b) => {
                let c = self.lift(a, by, from)?;
                let d = self.lift(b, by, deeper(from))?;
                self.add(Node::Pi(c, d))
            }
            Node::Const(k, us) => {
                let vs = self.lift(us, by, from)?;
                self.add(Node::Const(k, vs))
            }
            Node::Cons(u, us) => {
                let vs = self.lift(us, by, from)?;
                let v = self.lift(u, by, from)?;
                self.add(Node::Cons(v, vs))
            }
            Node::Star | Node::Box_ | Node::Nil => Ok(t),
        }
    }

    // Adds `by` to a variable's index, if that is at least `from`.
    fn lift_variable(&mut self, i: u32, by: u32, from: u32) -> Result<TermId, TermFault>
        ensures tree { IfOk result (λ r. StandsFor self.new r (lift (Var i) by from)) }
        ensures kept { Extends self.old self.new }
        ensures small { IfOk result (λ r. IsSmall (item_at self.new r)) }
        ensures high { result ≡ Err TermFault.High → ¬ IsSmall (One (lift (Var i) by from)) }
    {
        if i < from {
            return self.add(Node::Var(i));
        }
        match i.checked_add(by) {
            Some(j) => self.add(Node::Var(j)),
            None => Err(TermFault::High),
        }
    }
}
