//! Putting arguments in for the parameters of a body.
ghost use Rattle.std.specs.Prelude.{◌≡◌, ◌<◌, ◌+◌, ◌^◌, IfOk, All};
ghost use Rattle.ld_terms.specs.Tree.{Nil};
ghost use Rattle.ld_terms.specs.Put.{lift, in_place, put};
ghost use Rattle.ld_terms.specs.Item.{One, height_of, IsSmall, put_item};
ghost use Rattle.ld_terms.specs.Bank.{item_at, tree_at, list_at, IsTermAt, IsListAt, StandsFor, ListStandsFor, IsLive, Extends, Holds, listed};

use crate::bank::{Bank, Node, TermFault, TermId, deeper};

impl Bank {
    /// Puts the arguments in for the innermost variables of a body, all at once: with n arguments,
    /// the argument j from 0 stands for the index n - 1 - j, and greater free indices go down by n.
    pub fn instantiate(&mut self, body: TermId, args: &[TermId]) -> Result<TermId, TermFault>
        requires body { IsTermAt self.old body }
        requires args { All (IsTermAt self.old) args.now }
        ensures tree { IfOk result (λ r. StandsFor self.new r (put (tree_at self.old body) (listed self.old Nil args.now))) }
        ensures kept { Extends self.old self.new }
        ensures small { IfOk result (λ r. IsSmall (item_at self.new r)) }
        ensures high { result ≡ Err TermFault.High → ¬ IsSmall (One (put (tree_at self.old body) (listed self.old Nil args.now))) }
    {
        let list = self.list_of(args)?;
        self.instantiate_list(body, list)
    }

    /// The same with the arguments as a list of the bank, so that one list serves several bodies.
    pub fn instantiate_list(&mut self, body: TermId, list: TermId) -> Result<TermId, TermFault>
        requires body { IsTermAt self.old body }
        requires list { IsListAt self.old list }
        ensures tree { IfOk result (λ r. StandsFor self.new r (put (tree_at self.old body) (list_at self.old list))) }
        ensures kept { Extends self.old self.new }
        ensures small { IfOk result (λ r. IsSmall (item_at self.new r)) }
        ensures high { result ≡ Err TermFault.High → ¬ IsSmall (One (put (tree_at self.old body) (list_at self.old list))) }
    {
        self.keeps_small();
        self.put_below(body, list, 0)
    }

    // The list of some terms, in their order.
    fn list_of(&mut self, terms: &[TermId]) -> Result<TermId, TermFault>
        requires { All (IsTermAt self.old) terms.now }
        ensures list { IfOk result (λ r. ListStandsFor self.new r (listed self.old Nil terms.now)) }
        ensures kept { Extends self.old self.new }
        ensures high { result ≡ Err TermFault.High → ⊥ }
    {
        self.keeps_small();
        let mut list = self.add(Node::Nil)?;
        for term in terms {
            list = self.add(Node::Cons(*term, list))?;
        }
        Ok(list)
    }

    // What the list has for a variable, lifted.
    fn place(&mut self, us: TermId, i: u32, below: u32) -> Result<TermId, TermFault>
        requires list { IsListAt self.old us }
        requires room { i + below < 2 ^ 32 }
        ensures tree { IfOk result (λ r. StandsFor self.new r (lift (in_place (list_at self.old us) i) below 0)) }
        ensures kept { Extends self.old self.new }
        ensures small { IfOk result (λ r. IsSmall (item_at self.new r)) }
        ensures high { result ≡ Err TermFault.High → ¬ IsSmall (One (lift (in_place (list_at self.old us) i) below 0)) }
    {
        match self.node(us) {
            Node::Cons(u, rest) => {
                if i == 0 {
                    self.lift(u, below, 0)
                } else {
                    self.place(rest, i - 1, below)
                }
            }
            Node::Nil => self.add(Node::Var(i + below)),
            _ => unreachable!(),
        }
    }

    // Puts the list in for the innermost variables, below some binders.
    fn put_below(&mut self, t: TermId, us: TermId, below: u32) -> Result<TermId, TermFault>
        requires live { IsLive self.old t }
        requires list { IsListAt self.old us }
        requires room { below + height_of (item_at self.old t) < 2 ^ 32 }
        ensures tree { IfOk result (λ r. Holds self.new r (put_item (item_at self.old t) (list_at self.old us) below)) }
        ensures kept { Extends self.old self.new }
        ensures small { IfOk result (λ r. IsSmall (item_at self.new r)) }
        ensures high { result ≡ Err TermFault.High → ¬ IsSmall (put_item (item_at self.old t) (list_at self.old us) below) }
    {
        if self.reach(t) <= below {
            return Ok(t);
        }
        match self.node(t) {
            Node::Var(i) if i < below => self.add(Node::Var(i)),
            Node::Var(i) => self.place(us, i - below, below),
            Node::App(f, u) => {
                let g = self.put_below(f, us, below)?;
                let v = self.put_below(u, us, below)?;
                self.add(Node::App(g, v))
            }
            Node::Lam(a, m) => {
                let b = self.put_below(a, us, below)?;
                let n = self.put_below(m, us, deeper(below))?;
                self.add(Node::Lam(b, n))
            }
            Node::Pi(a, b) => {
                let c = self.put_below(a, us, below)?;
                let d = self.put_below(b, us, deeper(below))?;
                self.add(Node::Pi(c, d))
            }
            Node::Const(k, vs) => {
                let ws = self.put_below(vs, us, below)?;
                self.add(Node::Const(k, ws))
            }
            Node::Cons(v, vs) => {
                let ws = self.put_below(vs, us, below)?;
                let w = self.put_below(v, us, below)?;
                self.add(Node::Cons(w, ws))
            }
            Node::Star | Node::Box_ | Node::Nil => Ok(t),
        }
    }
}
