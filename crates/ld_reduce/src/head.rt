//! The head of a term: whether a step can be made there.
ghost use Rattle.std.specs.Prelude.{◌≡◌, ◌≤◌, is_some};
ghost use Rattle.ld_terms.specs.Tree.{count};
ghost use Rattle.ld_terms.specs.Item.{IsSmall};
ghost use Rattle.ld_terms.specs.Bank.{item_at, tree_at, list_at, IsTermAt, IsListAt};
ghost use Rattle.ld_env.specs.Entries.{env_of, AreLive};
ghost use Rattle.ld_reduce.specs.Heads.{beta_step, delta_step, head_number};
ghost use Rattle.ld_reduce.specs.Steps.{IsUnfolding};

use ld_env::Env;
use ld_terms::{Bank, Node, TermId};

/// Whether a beta step can be made at the head: the head is an abstraction, and it has an argument.
pub fn has_beta(bank: &Bank, t: TermId) -> bool
    requires { IsTermAt bank.now t }
    ensures step { result ≡ is_some (beta_step (tree_at bank.now t)) }
    ensures small { IsSmall (item_at bank.now t) }
{
    match bank.node(t) {
        Node::App(f, _) => match bank.node(f) {
            Node::Lam(_, _) => true,
            _ => has_beta(bank, f),
        },
        _ => false,
    }
}

/// The number of the head, where it is a defined constant: an instance of an entry that has a body, with as many
/// arguments as the entry has parameters.
pub fn defined_head(bank: &Bank, env: &Env, t: TermId) -> Option<u32>
    requires live { AreLive bank.now env.now }
    requires term { IsTermAt bank.now t }
    ensures number { result ≡ head_number (env_of bank.now env.now) (tree_at bank.now t) }
    ensures unfolds { is_some result ≡ is_some (delta_step (env_of bank.now env.now) (tree_at bank.now t)) }
{
    match bank.node(t) {
        Node::App(f, _) => defined_head(bank, env, f),
        Node::Const(k, us) => unfolding(bank, env, k, us).and(Some(k)),
        _ => None,
    }
}

// The body that an instance unfolds to.
pub(crate) fn unfolding(bank: &Bank, env: &Env, k: u32, us: TermId) -> Option<TermId>
    requires live { AreLive bank.now env.now }
    requires list { IsListAt bank.now us }
    ensures { IsUnfolding bank.now (env_of bank.now env.now) k (list_at bank.now us) result }
{
    if k >= env.len() {
        return None;
    }
    let entry = env.entry(k);
    match entry.body {
        None => None,
        Some(body) => {
            if count_of(bank, us) == entry.params.as_slice().len() {
                Some(body)
            } else {
                None
            }
        }
    }
}

// How many terms a list has.
fn count_of(bank: &Bank, us: TermId) -> usize
    requires { IsListAt bank.now us }
    ensures count { result ≡ count (list_at bank.now us) }
    ensures most { result ≤ us.0 }
{
    match bank.node(us) {
        Node::Cons(_, rest) => count_of(bank, rest) + 1,
        _ => 0,
    }
}
