//! The flags under which an entry was made.
ghost use Rattle.std.specs.Prelude.{◌≡◌, ◌≤◌, ◌==◌, IfOk, length, map};
ghost use Rattle.std.specs.List.{list_all, list_any, prefix_len, zip};
ghost use Rattle.fb_scope.specs.Resolve.{shared, further};

use crate::scope::Flag;
use fb_base::NoMemory;
use std::alloc::Global;
use std::marker::Model;

/// The numbers of the flags under which an entry was made, outermost first.
#[derive(Debug, Drop)]
pub struct Mark {
    numbers: Vec<u32>,
}

impl Model for Mark {
    ghost use Rattle.std.specs.Prelude.{List, ℕ, ◌≤◌, length};

    ghost Value = { List ℕ };

    ghost view = { λ m. m.numbers.items };

    ghost invariant = { λ m. length m.numbers.items ≤ 64 };
}

impl Mark {
    // The mark of these flags, outermost first.
    pub(crate) fn of(alloc: Global, flags: &[Flag]) -> Result<Mark, NoMemory>
        requires { length flags.now ≤ 64 }
        ensures { IfOk result (λ mark. mark ≡ map (λ f. f.number) flags.now) }
    {
        match flags.iter().map(|f| f.number).collect(alloc) {
            Ok(numbers) => Ok(Mark { numbers }),
            Err(_) => Err(NoMemory),
        }
    }

    // How many flags there are.
    pub(crate) fn len(&self) -> u32
        ensures length { result ≡ length self.now }
        ensures few { result ≤ 64 }
    {
        self.numbers.len() as u32
    }

    // How many of the first flags are among those that are open, outermost first.
    pub(crate) fn shared(&self, flags: &[Flag]) -> u32
        ensures shared { result ≡ shared self.now (map (λ f. f.number) flags.now) }
        ensures few { result ≤ length self.now }
    {
        count_open(&self.numbers, flags) as u32
    }

    // How many flags follow where these begin with those that are open, outermost first, and go on.
    pub(crate) fn further(&self, flags: &[Flag]) -> Option<u32>
        ensures { result ≡ further self.now (map (λ f. f.number) flags.now) }
    {
        if self.numbers.len() <= flags.len() || !begin_with(&self.numbers, flags) {
            return None;
        }
        Some((self.numbers.len() - flags.len()) as u32)
    }
}

// How many of the first numbers are those of flags.
fn count_open(numbers: &[u32], flags: &[Flag]) -> usize
    ensures count { result ≡ prefix_len (λ n. list_any (λ f. f.number == n) flags.now) numbers.now }
    ensures few { result ≤ length numbers.now }
{
    numbers.iter().take_while(|n| is_open(flags, **n)).count()
}

fn is_open(flags: &[Flag], number: u32) -> bool
    ensures { result ≡ list_any (λ f. f.number == number) flags.now }
{
    flags.iter().any(|flag| flag.number == number)
}

// Whether each number is that of the flag at its place, as far as both lists go.
fn begin_with(numbers: &[u32], flags: &[Flag]) -> bool
    ensures { result ≡ list_all (λ p. p.0 == p.1.number) (zip numbers.now flags.now) }
{
    numbers.iter().zip(flags).all(|(n, flag)| *n == flag.number)
}
