//! A record of a derivation file, as it is read.
ghost use Rattle.std.specs.Prelude.{◌≡◌, ◌∷◌, [], MatchOption, slice_get};

use crate::decode::read_number;
use std::marker::Model;

/// One record, borrowed from the bytes of its file. Contracts see its tag, its numbers and its name.
#[derive(Debug, Drop)]
pub struct Rec<'a> {
    pub(crate) tag: u8,
    pub(crate) before: &'a [u8],
    pub(crate) name: &'a [u8],
    pub(crate) behind: &'a [u8],
}

impl<'a> Model for Rec<'a> {
    ghost use Rattle.std.specs.Prelude.{◌++◌};
    ghost use Rattle.dr_text.specs.Read.{Parts, AreSpelled, numbers_in};

    ghost Value = { Parts };

    ghost view = { λ a. record { tag = a.tag; numbers = numbers_in a.before.now ++ numbers_in a.behind.now; name = a.name.now } };

    ghost invariant = { λ a. AreSpelled a.before.now × AreSpelled a.behind.now };
}

impl<'a> Rec<'a> {
    /// The byte with which the record begins.
    pub fn tag(&self) -> u8
        ensures { result ≡ self.now.tag }
    {
        self.tag
    }

    /// The number at a place, counted from 0 in the order of the file, with counts and lengths. None where there is none.
    ///
    /// It goes over the numbers before it: [`Rec::numbers`] gives all of them in order.
    pub fn number(&self, i: usize) -> Option<u64>
        ensures { result ≡ slice_get self.now.numbers i }
    {
        let mut numbers = self.numbers();
        for _place in 0..i {
            let Some(_) = numbers.next() else {
                return None;
            };
        }
        numbers.next()
    }

    /// The bytes of the name, none for a record that has no name.
    pub fn name(&self) -> &'a [u8]
        ensures { result.now ≡ self.now.name }
    {
        self.name
    }

    /// All its numbers in order.
    pub fn numbers(&self) -> Numbers<'a>
        ensures { result ≡ self.now.numbers }
    {
        Numbers {
            before: self.before,
            behind: self.behind,
        }
    }
}

/// Numbers of a record, of which contracts see those that are left.
#[derive(Debug, Drop)]
pub struct Numbers<'a> {
    before: &'a [u8],
    behind: &'a [u8],
}

impl<'a> Model for Numbers<'a> {
    ghost use Rattle.std.specs.Prelude.{ℕ, List, ◌++◌};
    ghost use Rattle.dr_text.specs.Read.{AreSpelled, numbers_in};

    ghost Value = { List ℕ };

    ghost view = { λ a. numbers_in a.before.now ++ numbers_in a.behind.now };

    ghost invariant = { λ a. AreSpelled a.before.now × AreSpelled a.behind.now };
}

impl<'a> Numbers<'a> {
    /// The first of the numbers that are left, which it takes away. None where none is left.
    pub fn next(&mut self) -> Option<u64>
        ensures { MatchOption result ((self.old ≡ []) × (self.new ≡ [])) (λ n. self.old ≡ n ∷ self.new) }
    {
        if let Some((n, rest)) = read_number(self.before) {
            self.before = rest;
            return Some(n);
        }
        let Some((n, rest)) = read_number(self.behind) else {
            return None;
        };
        self.behind = rest;
        Some(n)
    }
}
