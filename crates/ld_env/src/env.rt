//! The environment, which contracts see as the list of its named entries.
ghost use Rattle.std.specs.Prelude.{◌≡◌, ◌↔◌, ◌<◌, ◌+◌, ◌-◌, ◌^◌, ◌++◌, ◌∷◌, [], length, slice_get, take, Contains, IfOk, OnOk, OnErr, MatchOption};
ghost use Rattle.ld_env.specs.Named.{named, names_of, entries_of, AreNamesDistinct};

use fb_base::Text;
use indexmap::IndexMap;
use ld_terms::{TermId, Terms};
use std::alloc::Global;
use std::marker::Model;
use thiserror::Error;

/// A definition, or a primitive where there is no body. Each parameter's type is over the
/// parameters before it; the body and the type `of` are over all parameters.
#[derive(Debug, Drop)]
pub struct Entry {
    pub params: Terms,
    pub body: Option<TermId>,
    pub of: TermId,
}

/// Why no entry is appended.
#[derive(Debug, Drop, Error, PartialEq, Eq)]
pub enum EnvFault {
    #[error("the name is taken")]
    NameTaken,
    #[error("memory ran out")]
    Memory,
}

/// Entries under their names, numbered from 0 in the order in which they were appended. A name is 1 to 255 bytes in a
/// book; here it may be any bytes.
#[derive(Debug, Drop)]
pub struct Env {
    entries: IndexMap<Vec<u8>, Entry>,
}

impl Model for Env {
    ghost use Rattle.std.specs.Prelude.{List, ◌<◌, ◌^◌, length};
    ghost use Rattle.ld_env.specs.Named.{Named, named_of};

    ghost Value = { List Named };

    ghost view = { λ e. named_of e.entries.entries };

    ghost invariant = { λ e. length e.entries.entries < 2 ^ 32 };
}

impl Env {
    /// The environment with no entries.
    pub fn new(alloc: Global) -> Env
        ensures { result ≡ [] }
    {
        Env {
            entries: IndexMap::new(alloc),
        }
    }

    /// Appends an entry under a name that no entry has, and gives its number.
    pub fn push(&mut self, name: Text, entry: Entry) -> Result<u32, EnvFault>
        requires room { length self.old + 1 < 2 ^ 32 }
        ensures number { IfOk result (λ k. k ≡ length self.old) }
        ensures ok { OnOk result (self.new ≡ self.old ++ named name entry ∷ []) }
        ensures taken { (result ≡ Err EnvFault.NameTaken) ↔ Contains (names_of self.old) name }
        ensures err { OnErr result (self.new ≡ self.old) }
    {
        if self.find(name.bytes()).is_some() {
            return Err(EnvFault::NameTaken);
        }
        let number = self.len();
        self.entries
            .insert(name.into_bytes(), entry)
            .map_err(|_| EnvFault::Memory)?;
        Ok(number)
    }

    /// The number of the entry of this name.
    pub fn find(&self, name: &[u8]) -> Option<u32>
        ensures place { MatchOption result (¬ Contains (names_of self.now) name.now)
            (λ k. slice_get (names_of self.now) k ≡ Some name.now) }
        ensures distinct { AreNamesDistinct self.now }
    {
        let place = self.entries.get_index_of(name)?;
        Some(place as u32)
    }

    /// The entry of a number.
    pub fn entry(&self, k: u32) -> &Entry
        requires { k < length self.now }
        ensures { slice_get (entries_of self.now) k ≡ Some result.now }
    {
        &self.entries[k as usize]
    }

    /// The name of the entry of a number.
    pub fn name(&self, k: u32) -> &[u8]
        requires { k < length self.now }
        ensures { slice_get (names_of self.now) k ≡ Some result.now }
    {
        match self.entries.get_index(k as usize) {
            Some((name, _)) => name,
            None => unreachable!(),
        }
    }

    /// How many entries there are.
    pub fn len(&self) -> u32
        ensures { result ≡ length self.now }
    {
        self.entries.len() as u32
    }

    /// Takes the last entry away.
    pub fn pop(&mut self)
        requires { 0 < length self.old }
        ensures { self.new ≡ take (length self.old - 1) self.old }
    {
        self.entries.pop();
    }
}
