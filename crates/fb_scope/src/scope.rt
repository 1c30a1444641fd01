//! The binders and flags that are open, and the flags under which each entry was made.
ghost use Rattle.std.specs.Prelude.{◌≡◌, ◌⊎◌, ◌<◌, ◌≤◌, ◌+◌, ◌^◌, None, reverse, length, slice_get, IfErr, MatchResult, OnOk, OnErr, Some};
ghost use Rattle.std.specs.List.{list_any};
ghost use Rattle.std.specs.Option.{option_copied};
ghost use Rattle.std.specs.Str.{bytes_eq};
ghost use Rattle.fb_scope.specs.State.{start, flag_names, flag_fault, left_to, entered, noted, bound, unbound};

use crate::fault::ScopeFault;
use crate::mark::Mark;
use fb_base::{NoMemory, Text};
use std::alloc::Global;
use std::marker::Model;

const MOST_FLAGS: usize = 64;

const MOST_BINDERS: usize = 0x7fff_ffff;

/// An open flag. No two flags of a book have one number.
#[derive(Debug, Drop)]
pub struct Flag {
    pub number: u32,
    pub name: Text,
}

impl Flag {
    pub(crate) fn has_name(&self, name: &[u8]) -> bool
        ensures { result ≡ bytes_eq name.now self.now.name }
    {
        name == self.name.bytes()
    }
}

/// What is open at a place of a book, and under which flags each entry was made. Lists are kept outermost first;
/// contracts see binders and flags innermost first.
#[derive(Debug, Drop)]
pub struct Scope {
    pub(crate) binders: Vec<Option<Text>>,
    pub(crate) flags: Vec<Flag>,
    pub(crate) opened: u32,
    pub(crate) marks: Vec<Mark>,
}

impl Model for Scope {
    ghost use Rattle.std.specs.Prelude.{◌<◌, ◌≤◌, ◌^◌, length, map, reverse};
    ghost use Rattle.fb_scope.specs.State.{State};
    ghost use Rattle.fb_scope.specs.Kept.{AreKept};

    ghost Value = { State };

    ghost view = { λ s. record { binders = reverse s.binders.items; flags = reverse s.flags.items; opened = s.opened; marks = s.marks.items } };

    ghost invariant = { λ s. (length s.flags.items ≤ 64) × (length s.binders.items < 2 ^ 31)
        × AreKept s.opened (map (λ f. f.number) s.flags.items) s.marks.items };
}

impl Scope {
    /// Where a book begins: no binder, no flag, no entry.
    pub fn new(alloc: Global) -> Scope
        ensures { result ≡ start }
    {
        Scope {
            binders: Vec::new(alloc),
            flags: Vec::new(alloc),
            opened: 0,
            marks: Vec::new(alloc),
        }
    }

    /// How many flags are open.
    pub fn depth(&self) -> u32
        ensures depth { result ≡ length self.now.flags }
        ensures few { result ≤ 64 }
    {
        self.flags.len() as u32
    }

    /// How many variables there are: the open binders and the open flags.
    pub fn variable_count(&self) -> u32
        ensures { result ≡ length self.now.binders + length self.now.flags }
    {
        (self.binders.len() + self.flags.len()) as u32
    }

    /// The name of an open flag, which are counted from 0 at the outermost.
    pub fn flag_name(&self, level: u32) -> &[u8]
        requires { level < length self.now.flags }
        ensures { slice_get (reverse (flag_names self.now.flags)) level ≡ Some result.now }
    {
        self.flags[level as usize].name.bytes()
    }

    /// Closes the innermost flags until so many are open.
    pub fn leave_to(&mut self, bars: u32) -> Result<(), ScopeFault>
        ensures fault { MatchResult result (λ _. bars ≤ length self.old.flags)
            (λ e. (length self.old.flags < bars) × (e ≡ ScopeFault.DepthTooGreat bars (length self.old.flags))) }
        ensures ok { OnOk result (self.new ≡ left_to bars self.old) }
        ensures err { OnErr result (self.new ≡ self.old) }
    {
        let flags = self.depth();
        if flags < bars {
            return Err(ScopeFault::DepthTooGreat { bars, flags });
        }
        self.flags.truncate(bars as usize);
        Ok(())
    }

    /// Why no flag of this name can be opened here, if so.
    pub fn flag_fault(&self, name: &[u8]) -> Option<ScopeFault>
        ensures { result ≡ flag_fault name.now self.now.flags }
    {
        if has_flag(&self.flags, name) {
            return Some(ScopeFault::FlagTaken);
        }
        if self.flags.len() < MOST_FLAGS {
            None
        } else {
            Some(ScopeFault::ManyFlags)
        }
    }

    /// Opens a flag, whose number no flag had.
    pub fn enter(&mut self, name: &[u8]) -> Result<(), ScopeFault>
        requires room { self.old.opened + 1 < 2 ^ 32 }
        ensures free { OnOk result (flag_fault name.now self.old.flags ≡ None) }
        ensures fault { IfErr result (λ e. (flag_fault name.now self.old.flags ≡ Some e) ⊎ (e ≡ ScopeFault.Memory)) }
        ensures ok { OnOk result (self.new ≡ entered name.now self.old) }
        ensures err { OnErr result (self.new ≡ self.old) }
    {
        match self.flag_fault(name) {
            Some(fault) => Err(fault),
            None => self.open(name),
        }
    }

    // Opens a flag whose name is free.
    fn open(&mut self, name: &[u8]) -> Result<(), ScopeFault>
        requires free { flag_fault name.now self.old.flags ≡ None }
        requires room { self.old.opened + 1 < 2 ^ 32 }
        ensures fault { IfErr result (λ e. e ≡ ScopeFault.Memory) }
        ensures ok { OnOk result (self.new ≡ entered name.now self.old) }
        ensures err { OnErr result (self.new ≡ self.old) }
    {
        let alloc = *self.flags.allocator();
        let Ok(name) = Text::from_bytes(alloc, name) else {
            return Err(ScopeFault::Memory);
        };
        let flag = Flag {
            number: self.opened,
            name,
        };
        match self.flags.push(flag) {
            Ok(()) => {
                self.opened += 1;
                Ok(())
            }
            Err(_) => Err(ScopeFault::Memory),
        }
    }

    /// Keeps the flags that are open as those of the next entry.
    pub fn note(&mut self) -> Result<(), NoMemory>
        ensures ok { OnOk result (self.new ≡ noted self.old) }
        ensures err { OnErr result (self.new ≡ self.old) }
    {
        let alloc = *self.flags.allocator();
        let mark = Mark::of(alloc, &self.flags)?;
        match self.marks.push(mark) {
            Ok(()) => Ok(()),
            Err(_) => Err(NoMemory),
        }
    }

    /// Opens a binder. The variable of an arrow has no name. Beyond 2,147,483,647
    /// binders the answer is want of memory: no machine holds as many.
    pub fn bind(&mut self, name: Option<&[u8]>) -> Result<(), NoMemory>
        ensures ok { OnOk result (self.new ≡ bound (option_copied name.entry) self.old) }
        ensures err { OnErr result (self.new ≡ self.old) }
    {
        if self.binders.len() >= MOST_BINDERS {
            return Err(NoMemory);
        }
        let alloc = *self.flags.allocator();
        let name = match name {
            Some(bytes) => Some(Text::from_bytes(alloc, bytes)?),
            None => None,
        };
        self.binders.push(name).map_err(|_| NoMemory)
    }

    /// Closes the innermost binder.
    pub fn unbind(&mut self)
        requires { 0 < length self.old.binders }
        ensures { self.new ≡ unbound self.old }
    {
        self.binders.pop();
    }
}

// Whether a flag has this name.
fn has_flag(flags: &[Flag], name: &[u8]) -> bool
    ensures { result ≡ list_any (λ f. bytes_eq name.now f.name) flags.now }
{
    flags.iter().any(|flag| flag.has_name(name))
}
