//! A desk in memory, on which chosen calls fail.
ghost use Rattle.std.specs.Prelude.{◌≡◌, ◌↔◌, ◌<◌, ◌≤◌, [], ◌∷◌, ◌++◌, true, length, IfOk, OnOk, OnErr, IsErrOf};
ghost use Rattle.std.specs.Option.{option_copied};
ghost use Rattle.fb_base.specs.Desk.{Fetches, Starts, Appends, Says};
ghost use Rattle.fb_base.specs.MemFiles.{LastGrows, part_of};

use crate::{Desk, DeskFault, NoMemory, Text};
use std::alloc::Global;

/// Files in memory, and a list of the calls that are to fail.
#[derive(Debug, Drop)]
pub struct MemDesk {
    alloc: Global,
    // of two files with one name the later counts, and the started file is the last
    files: Vec<(Text, Text)>,
    started: bool,
    said: Text,
    calls: Calls,
    ghost last_is_started: { started ≡ true → 0 < length files.items },
}

// The number of the next call, how many failed, and which are to fail after how many bytes.
#[derive(Debug, Drop)]
struct Calls {
    number: u64,
    faults: u64,
    fails: Vec<(u64, usize)>,
}

impl Desk for MemDesk {
    ghost use Rattle.fb_base.specs.MemDesk.{seen_of, IsCounted, FetchFails, StartFails, AppendFails, SayFails};
    ghost use Rattle.fb_base.specs.declared.desk.DeskFault.TheVariants.{Failed};

    ghost seen = { seen_of };

    fn fetch(&mut self, alloc: Global, name: &str, most: usize) -> Result<Vec<u8>, DeskFault>
        ensures fetches { Fetches (seen_of self.old) (seen_of self.new) name.now most (λ v. v.items) result }
        ensures counted { IsCounted self.old self.new result }
        ensures fails { IsErrOf result Failed ↔ FetchFails self.old name.now }
    {
        if self.calls.next_failing().is_some() {
            return Err(self.calls.went_wrong());
        }
        let Some(content) = self.file(name) else {
            return Err(self.calls.went_wrong());
        };
        let count = most.min(content.len());
        let bytes = Vec::from_slice(alloc, &content[..count])?;
        self.calls.went_well();
        Ok(bytes)
    }

    fn start(&mut self, name: &str) -> Result<(), DeskFault>
        ensures starts { Starts (seen_of self.old) (seen_of self.new) name.now result }
        ensures counted { IsCounted self.old self.new result }
        ensures fails { IsErrOf result Failed → StartFails self.old self.new name.now }
    {
        match self.calls.next_failing() {
            None => {
                push_empty(self.alloc, &mut self.files, name)?;
                self.started = true;
                self.calls.went_well();
                Ok(())
            }
            Some(0) => {
                self.started = false;
                Err(self.calls.went_wrong())
            }
            Some(_) => {
                push_empty(self.alloc, &mut self.files, name)?;
                self.started = false;
                Err(self.calls.went_wrong())
            }
        }
    }

    fn append(&mut self, bytes: &[u8]) -> Result<(), DeskFault>
        requires { (seen_of self.old).started ≡ true }
        ensures appends { Appends (seen_of self.old) (seen_of self.new) bytes.now result }
        ensures counted { IsCounted self.old self.new result }
        ensures fails { IsErrOf result Failed → AppendFails self.old self.new bytes.now }
    {
        match self.calls.next_failing() {
            None => {
                append_to_last(&mut self.files, bytes)?;
                self.calls.went_well();
                Ok(())
            }
            Some(count) => {
                append_to_last(&mut self.files, part_of(bytes, count))?;
                Err(self.calls.went_wrong())
            }
        }
    }

    fn say(&mut self, bytes: &[u8]) -> Result<(), DeskFault>
        ensures says { Says (seen_of self.old) (seen_of self.new) bytes.now result }
        ensures counted { IsCounted self.old self.new result }
        ensures fails { IsErrOf result Failed → SayFails self.old self.new bytes.now }
    {
        match self.calls.next_failing() {
            None => {
                self.said.append(bytes)?;
                self.calls.went_well();
                Ok(())
            }
            Some(count) => {
                self.said.append(part_of(bytes, count))?;
                Err(self.calls.went_wrong())
            }
        }
    }
}

impl MemDesk {
    ghost use Rattle.fb_base.specs.MemDesk.{seen_of, IsNew};

    /// A desk with these files. A member of `fails` is the number of a call, counted from 0 over all calls, and how
    /// many bytes pass in it before it fails. Of two files with one name the later counts, of two calls with one
    /// number the earlier.
    pub fn new(
        alloc: Global,
        files: Vec<(Text, Text)>,
        fails: Vec<(u64, usize)>,
    ) -> Result<MemDesk, NoMemory>
        ensures { IfOk result (λ desk. IsNew desk files.items fails.items) }
    {
        Ok(MemDesk {
            alloc,
            files,
            started: false,
            said: Text::empty(alloc),
            calls: Calls {
                number: 0,
                faults: 0,
                fails,
            },
        })
    }

    /// How many calls failed.
    pub fn faults(&self) -> u64
        ensures { result ≡ (seen_of self.now).faults }
    {
        self.calls.faults
    }

    /// The content of a file.
    pub fn file(&self, name: &str) -> Option<&[u8]>
        ensures { option_copied result ≡ (seen_of self.now).files name.now }
    {
        self.files
            .iter()
            .rev()
            .find(|file| file.0.bytes() == name.as_bytes())
            .map(|file| file.1.bytes())
    }

    /// All that was said.
    pub fn said(&self) -> &[u8]
        ensures { result.now ≡ (seen_of self.now).said }
    {
        self.said.bytes()
    }
}

impl Calls {
    ghost use Rattle.fb_base.specs.MemDesk.{next_failing, went_well, went_wrong};
    ghost use Rattle.fb_base.specs.declared.desk.DeskFault.TheVariants.{Failed};

    // how many bytes pass in the next call, if it is to fail
    fn next_failing(&self) -> Option<usize>
        ensures { result ≡ next_failing self.now }
    {
        let number = self.number;
        self.fails
            .iter()
            .find(|fail| fail.0 == number)
            .map(|fail| fail.1)
    }

    // counts a call that goes well
    fn went_well(&mut self)
        ensures { self.new ≡ went_well self.old }
    {
        self.number = self.number.saturating_add(1);
    }

    // counts a call that fails, and its fault
    fn went_wrong(&mut self) -> DeskFault
        ensures counts { self.new ≡ went_wrong self.old }
        ensures never_falls { self.old.faults ≤ self.new.faults }
        ensures fault { result ≡ Failed }
    {
        self.number = self.number.saturating_add(1);
        self.faults = self.faults.saturating_add(1);
        DeskFault::Failed
    }
}

// puts an empty file behind the others
fn push_empty(alloc: Global, files: &mut Vec<(Text, Text)>, name: &str) -> Result<(), NoMemory>
    ensures ok { OnOk result (files.new.items ≡ files.old.items ++ (name.now, []) ∷ []) }
    ensures err { OnErr result (files.new.items ≡ files.old.items) }
{
    let name = Text::from_bytes(alloc, name.as_bytes())?;
    files.push((name, Text::empty(alloc))).map_err(|_| NoMemory)
}

// puts bytes at the end of the last file
fn append_to_last(files: &mut Vec<(Text, Text)>, bytes: &[u8]) -> Result<(), NoMemory>
    requires { 0 < length files.old.items }
    ensures ok { OnOk result (LastGrows files.old.items files.new.items bytes.now) }
    ensures err { OnErr result (files.new.items ≡ files.old.items) }
{
    let last = files.len() - 1;
    files[last].1.append(bytes)
}

// the part of a piece that passes in a call that is to fail
fn part_of(bytes: &[u8], count: usize) -> &[u8]
    ensures { result.now ≡ part_of bytes.now count }
{
    &bytes[..count.min(bytes.len().saturating_sub(1))]
}
