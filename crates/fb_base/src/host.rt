//! The desk over the files and the standard output of a runtime: the edge of what is proved.
ghost use Rattle.std.specs.Prelude.{◌≡◌, ◌≤◌, ℕ, true, IsTrue, length, take, IfSome, IfOk, OnOk, IsErrOf};
ghost use Rattle.std.specs.Io.KnownBytes.{Consumes, Appends as AppendsTo};
ghost use Rattle.fb_base.specs.Desk.{Starts, Appends, Says};

use crate::{Desk, DeskFault};
use std::alloc::Global;
use std::fs;
use std::io::{self, Read, Write};
use std::rt::Files;

// How many bytes are read at once.
const BUFFER: usize = 4096;

/// Real files and standard output, of which it tells no content. It is not sound: the outside fails when it likes.
#[derive(Drop)]
pub struct HostDesk<R: Files + Print + Clone + Drop> {
    rt: R,
    file: Option<R::File>,
    faults: u64,
}

impl<R: Files + Print + Clone + Drop> HostDesk<R> {
    ghost use Rattle.std.specs.Prelude.{false};
    ghost use Rattle.fb_base.specs.Desk.{counted};
    ghost use Rattle.fb_base.specs.declared.desk.DeskFault.TheVariants.{Failed};

    /// The desk of a runtime, by which alone files and output are reached.
    pub fn new(rt: R) -> HostDesk<R>
        ensures faults { (⟦<HostDesk<R> as Desk>⟧.seen result).faults ≡ 0 }
        ensures started { (⟦<HostDesk<R> as Desk>⟧.seen result).started ≡ false }
    {
        HostDesk {
            rt,
            file: None,
            faults: 0,
        }
    }

    // counts what the outside refused
    fn fail(&mut self) -> DeskFault
        ensures counts { self.new ≡ record self.old { faults = counted self.old.faults } }
        ensures never_falls { self.old.faults ≤ self.new.faults }
        ensures fault { result ≡ Failed }
    {
        self.faults = self.faults.saturating_add(1);
        DeskFault::Failed
    }
}

impl<R: Files + Print + Clone + Drop> Desk for HostDesk<R> {
    ghost use Rattle.std.specs.Prelude.{false, [], None, is_some};
    ghost use Rattle.fb_base.specs.declared.desk.DeskFault.TheVariants.{Memory};

    ghost seen = { λ desk. record {
      tells_files = false;
      tells_said = false;
      files = λ _. None;
      said = [];
      started = is_some desk.file;
      target = [];
      faults = desk.faults;
      sound = false;
    } };

    fn fetch(&mut self, alloc: Global, name: &str, most: usize) -> Result<Vec<u8>, DeskFault> {
        let Ok(mut file) = fs::open(&self.rt, name) else {
            return Err(self.fail());
        };
        match read_up_to(alloc, &mut file, most) {
            Ok(bytes) => Ok(bytes),
            Err(DeskFault::Memory) => Err(DeskFault::Memory),
            Err(DeskFault::Failed) => Err(self.fail()),
        }
    }

    fn start(&mut self, name: &str) -> Result<(), DeskFault>
        ensures starts { Starts (⟦<HostDesk<R> as Desk>⟧.seen self.old) (⟦<HostDesk<R> as Desk>⟧.seen self.new) name.now result }
        ensures not_memory { IsErrOf result Memory → ⊥ }
    {
        match fs::create(&self.rt, name) {
            Ok(file) => {
                self.file = Some(file);
                Ok(())
            }
            Err(_) => {
                self.file = None;
                Err(self.fail())
            }
        }
    }

    fn append(&mut self, bytes: &[u8]) -> Result<(), DeskFault>
        requires { (⟦<HostDesk<R> as Desk>⟧.seen self.old).started ≡ true }
        ensures appends { Appends (⟦<HostDesk<R> as Desk>⟧.seen self.old) (⟦<HostDesk<R> as Desk>⟧.seen self.new) bytes.now result }
        ensures written { OnOk result (IfSome self.old.file (λ before. IfSome self.new.file (λ after. AppendsTo (R.File.contents before) (R.File.contents after) bytes.now))) }
        ensures front { IfSome self.old.file (λ before. IfSome self.new.file (λ after. (n : ℕ) × AppendsTo (R.File.contents before) (R.File.contents after) (take n bytes.now))) }
        ensures not_memory { IsErrOf result Memory → ⊥ }
    {
        let Some(file) = &mut self.file else {
            unreachable!()
        };
        if write_whole(file, bytes) {
            return Ok(());
        }
        Err(self.fail())
    }

    fn say(&mut self, bytes: &[u8]) -> Result<(), DeskFault>
        ensures says { Says (⟦<HostDesk<R> as Desk>⟧.seen self.old) (⟦<HostDesk<R> as Desk>⟧.seen self.new) bytes.now result }
        ensures not_memory { IsErrOf result Memory → ⊥ }
    {
        if write_whole(&mut io::writer(&self.rt), bytes) {
            return Ok(());
        }
        Err(self.fail())
    }
}

// Reads to the file's end, but at most so many bytes. A read that gives nothing is the end.
#[tactic(auto, using(crate::proofs::Streams::read_more, crate::proofs::Streams::first_wanted, crate::proofs::Streams::first_left))]
fn read_up_to<F: Read>(alloc: Global, file: &mut F, most: usize) -> Result<Vec<u8>, DeskFault>
    ensures bound { IfOk result (λ bytes. length bytes.items ≤ most) }
    ensures front { IfOk result (λ bytes. IfSome (F.remaining file.old) (λ left. bytes.items ≡ take most left)) }
    ensures rest { IfOk result (λ bytes. Consumes (F.remaining file.old) (F.remaining file.new) bytes.items) }
{
    let mut bytes = Vec::new(alloc);
    let mut buffer = [0u8; BUFFER];
    while bytes.len() < most {
        let wanted = (most - bytes.len()).min(BUFFER);
        match file.read(&mut buffer[..wanted]) {
            Ok(0) => return Ok(bytes),
            Ok(count) => bytes.extend_from_slice(&buffer[..count])?,
            Err(_) => return Err(DeskFault::Failed),
        }
    }
    Ok(bytes)
}

// Writes all bytes, and says whether they were taken. A write that takes nothing of them is a failure.
fn write_whole<F: Write>(file: &mut F, bytes: &[u8]) -> bool
    ensures whole { IsTrue result → AppendsTo (F.contents file.old) (F.contents file.new) bytes.now }
    ensures front { (n : ℕ) × AppendsTo (F.contents file.old) (F.contents file.new) (take n bytes.now) }
{
    let mut rest = bytes;
    while !rest.is_empty() {
        match file.write(rest) {
            Ok(0) => return false,
            Ok(count) => rest = &rest[count..],
            Err(_) => return false,
        }
    }
    file.flush().is_ok()
}
