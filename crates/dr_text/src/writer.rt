//! The writer of a derivation file.
ghost use Rattle.std.specs.Prelude.{◌≡◌, ◌≤◌, List, [], length, IfSome, OnOk, OnErr};
ghost use Rattle.ld_terms.specs.Item.{Item};
ghost use Rattle.ld_record.specs.Kept.{IsSound, known_of};
ghost use Rattle.ld_record.specs.Growth.{Knows};
ghost use Rattle.dr_text.specs.Spelling.{header};
ghost use Rattle.dr_text.specs.Written.{IsWritten, Appends, IsUndone, last_judgement, Carries, WritesKept, HasTerms, KeepsNumbers};

use crate::record::{push_entry, push_equal, push_flag, push_node, push_record};
use crate::terms::Terms;
use fb_base::NoMemory;
use ld_record::{Deriv, JudgeId, Kept};
use ld_terms::Bank;
use std::alloc::Global;

/// What is written of a derivation: the terms, and how many of its records.
#[derive(Debug, Drop)]
pub struct Writer {
    terms: Terms,
    written: usize,
    alloc: Global,
}

impl Writer {
    /// A writer that has written the header alone.
    pub fn new(alloc: Global) -> Writer
        ensures { (items : List Item) → IsWritten items [] result header }
    {
        Writer {
            terms: Terms::new(alloc),
            written: 0,
            alloc,
        }
    }

    /// Appends the records since the last chunk, and with a judgement the end of the file. Where memory runs out nothing is
    /// appended, and the writer stands for what it stood for.
    pub fn chunk(
        &mut self,
        bank: &Bank,
        deriv: &Deriv,
        ended: Option<JudgeId>,
        out: &mut Vec<u8>,
    ) -> Result<(), NoMemory>
        requires sound { IsSound bank.now deriv.now }
        requires written { self.old.written ≤ length deriv.now }
        requires ended { IfSome ended (λ j. Knows (known_of bank.now deriv.now) j (last_judgement (known_of bank.now deriv.now))) }
        ensures ok { OnOk result (Appends bank.now deriv.now self.old self.new out.old.items out.new.items ended) }
        ensures err { OnErr result (IsUndone self.old self.new out.old.items out.new.items) }
    {
        let terms = self.terms.count();
        let written = self.written;
        match self.append(bank, deriv, ended, out) {
            Ok(()) => Ok(()),
            Err(fault) => {
                self.terms.forget_from(terms);
                self.written = written;
                Err(fault)
            }
        }
    }

    // The same, but where memory runs out the writer may count what wasn't appended.
    fn append(
        &mut self,
        bank: &Bank,
        deriv: &Deriv,
        ended: Option<JudgeId>,
        out: &mut Vec<u8>,
    ) -> Result<(), NoMemory>
        requires sound { IsSound bank.now deriv.now }
        requires written { self.old.written ≤ length deriv.now }
        requires ended { IfSome ended (λ j. Knows (known_of bank.now deriv.now) j (last_judgement (known_of bank.now deriv.now))) }
        ensures ok { OnOk result (Appends bank.now deriv.now self.old self.new out.old.items out.new.items ended) }
        ensures err { OnErr result (out.new.items ≡ out.old.items) }
        ensures keeps { KeepsNumbers self.old.terms self.new.terms }
    {
        let mut chunk = Vec::new(self.alloc);
        self.records_and_end(bank, deriv, ended, &mut chunk)?;
        out.extend_from_slice(&chunk).map_err(|_| NoMemory)?;
        Ok(())
    }

    // Appends the records and the end one after another.
    fn records_and_end(
        &mut self,
        bank: &Bank,
        deriv: &Deriv,
        ended: Option<JudgeId>,
        out: &mut Vec<u8>,
    ) -> Result<(), NoMemory>
        requires sound { IsSound bank.now deriv.now }
        requires written { self.old.written ≤ length deriv.now }
        requires ended { IfSome ended (λ j. Knows (known_of bank.now deriv.now) j (last_judgement (known_of bank.now deriv.now))) }
        ensures ok { OnOk result (Appends bank.now deriv.now self.old self.new out.old.items out.new.items ended) }
        ensures keeps { KeepsNumbers self.old.terms self.new.terms }
    {
        self.records(bank, deriv, out)?;
        match ended {
            Some(j) => push_record(0x60, &[j.number()], out),
            None => Ok(()),
        }
    }

    // Appends all records that are not written.
    fn records(&mut self, bank: &Bank, deriv: &Deriv, out: &mut Vec<u8>) -> Result<(), NoMemory>
        requires sound { IsSound bank.now deriv.now }
        requires written { self.old.written ≤ length deriv.now }
        ensures carries { OnOk result (Carries bank.now deriv.now self.old.terms self.new.terms out.old.items out.new.items
            self.old.written (length deriv.now)) }
        ensures written { OnOk result (self.new.written ≡ length deriv.now) }
        ensures keeps { KeepsNumbers self.old.terms self.new.terms }
    {
        for place in self.written..deriv.count() {
            push_kept(&mut self.terms, bank, deriv.kept(place), out)?;
        }
        self.written = deriv.count();
        Ok(())
    }
}

// Appends a record, behind the terms that it names.
fn push_kept(terms: &mut Terms, bank: &Bank, kept: &Kept, out: &mut Vec<u8>) -> Result<(), NoMemory>
    requires { HasTerms bank.now kept.now }
    ensures writes { OnOk result (WritesKept bank.now terms.old terms.new out.old.items out.new.items kept.now) }
    ensures keeps { KeepsNumbers terms.old terms.new }
{
    match kept {
        Kept::Context(ctx, t) => {
            let t = terms.number_of(bank, *t, out)?;
            push_record(0x10, &[ctx.number(), t], out)
        }
        Kept::Equal(left, right, step) => {
            let left = terms.number_of(bank, *left, out)?;
            let right = terms.number_of(bank, *right, out)?;
            push_equal(step, left, right, out)
        }
        Kept::Node(judge, step) => {
            let term = terms.number_of(bank, judge.term, out)?;
            let of = terms.number_of(bank, judge.of, out)?;
            push_node(judge, step, term, of, out)
        }
        Kept::Entry(name, j, prim) => push_entry(name, j, *prim, out),
        Kept::Flag(j) => push_flag(j, out),
    }
}
