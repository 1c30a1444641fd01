//! The terms of a derivation file, by their numbers there.
ghost use Rattle.std.specs.Prelude.{◌≡◌, ◌≢◌, ◌<◌, ◌∷◌, ℕ, suc, [], length, slice_index_or, Some, None, Ok, IfOk, OnOk, OnErr};
ghost use Rattle.ld_terms.specs.Item.{IsOne, IsSmall, tree};
ghost use Rattle.ld_terms.specs.Tree.{Nil, ◌▸◌};
ghost use Rattle.ld_terms.specs.Bank.{tree_at, list_at, item_of, IsTermAt, IsListAt, HasParts};
ghost use Rattle.ld_terms.specs.Record.{Record};
ghost use Rattle.ld_terms.specs.declared.bank.TermId.{TermId};
ghost use Rattle.dr_text.specs.Written.{Pushes};

use crate::number::push_numbers;
use crate::record::push_record;
use fb_base::NoMemory;
use ld_terms::{Bank, Node, TermId};
use std::alloc::Global;

/// The terms that are written.
#[derive(Debug, Drop)]
pub struct Terms {
    // for each number of a term in the bank its number in the file, if it is written
    numbers: Vec<Option<usize>>,
    written: usize,
    alloc: Global,
}

impl Terms {
    ghost use Rattle.dr_text.specs.Written.{number_in, Numbers, NumbersAll, WritesTerm, KeepsNumbers, HasSameNumbers, Forgets};

    /// No terms.
    pub fn new(alloc: Global) -> Terms
        ensures numbers { result.numbers.items ≡ [] }
        ensures written { result.written ≡ 0 }
    {
        Terms {
            numbers: Vec::new(alloc),
            written: 0,
            alloc,
        }
    }

    /// How many terms are written.
    pub fn count(&self) -> usize
        ensures { result ≡ self.now.written }
    {
        self.written
    }

    /// Forgets the terms from a number on, where what was written of them isn't to stay.
    pub fn forget_from(&mut self, count: usize)
        ensures { Forgets count self.old self.new }
    {
        for place in 0..self.numbers.len() {
            self.forget_above(place, count);
        }
        self.written = count;
    }

    // Forgets the number at a place of the table, if it isn't below the count.
    fn forget_above(&mut self, place: usize, count: usize)
        requires there { place < length self.old.numbers.items }
        ensures length { length self.new.numbers.items ≡ length self.old.numbers.items }
        ensures below { (n : ℕ) → slice_index_or self.new.numbers.items place None ≡ Some n → n < count }
        ensures kept { (i n : ℕ) → slice_index_or self.new.numbers.items i None ≡ Some n → slice_index_or self.old.numbers.items i None ≡ Some n }
    {
        if let Some(number) = self.numbers[place] {
            if number >= count {
                self.numbers[place] = None;
            }
        }
    }

    /// The number of a term in the file. It is written behind its parts if it isn't there.
    #[cycle(terms)]
    pub fn number_of(
        &mut self,
        bank: &Bank,
        t: TermId,
        out: &mut Vec<u8>,
    ) -> Result<usize, NoMemory>
        requires { IsTermAt bank.now t }
        ensures number { IfOk result (λ n. Numbers bank.now self.old self.new out.old.items out.new.items (tree_at bank.now t) n) }
        ensures there { (n : ℕ) → number_in self.old.numbers.items t ≡ Some n
            → (result ≡ Ok n) × (self.new ≡ self.old) × (out.new.items ≡ out.old.items) }
        ensures keeps { KeepsNumbers self.old self.new }
    {
        if let Some(number) = self.find(t) {
            return Ok(number);
        }
        self.write(bank, bank.node(t), out)?;
        self.keep(t)
    }

    // Writes a term by its parts.
    #[cycle(terms)]
    fn write(&mut self, bank: &Bank, node: Node, out: &mut Vec<u8>) -> Result<(), NoMemory>
        requires parts { HasParts bank.now node }
        requires form { IsOne (item_of bank.now node) }
        requires small { IsSmall (item_of bank.now node) }
        ensures writes { OnOk result (WritesTerm bank.now self.old self.new out.old.items out.new.items (tree (item_of bank.now node))) }
        ensures keeps { KeepsNumbers self.old self.new }
    {
        match node {
            Node::Star => push_record(0x01, &[], out),
            Node::Box_ => push_record(0x02, &[], out),
            Node::Var(index) => push_record(0x03, &[index as usize], out),
            Node::App(f, u) => {
                let (f, u) = self.numbers_of_two(bank, f, u, out)?;
                push_record(0x04, &[f, u], out)
            }
            Node::Lam(a, m) => {
                let (a, m) = self.numbers_of_two(bank, a, m, out)?;
                push_record(0x05, &[a, m], out)
            }
            Node::Pi(a, b) => {
                let (a, b) = self.numbers_of_two(bank, a, b, out)?;
                push_record(0x06, &[a, b], out)
            }
            Node::Const(k, us) => {
                let arguments = self.numbers_of(bank, us, out)?;
                push_instance(k, &arguments, out)
            }
            Node::Nil | Node::Cons(..) => unreachable!(),
        }
    }

    // The numbers of two terms.
    #[cycle(terms)]
    fn numbers_of_two(
        &mut self,
        bank: &Bank,
        a: TermId,
        b: TermId,
        out: &mut Vec<u8>,
    ) -> Result<(usize, usize), NoMemory>
        requires first { IsTermAt bank.now a }
        requires second { IsTermAt bank.now b }
        ensures numbers { IfOk result (λ ns. NumbersAll bank.now self.old self.new out.old.items out.new.items
            (Nil ▸ tree_at bank.now a ▸ tree_at bank.now b) (ns.0 ∷ ns.1 ∷ [])) }
        ensures keeps { KeepsNumbers self.old self.new }
    {
        let first = self.number_of(bank, a, out)?;
        let second = self.number_of(bank, b, out)?;
        Ok((first, second))
    }

    // The numbers of the terms of a list.
    #[cycle(terms)]
    fn numbers_of(
        &mut self,
        bank: &Bank,
        us: TermId,
        out: &mut Vec<u8>,
    ) -> Result<Vec<usize>, NoMemory>
        requires { IsListAt bank.now us }
        ensures numbers { IfOk result (λ ns. NumbersAll bank.now self.old self.new out.old.items out.new.items (list_at bank.now us) ns.items) }
        ensures keeps { KeepsNumbers self.old self.new }
    {
        match bank.node(us) {
            Node::Cons(u, front) => {
                let mut numbers = self.numbers_of(bank, front, out)?;
                let number = self.number_of(bank, u, out)?;
                numbers.push(number).map_err(|_| NoMemory)?;
                Ok(numbers)
            }
            Node::Nil => Ok(Vec::new(self.alloc)),
            _ => unreachable!(),
        }
    }

    fn find(&self, t: TermId) -> Option<usize>
        ensures { result ≡ number_in self.now.numbers.items t }
    {
        if t.number() < self.numbers.len() {
            self.numbers[t.number()]
        } else {
            None
        }
    }

    // Keeps the next number for a term that was written.
    fn keep(&mut self, t: TermId) -> Result<usize, NoMemory>
        ensures number { IfOk result (λ n. n ≡ self.old.written) }
        ensures term { IfOk result (λ n. number_in self.new.numbers.items t ≡ Some n) }
        ensures others { OnOk result ((u : TermId) → u.0 ≢ t.0 → number_in self.new.numbers.items u ≡ number_in self.old.numbers.items u) }
        ensures written { OnOk result (self.new.written ≡ suc self.old.written) }
        ensures same { OnErr result (HasSameNumbers self.old self.new) }
    {
        let number = self.written;
        // each of them has a place in the table, so more than memory holds are never there
        let Some(written) = number.checked_add(1) else {
            return Err(NoMemory);
        };
        make_place(&mut self.numbers, t.number())?;
        self.numbers[t.number()] = Some(number);
        self.written = written;
        Ok(number)
    }
}

// Lengthens a table up to a place.
fn make_place(numbers: &mut Vec<Option<usize>>, place: usize) -> Result<(), NoMemory>
    ensures there { OnOk result (place < length numbers.new.items) }
    ensures same { (i : ℕ) → slice_index_or numbers.new.items i None ≡ slice_index_or numbers.old.items i None }
{
    while numbers.len() <= place {
        numbers.push(None).map_err(|_| NoMemory)?;
    }
    Ok(())
}

// Appends an instance of an entry, with the numbers of its arguments.
fn push_instance(k: u32, arguments: &[usize], out: &mut Vec<u8>) -> Result<(), NoMemory>
    ensures { OnOk result (Pushes out.old.items out.new.items (Record.Const k arguments.now)) }
{
    push_record(0x07, &[k as usize, arguments.len()], out)?;
    push_numbers(arguments, out)
}
