//! What the records of a file have made so far.
ghost use Rattle.std.specs.Prelude.{◌≡◌, ◌<◌, ◌+◌, ◌^◌, ℕ, List, length, map, slice_get, IfOk, OnOk, OnErr, Some, All};
ghost use Rattle.std.specs.List.{AllByRecursion};
ghost use Rattle.ld_terms.specs.Tree.{Const, Nil, ◌▸◌};
ghost use Rattle.ld_terms.specs.Item.{IsOne, IsMany, IsSmall, tree, list};
ghost use Rattle.ld_terms.specs.Bank.{tree_at, list_at, listed, item_of, HasParts, IsTermAt, IsListAt, Extends, Holds};
ghost use Rattle.ld_terms.specs.Known.{context_at, equality_at, judgement_at, trees, with_context, with_equality, with_node, with_flag, with_entry};
ghost use Rattle.ld_terms.specs.Record.{start, term_at, IsTerm};
ghost use Rattle.ld_env.specs.Named.{named};
ghost use Rattle.ld_env.specs.Entries.{env_of, entry_of, AreLive, IsLiveEntry};
ghost use Rattle.dr_check.specs.Stage.{judgement_of, equality_of, IsJudgedAt, IsEquatedAt, AddsTerm, entry_by};

use fb_base::{NoMemory, Text};
use ld_env::{Entry, Env};
use ld_terms::{Bank, Node, TermFault, TermId, Terms};
use std::alloc::Global;
use std::marker::Model;

/// A node: over the first of the entries, so many, and in a context, which is a list of the bank, a term has a type.
#[derive(Clone, Copy, Debug)]
pub(crate) struct Judged {
    pub entries: u32,
    pub ctx: TermId,
    pub term: TermId,
    pub of: TermId,
}

/// Two terms that are equal by steps which unfold only entries below the bound.
#[derive(Clone, Copy, Debug)]
pub(crate) struct Equated {
    pub left: TermId,
    pub right: TermId,
    pub bound: u32,
}

/// What is noted of a file, in order: a flag, of a node, or an entry.
#[derive(Clone, Copy, Debug)]
pub(crate) enum Noted {
    Flag(usize),
    Entry(u32),
}

/// The terms, contexts, equalities and nodes of a file by their numbers, its entries, and its flags and entries in order.
#[derive(Debug, Drop)]
pub(crate) struct Checker {
    bank: Bank,
    env: Env,
    terms: Vec<TermId>,
    contexts: Vec<TermId>,
    equalities: Vec<Equated>,
    nodes: Vec<Judged>,
    notes: Vec<Noted>,
}

impl Model for Checker {
    ghost use Rattle.std.specs.Coded.{codes};
    ghost use Rattle.ld_terms.specs.Item.{items_code};
    ghost use Rattle.ld_terms.specs.TreeCode.{tree_code, trees_code};
    ghost use Rattle.dr_check.specs.Codes.{body_code, entry_code, note_code};
    ghost use Rattle.dr_check.specs.Stage.{Stage, state_of, AreTables};

    ghost Value = { Stage };

    ghost coded = { Prim.hlevel (codes, items_code, tree_code, trees_code, body_code, entry_code, note_code) };

    ghost view = { λ c. record { items = c.bank; state = state_of c.bank c.env c.terms.items c.contexts.items c.equalities.items c.nodes.items c.notes.items } };

    ghost invariant = { λ c. AreTables c.bank c.env c.terms.items c.contexts.items c.equalities.items c.nodes.items c.notes.items };
}

impl Checker {
    /// Nothing is made.
    pub fn new(alloc: Global) -> Result<Checker, NoMemory>
        ensures { IfOk result (λ c. c.state ≡ start) }
    {
        let mut bank = Bank::new(alloc);
        let none = bank.add(Node::Nil).map_err(|_| NoMemory)?;
        let mut contexts = Vec::new(alloc);
        contexts.push(none).map_err(|_| NoMemory)?;
        Ok(Checker {
            bank,
            env: Env::new(alloc),
            terms: Vec::new(alloc),
            contexts,
            equalities: Vec::new(alloc),
            nodes: Vec::new(alloc),
            notes: Vec::new(alloc),
        })
    }

    /// The bank in which the terms are numbers.
    pub fn bank(&self) -> &Bank
        ensures { result.now ≡ self.now.items }
    {
        &self.bank
    }

    /// The entries, by their names.
    pub fn env(&self) -> &Env
        ensures trees { env_of self.now.items result.now ≡ self.now.state.known.env }
        ensures live { AreLive self.now.items result.now }
    {
        &self.env
    }

    /// How many terms there are.
    pub fn terms(&self) -> usize
        ensures { result ≡ length self.now.state.terms }
    {
        self.terms.len()
    }

    /// How many contexts there are.
    pub fn contexts(&self) -> usize
        ensures { result ≡ length self.now.state.known.contexts }
    {
        self.contexts.len()
    }

    /// How many equalities there are.
    pub fn equalities(&self) -> usize
        ensures { result ≡ length self.now.state.known.equalities }
    {
        self.equalities.len()
    }

    /// How many nodes there are.
    pub fn nodes(&self) -> usize
        ensures { result ≡ length self.now.state.known.nodes }
    {
        self.nodes.len()
    }

    /// The term of a number.
    pub fn term(&self, number: usize) -> TermId
        requires { number < length self.now.state.terms }
        ensures term { IsTermAt self.now.items result }
        ensures is { tree_at self.now.items result ≡ term_at self.now.state number }
    {
        self.terms[number]
    }

    /// The context of a number, a list of the bank.
    pub fn context(&self, number: usize) -> TermId
        requires { number < length self.now.state.known.contexts }
        ensures list { IsListAt self.now.items result }
        ensures is { list_at self.now.items result ≡ context_at self.now.state.known number }
    {
        self.contexts[number]
    }

    /// The equality of a number.
    pub fn equality(&self, number: usize) -> Equated
        requires { number < length self.now.state.known.equalities }
        ensures live { IsEquatedAt self.now.items result }
        ensures is { equality_of self.now.items result ≡ equality_at self.now.state.known number }
    {
        self.equalities[number]
    }

    /// The node of a number.
    pub fn node(&self, number: usize) -> Judged
        requires { number < length self.now.state.known.nodes }
        ensures live { IsJudgedAt self.now.items result }
        ensures is { judgement_of self.now.items result ≡ judgement_at self.now.state.known number }
    {
        self.nodes[number]
    }

    // Adds a term or a list to the bank, under no number of the file.
    fn keep(&mut self, node: Node) -> Result<TermId, TermFault>
        requires { HasParts self.old.items node }
        ensures item { IfOk result (λ t. Holds self.new.items t (item_of self.old.items node)) }
        ensures kept { Extends self.old.items self.new.items }
        ensures small { OnOk result (IsSmall (item_of self.old.items node)) }
        ensures high { result ≡ Err TermFault.High → ¬ IsSmall (item_of self.old.items node) }
        ensures same { self.new.state ≡ self.old.state }
    {
        self.bank.add(node)
    }

    // Adds a list to the bank.
    fn keep_list(&mut self, node: Node) -> Result<TermId, NoMemory>
        requires parts { HasParts self.old.items node }
        requires form { IsMany (item_of self.old.items node) }
        ensures list { IfOk result (λ t. IsListAt self.new.items t) }
        ensures is { IfOk result (λ t. list_at self.new.items t ≡ list (item_of self.old.items node)) }
        ensures kept { Extends self.old.items self.new.items }
        ensures same { self.new.state ≡ self.old.state }
    {
        self.keep(node).map_err(|_| NoMemory)
    }

    /// Adds a term by its parts.
    pub fn add_term(&mut self, node: Node) -> Result<(), TermFault>
        requires parts { HasParts self.old.items node }
        requires form { IsOne (item_of self.old.items node) }
        ensures { AddsTerm self.old.state self.new.state (tree (item_of self.old.items node)) result }
    {
        match self.keep(node) {
            Ok(term) => self.terms.push(term).map_err(|_| TermFault::Memory),
            Err(fault) => Err(fault),
        }
    }

    /// Adds an instance of an entry, whose arguments are terms of these numbers.
    pub fn add_instance(&mut self, k: u32, arguments: &[usize]) -> Result<(), TermFault>
        requires { AllByRecursion (IsTerm self.old.state) arguments.now }
        ensures { AddsTerm self.old.state self.new.state (Const k (trees (map (term_at self.old.state) arguments.now))) result }
    {
        match self.list_of(arguments) {
            Ok(list) => self.add_term(Node::Const(k, list)),
            Err(_) => Err(TermFault::Memory),
        }
    }

    // The list of the terms of some numbers, in their order.
    fn list_of(&mut self, numbers: &[usize]) -> Result<TermId, NoMemory>
        requires { AllByRecursion (IsTerm self.old.state) numbers.now }
        ensures list { IfOk result (λ t. IsListAt self.new.items t) }
        ensures is { IfOk result (λ t. list_at self.new.items t ≡ trees (map (term_at self.old.state) numbers.now)) }
        ensures same { self.new.state ≡ self.old.state }
    {
        let mut list = self.keep_list(Node::Nil)?;
        for number in numbers {
            let term = self.term(*number);
            list = self.keep_list(Node::Cons(term, list))?;
        }
        Ok(list)
    }

    /// Adds a context that is another one extended by a term.
    pub fn add_context(&mut self, ctx: TermId, term: TermId) -> Result<(), NoMemory>
        requires ctx { IsListAt self.old.items ctx }
        requires term { IsTermAt self.old.items term }
        ensures ok { OnOk result (self.new.state
            ≡ record self.old.state { known = with_context self.old.state.known (list_at self.old.items ctx ▸ tree_at self.old.items term) }) }
        ensures err { OnErr result (self.new.state ≡ self.old.state) }
    {
        let extended = self.keep_list(Node::Cons(term, ctx))?;
        self.contexts.push(extended).map_err(|_| NoMemory)?;
        Ok(())
    }

    /// Adds an equality.
    pub fn add_equality(&mut self, equated: Equated) -> Result<(), NoMemory>
        requires { IsEquatedAt self.old.items equated }
        ensures ok { OnOk result (self.new.state
            ≡ record self.old.state { known = with_equality self.old.state.known (equality_of self.old.items equated) }) }
        ensures err { OnErr result (self.new.state ≡ self.old.state) }
    {
        self.equalities.push(equated).map_err(|_| NoMemory)?;
        Ok(())
    }

    /// Adds a node.
    pub fn add_node(&mut self, judged: Judged) -> Result<(), NoMemory>
        requires { IsJudgedAt self.old.items judged }
        ensures ok { OnOk result (self.new.state
            ≡ record self.old.state { known = with_node self.old.state.known (judgement_of self.old.items judged) }) }
        ensures err { OnErr result (self.new.state ≡ self.old.state) }
    {
        self.nodes.push(judged).map_err(|_| NoMemory)?;
        Ok(())
    }

    /// Adds the flag of a node.
    pub fn add_flag(&mut self, number: usize) -> Result<(), NoMemory>
        requires { number < length self.old.state.known.nodes }
        ensures ok { OnOk result (self.new.state
            ≡ record self.old.state { known = with_flag self.old.state.known (judgement_at self.old.state.known number) }) }
        ensures err { OnErr result (self.new.state ≡ self.old.state) }
    {
        self.notes.push(Noted::Flag(number)).map_err(|_| NoMemory)?;
        Ok(())
    }

    /// Adds the entry of a node, of a primitive or of a line, under a name. A name that an entry has is not added.
    pub fn add_entry(
        &mut self,
        alloc: Global,
        name: &[u8],
        judged: Judged,
        prim: bool,
    ) -> Result<(), NoMemory>
        requires judged { IsJudgedAt self.old.items judged }
        requires room { length self.old.state.known.env + 1 < 2 ^ 32 }
        ensures ok { OnOk result (self.new.state
            ≡ record self.old.state { known = with_entry self.old.state.known (entry_by prim name.now (judgement_of self.old.items judged)) }) }
        ensures err { OnErr result (self.new.state ≡ self.old.state) }
    {
        let entry = entry_of(alloc, &self.bank, judged, prim)?;
        let name = Text::from_bytes(alloc, name)?;
        self.add_named(name, entry)
    }

    // Adds an entry and its note, or neither.
    fn add_named(&mut self, name: Text, entry: Entry) -> Result<(), NoMemory>
        requires live { IsLiveEntry self.old.items entry }
        requires room { length self.old.state.known.env + 1 < 2 ^ 32 }
        ensures ok { OnOk result (self.new.state
            ≡ record self.old.state { known = with_entry self.old.state.known (entry_of self.old.items (named name entry)) }) }
        ensures err { OnErr result (self.new.state ≡ self.old.state) }
    {
        let number = self.env.push(name, entry).map_err(|_| NoMemory)?;
        if self.notes.push(Noted::Entry(number)).is_err() {
            self.env.pop();
            return Err(NoMemory);
        }
        Ok(())
    }

    /// The terms and the entries, when all records are judged.
    pub fn into_parts(self) -> (Bank, Env)
        ensures trees { env_of result.0 result.1 ≡ self.state.known.env }
        ensures live { AreLive result.0 result.1 }
    {
        (self.bank, self.env)
    }
}

// The entry of a node: of a primitive, whose type is the node's term, or of a line.
fn entry_of(alloc: Global, bank: &Bank, judged: Judged, prim: bool) -> Result<Entry, NoMemory>
    requires { IsJudgedAt bank.now judged }
    ensures live { IfOk result (λ entry. IsLiveEntry bank.now entry) }
    ensures is { IfOk result (λ entry. (name : List ℕ) → entry_of bank.now (named name entry) ≡ entry_by prim name (judgement_of bank.now judged)) }
{
    let params = Terms::from_vec(terms_of(alloc, bank, judged.ctx)?);
    if prim {
        Ok(Entry {
            params,
            body: None,
            of: judged.term,
        })
    } else {
        Ok(Entry {
            params,
            body: Some(judged.term),
            of: judged.of,
        })
    }
}

// The terms of a list of the bank, in order.
fn terms_of(alloc: Global, bank: &Bank, list: TermId) -> Result<Vec<TermId>, NoMemory>
    requires { IsListAt bank.now list }
    ensures live { IfOk result (λ terms. All (IsTermAt bank.now) terms.items) }
    ensures is { IfOk result (λ terms. listed bank.now Nil terms.items ≡ list_at bank.now list) }
{
    let mut terms = Vec::new(alloc);
    let mut rest = list;
    while let Node::Cons(term, others) = bank.node(rest) {
        terms.push(term).map_err(|_| NoMemory)?;
        rest = others;
    }
    terms.reverse();
    Ok(terms)
}
