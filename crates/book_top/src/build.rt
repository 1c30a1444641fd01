//! The term of a tree in the bank, where its names are all there.
ghost use Rattle.std.specs.Prelude.{◌≡◌, ◌≤◌, IsOk, IfOk, length};
ghost use Rattle.std.specs.Option.{option_copied};
ghost use Rattle.ld_terms.specs.Tree as spec;
ghost use Rattle.ld_terms.specs.Tree.{◌▸◌};
ghost use Rattle.ld_terms.specs.Item.{One, Many, IsSmall};
ghost use Rattle.ld_terms.specs.Bank.{tree_at, list_at, IsTermAt, IsListAt};
ghost use Rattle.fb_parse.specs.View.{view, views};
ghost use Rattle.fb_scope.specs.State.{bound};
ghost use Rattle.fb_scope.specs.Resolve.{resolve};
ghost use Rattle.ld_infer.specs.Standing.{env, Continues};
ghost use Rattle.book_top.specs.Names.{tree_of, applied, listed, variable_count, implied as implied_variables};
ghost use Rattle.book_top.specs.Book.{names_of};
ghost use Rattle.book_top.specs.Built.{read, read_list, Builds, BuildsList, AreOpen};

use crate::names::given;
use fb_parse::{Form, Tree};
use fb_scope::{Found, Scope, ScopeFault};
use ld_infer::Theory;
use ld_terms::{Node, TermFault, TermId};

/// Builds a term whose names are all there.
#[cycle(build)]
pub fn build(theory: &mut Theory, scope: &mut Scope, tree: Tree) -> Result<TermId, TermFault>
    requires marks { length scope.old.marks ≡ length theory.old.entries }
    requires read { IsOk (tree_of scope.old (names_of (env theory.old)) (view tree)) }
    ensures built { Builds theory.new.items (read (tree_of scope.old (names_of (env theory.old)) (view tree.entry))) result }
    ensures continues { Continues theory.old theory.new }
    ensures same { scope.new ≡ scope.old }
{
    match tree.form {
        Form::Star => theory.add(Node::Star),
        Form::Box_ => theory.add(Node::Box_),
        Form::Name(name) => match look_up(theory, scope, name.as_bytes(), 0, false) {
            Ok(Found::Var(i)) => theory.add(Node::Var(i)),
            Ok(Found::Const { k, implied }) => alone(theory, scope, k, implied),
            Err(_) => unreachable!(),
        },
        Form::Arrow(domain, range) => {
            let domain = build(theory, scope, *domain)?;
            let range = build_under(theory, scope, None, *range)?;
            theory.add(Node::Pi(domain, range))
        }
        Form::All(name, of, range) => {
            let domain = build(theory, scope, *of)?;
            let range = build_under(theory, scope, Some(name.as_bytes()), *range)?;
            theory.add(Node::Pi(domain, range))
        }
        Form::Fun(name, of, body) => {
            let domain = build(theory, scope, *of)?;
            let body = build_under(theory, scope, Some(name.as_bytes()), *body)?;
            theory.add(Node::Lam(domain, body))
        }
        Form::Apply(function, arguments) => {
            let function = build(theory, scope, *function)?;
            application_is_read(theory, scope, function, arguments);
            apply(theory, scope, function, arguments)
        }
        Form::Inst(name, arguments) => {
            match look_up(theory, scope, name.as_bytes(), given(arguments), true) {
                Ok(Found::Const { k, implied }) => {
                    instance_is_read(theory, scope, implied, arguments);
                    instance(theory, scope, k, implied, arguments)
                }
                Ok(Found::Var(_)) => unreachable!(),
                Err(_) => unreachable!(),
            }
        }
    }
}

// Builds an application of a function that is built.
#[cycle(build)]
fn apply(
    theory: &mut Theory,
    scope: &mut Scope,
    function: TermId,
    arguments: &[Tree],
) -> Result<TermId, TermFault>
    requires marks { length scope.old.marks ≡ length theory.old.entries }
    requires function { IsTermAt theory.old.items function }
    requires small { IsSmall (One (tree_at theory.old.items function)) }
    requires read { IsOk (applied scope.old (names_of (env theory.old)) (tree_at theory.old.items function) (views arguments.now)) }
    ensures built { Builds theory.new.items (read (applied scope.old (names_of (env theory.old)) (tree_at theory.old.items function) (views arguments.now))) result }
    ensures continues { Continues theory.old theory.new }
    ensures same { scope.new ≡ scope.old }
{
    let mut term = function;
    for argument in arguments {
        term_is_read(theory, scope, *argument);
        term = apply_to(theory, scope, term, *argument)?;
    }
    Ok(term)
}

// The same to one argument.
#[cycle(build)]
fn apply_to(
    theory: &mut Theory,
    scope: &mut Scope,
    function: TermId,
    argument: Tree,
) -> Result<TermId, TermFault>
    requires marks { length scope.old.marks ≡ length theory.old.entries }
    requires function { IsTermAt theory.old.items function }
    requires read { IsOk (tree_of scope.old (names_of (env theory.old)) (view argument)) }
    ensures built { Builds theory.new.items (spec.App (tree_at theory.old.items function) (read (tree_of scope.old (names_of (env theory.old)) (view argument.entry)))) result }
    ensures continues { Continues theory.old theory.new }
    ensures same { scope.new ≡ scope.old }
{
    let argument = build(theory, scope, argument)?;
    theory.add(Node::App(function, argument))
}

// Builds an instance of an entry, the variables of so many open flags before its written arguments.
#[cycle(build)]
fn instance(
    theory: &mut Theory,
    scope: &mut Scope,
    entry: u32,
    implied: u32,
    arguments: &[Tree],
) -> Result<TermId, TermFault>
    requires marks { length scope.old.marks ≡ length theory.old.entries }
    requires few { implied ≤ length scope.old.flags }
    requires read { IsOk (listed scope.old (names_of (env theory.old)) (implied_variables (variable_count scope.old) implied) (views arguments.now)) }
    ensures built { Builds theory.new.items (spec.Const entry (read_list (listed scope.old (names_of (env theory.old)) (implied_variables (variable_count scope.old) implied) (views arguments.now)))) result }
    ensures continues { Continues theory.old theory.new }
    ensures same { scope.new ≡ scope.old }
{
    let first = implied_list(theory, scope, implied)?;
    list_is_read(theory, scope, first, arguments);
    let all = list_on(theory, scope, first, arguments)?;
    theory.add(Node::Const(entry, all))
}

// Builds a list of trees with those of the arguments behind them.
#[cycle(build)]
fn list_on(
    theory: &mut Theory,
    scope: &mut Scope,
    first: TermId,
    arguments: &[Tree],
) -> Result<TermId, TermFault>
    requires marks { length scope.old.marks ≡ length theory.old.entries }
    requires list { IsListAt theory.old.items first }
    requires small { IsSmall (Many (list_at theory.old.items first)) }
    requires read { IsOk (listed scope.old (names_of (env theory.old)) (list_at theory.old.items first) (views arguments.now)) }
    ensures built { BuildsList theory.new.items (read_list (listed scope.old (names_of (env theory.old)) (list_at theory.old.items first) (views arguments.now))) result }
    ensures continues { Continues theory.old theory.new }
    ensures same { scope.new ≡ scope.old }
{
    let mut list = first;
    for element in arguments {
        term_is_read(theory, scope, *element);
        list = list_more(theory, scope, list, *element)?;
    }
    Ok(list)
}

// The same with one argument.
#[cycle(build)]
fn list_more(
    theory: &mut Theory,
    scope: &mut Scope,
    list: TermId,
    argument: Tree,
) -> Result<TermId, TermFault>
    requires marks { length scope.old.marks ≡ length theory.old.entries }
    requires list { IsListAt theory.old.items list }
    requires read { IsOk (tree_of scope.old (names_of (env theory.old)) (view argument)) }
    ensures built { BuildsList theory.new.items (list_at theory.old.items list ▸ read (tree_of scope.old (names_of (env theory.old)) (view argument.entry))) result }
    ensures continues { Continues theory.old theory.new }
    ensures same { scope.new ≡ scope.old }
{
    let argument = build(theory, scope, argument)?;
    theory.add(Node::Cons(argument, list))
}

// The same under a binder.
#[cycle(build)]
fn build_under(
    theory: &mut Theory,
    scope: &mut Scope,
    name: Option<&[u8]>,
    tree: Tree,
) -> Result<TermId, TermFault>
    requires marks { length scope.old.marks ≡ length theory.old.entries }
    requires read { IsOk (tree_of (bound (option_copied name) scope.old) (names_of (env theory.old)) (view tree)) }
    ensures built { Builds theory.new.items (read (tree_of (bound (option_copied name.entry) scope.old) (names_of (env theory.old)) (view tree.entry))) result }
    ensures continues { Continues theory.old theory.new }
    ensures same { scope.new ≡ scope.old }
{
    if scope.bind(name).is_err() {
        return Err(TermFault::Memory);
    }
    let term = build(theory, scope, tree);
    scope.unbind();
    term
}

// It does nothing: the call has a proof of its own, and the next call, in a cycle, need only look it up.
fn application_is_read(theory: &Theory, scope: &Scope, function: TermId, arguments: &[Tree])
    requires marks { length scope.now.marks ≡ length theory.now.entries }
    requires function { IsTermAt theory.now.items function }
    requires small { IsSmall (One (tree_at theory.now.items function)) }
    requires read { IsOk (applied scope.now (names_of (env theory.now)) (tree_at theory.now.items function) (views arguments.now)) }
    ensures marks { length scope.now.marks ≡ length theory.now.entries }
    ensures function { IsTermAt theory.now.items function }
    ensures small { IsSmall (One (tree_at theory.now.items function)) }
    ensures read { IsOk (applied scope.now (names_of (env theory.now)) (tree_at theory.now.items function) (views arguments.now)) }
{}

// Likewise of an instance.
fn instance_is_read(theory: &Theory, scope: &Scope, implied: u32, arguments: &[Tree])
    requires marks { length scope.now.marks ≡ length theory.now.entries }
    requires few { implied ≤ length scope.now.flags }
    requires read { IsOk (listed scope.now (names_of (env theory.now)) (implied_variables (variable_count scope.now) implied) (views arguments.now)) }
    ensures marks { length scope.now.marks ≡ length theory.now.entries }
    ensures few { implied ≤ length scope.now.flags }
    ensures read { IsOk (listed scope.now (names_of (env theory.now)) (implied_variables (variable_count scope.now) implied) (views arguments.now)) }
{}

// Likewise of a list.
fn list_is_read(theory: &Theory, scope: &Scope, first: TermId, arguments: &[Tree])
    requires marks { length scope.now.marks ≡ length theory.now.entries }
    requires list { IsListAt theory.now.items first }
    requires small { IsSmall (Many (list_at theory.now.items first)) }
    requires read { IsOk (listed scope.now (names_of (env theory.now)) (list_at theory.now.items first) (views arguments.now)) }
    ensures marks { length scope.now.marks ≡ length theory.now.entries }
    ensures list { IsListAt theory.now.items first }
    ensures small { IsSmall (Many (list_at theory.now.items first)) }
    ensures read { IsOk (listed scope.now (names_of (env theory.now)) (list_at theory.now.items first) (views arguments.now)) }
{}

// Likewise of a term.
fn term_is_read(theory: &Theory, scope: &Scope, tree: Tree)
    requires marks { length scope.now.marks ≡ length theory.now.entries }
    requires read { IsOk (tree_of scope.now (names_of (env theory.now)) (view tree)) }
    ensures marks { length scope.now.marks ≡ length theory.now.entries }
    ensures read { IsOk (tree_of scope.now (names_of (env theory.now)) (view tree.entry)) }
{}

// What a name stands for in a theory.
fn look_up(
    theory: &Theory,
    scope: &Scope,
    name: &[u8],
    given: u32,
    instance: bool,
) -> Result<Found, ScopeFault>
    requires { length scope.now.marks ≡ length theory.now.entries }
    ensures found { result ≡ resolve scope.now (names_of (env theory.now)) name.now given instance }
    ensures few { IfOk result (AreOpen scope.now) }
{
    scope.resolve(theory.env(), name, given, instance)
}

// Builds an instance of an entry of which no argument is written.
fn alone(theory: &mut Theory, scope: &Scope, entry: u32, implied: u32) -> Result<TermId, TermFault>
    requires { implied ≤ length scope.now.flags }
    ensures built { Builds theory.new.items (spec.Const entry (implied_variables (variable_count scope.now) implied)) result }
    ensures continues { Continues theory.old theory.new }
{
    let all = implied_list(theory, scope, implied)?;
    theory.add(Node::Const(entry, all))
}

// Builds the list of the variables of the first open flags, so many, outermost first.
fn implied_list(theory: &mut Theory, scope: &Scope, implied: u32) -> Result<TermId, TermFault>
    requires { implied ≤ length scope.now.flags }
    ensures built { BuildsList theory.new.items (implied_variables (variable_count scope.now) implied) result }
    ensures continues { Continues theory.old theory.new }
{
    let variables = scope.variable_count();
    let mut list = theory.add(Node::Nil)?;
    for place in 0..implied {
        list = variable_more(theory, list, variables - 1 - place)?;
    }
    Ok(list)
}

// Builds a list of trees with a variable behind them.
fn variable_more(theory: &mut Theory, list: TermId, index: u32) -> Result<TermId, TermFault>
    requires { IsListAt theory.old.items list }
    ensures built { BuildsList theory.new.items (list_at theory.old.items list ▸ spec.Var index) result }
    ensures continues { Continues theory.old theory.new }
{
    let variable = theory.add(Node::Var(index))?;
    theory.add(Node::Cons(variable, list))
}
