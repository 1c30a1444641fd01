//! Terms with their shown texts, worked out by hand.
ghost use Rattle.std.specs.Prelude.{◌≡◌, ◌<◌, ◌≤◌, ◌+◌, ◌^◌, true, length, slice_get, Some, IfOk, OnOk};
ghost use Rattle.ld_terms.specs.Tree as tree;
ghost use Rattle.ld_terms.specs.Item.{height_of};
ghost use Rattle.ld_terms.specs.Bank.{item_at, tree_at, list_at, IsTermAt, IsListAt};
ghost use Rattle.ld_env.specs.Named.{names_of};
ghost use Rattle.fb_lex.specs.Tokens.{IsName};
ghost use Rattle.fb_show.specs.Formed.{IsFormed, AreFormed};
ghost use Rattle.fb_show.specs.Laws.{AreNames};
ghost use Rattle.fb_show.specs.Shown.{params_of};

use crate::{show, show_cut};
use bumpalo::Bump;
use fb_base::Text;
use fb_scope::Scope;
use fb_write::write_term;
use ld_env::{Entry, Env};
use ld_terms::{Bank, Node, TermId, Terms};
use std::alloc::Global;
use std::process::Abort;
use std::test::Fail;

// Appends a primitive with so many parameters.
fn push(alloc: Global, env: &mut Env, name: &[u8], parameters: u32) -> Result<(), Fail>
    requires few { length env.old < 100 }
    requires name { IsName name.now }
    requires names { AreNames (names_of env.old) }
    ensures few { OnOk result (length env.new ≡ length env.old + 1) }
    ensures names { OnOk result (AreNames (names_of env.new)) }
{
    let mut bank = Bank::new(alloc);
    let star = bank.add(Node::Star)?;
    let mut params = Vec::new(alloc);
    for _ in 0..parameters {
        params.push(star)?;
    }
    let entry = Entry {
        params: Terms::from_vec(params),
        body: None,
        of: star,
    };
    env.push(Text::from_bytes(alloc, name)?, entry)?;
    Ok(())
}

// `c` with two parameters and `a` with none.
fn book(alloc: Global) -> Result<Env, Fail>
    ensures names { IfOk result (λ env. AreNames (names_of env)) }
{
    let mut env = Env::new(alloc);
    push(alloc, &mut env, b"c", 2)?;
    push(alloc, &mut env, b"a", 0)?;
    Ok(env)
}

// `x1` and `xx1`.
fn numbered_book(alloc: Global) -> Result<Env, Fail>
    ensures names { IfOk result (λ env. AreNames (names_of env)) }
{
    let mut env = Env::new(alloc);
    push(alloc, &mut env, b"x1", 0)?;
    push(alloc, &mut env, b"xx1", 0)?;
    Ok(env)
}

// Whether the variables are there, and each instance has as many arguments as its entry has parameters.
#[cycle(is_formed)]
fn is_formed(bank: &Bank, env: &Env, depth: u64, t: TermId) -> bool
    requires term { IsTermAt bank.now t }
    requires room { depth + height_of (item_at bank.now t) < 2 ^ 64 }
    ensures { result ≡ true → IsFormed (params_of env.now) depth (tree_at bank.now t) }
{
    match bank.node(t) {
        Node::Star | Node::Box_ => true,
        Node::Var(i) => (i as u64) < depth,
        Node::App(f, u) => is_formed(bank, env, depth, f) && is_formed(bank, env, depth, u),
        Node::Lam(a, m) => is_formed(bank, env, depth, a) && is_formed(bank, env, depth + 1, m),
        Node::Pi(a, b) => is_formed(bank, env, depth, a) && is_formed(bank, env, depth + 1, b),
        Node::Const(k, us) => takes(env, k, count(bank, us)) && are_formed(bank, env, depth, us),
        Node::Nil | Node::Cons(_, _) => false,
    }
}

#[cycle(is_formed)]
fn are_formed(bank: &Bank, env: &Env, depth: u64, t: TermId) -> bool
    requires list { IsListAt bank.now t }
    requires room { depth + height_of (item_at bank.now t) < 2 ^ 64 }
    ensures { result ≡ true → AreFormed (params_of env.now) depth (list_at bank.now t) }
{
    match bank.node(t) {
        Node::Cons(u, us) => { are_formed(bank, env, depth, us) && is_formed(bank, env, depth, u) }
        _ => true,
    }
}

fn count(bank: &Bank, t: TermId) -> u64
    requires list { IsListAt bank.now t }
    ensures count { result ≡ tree.count (list_at bank.now t) }
    ensures room { result ≤ t.0 }
{
    match bank.node(t) {
        Node::Cons(_, us) => count(bank, us) + 1,
        _ => 0,
    }
}

fn takes(env: &Env, k: u32, given: u64) -> bool
    ensures { result ≡ true → slice_get (params_of env.now) k ≡ Some given }
{
    k < env.len() && env.entry(k).params.as_slice().len() as u64 == given
}

// Appends the text of the shown term.
fn put_shown(arena: &Bump, bank: &Bank, env: &Env, depth: u32, t: TermId, out: &mut Vec<u8>) -> bool
    requires term { IsTermAt bank.now t }
    requires names { AreNames (names_of env.now) }
{
    let _height = bank.height(t);
    if !is_formed(bank, env, depth as u64, t) {
        return false;
    }
    match show(arena, bank, env, depth, t) {
        Ok(tree) => write_term(&tree, out).is_ok(),
        Err(_) => false,
    }
}

fn expect(
    rt: &impl Abort,
    alloc: Global,
    bank: &Bank,
    env: &Env,
    depth: u32,
    t: TermId,
    want: &[u8],
)
    requires term { IsTermAt bank.now t }
    requires names { AreNames (names_of env.now) }
{
    let arena = Bump::new(alloc);
    let mut out = Vec::new(alloc);
    assert!(rt;
        put_shown(&arena, bank, env, depth, t, &mut out),
        "{want:?}"
    );
    assert!(rt; out.as_slice() == want, "{want:?}");
}

fn products(rt: &impl Abort, alloc: Global, env: &Env, bank: &mut Bank) -> Result<(), Fail>
    requires { AreNames (names_of env.now) }
{
    let star = bank.add(Node::Star)?;
    let last = bank.add(Node::Var(0))?;
    let before = bank.add(Node::Var(1))?;
    let used = bank.add(Node::Pi(star, last))?;
    let arrow = bank.add(Node::Pi(star, before))?;
    let left = bank.add(Node::Pi(arrow, last))?;
    expect(rt, alloc, bank, env, 0, used, b"all x1 : * . x1");
    expect(rt, alloc, bank, env, 1, arrow, b"* -> x1");
    expect(rt, alloc, bank, env, 1, left, b"all x2 : * -> x1 . x2");
    Ok(())
}

// An arrow counts as a level.
fn functions(rt: &impl Abort, alloc: Global, env: &Env, bank: &mut Bank) -> Result<(), Fail>
    requires { AreNames (names_of env.now) }
{
    let star = bank.add(Node::Star)?;
    let last = bank.add(Node::Var(0))?;
    let identity = bank.add(Node::Lam(star, last))?;
    let under_arrow = bank.add(Node::Pi(star, identity))?;
    expect(rt, alloc, bank, env, 0, identity, b"fun x1 : * . x1");
    expect(
        rt,
        alloc,
        bank,
        env,
        0,
        under_arrow,
        b"* -> fun x2 : * . x2",
    );
    Ok(())
}

fn applications(rt: &impl Abort, alloc: Global, env: &Env, bank: &mut Bank) -> Result<(), Fail>
    requires { AreNames (names_of env.now) }
{
    let last = bank.add(Node::Var(0))?;
    let before = bank.add(Node::Var(1))?;
    let pair = bank.add(Node::App(before, last))?;
    let nested = bank.add(Node::App(pair, pair))?;
    let function = bank.add(Node::Lam(last, last))?;
    let applied = bank.add(Node::App(function, last))?;
    expect(rt, alloc, bank, env, 2, nested, b"x1 x2 (x1 x2)");
    expect(rt, alloc, bank, env, 1, applied, b"(fun x2 : x1 . x2) x1");
    Ok(())
}

fn instances(rt: &impl Abort, alloc: Global, env: &Env, bank: &mut Bank) -> Result<(), Fail>
    requires { AreNames (names_of env.now) }
{
    let none = bank.add(Node::Nil)?;
    let bare = bank.add(Node::Const(1, none))?;
    let square = bank.add(Node::Box_)?;
    let first = bank.add(Node::Cons(bare, none))?;
    let both = bank.add(Node::Cons(square, first))?;
    let filled = bank.add(Node::Const(0, both))?;
    expect(rt, alloc, bank, env, 0, bare, b"a");
    expect(rt, alloc, bank, env, 0, filled, b"c(a, box)");
    Ok(())
}

#[test]
fn shows_products(rt: HostRuntime) -> Result<(), Fail> {
    let alloc = rt.alloc();
    products(&rt, alloc, &book(alloc)?, &mut Bank::new(alloc))
}

#[test]
fn shows_functions(rt: HostRuntime) -> Result<(), Fail> {
    let alloc = rt.alloc();
    functions(&rt, alloc, &book(alloc)?, &mut Bank::new(alloc))
}

#[test]
fn shows_applications(rt: HostRuntime) -> Result<(), Fail> {
    let alloc = rt.alloc();
    applications(&rt, alloc, &book(alloc)?, &mut Bank::new(alloc))
}

#[test]
fn shows_instances(rt: HostRuntime) -> Result<(), Fail> {
    let alloc = rt.alloc();
    instances(&rt, alloc, &book(alloc)?, &mut Bank::new(alloc))
}

// Two entries take the numbers of one x and of two.
fn bases(rt: &impl Abort, alloc: Global, env: &Env, bank: &mut Bank) -> Result<(), Fail>
    requires { AreNames (names_of env.now) }
{
    let last = bank.add(Node::Var(0))?;
    expect(rt, alloc, bank, env, 10, last, b"xxx10");
    Ok(())
}

#[test]
fn shows_names_that_no_entry_has(rt: HostRuntime) -> Result<(), Fail> {
    let alloc = rt.alloc();
    bases(&rt, alloc, &numbered_book(alloc)?, &mut Bank::new(alloc))
}

// Appends the text of the shown term, cut.
fn put_cut(bank: &Bank, env: &Env, scope: &Scope, t: TermId, most: usize, out: &mut Vec<u8>) -> bool
    requires term { IsTermAt bank.now t }
{
    let _height = bank.height(t);
    let depth = scope.depth();
    is_formed(bank, env, depth as u64, t) && show_cut(bank, env, scope, depth, t, most, out).is_ok()
}

fn expect_cut(
    rt: &impl Abort,
    alloc: Global,
    bank: &Bank,
    scope: &Scope,
    t: TermId,
    most: usize,
    want: &[u8],
)
    requires term { IsTermAt bank.now t }
{
    let env = Env::new(alloc);
    let mut out = Vec::new(alloc);
    assert!(rt; put_cut(bank, &env, scope, t, most, &mut out), "{want:?}");
    assert!(rt; out.as_slice() == want, "{want:?}");
}

// Under the flags é and x2.
fn cuts(rt: &impl Abort, alloc: Global, scope: &Scope, bank: &mut Bank) -> Result<(), Fail> {
    let last = bank.add(Node::Var(0))?;
    let outer = bank.add(Node::Var(1))?;
    let identity = bank.add(Node::Lam(outer, last))?;
    let applied = bank.add(Node::App(identity, outer))?;
    let text = "(fun xx3 : é . xx3) é".as_bytes();
    expect_cut(rt, alloc, bank, scope, applied, 23, text);
    expect_cut(
        rt,
        alloc,
        bank,
        scope,
        applied,
        22,
        "(fun xx3 : é . xx3) ...".as_bytes(),
    );
    expect_cut(rt, alloc, bank, scope, applied, 11, b"(fun xx3 : ...");
    expect_cut(rt, alloc, bank, scope, applied, 0, b"...");
    Ok(())
}

#[test]
fn cuts_between_characters(rt: HostRuntime) -> Result<(), Fail> {
    let alloc = rt.alloc();
    let mut scope = Scope::new(alloc);
    scope.enter("é".as_bytes())?;
    scope.enter(b"x2")?;
    cuts(&rt, alloc, &scope, &mut Bank::new(alloc))
}
