//! The surface tree of a term.
ghost use Rattle.std.specs.Prelude.{◌≡◌, ◌<◌, ◌+◌, ◌^◌, ◌++◌, [], false, suc, decimal, map, length, IfOk, OnOk};
ghost use Rattle.fb_parse.specs.Grammar as g;
ghost use Rattle.fb_parse.specs.View.{view, views, form_view};
ghost use Rattle.fb_write.specs.Canonical.{nowhere};
ghost use Rattle.ld_terms.specs.Item.{height, height_of};
ghost use Rattle.ld_terms.specs.Bank.{item_at, tree_at, list_at, IsLive, IsTermAt, IsListAt};
ghost use Rattle.ld_env.specs.Named.{names_of};
ghost use Rattle.fb_show.specs.Display as spec;
ghost use Rattle.fb_show.specs.Display.{display, shown, all_shown, product};
ghost use Rattle.fb_show.specs.Formed.{IsFormed, AreFormed};
ghost use Rattle.fb_show.specs.Shown.{params_of, numbered, avoids_item, whole, is_apply};
ghost use Rattle.fb_show.specs.Laws.{AreNames};

use crate::names;
use crate::names::{entry_name, level_name};
use bumpalo::Bump;
use bumpalo::collections::into_bump_slice;
use fb_base::{NoMemory, Span};
use fb_parse::{Form, Tree};
use ld_env::Env;
use ld_terms::{Bank, Node, TermId};

/// The surface tree of a term that stands under `depth` variables.
pub fn show<'a>(
    arena: &'a Bump,
    bank: &Bank,
    env: &Env,
    depth: u32,
    t: TermId,
) -> Result<Tree<'a>, NoMemory>
    requires term { IsTermAt bank.now t }
    requires formed { IsFormed (params_of env.now) depth (tree_at bank.now t) }
    requires names { AreNames (names_of env.now) }
    ensures { IfOk result (λ r. view r ≡ display (names_of env.now) depth (tree_at bank.now t)) }
{
    let base = names::base(arena, env, b'x')?;
    let _height = bank.height(t);
    term(arena, bank, env, base, depth as u64, t)
}

#[cycle(term)]
fn term<'a>(
    arena: &'a Bump,
    bank: &Bank,
    env: &Env,
    base: &str,
    depth: u64,
    t: TermId,
) -> Result<Tree<'a>, NoMemory>
    requires term { IsTermAt bank.now t }
    requires formed { IsFormed (params_of env.now) depth (tree_at bank.now t) }
    requires names { AreNames (names_of env.now) }
    requires room { depth + height_of (item_at bank.now t) < 2 ^ 64 }
    ensures { IfOk result (λ r. view r ≡ shown (numbered base.now) (names_of env.now) depth (tree_at bank.now t)) }
{
    match bank.node(t) {
        Node::Star => node(arena, Form::Star),
        Node::Box_ => node(arena, Form::Box_),
        Node::Var(i) => {
            let name = level_name(arena, base, depth - 1 - i as u64)?;
            node(arena, Form::Name(name))
        }
        Node::App(f, u) => {
            let mut args = Vec::new(arena);
            let head = spine(arena, bank, env, base, depth, f, &mut args)?;
            let last = term(arena, bank, env, base, depth, u)?;
            push(&mut args, last)?;
            applied(arena, head, into_bump_slice(args))
        }
        Node::Lam(a, m) => {
            let name = level_name(arena, base, depth)?;
            let of = term(arena, bank, env, base, depth, a)?;
            let body = term(arena, bank, env, base, depth + 1, m)?;
            node(arena, Form::Fun(name, of, body))
        }
        Node::Pi(a, b) => {
            let name = level_name(arena, base, depth)?;
            let domain = term(arena, bank, env, base, depth, a)?;
            let range = term(arena, bank, env, base, depth + 1, b)?;
            quantified(arena, avoids(bank, b, 0), name, domain, range)
        }
        Node::Const(k, us) => {
            let name = entry_name(arena, env, k)?;
            let mut args = Vec::new(arena);
            list(arena, bank, env, base, depth, us, &mut args)?;
            instance(arena, name, into_bump_slice(args))
        }
        Node::Nil | Node::Cons(_, _) => unreachable!(),
    }
}

// The head of an application, whose arguments are pushed, or the term itself.
#[cycle(term)]
fn spine<'a>(
    arena: &'a Bump,
    bank: &Bank,
    env: &Env,
    base: &str,
    depth: u64,
    t: TermId,
    args: &mut Vec<Tree<'a>, &'a Bump>,
) -> Result<Tree<'a>, NoMemory>
    requires term { IsTermAt bank.now t }
    requires formed { IsFormed (params_of env.now) depth (tree_at bank.now t) }
    requires names { AreNames (names_of env.now) }
    requires room { depth + height_of (item_at bank.now t) < 2 ^ 64 }
    requires none { args.old.items ≡ [] }
    ensures whole { IfOk result (λ r. whole (view r) (views args.new.items)
        ≡ shown (numbered base.now) (names_of env.now) depth (tree_at bank.now t)) }
    ensures head { IfOk result (λ r. is_apply (view r) ≡ false) }
{
    match bank.node(t) {
        Node::App(f, u) => {
            let head = spine(arena, bank, env, base, depth, f, args)?;
            let last = term(arena, bank, env, base, depth, u)?;
            push(args, last)?;
            Ok(head)
        }
        _ => term(arena, bank, env, base, depth, t),
    }
}

// The terms of a list are pushed.
#[cycle(term)]
fn list<'a>(
    arena: &'a Bump,
    bank: &Bank,
    env: &Env,
    base: &str,
    depth: u64,
    t: TermId,
    args: &mut Vec<Tree<'a>, &'a Bump>,
) -> Result<(), NoMemory>
    requires list { IsListAt bank.now t }
    requires formed { AreFormed (params_of env.now) depth (list_at bank.now t) }
    requires names { AreNames (names_of env.now) }
    requires room { depth + height_of (item_at bank.now t) < 2 ^ 64 }
    requires none { args.old.items ≡ [] }
    ensures { OnOk result (views args.new.items ≡ all_shown (numbered base.now) (names_of env.now) depth (list_at bank.now t)) }
{
    match bank.node(t) {
        Node::Cons(u, us) => {
            list(arena, bank, env, base, depth, us, args)?;
            let last = term(arena, bank, env, base, depth, u)?;
            push(args, last)
        }
        _ => Ok(()),
    }
}

fn push<'a>(args: &mut Vec<Tree<'a>, &'a Bump>, last: Tree<'a>) -> Result<(), NoMemory>
    ensures { OnOk result (views args.new.items ≡ spec.behind (views args.old.items) (view last.entry)) }
{
    match args.push(last) {
        Ok(()) => Ok(()),
        Err(_) => Err(NoMemory),
    }
}

// A form in the arena, which stands in no text.
fn node<'a>(arena: &'a Bump, form: Form<'a>) -> Result<Tree<'a>, NoMemory>
    ensures { IfOk result (λ r. view r ≡ form_view nowhere form.entry) }
{
    match arena.try_alloc(form) {
        Ok(form) => Ok(Tree {
            span: Span { start: 0, end: 0 },
            form,
        }),
        Err(_) => Err(NoMemory),
    }
}

fn quantified<'a>(
    arena: &'a Bump,
    unused: bool,
    name: &'a str,
    domain: Tree<'a>,
    range: Tree<'a>,
) -> Result<Tree<'a>, NoMemory>
    ensures { IfOk result (λ r. view r ≡ product unused name.now (view domain.entry) (view range.entry)) }
{
    if unused {
        node(arena, Form::Arrow(domain, range))
    } else {
        node(arena, Form::All(name, domain, range))
    }
}

fn instance<'a>(arena: &'a Bump, name: &'a str, args: &'a [Tree<'a>]) -> Result<Tree<'a>, NoMemory>
    ensures { IfOk result (λ r. view r ≡ spec.instance name.now (views args.now)) }
{
    if args.is_empty() {
        node(arena, Form::Name(name))
    } else {
        listed(arena, name, args)
    }
}

fn listed<'a>(arena: &'a Bump, name: &'a str, args: &'a [Tree<'a>]) -> Result<Tree<'a>, NoMemory>
    ensures { IfOk result (λ r. view r ≡ g.Inst nowhere name.now (views args.now)) }
{
    node(arena, Form::Inst(name, args))
}

fn applied<'a>(arena: &'a Bump, head: Tree<'a>, args: &'a [Tree<'a>]) -> Result<Tree<'a>, NoMemory>
    ensures { IfOk result (λ r. view r ≡ g.Apply nowhere (view head.entry) (views args.now)) }
{
    node(arena, Form::Apply(head, args))
}

/// Whether the variable isn't used.
pub fn avoids(bank: &Bank, t: TermId, i: u64) -> bool
    requires live { IsLive bank.now t }
    requires room { i + height_of (item_at bank.now t) < 2 ^ 64 }
    ensures { result ≡ avoids_item (item_at bank.now t) i }
{
    match bank.node(t) {
        Node::Var(j) => j as u64 != i,
        Node::App(f, u) => avoids(bank, f, i) && avoids(bank, u, i),
        Node::Lam(a, m) => avoids(bank, a, i) && avoids(bank, m, i + 1),
        Node::Pi(a, b) => avoids(bank, a, i) && avoids(bank, b, i + 1),
        Node::Const(_, us) => avoids(bank, us, i),
        Node::Cons(u, us) => avoids(bank, us, i) && avoids(bank, u, i),
        Node::Star | Node::Box_ | Node::Nil => true,
    }
}
