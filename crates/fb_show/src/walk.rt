//! The text of a shown term, up to a limit. No term is gone down once the limit is reached.
ghost use Rattle.std.specs.Prelude.{◌≡◌, ◌<◌, ◌≤◌, ◌+◌, ◌^◌, ◌++◌, length, codes, OnOk};
ghost use Rattle.ld_terms.specs.Item.{height_of};
ghost use Rattle.ld_terms.specs.Bank.{item_at, tree_at, list_at, IsTermAt, IsListAt};
ghost use Rattle.ld_env.specs.Named.{names_of};
ghost use Rattle.fb_write.specs.Canonical.{term_text, terms_text};
ghost use Rattle.fb_show.specs.Cut.{own_names, Filled};
ghost use Rattle.fb_show.specs.Display.{shown, all_shown};
ghost use Rattle.fb_show.specs.Formed.{IsFormed, AreFormed};
ghost use Rattle.fb_show.specs.Shown.{params_of, own_numbered, is_compound_tree, is_open_tree};
ghost use Rattle.fb_show.specs.Shown.{head_text, part_text, filling_text, domain_text, before_text};

use crate::filling::{put, put_words};
use crate::level::level;
use crate::term::avoids;
use fb_base::NoMemory;
use fb_scope::Scope;
use ld_env::Env;
use ld_terms::{Bank, Node, TermId};

/// Appends the text of the term up to the limit.
#[cycle(write)]
pub fn write(
    bank: &Bank,
    env: &Env,
    scope: &Scope,
    base: &str,
    depth: u64,
    t: TermId,
    limit: usize,
    out: &mut Vec<u8>,
) -> Result<(), NoMemory>
    requires term { IsTermAt bank.now t }
    requires formed { IsFormed (params_of env.now) depth (tree_at bank.now t) }
    requires room { depth + height_of (item_at bank.now t) < 2 ^ 64 }
    requires within { length out.old.items ≤ limit }
    ensures filled { OnOk result (Filled limit out.old.items out.new.items
        (term_text (shown (own_numbered (own_names scope.now) base.now) (names_of env.now) depth (tree_at bank.now t)))) }
    ensures within { OnOk result (length out.new.items ≤ limit) }
{
    if out.len() >= limit {
        return Ok(());
    }
    match bank.node(t) {
        Node::Star => put_words("*", limit, out),
        Node::Box_ => put_words("box", limit, out),
        Node::Var(i) => level(scope, base, depth - 1 - i as u64, limit, out),
        Node::App(f, u) => {
            head(bank, env, scope, base, depth, f, limit, out)?;
            put_words(" ", limit, out)?;
            part(
                is_compound(bank, u),
                bank,
                env,
                scope,
                base,
                depth,
                u,
                limit,
                out,
            )
        }
        Node::Lam(a, m) => {
            binder("fun ", bank, env, scope, base, depth, a, limit, out)?;
            write(bank, env, scope, base, depth + 1, m, limit, out)
        }
        Node::Pi(a, b) => {
            domain(
                avoids(bank, b, 0),
                bank,
                env,
                scope,
                base,
                depth,
                a,
                limit,
                out,
            )?;
            write(bank, env, scope, base, depth + 1, b, limit, out)
        }
        Node::Const(k, us) => {
            put(env.name(k), limit, out)?;
            filling(bank, env, scope, base, depth, us, limit, out)
        }
        Node::Nil | Node::Cons(_, _) => unreachable!(),
    }
}

// The function part of an application.
#[cycle(write)]
fn head(
    bank: &Bank,
    env: &Env,
    scope: &Scope,
    base: &str,
    depth: u64,
    t: TermId,
    limit: usize,
    out: &mut Vec<u8>,
) -> Result<(), NoMemory>
    requires term { IsTermAt bank.now t }
    requires formed { IsFormed (params_of env.now) depth (tree_at bank.now t) }
    requires room { depth + height_of (item_at bank.now t) < 2 ^ 64 }
    requires within { length out.old.items ≤ limit }
    ensures filled { OnOk result (Filled limit out.old.items out.new.items
        (head_text (shown (own_numbered (own_names scope.now) base.now) (names_of env.now) depth (tree_at bank.now t)))) }
    ensures within { OnOk result (length out.new.items ≤ limit) }
{
    match bank.node(t) {
        Node::App(_, _) => write(bank, env, scope, base, depth, t, limit, out),
        _ => part(
            is_compound(bank, t),
            bank,
            env,
            scope,
            base,
            depth,
            t,
            limit,
            out,
        ),
    }
}

// A part, in parentheses or not.
#[cycle(write)]
fn part(
    enclosed: bool,
    bank: &Bank,
    env: &Env,
    scope: &Scope,
    base: &str,
    depth: u64,
    t: TermId,
    limit: usize,
    out: &mut Vec<u8>,
) -> Result<(), NoMemory>
    requires term { IsTermAt bank.now t }
    requires formed { IsFormed (params_of env.now) depth (tree_at bank.now t) }
    requires room { depth + height_of (item_at bank.now t) < 2 ^ 64 }
    requires within { length out.old.items ≤ limit }
    ensures filled { OnOk result (Filled limit out.old.items out.new.items
        (part_text enclosed (shown (own_numbered (own_names scope.now) base.now) (names_of env.now) depth (tree_at bank.now t)))) }
    ensures within { OnOk result (length out.new.items ≤ limit) }
{
    if !enclosed {
        return write(bank, env, scope, base, depth, t, limit, out);
    }
    put_words("(", limit, out)?;
    write(bank, env, scope, base, depth, t, limit, out)?;
    put_words(")", limit, out)
}

// A variable with its type, up to the blank behind the dot.
#[cycle(write)]
fn binder(
    word: &str,
    bank: &Bank,
    env: &Env,
    scope: &Scope,
    base: &str,
    depth: u64,
    t: TermId,
    limit: usize,
    out: &mut Vec<u8>,
) -> Result<(), NoMemory>
    requires term { IsTermAt bank.now t }
    requires formed { IsFormed (params_of env.now) depth (tree_at bank.now t) }
    requires room { depth + height_of (item_at bank.now t) < 2 ^ 64 }
    requires within { length out.old.items ≤ limit }
    ensures filled { OnOk result (Filled limit out.old.items out.new.items
        (word.now ++ own_numbered (own_names scope.now) base.now depth ++ codes " : "
        ++ term_text (shown (own_numbered (own_names scope.now) base.now) (names_of env.now) depth (tree_at bank.now t)) ++ codes " . ")) }
    ensures within { OnOk result (length out.new.items ≤ limit) }
{
    put_words(word, limit, out)?;
    level(scope, base, depth, limit, out)?;
    put_words(" : ", limit, out)?;
    write(bank, env, scope, base, depth, t, limit, out)?;
    put_words(" . ", limit, out)
}

// The domain of a product, as of an arrow where its variable is not used.
#[cycle(write)]
fn domain(
    unused: bool,
    bank: &Bank,
    env: &Env,
    scope: &Scope,
    base: &str,
    depth: u64,
    t: TermId,
    limit: usize,
    out: &mut Vec<u8>,
) -> Result<(), NoMemory>
    requires term { IsTermAt bank.now t }
    requires formed { IsFormed (params_of env.now) depth (tree_at bank.now t) }
    requires room { depth + height_of (item_at bank.now t) < 2 ^ 64 }
    requires within { length out.old.items ≤ limit }
    ensures filled { OnOk result (Filled limit out.old.items out.new.items
        (domain_text unused (own_numbered (own_names scope.now) base.now depth)
        (shown (own_numbered (own_names scope.now) base.now) (names_of env.now) depth (tree_at bank.now t)))) }
    ensures within { OnOk result (length out.new.items ≤ limit) }
{
    if !unused {
        return binder("all ", bank, env, scope, base, depth, t, limit, out);
    }
    part(
        is_open_ended(bank, t),
        bank,
        env,
        scope,
        base,
        depth,
        t,
        limit,
        out,
    )?;
    put_words(" -> ", limit, out)
}

// The arguments of an instance in parentheses, if there are any.
#[cycle(write)]
fn filling(
    bank: &Bank,
    env: &Env,
    scope: &Scope,
    base: &str,
    depth: u64,
    t: TermId,
    limit: usize,
    out: &mut Vec<u8>,
) -> Result<(), NoMemory>
    requires term { IsListAt bank.now t }
    requires formed { AreFormed (params_of env.now) depth (list_at bank.now t) }
    requires room { depth + height_of (item_at bank.now t) < 2 ^ 64 }
    requires within { length out.old.items ≤ limit }
    ensures filled { OnOk result (Filled limit out.old.items out.new.items
        (filling_text (all_shown (own_numbered (own_names scope.now) base.now) (names_of env.now) depth (list_at bank.now t)))) }
    ensures within { OnOk result (length out.new.items ≤ limit) }
{
    match bank.node(t) {
        Node::Cons(_, _) => {
            put_words("(", limit, out)?;
            list(bank, env, scope, base, depth, t, limit, out)?;
            put_words(")", limit, out)
        }
        _ => Ok(()),
    }
}

// Terms with commas between them.
#[cycle(write)]
fn list(
    bank: &Bank,
    env: &Env,
    scope: &Scope,
    base: &str,
    depth: u64,
    t: TermId,
    limit: usize,
    out: &mut Vec<u8>,
) -> Result<(), NoMemory>
    requires term { IsListAt bank.now t }
    requires formed { AreFormed (params_of env.now) depth (list_at bank.now t) }
    requires room { depth + height_of (item_at bank.now t) < 2 ^ 64 }
    requires within { length out.old.items ≤ limit }
    ensures filled { OnOk result (Filled limit out.old.items out.new.items
        (terms_text (all_shown (own_numbered (own_names scope.now) base.now) (names_of env.now) depth (list_at bank.now t)))) }
    ensures within { OnOk result (length out.new.items ≤ limit) }
{
    match bank.node(t) {
        Node::Cons(u, us) => {
            before(bank, env, scope, base, depth, us, limit, out)?;
            write(bank, env, scope, base, depth, u, limit, out)
        }
        _ => Ok(()),
    }
}

// Terms before another, with the comma behind them.
#[cycle(write)]
fn before(
    bank: &Bank,
    env: &Env,
    scope: &Scope,
    base: &str,
    depth: u64,
    t: TermId,
    limit: usize,
    out: &mut Vec<u8>,
) -> Result<(), NoMemory>
    requires term { IsListAt bank.now t }
    requires formed { AreFormed (params_of env.now) depth (list_at bank.now t) }
    requires room { depth + height_of (item_at bank.now t) < 2 ^ 64 }
    requires within { length out.old.items ≤ limit }
    ensures filled { OnOk result (Filled limit out.old.items out.new.items
        (before_text (all_shown (own_numbered (own_names scope.now) base.now) (names_of env.now) depth (list_at bank.now t)))) }
    ensures within { OnOk result (length out.new.items ≤ limit) }
{
    match bank.node(t) {
        Node::Cons(_, _) => {
            list(bank, env, scope, base, depth, t, limit, out)?;
            put_words(", ", limit, out)
        }
        _ => Ok(()),
    }
}

// Whether the shown term stands in parentheses as a part of an application.
fn is_compound(bank: &Bank, t: TermId) -> bool
    requires { IsTermAt bank.now t }
    ensures { result ≡ is_compound_tree (tree_at bank.now t) }
{
    matches!(bank.node(t), Node::App(..) | Node::Lam(..) | Node::Pi(..))
}

// Whether it does on the left of an arrow.
fn is_open_ended(bank: &Bank, t: TermId) -> bool
    requires { IsTermAt bank.now t }
    ensures { result ≡ is_open_tree (tree_at bank.now t) }
{
    matches!(bank.node(t), Node::Lam(..) | Node::Pi(..))
}
