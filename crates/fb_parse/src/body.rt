//! Bodies of lines.
ghost use Rattle.std.specs.Prelude.{◌≡◌, ◌<◌, ◌≤◌, ◌∷◌, codes, MatchResult, IfOk};
ghost use Rattle.fb_lex.specs.TokenList.{left};
ghost use Rattle.fb_lex.specs.declared.tokens.Kind.TheVariants as kinds;
ghost use Rattle.fb_parse.specs.Parts.{behind_term, behind_terms};
ghost use Rattle.fb_parse.specs.ItemParts.{ArgIs, SomeArg, ArgsAre, SomeArgs, FillingIs, SomeFilling, WayIs, SomeWay, BodyIs, SomeBody, IsWordAt};
ghost use Rattle.fb_parse.specs.Reading.{Read, Fails, Stands};
ghost use Rattle.fb_parse.specs.declared.fault.ParseFault.TheVariants as faults;
ghost use Rattle.fb_parse.specs.ItemView.{arg_view, args_view, body_view};

use crate::fault::ParseFault;
use crate::steps::{expect, expect_name, expect_word, is_word};
use crate::term::{term, terms};
use crate::tree::{Arg, Body, Tree};
use bumpalo::Bump;
use bumpalo::collections::into_bump_slice;
use fb_lex::{Kind, Token};

/// A body that was read, and the token behind it.
#[derive(Clone, Copy)]
pub struct BodyPart<'a> {
    pub body: Body<'a>,
    pub next: Token,
}

/// An argument that was read, and the token behind it.
#[derive(Clone, Copy)]
pub struct ArgPart<'a> {
    pub arg: Arg<'a>,
    pub next: Token,
}

/// Arguments that were read, and the token behind them.
#[derive(Clone, Copy)]
pub struct ArgsPart<'a> {
    pub args: &'a [Arg<'a>],
    pub next: Token,
}

/// A term, or one of the forms that begin with `by`.
pub fn body<'a>(arena: &'a Bump, text: &'a [u8], at: Token) -> Result<BodyPart<'a>, ParseFault>
    requires stands { Stands text.now at }
    ensures read { MatchResult result (λ p. Read text.now (BodyIs (body_view text.now p.body)) SomeBody behind_terms at p.next) (Fails text.now SomeBody behind_terms at) }
    ensures later { IfOk result (λ p. left text.now p.next < left text.now at) }
    ensures stands { IfOk result (λ p. Stands text.now p.next) }
{
    if at.kind == Kind::By {
        let from = expect(text, at, Kind::By)?;
        return way(arena, text, from);
    }
    let plain = term(arena, text, at, 1)?;
    Ok(BodyPart {
        body: Body::Plain(plain.tree),
        next: plain.next,
    })
}

// What stands behind `by`.
fn way<'a>(arena: &'a Bump, text: &'a [u8], at: Token) -> Result<BodyPart<'a>, ParseFault>
    requires stands { Stands text.now at }
    ensures read { MatchResult result (λ p. Read text.now (WayIs (body_view text.now p.body)) SomeWay behind_terms at p.next) (Fails text.now SomeWay behind_terms at) }
    ensures later { IfOk result (λ p. left text.now p.next < left text.now at) }
    ensures stands { IfOk result (λ p. Stands text.now p.next) }
{
    if is_word(text, at, "intro") {
        return intro(text, at);
    }
    if is_word(text, at, "elim") {
        return elimination(arena, text, at);
    }
    if is_word(text, at, "same") {
        return same(arena, text, at);
    }
    if is_word(text, at, "use") {
        return fill(arena, text, at);
    }
    Err(ParseFault::Syntax(at.span.start))
}

fn intro<'a>(text: &'a [u8], at: Token) -> Result<BodyPart<'a>, ParseFault>
    requires stands { Stands text.now at }
    requires is { IsWordAt text.now at (codes "intro") }
    ensures read { MatchResult result (λ p. Read text.now (WayIs (body_view text.now p.body)) SomeWay behind_terms at p.next) (Fails text.now SomeWay behind_terms at) }
    ensures later { IfOk result (λ p. left text.now p.next < left text.now at) }
    ensures stands { IfOk result (λ p. Stands text.now p.next) }
{
    let name = expect_word(text, at, "intro")?;
    let next = expect_name(text, name)?;
    Ok(BodyPart {
        body: Body::Intro(name.span),
        next,
    })
}

fn elimination<'a>(arena: &'a Bump, text: &'a [u8], at: Token) -> Result<BodyPart<'a>, ParseFault>
    requires stands { Stands text.now at }
    requires is { IsWordAt text.now at (codes "elim") }
    ensures read { MatchResult result (λ p. Read text.now (WayIs (body_view text.now p.body)) SomeWay behind_terms at p.next) (Fails text.now SomeWay behind_terms at) }
    ensures later { IfOk result (λ p. left text.now p.next < left text.now at) }
    ensures stands { IfOk result (λ p. Stands text.now p.next) }
{
    let from = expect_word(text, at, "elim")?;
    let head = term(arena, text, from, 1)?;
    let behind = expect(text, head.next, Kind::Comma)?;
    let args = terms(arena, text, behind, 1)?;
    let trees = with_head(arena, head.tree, args.trees)?;
    Ok(BodyPart {
        body: Body::Elim(trees),
        next: args.next,
    })
}

// The trees, with one before them.
fn with_head<'a>(
    arena: &'a Bump,
    head: Tree<'a>,
    trees: &'a [Tree<'a>],
) -> Result<&'a [Tree<'a>], ParseFault>
    ensures { MatchResult result (λ all. all.now ≡ head.entry ∷ trees.now) (λ f. f ≡ faults.Memory) }
{
    let mut all = Vec::new(arena);
    if all.push(head).is_err() || all.extend_from_slice(trees).is_err() {
        return Err(ParseFault::Memory);
    }
    Ok(into_bump_slice(all))
}

fn same<'a>(arena: &'a Bump, text: &'a [u8], at: Token) -> Result<BodyPart<'a>, ParseFault>
    requires stands { Stands text.now at }
    requires is { IsWordAt text.now at (codes "same") }
    ensures read { MatchResult result (λ p. Read text.now (WayIs (body_view text.now p.body)) SomeWay behind_terms at p.next) (Fails text.now SomeWay behind_terms at) }
    ensures later { IfOk result (λ p. left text.now p.next < left text.now at) }
    ensures stands { IfOk result (λ p. Stands text.now p.next) }
{
    let from = expect_word(text, at, "same")?;
    let whole = term(arena, text, from, 1)?;
    Ok(BodyPart {
        body: Body::Same(whole.tree),
        next: whole.next,
    })
}

fn fill<'a>(arena: &'a Bump, text: &'a [u8], at: Token) -> Result<BodyPart<'a>, ParseFault>
    requires stands { Stands text.now at }
    requires is { IsWordAt text.now at (codes "use") }
    ensures read { MatchResult result (λ p. Read text.now (WayIs (body_view text.now p.body)) SomeWay behind_terms at p.next) (Fails text.now SomeWay behind_terms at) }
    ensures later { IfOk result (λ p. left text.now p.next < left text.now at) }
    ensures stands { IfOk result (λ p. Stands text.now p.next) }
{
    let name = expect_word(text, at, "use")?;
    let behind = expect_name(text, name)?;
    let given = filling(arena, text, behind)?;
    Ok(BodyPart {
        body: Body::Fill {
            name: name.span,
            args: given.args,
        },
        next: given.next,
    })
}

// The arguments in parentheses that touch the name before them, or none.
fn filling<'a>(arena: &'a Bump, text: &'a [u8], at: Token) -> Result<ArgsPart<'a>, ParseFault>
    requires stands { Stands text.now at }
    ensures read { MatchResult result (λ p. Read text.now (FillingIs (args_view p.args.now)) SomeFilling behind_terms at p.next) (Fails text.now SomeFilling behind_terms at) }
    ensures later { IfOk result (λ p. left text.now p.next ≤ left text.now at) }
    ensures stands { IfOk result (λ p. Stands text.now p.next) }
{
    if at.kind != Kind::Touching {
        return Ok(ArgsPart {
            args: into_bump_slice(Vec::new(arena)),
            next: at,
        });
    }
    let from = expect(text, at, Kind::Touching)?;
    let given = args(arena, text, from)?;
    let next = expect(text, given.next, Kind::RParen)?;
    Ok(ArgsPart {
        args: given.args,
        next,
    })
}

fn args<'a>(arena: &'a Bump, text: &'a [u8], at: Token) -> Result<ArgsPart<'a>, ParseFault>
    requires stands { Stands text.now at }
    ensures read { MatchResult result (λ p. Read text.now (ArgsAre (args_view p.args.now)) SomeArgs behind_terms at p.next) (Fails text.now SomeArgs behind_terms at) }
    ensures later { IfOk result (λ p. left text.now p.next < left text.now at) }
    ensures stands { IfOk result (λ p. Stands text.now p.next) }
{
    let first = arg(arena, text, at)?;
    let mut args = Vec::new(arena);
    if args.push(first.arg).is_err() {
        return Err(ParseFault::Memory);
    }
    let mut next = first.next;
    while next.kind == Kind::Comma {
        let from = expect(text, next, Kind::Comma)?;
        let given = arg(arena, text, from)?;
        if args.push(given.arg).is_err() {
            return Err(ParseFault::Memory);
        }
        next = given.next;
    }
    Ok(ArgsPart {
        args: into_bump_slice(args),
        next,
    })
}

// A hole, or a term.
fn arg<'a>(arena: &'a Bump, text: &'a [u8], at: Token) -> Result<ArgPart<'a>, ParseFault>
    requires stands { Stands text.now at }
    ensures read { MatchResult result (λ p. Read text.now (ArgIs (arg_view p.arg)) SomeArg behind_term at p.next) (Fails text.now SomeArg behind_term at) }
    ensures later { IfOk result (λ p. left text.now p.next < left text.now at) }
    ensures stands { IfOk result (λ p. Stands text.now p.next) }
{
    if at.kind == Kind::Hole {
        let next = expect(text, at, Kind::Hole)?;
        return Ok(ArgPart {
            arg: Arg::Hole(at.span),
            next,
        });
    }
    let given = term(arena, text, at, 1)?;
    Ok(ArgPart {
        arg: Arg::Given(given.tree),
        next: given.next,
    })
}
