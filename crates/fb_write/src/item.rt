//! The canonical text of an item.
ghost use Rattle.std.specs.Prelude.{◌≡◌, ◌++◌, codes};
ghost use Rattle.fb_parse.specs.View.{view, views};
ghost use Rattle.fb_parse.specs.ItemView.{at_span, arg_view, args_view, body_view, kind_view, item_view};
ghost use Rattle.fb_parse.specs.Standing.{LiesIn};
ghost use Rattle.fb_write.specs.Canonical.{term_text, arg_text, filling_text, body_text, kind_text, bars_text, item_text};
ghost use Rattle.fb_write.specs.Appends.{Appends};
ghost use Rattle.fb_write.specs.Writing.{comma, args_text, BodyNameLies, KindNamesLie, NamesLie};

use crate::append::{push, push_span};
use crate::term::{push_comma, term, terms};
use fb_base::{NoMemory, Span};
use fb_parse::{Arg, Body, Item, ItemKind, Tree};

/// Appends the canonical text of an item of the text, with its line feed, or a front of it where memory runs out.
pub fn write_item(item: &Item, text: &[u8], out: &mut Vec<u8>) -> Result<(), NoMemory>
    requires { NamesLie text.now (item_view text.now item.now) }
    ensures { Appends out.old.items out.new.items (item_text (item_view text.now item.now)) result }
{
    bars(item.bars, out)?;
    kind(text, item.name, item.kind, out)?;
    push("\n", out)
}

fn bars(count: u32, out: &mut Vec<u8>) -> Result<(), NoMemory>
    ensures { Appends out.old.items out.new.items (bars_text count) result }
{
    for _ in 0..count {
        push("| ", out)?;
    }
    Ok(())
}

fn kind(text: &[u8], name: Span, kind: ItemKind, out: &mut Vec<u8>) -> Result<(), NoMemory>
    requires name { LiesIn text.now name }
    requires kind { KindNamesLie text.now (kind_view text.now kind) }
    ensures { Appends out.old.items out.new.items (kind_text (at_span text.now name) (kind_view text.now kind.entry)) result }
{
    match kind {
        ItemKind::Flag(of) => flag(text, name, of, out),
        ItemKind::Prim(of) => {
            push_span(text, name, out)?;
            push(" := prim : ", out)?;
            term(of, out)
        }
        ItemKind::Line { body: of_line, of } => {
            push_span(text, name, out)?;
            push(" := ", out)?;
            body(text, of_line, out)?;
            push(" : ", out)?;
            term(of, out)
        }
    }
}

fn flag(text: &[u8], name: Span, of: Tree, out: &mut Vec<u8>) -> Result<(), NoMemory>
    requires { LiesIn text.now name }
    ensures { Appends out.old.items out.new.items (codes "[" ++ at_span text.now name ++ codes " : " ++ term_text (view of.entry) ++ codes "]") result }
{
    push("[", out)?;
    push_span(text, name, out)?;
    push(" : ", out)?;
    term(of, out)?;
    push("]", out)
}

fn body(text: &[u8], body: Body, out: &mut Vec<u8>) -> Result<(), NoMemory>
    requires { BodyNameLies text.now (body_view text.now body) }
    ensures { Appends out.old.items out.new.items (body_text (body_view text.now body.entry)) result }
{
    match body {
        Body::Plain(tree) => term(tree, out),
        Body::Intro(name) => {
            push("by intro ", out)?;
            push_span(text, name, out)
        }
        Body::Elim(parts) => {
            push("by elim ", out)?;
            terms(parts, out)
        }
        Body::Same(tree) => {
            push("by same ", out)?;
            term(tree, out)
        }
        Body::Fill { name, args } => {
            push("by use ", out)?;
            push_span(text, name, out)?;
            filling(args, out)
        }
    }
}

// Arguments in parentheses, or nothing.
fn filling(args: &[Arg], out: &mut Vec<u8>) -> Result<(), NoMemory>
    ensures { Appends out.old.items out.new.items (filling_text (args_view args.now)) result }
{
    if args.is_empty() {
        return Ok(());
    }
    push("(", out)?;
    all_args(args, out)?;
    push(")", out)
}

// Arguments with commas between them.
fn all_args(args: &[Arg], out: &mut Vec<u8>) -> Result<(), NoMemory>
    ensures { Appends out.old.items out.new.items (args_text (args_view args.now)) result }
{
    let mut first = true;
    for arg in args {
        listed_arg(first, *arg, out)?;
        first = false;
    }
    Ok(())
}

fn listed_arg(first: bool, arg: Arg, out: &mut Vec<u8>) -> Result<(), NoMemory>
    ensures { Appends out.old.items out.new.items (comma first ++ arg_text (arg_view arg.entry)) result }
{
    push_comma(first, out)?;
    match arg {
        Arg::Hole(_) => push("_", out),
        Arg::Given(tree) => term(tree, out),
    }
}
