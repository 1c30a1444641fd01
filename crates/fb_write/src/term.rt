//! The canonical text of a term.
ghost use Rattle.std.specs.Prelude.{◌≡◌, ◌++◌, codes};
ghost use Rattle.fb_parse.specs.View.{view, views};
ghost use Rattle.fb_write.specs.Canonical as spec;
ghost use Rattle.fb_write.specs.Canonical.{in_parentheses, term_text, terms_text, arguments_text};
ghost use Rattle.fb_write.specs.Appends.{Appends};
ghost use Rattle.fb_write.specs.Writing.{comma};

use crate::append::push;
use fb_base::NoMemory;
use fb_parse::{Form, Tree};

/// Appends the canonical text of the term, or a front of it where memory runs out.
pub fn write_term(tree: &Tree, out: &mut Vec<u8>) -> Result<(), NoMemory>
    ensures { Appends out.old.items out.new.items (term_text (view tree.now)) result }
{
    term(*tree, out)
}

/// The same of a term by value.
#[cycle(term)]
pub fn term(tree: Tree, out: &mut Vec<u8>) -> Result<(), NoMemory>
    ensures { Appends out.old.items out.new.items (term_text (view tree.entry)) result }
{
    match tree.form {
        Form::Star => push("*", out),
        Form::Box_ => push("box", out),
        Form::Name(name) => push(name, out),
        Form::Inst(name, args) => {
            push(name, out)?;
            push("(", out)?;
            terms(args, out)?;
            push(")", out)
        }
        Form::Apply(head, args) => {
            part(is_compound(*head), *head, out)?;
            arguments(args, out)
        }
        Form::Fun(name, of, body) => {
            binder("fun ", name, *of, out)?;
            term(*body, out)
        }
        Form::All(name, of, range) => {
            binder("all ", name, *of, out)?;
            term(*range, out)
        }
        Form::Arrow(domain, range) => {
            part(is_open_ended(*domain), *domain, out)?;
            push(" -> ", out)?;
            term(*range, out)
        }
    }
}

// A variable with its type, up to the blank behind the dot.
#[cycle(term)]
fn binder(word: &str, name: &str, of: Tree, out: &mut Vec<u8>) -> Result<(), NoMemory>
    ensures { Appends out.old.items out.new.items (word.now ++ name.now ++ codes " : " ++ term_text (view of.entry) ++ codes " . ") result }
{
    push(word, out)?;
    push(name, out)?;
    push(" : ", out)?;
    term(of, out)?;
    push(" . ", out)
}

// A part, in parentheses or not.
#[cycle(term)]
fn part(enclosed: bool, tree: Tree, out: &mut Vec<u8>) -> Result<(), NoMemory>
    ensures { Appends out.old.items out.new.items (in_parentheses enclosed (term_text (view tree.entry))) result }
{
    if !enclosed {
        return term(tree, out);
    }
    push("(", out)?;
    term(tree, out)?;
    push(")", out)
}

/// Appends terms with commas between them.
#[cycle(term)]
pub fn terms(args: &[Tree], out: &mut Vec<u8>) -> Result<(), NoMemory>
    ensures { Appends out.old.items out.new.items (terms_text (views args.now)) result }
{
    let mut first = true;
    for arg in args {
        listed(first, *arg, out)?;
        first = false;
    }
    Ok(())
}

// A term of a list, behind a comma where it isn't the first.
#[cycle(term)]
fn listed(first: bool, tree: Tree, out: &mut Vec<u8>) -> Result<(), NoMemory>
    ensures { Appends out.old.items out.new.items (comma first ++ term_text (view tree.entry)) result }
{
    push_comma(first, out)?;
    term(tree, out)
}

/// Appends the comma before what isn't the first of a list.
pub fn push_comma(first: bool, out: &mut Vec<u8>) -> Result<(), NoMemory>
    ensures { Appends out.old.items out.new.items (comma first) result }
{
    if first {
        push("", out)
    } else {
        push(", ", out)
    }
}

// Arguments of an application, each behind a blank.
#[cycle(term)]
fn arguments(args: &[Tree], out: &mut Vec<u8>) -> Result<(), NoMemory>
    ensures { Appends out.old.items out.new.items (arguments_text (views args.now)) result }
{
    for arg in args {
        argument(*arg, out)?;
    }
    Ok(())
}

#[cycle(term)]
fn argument(tree: Tree, out: &mut Vec<u8>) -> Result<(), NoMemory>
    ensures { Appends out.old.items out.new.items (codes " " ++ in_parentheses (spec.is_compound (view tree.entry)) (term_text (view tree.entry))) result }
{
    push(" ", out)?;
    part(is_compound(tree), tree, out)
}

fn is_open_ended(tree: Tree) -> bool
    ensures { result ≡ spec.is_open_ended (view tree.entry) }
{
    matches!(tree.form, Form::Fun(..) | Form::All(..) | Form::Arrow(..))
}

fn is_compound(tree: Tree) -> bool
    ensures { result ≡ spec.is_compound (view tree.entry) }
{
    matches!(
        tree.form,
        Form::Apply(..) | Form::Fun(..) | Form::All(..) | Form::Arrow(..)
    )
}
