//! Texts with their canonical texts, worked out by hand.
ghost use Rattle.std.specs.Prelude.{◌<◌, ◌+◌, ◌^◌, length};

use crate::{write_item, write_term};
use bumpalo::Bump;
use fb_parse::{parse_book, parse_term};
use std::alloc::Global;
use std::process::Abort;
use std::test::Fail;

// Appends the canonical text of the term that the text is.
fn rewrite_term(arena: &Bump, text: &[u8], out: &mut Vec<u8>) -> bool {
    match parse_term(arena, text) {
        Ok(tree) => write_term(&tree, out).is_ok(),
        Err(_) => false,
    }
}

// Appends the canonical texts of the items of the book that the text is.
fn rewrite_book(arena: &Bump, text: &[u8], out: &mut Vec<u8>) -> bool
    requires { length text.now + 1 < 2 ^ 32 }
{
    let Ok(book) = parse_book(arena, text) else {
        return false;
    };
    for item in book.items {
        if write_item(item, text, out).is_err() {
            return false;
        }
    }
    true
}

fn expect_term(rt: &impl Abort, alloc: Global, text: &[u8], want: &[u8]) {
    let arena = Bump::new(alloc);
    let mut out = Vec::new(alloc);
    assert!(rt; rewrite_term(&arena, text, &mut out), "{text:?}");
    assert!(rt; out.as_slice() == want, "{text:?}");
}

fn expect_book(rt: &impl Abort, alloc: Global, text: &[u8], want: &[u8])
    requires { length text.now + 1 < 2 ^ 32 }
{
    let arena = Bump::new(alloc);
    let mut out = Vec::new(alloc);
    assert!(rt; rewrite_book(&arena, text, &mut out), "{text:?}");
    assert!(rt; out.as_slice() == want, "{text:?}");
}

// Compares the canonical text of each term, which has itself as its canonical text.
fn expect_terms(rt: &impl Abort, alloc: Global, terms: &[(&str, &str)]) {
    for (text, want) in terms {
        expect_term(rt, alloc, text.as_bytes(), want.as_bytes());
        expect_term(rt, alloc, want.as_bytes(), want.as_bytes());
    }
}

// The same of books, which are short.
fn expect_books(rt: &impl Abort, alloc: Global, books: &[(&str, &str)]) {
    for (text, want) in books {
        let (text, want) = (text.as_bytes(), want.as_bytes());
        assert!(rt; text.len() < 1_000 && want.len() < 1_000);
        expect_book(rt, alloc, text, want);
        expect_book(rt, alloc, want, want);
    }
}

#[test]
fn atoms(rt: HostRuntime) -> Result<(), Fail> {
    let terms = &[
        ("*", "*"),
        ("box", "box"),
        ("x10'", "x10'"),
        ("\u{3b1}\u{3b2}", "\u{3b1}\u{3b2}"),
        ("(((A)))", "A"),
        ("\t A # end", "A"),
        ("c(A)", "c(A)"),
        ("c( A ,*,f x)", "c(A, *, f x)"),
        ("c((fun x:A.x),A->B)", "c(fun x : A . x, A -> B)"),
        ("c(d(e),(c(c)))", "c(d(e), c(c))"),
    ];
    expect_terms(&rt, rt.alloc(), terms);
    Ok(())
}

#[test]
fn applications(rt: HostRuntime) -> Result<(), Fail> {
    let terms = &[
        ("f  (a)", "f a"),
        ("f a (b)", "f a b"),
        ("f(a) (c(a))", "f(a) c(a)"),
        ("((f) a) b", "(f a) b"),
        ("f (*) box", "f * box"),
        ("(fun x:A.x) a", "(fun x : A . x) a"),
        ("(all x:A.B) a", "(all x : A . B) a"),
        ("(A->B) a", "(A -> B) a"),
        (
            "f (fun x:A.x) (all y:A.B)",
            "f (fun x : A . x) (all y : A . B)",
        ),
        ("f (A->B) (g x)", "f (A -> B) (g x)"),
    ];
    expect_terms(&rt, rt.alloc(), terms);
    Ok(())
}

#[test]
fn binders_and_arrows(rt: HostRuntime) -> Result<(), Fail> {
    let terms = &[
        ("fun x:A.x", "fun x : A . x"),
        ("fun x:(A->B).(fun y:A.y)", "fun x : A -> B . fun y : A . y"),
        ("all x:*.x", "all x : * . x"),
        ("all x:(all y:A.B).f x", "all x : all y : A . B . f x"),
        ("A->B", "A -> B"),
        ("(A->B)->(C->box)", "(A -> B) -> C -> box"),
        ("(fun x:A.x)->B", "(fun x : A . x) -> B"),
        ("(all x:A.B)->C", "(all x : A . B) -> C"),
        ("A->(all x:A.B)", "A -> all x : A . B"),
        ("(f a)->(c(b))", "f a -> c(b)"),
    ];
    expect_terms(&rt, rt.alloc(), terms);
    Ok(())
}

#[test]
fn flags_and_primitives(rt: HostRuntime) -> Result<(), Fail> {
    let books = &[
        ("[x:A]", "[x : A]\n"),
        ("|[x:(A)]# flag\n", "| [x : A]\n"),
        ("| ||[x:all y:A.B]", "| | | [x : all y : A . B]\n"),
        ("A:=prim:*", "A := prim : *\n"),
        ("|P:=prim:(A->*)", "| P := prim : A -> *\n"),
    ];
    expect_books(&rt, rt.alloc(), books);
    Ok(())
}

#[test]
fn lines(rt: HostRuntime) -> Result<(), Fail> {
    let books = &[
        ("K:=*:box", "K := * : box\n"),
        ("|y:=(fun x:A.x):A->A", "| y := fun x : A . x : A -> A\n"),
        ("y:=by intro w:A", "y := by intro w : A\n"),
        ("y:=by elim f,a:A", "y := by elim f, a : A\n"),
        (
            "y:=by elim (f a),b,(A->B):A",
            "y := by elim f a, b, A -> B : A\n",
        ),
        ("y:=by same (t):A", "y := by same t : A\n"),
        (
            "|intro:=by intro use:same",
            "| intro := by intro use : same\n",
        ),
    ];
    expect_books(&rt, rt.alloc(), books);
    Ok(())
}

#[test]
fn fillings(rt: HostRuntime) -> Result<(), Fail> {
    let books = &[
        ("y:=by use c:A", "y := by use c : A\n"),
        ("y:=by use c(_):A", "y := by use c(_) : A\n"),
        ("y:=by use c( u ):A", "y := by use c(u) : A\n"),
        (
            "y:=by use c( _,u ,(f x)):A->B",
            "y := by use c(_, u, f x) : A -> B\n",
        ),
    ];
    expect_books(&rt, rt.alloc(), books);
    Ok(())
}

#[test]
fn books(rt: HostRuntime) -> Result<(), Fail> {
    let books = &[
        ("", ""),
        ("\n| |\n# nothing\n|", ""),
        (
            "x := by use c : A\nz := x : A",
            "x := by use c : A\nz := x : A\n",
        ),
        (
            "\n A:=prim:* \r\n\n|[x:A]\n| |y:=x:A # last",
            "A := prim : *\n| [x : A]\n| | y := x : A\n",
        ),
    ];
    expect_books(&rt, rt.alloc(), books);
    Ok(())
}
