//! Texts with their outcomes, worked out by hand.
ghost use Rattle.std.specs.Prelude.{◌<◌, ◌+◌, ◌^◌, length};

use crate::{ItemKind, ParseFault, parse_book, parse_term};
use bumpalo::Bump;
use fb_base::Span;
use fb_lex::LexFault;
use std::process::Abort;
use std::test::Fail;

#[derive(Clone, Copy, Debug, PartialEq, Eq)]
enum Outcome {
    Items(usize),
    Term,
    BadByte(usize),
    LongName(usize),
    Syntax(usize),
    Deep(usize),
    ManyItems(usize),
    Memory,
}

fn of_fault(fault: ParseFault) -> Outcome {
    match fault {
        ParseFault::Lex(LexFault::BadByte(at)) => Outcome::BadByte(at),
        ParseFault::Lex(LexFault::LongName(at)) => Outcome::LongName(at),
        ParseFault::Syntax(at) => Outcome::Syntax(at),
        ParseFault::Deep(at) => Outcome::Deep(at),
        ParseFault::ManyItems(at) => Outcome::ManyItems(at),
        ParseFault::Memory => Outcome::Memory,
    }
}

fn of_term(arena: &Bump, text: &[u8]) -> Outcome {
    match parse_term(arena, text) {
        Ok(_) => Outcome::Term,
        Err(fault) => of_fault(fault),
    }
}

fn of_book(arena: &Bump, text: &[u8]) -> Outcome
    requires { length text.now + 1 < 2 ^ 32 }
{
    match parse_book(arena, text) {
        Ok(book) => Outcome::Items(book.items.len()),
        Err(fault) => of_fault(fault),
    }
}

fn expect_term(rt: &impl Abort, arena: &Bump, text: &[u8], want: Outcome) {
    assert_eq!(rt; of_term(arena, text), want, "{text:?}");
}

fn expect_book(rt: &impl Abort, arena: &Bump, text: &[u8], want: Outcome)
    requires { length text.now + 1 < 2 ^ 32 }
{
    assert_eq!(rt; of_book(arena, text), want, "{text:?}");
}

#[test]
fn terms(rt: HostRuntime) -> Result<(), Fail> {
    let arena = Bump::new(rt.alloc());
    expect_term(
        &rt,
        &arena,
        b"fun x : A . f (g x) y -> c(A, *) # end",
        Outcome::Term,
    );
    expect_term(&rt, &arena, b"all x:box.x'", Outcome::Term);
    expect_term(&rt, &arena, "\u{3b1}\u{3b2} (x)".as_bytes(), Outcome::Term);
    Ok(())
}

#[test]
fn faults_of_terms(rt: HostRuntime) -> Result<(), Fail> {
    let arena = Bump::new(rt.alloc());
    expect_term(&rt, &arena, b"f )", Outcome::Syntax(2));
    expect_term(&rt, &arena, b"f x y ->", Outcome::Syntax(8));
    expect_term(&rt, &arena, b"f x : A", Outcome::Syntax(4));
    expect_term(&rt, &arena, b"fun x A", Outcome::Syntax(6));
    expect_term(&rt, &arena, b"c(A,)", Outcome::Syntax(4));
    Ok(())
}

#[test]
fn bad_bytes_and_limits_of_terms(rt: HostRuntime) -> Result<(), Fail> {
    let arena = Bump::new(rt.alloc());
    expect_term(&rt, &arena, b"f $", Outcome::BadByte(2));
    expect_term(&rt, &arena, b"f # \xff", Outcome::BadByte(4));
    expect_term(&rt, &arena, &[b'x'; 256], Outcome::LongName(0));
    expect_term(&rt, &arena, &[b'('; 501], Outcome::Deep(500));
    expect_term(&rt, &arena, &[b'('; 499], Outcome::Syntax(499));
    Ok(())
}

#[test]
fn books(rt: HostRuntime) -> Result<(), Fail> {
    let arena = Bump::new(rt.alloc());
    expect_book(&rt, &arena, b"", Outcome::Items(0));
    expect_book(&rt, &arena, b"\n\n", Outcome::Items(0));
    expect_book(&rt, &arena, b"| |\n|", Outcome::Items(0));
    expect_book(&rt, &arena, b"A := prim : *", Outcome::Items(1));
    expect_book(
        &rt,
        &arena,
        b"\nA := prim : *\n\n| [y : A]\n",
        Outcome::Items(2),
    );
    Ok(())
}

#[test]
fn bodies(rt: HostRuntime) -> Result<(), Fail> {
    let arena = Bump::new(rt.alloc());
    expect_book(&rt, &arena, b"x := fun a : * . a : *", Outcome::Items(1));
    expect_book(&rt, &arena, b"x := by intro w : A", Outcome::Items(1));
    expect_book(&rt, &arena, b"x := by elim f, a : A", Outcome::Items(1));
    expect_book(&rt, &arena, b"x := by same t : A", Outcome::Items(1));
    expect_book(&rt, &arena, b"x := by use c : A", Outcome::Items(1));
    expect_book(&rt, &arena, b"x := by use c(_, u) : A", Outcome::Items(1));
    Ok(())
}

#[test]
fn faults(rt: HostRuntime) -> Result<(), Fail> {
    let arena = Bump::new(rt.alloc());
    expect_book(&rt, &arena, b"x := * :", Outcome::Syntax(8));
    expect_book(&rt, &arena, b"x := $ : *", Outcome::BadByte(5));
    expect_book(&rt, &arena, b"[x : *] y", Outcome::Syntax(8));
    expect_book(&rt, &arena, b"A := prim *", Outcome::Syntax(10));
    expect_book(&rt, &arena, b"\n( := *", Outcome::Syntax(1));
    Ok(())
}

#[test]
fn faults_of_bodies(rt: HostRuntime) -> Result<(), Fail> {
    let arena = Bump::new(rt.alloc());
    expect_book(&rt, &arena, b"x := by elim f : A", Outcome::Syntax(15));
    expect_book(&rt, &arena, b"x := by some w : A", Outcome::Syntax(8));
    expect_book(&rt, &arena, b"x := by use c (u) : A", Outcome::Syntax(14));
    expect_book(&rt, &arena, b"x := c(_) : A", Outcome::Syntax(7));
    Ok(())
}

// The bars of an item of a book, and the spans of the name, of the whole and of the stated type.
fn outline(arena: &Bump, text: &[u8], index: usize) -> Option<(u32, Span, Span, Span)>
    requires { length text.now + 1 < 2 ^ 32 }
{
    let Ok(book) = parse_book(arena, text) else {
        return None;
    };
    let item = book.items.get(index)?;
    let of = match item.kind {
        ItemKind::Flag(of) => of,
        ItemKind::Prim(of) => of,
        ItemKind::Line { of, .. } => of,
    };
    Some((item.bars, item.name, item.span, of.span))
}

fn span(start: usize, end: usize) -> Span {
    Span { start, end }
}

#[test]
fn spans(rt: HostRuntime) -> Result<(), Fail> {
    let arena = Bump::new(rt.alloc());
    let text = b"| |[x : (A)] # flag\n|y := by intro w : A";
    assert_eq!(rt;
        outline(&arena, text, 0),
        Some((2, span(4, 5), span(3, 12), span(9, 10)))
    );
    assert_eq!(rt;
        outline(&arena, text, 1),
        Some((1, span(21, 22), span(21, 40), span(39, 40)))
    );
    assert_eq!(rt; outline(&arena, text, 2), None);
    Ok(())
}

#[test]
fn a_deep_term(rt: HostRuntime) -> Result<(), Fail> {
    let arena = Bump::new(rt.alloc());
    let mut deep = [b'('; 506];
    deep[0] = b'x';
    deep[1] = b' ';
    deep[2] = b':';
    deep[3] = b'=';
    deep[4] = b' ';
    expect_book(&rt, &arena, &deep, Outcome::Deep(505));
    Ok(())
}

#[test]
fn many_items(rt: HostRuntime) -> Result<(), Fail> {
    let arena = Bump::new(rt.alloc());
    let mut many = Vec::new(rt.alloc());
    for _ in 0..100_001 {
        many.extend_from_slice(b"[a:*]\n")?;
    }
    assert!(rt; many.len() == 600_006);
    expect_book(&rt, &arena, &many, Outcome::ManyItems(600_000));
    many.truncate(600_000);
    assert!(rt; many.len() == 600_000);
    expect_book(&rt, &arena, &many, Outcome::Items(100_000));
    Ok(())
}
