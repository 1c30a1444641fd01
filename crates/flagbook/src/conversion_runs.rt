//! Runs over books in which a type is the one that is wanted only by beta steps and unfoldings. The answers were worked out
//! by hand from the rules and the order of comparison.

use crate::desk::{check, check_budgets, check_each, check_within};
use book_top::run;
use std::alloc::Global;
use std::process::Abort;
use std::test::Fail;

#[test]
fn unfolded_types(rt: HostRuntime) -> Result<(), Fail> {
    check_each(
        &rt,
        rt.alloc(),
        0,
        &[
            // `d` is unfolded. The stated type isn't typed again.
            (
                "A := prim : *\na := prim : A\nd := A : *\nb := a : d",
                "done: 4 items, 4 entries, 1 steps\n",
            ),
            // The later constant is unfolded, and then both are `S`, on whichever side it stands.
            (
                "A := prim : *\nS := A : *\nT := S : *\nx := prim : S\ny := x : T",
                "done: 5 items, 5 entries, 1 steps\n",
            ),
            (
                "A := prim : *\nS := A : *\nT := S : *\nx := prim : T\ny := x : S",
                "done: 5 items, 5 entries, 1 steps\n",
            ),
            // First `T` and then `S`.
            (
                "A := prim : *\nS := A : *\nT := A : *\nx := prim : S\ny := x : T",
                "done: 5 items, 5 entries, 2 steps\n",
            ),
        ],
    )
}

// Beta steps, and parts that are the same by steps.
#[test]
fn converted_parts(rt: HostRuntime) -> Result<(), Fail> {
    check_each(
        &rt,
        rt.alloc(),
        0,
        &[
            // One beta step.
            (
                "A := prim : *\nx := prim : A\ny := x : (fun X : * . X) A",
                "done: 3 items, 3 entries, 1 steps\n",
            ),
            // `I A` and `A`: an unfolding, and a beta step.
            (
                "A := prim : *\nI := fun X : * . X : * -> *\nx := prim : I A\ny := x : A",
                "done: 4 items, 4 entries, 2 steps\n",
            ),
            // The domains are found the same by one step. Then they are a known pair, and so are the ranges.
            (
                "A := prim : *\nS := A : *\nf := prim : S -> S\ng := f : A -> A",
                "done: 4 items, 4 entries, 1 steps\n",
            ),
            // Under the flags: `T a(y, x)` and `T y`, where `a(y, x)` unfolds to `y`.
            (
                "A := prim : *\nT := prim : A -> *\n[x : A]\n| [y : A]\n| | a := x : A\n| | [t : T y]\n| | | c := t : T a(y, x)",
                "done: 7 items, 4 entries, 1 steps\n",
            ),
        ],
    )
}

// Both types are instances of one entry.
#[test]
fn converted_instances(rt: HostRuntime) -> Result<(), Fail> {
    check_each(
        &rt,
        rt.alloc(),
        0,
        &[
            // The arguments are the same by one step, and so are the instances, of a primitive or not.
            (
                "A := prim : *\na := prim : A\nb := a : A\n[x : A]\n| T := prim : *\np := prim : T(a)\nq := p : T(b)",
                "done: 7 items, 6 entries, 1 steps\n",
            ),
            (
                "A := prim : *\na := prim : A\nb := a : A\n[x : A]\n| K := A : *\np := prim : K(a)\nq := p : K(b)",
                "done: 7 items, 6 entries, 1 steps\n",
            ),
            // The arguments are apart, and both instances are unfolded.
            (
                "A := prim : *\na := prim : A\nb := prim : A\n[x : A]\n| K := A : *\np := prim : K(a)\nq := p : K(b)",
                "done: 7 items, 6 entries, 2 steps\n",
            ),
        ],
    )
}

// The type of an argument is led to the one that is wanted, which is typed again.
#[test]
fn converted_arguments(rt: HostRuntime) -> Result<(), Fail> {
    check_each(
        &rt,
        rt.alloc(),
        0,
        &[
            (
                "A := prim : *\nS := A : *\ns := prim : S\nf := prim : A -> A\nd := f s : A",
                "done: 5 items, 5 entries, 2 steps\n",
            ),
            (
                "A := prim : *\nS := A : *\ns := prim : S\n[x : A]\n| c := x : A\nd := c(s) : A",
                "done: 6 items, 5 entries, 2 steps\n",
            ),
            // `p` takes two steps for its argument, and `q` one for the domains of the two abstractions.
            (
                "A := prim : *\nS := A : *\nQ := prim : (A -> A) -> *\np := prim : Q (fun x : S . x)\nq := p : Q (fun x : A . x)",
                "done: 5 items, 5 entries, 3 steps\n",
            ),
        ],
    )
}

#[test]
fn unfolded_and_apart(rt: HostRuntime) -> Result<(), Fail> {
    check_each(
        &rt,
        rt.alloc(),
        3,
        &[
            // `T` and `S` lead to two primitives.
            (
                "A := prim : *\nB := prim : *\nS := A : *\nT := B : *\nx := prim : S\ny := x : T",
                "6:1: rule def 2 at body\n",
            ),
            // So does a part of two products.
            (
                "A := prim : *\nB := prim : *\nS := A : *\nf := prim : A -> S\ng := f : A -> B",
                "5:1: rule def 2 at body\n",
            ),
            // `S` leads to another type than the function's domain.
            (
                "A := prim : *\nB := prim : *\nS := B : *\ns := prim : S\nf := prim : A -> A\nd := f s : A",
                "6:1: rule appl 2 at body.arg\n",
            ),
            (
                "A := prim : *\nB := prim : *\nS := B : *\ns := prim : S\n[x : A]\n| c := x : A\nd := c(s) : A",
                "7:1: rule inst 1 at body.1\n",
            ),
            (
                "A := prim : *\nB := prim : *\nS := B : *\ns := prim : S\n[x : A]\n| c := prim : *\nd := prim : c(s)",
                "7:1: rule inst-prim 1 at type.1\n",
            ),
        ],
    )
}

#[test]
fn arguments_apart_at_once(rt: HostRuntime) -> Result<(), Fail> {
    check_each(
        &rt,
        rt.alloc(),
        3,
        &[
            (
                "P := prim : *\nQ := prim : *\np := prim : P\nq := prim : Q -> Q\nr := q p : Q",
                "5:1: rule appl 2 at body.arg\n",
            ),
            (
                "P := prim : *\nQ := prim : *\np := prim : P\nq := prim : Q -> Q\nr := p p : Q",
                "5:1: rule appl 1 at body.fun\n",
            ),
            (
                "A := prim : *\nB := prim : *\nf := prim : A -> A\n[b : B]\n| g := fun y : A . f (f b) : A -> A",
                "5:3: rule appl 2 at body.body.arg.arg\n",
            ),
        ],
    )
}

#[test]
fn bodies_apart_at_once(rt: HostRuntime) -> Result<(), Fail> {
    check_each(
        &rt,
        rt.alloc(),
        3,
        &[
            // Two instances of a primitive whose arguments are apart, and a variable applied to two flags.
            (
                "A := prim : *\na := prim : A\nb := prim : A\n[x : A]\n| T := prim : *\np := prim : T(a)\nq := p : T(b)",
                "7:1: rule def 2 at body\n",
            ),
            (
                "[P : * -> *]\n| [A : *]\n| | [B : *]\n| | | [p : P A]\n| | | | q := p : P B",
                "5:9: rule def 2 at body\n",
            ),
            // A flag, and a flag applied to it.
            (
                "[P : * -> *]\n| [Q : *]\n| | [q : Q]\n| | | p := q : P Q",
                "4:7: rule def 2 at body\n",
            ),
            // A function isn't compared with the abstraction that applies it.
            (
                "A := prim : *\nf := prim : A -> A\nQ := prim : (A -> A) -> *\np := prim : Q f\nq := p : Q (fun x : A . f x)",
                "5:1: rule def 2 at body\n",
            ),
        ],
    )
}

// A refusal is told only where the steps up to it are within the budget.
#[test]
fn budgets_of_refusals(rt: HostRuntime) -> Result<(), Fail> {
    let book = b"A := prim : *\nB := prim : *\nS := A : *\nT := B : *\nx := prim : S\ny := x : T";
    check_budgets(
        &rt,
        rt.alloc(),
        book,
        &[
            ("0", 4, "6:1: budget: steps\n"),
            ("1", 4, "6:1: budget: steps\n"),
            ("2", 3, "6:1: rule def 2 at body\n"),
        ],
    )
}

// Adds the next level of a tower to a book: the functions over the level below.
fn push_level(
    alloc: Global,
    name: &str,
    level: u32,
    below: u32,
    book: &mut Vec<u8>,
) -> Result<(), Fail> {
    let line = format!(in alloc; "{name}{level} := {name}{below} -> {name}{below} : *\n")?;
    book.extend_from_slice(line.as_bytes())?;
    Ok(())
}

// Two towers over one primitive, with so many levels above the lowest, and a function from the top of one to that of the
// other.
fn two_towers(alloc: Global, levels: u32) -> Result<Vec<u8>, Fail> {
    let mut book = Vec::from_slice(alloc, b"A := prim : *\nd0 := A : *\ne0 := A : *\n")?;
    for below in 0..levels {
        push_level(alloc, "d", below + 1, below, &mut book)?;
        push_level(alloc, "e", below + 1, below, &mut book)?;
    }
    let last = format!(in alloc; "w := fun x : d{levels} . x : d{levels} -> e{levels}")?;
    book.extend_from_slice(last.as_bytes())?;
    Ok(book)
}

// The tops are compared by unfolding one tower and then the other, level by level; what is found the same of a level's domain
// is known for its range. The whole is two steps a level.
#[test]
fn tops_of_two_towers(rt: HostRuntime) -> Result<(), Fail> {
    let book = two_towers(rt.alloc(), 60)?;
    check_budgets(
        &rt,
        rt.alloc(),
        &book,
        &[
            ("120", 4, "124:1: budget: steps\n"),
            ("121", 4, "124:1: budget: steps\n"),
            ("122", 0, "done: 124 items, 124 entries, 122 steps\n"),
            ("123", 0, "done: 124 items, 124 entries, 122 steps\n"),
        ],
    )
}

// Checks two towers of so many levels.
fn check_towers(
    rt: &impl Abort,
    alloc: Global,
    levels: u32,
    code: u8,
    report: &str,
) -> Result<(), Fail> {
    let book = two_towers(alloc, levels)?;
    check(rt, alloc, &book, code, report)?;
    Ok(())
}

// The tops are parts of the two types that are compared, at nesting 2, and each level is nested in the one above.
#[test]
fn comparisons_nest_too_deep(rt: HostRuntime) -> Result<(), Fail> {
    let done = "done: 2000 items, 2000 entries, 1998 steps\n";
    check_towers(&rt, rt.alloc(), 998, 0, done)?;
    check_towers(&rt, rt.alloc(), 999, 4, "2002:1: budget: nesting\n")
}

// Adds to a book what is said of a level of two towers: a variable of the first has the type of the second, and there is a
// function from the first to the second.
fn push_functions(alloc: Global, level: u32, book: &mut Vec<u8>) -> Result<(), Fail> {
    let lines = format!(in alloc;
        "[u : d{level}]\n| v{level} := u : e{level}\nw{level} := fun u : d{level} . v{level}(u) : d{level} -> e{level}\n"
    )?;
    book.extend_from_slice(lines.as_bytes())?;
    Ok(())
}

// Level after level is compared anew, since no pair is known where an item begins: two steps for each level down to the
// lowest, and one for the type of the function's body, which is typed again. What is written is verified.
#[test]
fn all_heights_of_two_towers(rt: HostRuntime) -> Result<(), Fail> {
    let mut book = Vec::from_slice(rt.alloc(), b"A := prim : *\nd0 := A : *\ne0 := A : *\n")?;
    push_functions(rt.alloc(), 0, &mut book)?;
    for below in 0..60 {
        push_level(rt.alloc(), "d", below + 1, below, &mut book)?;
        push_level(rt.alloc(), "e", below + 1, below, &mut book)?;
        push_functions(rt.alloc(), below + 1, &mut book)?;
    }
    let done = "done: 306 items, 245 entries, 3843 steps\n";
    check_within(&rt, rt.alloc(), &book, "121", 4, "305:3: budget: steps\n")?;
    check_within(&rt, rt.alloc(), &book, "122", 0, done)?;
    let mut desk = check(&rt, rt.alloc(), &book, 0, done)?;
    let status = run(rt.alloc(), &["verify", "out"], &mut desk);
    assert_eq!(rt; status.code(), 0, "{status:?}");
    Ok(())
}
