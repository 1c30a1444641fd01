//! Runs over books with flags, products, abstractions and applications. The answers were worked out by hand from the
//! rules.

use crate::desk::{check, check_budgets, check_each, check_pieces};
use std::test::Fail;

#[test]
fn accepted_abstractions(rt: HostRuntime) -> Result<(), Fail> {
    check_each(
        &rt,
        rt.alloc(),
        0,
        &[
            // The type of `f x` is typed again for the abstraction.
            (
                "A := prim : *\nf := prim : A -> A\ng := fun x : A . f x : A -> A",
                "done: 3 items, 3 entries, 1 steps\n",
            ),
            (
                "A := prim : *\nf := prim : A -> A\ng := fun x : A . fun y : A . f x : A -> A -> A",
                "done: 3 items, 3 entries, 1 steps\n",
            ),
            // So is the type `*` of `A`.
            (
                "A := prim : *\nK := fun x : A . A : A -> *",
                "done: 2 items, 2 entries, 1 steps\n",
            ),
            // The sort of a variable's type comes with it.
            (
                "id := fun X : * . fun x : X . x : all X : * . X -> X",
                "done: 1 items, 1 entries, 0 steps\n",
            ),
            // A name is that of the innermost binder.
            (
                "k := fun x : * . fun y : x . fun x : * . y : all x : * . x -> * -> x",
                "done: 1 items, 1 entries, 0 steps\n",
            ),
        ],
    )
}

#[test]
fn accepted_types_and_applications(rt: HostRuntime) -> Result<(), Fail> {
    check_each(
        &rt,
        rt.alloc(),
        0,
        &[
            (
                "A := prim : *\nP := prim : A -> *\nf := prim : all x : A . P x\na := prim : A\nb := f a : P a",
                "done: 5 items, 5 entries, 0 steps\n",
            ),
            // The type `S` of `A` leads to `*`, by one step.
            (
                "S := * : box\nA := prim : S\nx := prim : A",
                "done: 3 items, 3 entries, 1 steps\n",
            ),
            // The type `F` of `f` leads to `A -> A`, by one step, which is typed again, by another.
            (
                "A := prim : *\nF := A -> A : *\nf := prim : F\na := prim : A\nb := f a : A",
                "done: 5 items, 5 entries, 2 steps\n",
            ),
        ],
    )
}

#[test]
fn accepted_flags(rt: HostRuntime) -> Result<(), Fail> {
    check_each(
        &rt,
        rt.alloc(),
        0,
        &[
            (
                "A := prim : *\n[x : A]\n| c := x : A",
                "done: 3 items, 2 entries, 0 steps\n",
            ),
            (
                "A := prim : *\n[P : A -> *]\n| [x : A]\n| | [p : P x]\n| | | q := p : P x",
                "done: 5 items, 2 entries, 0 steps\n",
            ),
            // Bars close the flags beyond them.
            (
                "[A : *]\n| [x : A]\n| | a := x : A\n| [y : A]\n| | b := y : A\nC := * : box",
                "done: 6 items, 3 entries, 0 steps\n",
            ),
            // A flag that is closed can be opened again, and an entry and a flag may have one name.
            (
                "[x : *]\n[x : *]\n| x := prim : x -> *",
                "done: 3 items, 1 entries, 0 steps\n",
            ),
        ],
    )
}

#[test]
fn refused_types(rt: HostRuntime) -> Result<(), Fail> {
    check_each(
        &rt,
        rt.alloc(),
        3,
        &[
            ("[x : box]", "1:1: rule weak 2 at type\n"),
            ("P := prim : box -> *", "1:1: rule form 1 at type.dom\n"),
            (
                "P := prim : all x : * . box",
                "1:1: rule form 2 at type.ran\n",
            ),
            // The stated type is typed first.
            (
                "f := fun x : * . * : * -> box",
                "1:1: rule form 2 at type.ran\n",
            ),
            // A type that leads to no sort, and one that leads to no product.
            (
                "A := prim : *\na := prim : A\nb := prim : a",
                "3:1: rule def-prim 2 at type\n",
            ),
        ],
    )
}

#[test]
fn refused_bodies(rt: HostRuntime) -> Result<(), Fail> {
    check_each(
        &rt,
        rt.alloc(),
        3,
        &[
            (
                "A := prim : *\nf := fun x : A . * : A -> *",
                "2:1: rule abst 2 at body\n",
            ),
            ("f := fun x : box . x : *", "1:1: rule abst 1 at body.dom\n"),
            (
                "f := fun x : * . box : *",
                "1:1: rule abst 1 at body.body\n",
            ),
            ("f := box * : *", "1:1: rule appl 1 at body.fun\n"),
            (
                "A := prim : *\nf := prim : A -> A\ng := f box : A",
                "3:1: rule appl 2 at body.arg\n",
            ),
            (
                "A := prim : *\nf := prim : A -> A\n[x : A]\n| g := fun y : A . f (fun z : box . y) : A",
                "4:3: rule abst 1 at body.body.arg.dom\n",
            ),
            ("P := box : *", "1:1: rule def 2 at body\n"),
            (
                "A := prim : *\np := prim : A\nr := p p : A",
                "3:1: rule appl 1 at body.fun\n",
            ),
        ],
    )
}

#[test]
fn refused_texts(rt: HostRuntime) -> Result<(), Fail> {
    check_each(
        &rt,
        rt.alloc(),
        1,
        &[
            (
                "A := prim : *\n[u : A]\n| | w := u : A",
                "3:5: text: depth 2 over 1\n",
            ),
            ("[x : *]\n| [x : *]", "2:4: text: flag taken x\n"),
            (
                "f := fun x : * . y : * -> *",
                "1:18: text: unknown name y\n",
            ),
            // A variable is known only below its binder, and a flag only under its bar.
            ("f := (fun x : * . x) x : *", "1:22: text: unknown name x\n"),
            ("[x : *]\ny := x : *", "2:6: text: unknown name x\n"),
            // The name is looked at before the names of the terms.
            ("A := prim : *\nA := y z : *", "2:1: text: name taken A\n"),
        ],
    )
}

// An abstraction whose type is typed again, within a budget.
#[test]
fn budgets(rt: HostRuntime) -> Result<(), Fail> {
    let book = b"A := prim : *\nf := prim : A -> A\ng := fun x : A . f x : A -> A";
    check_budgets(
        &rt,
        rt.alloc(),
        book,
        &[
            ("0", 4, "3:1: budget: steps\n"),
            ("1", 0, "done: 3 items, 3 entries, 1 steps\n"),
        ],
    )
}

// 499 arrows nest by 500.
#[test]
fn nested_arrows(rt: HostRuntime) -> Result<(), Fail> {
    let pieces: &[(usize, &str)] = &[(1, "A := prim : *\nB := "), (499, "A -> "), (1, "A : *")];
    let report = "done: 2 items, 2 entries, 0 steps\n";
    check_pieces(&rt, rt.alloc(), pieces, 0, report)?;
    Ok(())
}

// 500 arguments make a term of height 501.
#[test]
fn an_application_too_high(rt: HostRuntime) -> Result<(), Fail> {
    let pieces: &[(usize, &str)] = &[(1, "A := prim : *\nC := A"), (500, " A"), (1, " : *")];
    check_pieces(&rt, rt.alloc(), pieces, 6, "2:1: limit: height\n")?;
    Ok(())
}

// 498 variables, each bound in the body of the one before.
#[test]
fn nested_variables(rt: HostRuntime) -> Result<(), Fail> {
    let pieces: &[(usize, &str)] = &[
        (1, "A := prim : *\nf := "),
        (498, "fun x : A . "),
        (1, "x : "),
        (498, "A -> "),
        (1, "A"),
    ];
    let report = "done: 2 items, 2 entries, 0 steps\n";
    check_pieces(&rt, rt.alloc(), pieces, 0, report)?;
    Ok(())
}

// The type of `f x` has 498 arrows. Typed again at the bottom it nests readings by 997; then each abstraction's type is
// higher by one than that of its body, until one is 501.
#[test]
fn a_type_grows_too_high(rt: HostRuntime) -> Result<(), Fail> {
    let pieces: &[(usize, &str)] = &[
        (1, "A := prim : *\nf := prim : A"),
        (499, " -> A"),
        (1, "\ng := "),
        (498, "fun x : A . "),
        (1, "f x : A"),
    ];
    check_pieces(&rt, rt.alloc(), pieces, 4, "3:1: budget: height\n")?;
    Ok(())
}

// The type of `h x`, typed again under 200 variables, has 489 arrows and then an abstraction whose body's type is typed
// again, with 400 arrows: in all more than 1,000.
#[test]
fn readings_nest_too_deep(rt: HostRuntime) -> Result<(), Fail> {
    let pieces: &[(usize, &str)] = &[
        (1, "A := prim : *\nf := prim : A"),
        (401, " -> A"),
        (1, "\nP := prim : (A"),
        (401, " -> A"),
        (1, ") -> *\nh := prim : "),
        (490, "A -> "),
        (1, "P (fun x : A . f x)\ng := "),
        (200, "fun x : A . "),
        (1, "h x : A"),
    ];
    check_pieces(&rt, rt.alloc(), pieces, 4, "5:1: budget: nesting\n")?;
    Ok(())
}

// The type of flag 65 isn't looked at.
#[test]
fn flags_are_few(rt: HostRuntime) -> Result<(), Fail> {
    let mut book = Vec::new(rt.alloc());
    for level in 0..65 {
        for _ in 0..level {
            book.extend_from_slice(b"|")?;
        }
        book.extend_from_slice(b"[x")?;
        book.extend_from_slice(&[b'a' + level / 26, b'a' + level % 26])?;
        book.extend_from_slice(b" : *]\n")?;
    }
    check(&rt, rt.alloc(), &book, 6, "65:65: limit: flags\n")?;
    Ok(())
}
