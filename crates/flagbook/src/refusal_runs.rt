//! Runs over small books that a rule refuses, with the premise that fails, the path to the part at which it does, and why.
//! The answers were worked out by hand from the rules. Beside each book stands why there is no derivation: a part that has
//! one type has no others but those that are equal to it by steps.

use crate::desk::{answer, check};
use book_top::{Status, WhyName};
use std::alloc::Global;
use std::process::Abort;
use std::test::Fail;

// Compares the reason for which a premise fails in the book.
fn compare_reason(rt: &impl Abort, alloc: Global, book: &str, why: WhyName) -> Result<(), Fail> {
    match answer(alloc, book)? {
        Status::Rule(fault) => assert_eq!(rt; fault.why, why, "{book}"),
        status => assert!(rt; false, "{book}: {status:?}"),
    }
    Ok(())
}

// Checks each of the books, compares what is said, and compares the reason for which the premise fails.
pub fn check_refused_each(
    rt: &impl Abort,
    alloc: Global,
    books: &[(&str, &str, WhyName)],
) -> Result<(), Fail> {
    for (book, report, why) in books {
        check(rt, alloc, book.as_bytes(), 3, report)?;
        compare_reason(rt, alloc, book, *why)?;
    }
    Ok(())
}

// The domain or the range of a product has no sort.
#[test]
fn products(rt: HostRuntime) -> Result<(), Fail> {
    check_refused_each(
        &rt,
        rt.alloc(),
        &[
            // `box` has no type, and so no sort for the domain of a product.
            (
                "[X : *]\n| T := prim : X -> box -> X",
                "2:3: rule form 1 at type.ran.dom\n",
                WhyName::NoType,
            ),
            // `a` has the type `A`, which is no sort, and no step leads on from it: `a` is no type.
            (
                "A := prim : *\na := prim : A\nT := prim : a -> A",
                "3:1: rule form 1 at type.dom\n",
                WhyName::NotSort,
            ),
            // Nor has `box` a sort for the range.
            (
                "T := prim : all X : * . X -> box",
                "1:1: rule form 2 at type.ran.ran\n",
                WhyName::NoType,
            ),
            // `x` is an element of `A`, and no type.
            (
                "A := prim : *\n[x : A]\n| [f : A -> x]",
                "3:3: rule form 2 at type.ran\n",
                WhyName::NotSort,
            ),
        ],
    )
}

// A function or an argument of an application.
#[test]
fn applications(rt: HostRuntime) -> Result<(), Fail> {
    check_refused_each(
        &rt,
        rt.alloc(),
        &[
            // `box` has no type, and so no product as its type.
            (
                "[X : *]\n| [x : X]\n| | y := box x : X",
                "3:5: rule appl 1 at body.fun\n",
                WhyName::NoType,
            ),
            // The type of `s` leads to `A`, which is no product, and no step leads on from it.
            (
                "A := prim : *\nS := A : *\ns := prim : S\nt := s s : A",
                "4:1: rule appl 1 at body.fun\n",
                WhyName::NotFunction,
            ),
            // `f` wants an argument of the type `*`, and `box` has no type.
            (
                "[f : * -> *]\n| X := f box : *",
                "2:3: rule appl 2 at body.arg\n",
                WhyName::NoType,
            ),
            // `f` wants an element of `A`, and has the type `A -> A` itself.
            (
                "A := prim : *\nf := prim : A -> A\nx := f f : A",
                "3:1: rule appl 2 at body.arg\n",
                WhyName::NotSame,
            ),
        ],
    )
}

// The type of a variable, or the body of an abstraction.
#[test]
fn abstractions(rt: HostRuntime) -> Result<(), Fail> {
    check_refused_each(
        &rt,
        rt.alloc(),
        &[
            // A variable's type has a sort, and `box` has none.
            (
                "I := fun X : box . X : * -> *",
                "1:1: rule abst 1 at body.dom\n",
                WhyName::NoType,
            ),
            // Nor has `x`, which is an element of `A`, and no type.
            (
                "A := prim : *\n[x : A]\n| f := fun y : x . y : A -> A",
                "3:3: rule abst 1 at body.dom\n",
                WhyName::NotSort,
            ),
            // The function's values would be `box`, which has no type.
            (
                "A := prim : *\nf := fun x : A . box : A -> *",
                "2:1: rule abst 1 at body.body\n",
                WhyName::NoType,
            ),
            // The body has the type `box`, so that the function's type would be `A -> box`, which has no sort.
            (
                "A := prim : *\nf := fun x : A . A -> * : A -> *",
                "2:1: rule abst 2 at body\n",
                WhyName::BoxBody,
            ),
        ],
    )
}

// The type of a flag or of a primitive has no sort.
#[test]
fn types_of_flags_and_primitives(rt: HostRuntime) -> Result<(), Fail> {
    check_refused_each(
        &rt,
        rt.alloc(),
        &[
            // A flag's type has a sort, and `box` has none.
            (
                "[A : *]\n| [x : box]",
                "2:3: rule weak 2 at type\n",
                WhyName::NoType,
            ),
            // The type of `F` is a product, and no sort: `F` takes a type to a type, and is none itself.
            (
                "[F : * -> *]\n| [x : F]",
                "2:3: rule weak 2 at type\n",
                WhyName::NotSort,
            ),
            // A primitive's type has a sort, and `box` has none.
            (
                "A := prim : *\nP := prim : box",
                "2:1: rule def-prim 2 at type\n",
                WhyName::NoType,
            ),
            // So is the type of this function.
            (
                "P := prim : fun X : * . X",
                "1:1: rule def-prim 2 at type\n",
                WhyName::NotSort,
            ),
        ],
    )
}

// A type or a body, as the rule of a definition wants it.
#[test]
fn definitions(rt: HostRuntime) -> Result<(), Fail> {
    check_refused_each(
        &rt,
        rt.alloc(),
        &[
            // `a` is an element of `A`, and no type.
            (
                "A := prim : *\na := prim : A\nb := a : a",
                "3:1: rule def 2 at type\n",
                WhyName::NotSort,
            ),
            // `box` has no type, and so not the type `box` either.
            (
                "K := box : box",
                "1:1: rule def 2 at body\n",
                WhyName::NoType,
            ),
            // `x` is an element of `A`, and no step leads on from `A` or `B`: two primitives aren't equal.
            (
                "A := prim : *\nB := prim : *\n[x : A]\n| y := x : B",
                "4:3: rule def 2 at body\n",
                WhyName::NotSame,
            ),
            // The function has the type `* -> *`, which isn't `box`.
            (
                "f := fun X : * . X : box",
                "1:1: rule def 2 at body\n",
                WhyName::NotSame,
            ),
            // `S` has the type `box`, which isn't `*`.
            (
                "S := * : box\nT := S : *",
                "2:1: rule def 2 at body\n",
                WhyName::NotSame,
            ),
        ],
    )
}

// Arguments, as the rule of an instance wants them.
#[test]
fn arguments_of_instances(rt: HostRuntime) -> Result<(), Fail> {
    check_refused_each(
        &rt,
        rt.alloc(),
        &[
            // `c` wants an argument of the type `*`, and `box` has no type.
            (
                "[X : *]\n| c := X -> X : *\nT := prim : c(box)",
                "3:1: rule inst 1 at type.1\n",
                WhyName::NoType,
            ),
            // Where the first argument is `A`, the second is to be an element of `A`, and `A` is one of `*`.
            (
                "[X : *]\n| [x : X]\n| | c := x : X\nA := prim : *\nd := c(A, A) : A",
                "5:1: rule inst 2 at body.2\n",
                WhyName::NotSame,
            ),
            // `P` wants two arguments of the type `*`, and `box` has no type.
            (
                "[X : *]\n| [Y : *]\n| | P := prim : *\nA := prim : *\nQ := P(A, box) : *",
                "5:1: rule inst-prim 2 at body.2\n",
                WhyName::NoType,
            ),
            // Where the first argument is `A`, the third is to be an element of `A`, and `b` is one of `B`.
            (
                "[X : *]\n| [x : X]\n| | [y : X]\n| | | eq := prim : *\nA := prim : *\nB := prim : *\na := prim : A\nb := prim : B\ne := prim : eq(A, a, b)",
                "9:1: rule inst-prim 3 at type.3\n",
                WhyName::NotSame,
            ),
        ],
    )
}

// Checks pairs of a book that is accepted and one that is refused, and compares what is said of each.
fn check_pairs(
    rt: &impl Abort,
    alloc: Global,
    pairs: &[(&str, &str, &str, &str)],
) -> Result<(), Fail> {
    for (accepted, done, refused, report) in pairs {
        check(rt, alloc, accepted.as_bytes(), 0, done)?;
        check(rt, alloc, refused.as_bytes(), 3, report)?;
    }
    Ok(())
}

// Two books of nearly the same text. In the first a type is by steps the one that is wanted. In the second it isn't.
#[test]
fn wanted_types_beside_others(rt: HostRuntime) -> Result<(), Fail> {
    check_pairs(
        &rt,
        rt.alloc(),
        &[
            // `K A B` leads to `A`, by an unfolding and two beta steps, and so isn't equal to `B`.
            (
                "A := prim : *\nB := prim : *\nK := fun X : * . fun Y : * . X : * -> * -> *\nx := prim : K A B\ny := x : A",
                "done: 5 items, 5 entries, 3 steps\n",
                "A := prim : *\nB := prim : *\nK := fun X : * . fun Y : * . X : * -> * -> *\nx := prim : K A B\ny := x : B",
                "5:1: rule def 2 at body\n",
            ),
            // `f` wants a function on `A`. In the second `n` is one on `A -> A`.
            (
                "A := prim : *\nN := A -> A : *\nn := prim : N\nf := prim : (A -> A) -> A\nx := f n : A",
                "done: 5 items, 5 entries, 2 steps\n",
                "A := prim : *\nN := (A -> A) -> A : *\nn := prim : N\nf := prim : (A -> A) -> A\nx := f n : A",
                "5:1: rule appl 2 at body.arg\n",
            ),
            // `c` wants an element of `B`, which unfolds to `A`, as the type of the whole does. In the second it unfolds to `A -> A`.
            (
                "[X : *]\n| [x : X]\n| | c := x : X\nA := prim : *\nB := A : *\na := prim : A\nd := c(B, a) : A",
                "done: 7 items, 5 entries, 3 steps\n",
                "[X : *]\n| [x : X]\n| | c := x : X\nA := prim : *\nB := A -> A : *\na := prim : A\nd := c(B, a) : A",
                "7:1: rule inst 2 at body.2\n",
            ),
        ],
    )
}

// Two books of nearly the same text. In the first a type is or leads to a sort or a product, as is wanted. In the second it
// doesn't.
#[test]
fn sorts_and_products_beside_others(rt: HostRuntime) -> Result<(), Fail> {
    check_pairs(
        &rt,
        rt.alloc(),
        &[
            // The type `S` of `A` unfolds to `*`. In the second it is a primitive, which is equal to no sort.
            (
                "S := * : box\nA := prim : S\n[x : A]",
                "done: 3 items, 2 entries, 1 steps\n",
                "S := prim : *\nA := prim : S\n[x : A]",
                "3:1: rule weak 2 at type\n",
            ),
            // The type of `g` leads by two steps to `A -> A`. In the second it leads to `A`, which is equal to no product.
            (
                "A := prim : *\nF := A -> A : *\nG := F : *\ng := prim : G\n[x : A]\n| y := g x : A",
                "done: 6 items, 5 entries, 3 steps\n",
                "A := prim : *\nF := A : *\nG := F : *\ng := prim : G\n[x : A]\n| y := g x : A",
                "6:3: rule appl 1 at body.fun\n",
            ),
            // The body has the type `*`, to which `S` unfolds. In the second it is `S`, whose type is `box`, and `A -> box` has no sort.
            (
                "S := * : box\nA := prim : *\nf := fun x : A . A : A -> S",
                "done: 3 items, 3 entries, 2 steps\n",
                "S := * : box\nA := prim : *\nf := fun x : A . S : A -> S",
                "3:1: rule abst 2 at body\n",
            ),
        ],
    )
}
