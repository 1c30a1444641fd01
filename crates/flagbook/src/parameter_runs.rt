//! Runs over books whose lines have parameters. The answers were worked out by hand from the rules.

use crate::desk::check_each;
use std::test::Fail;

#[test]
fn accepted_instances(rt: HostRuntime) -> Result<(), Fail> {
    check_each(
        &rt,
        rt.alloc(),
        0,
        &[
            // All arguments are written, or the first is implied, or both.
            (
                "A := prim : *\n[x : A]\n| [y : A]\n| | k := x : A\n| | m := k(y, x) : A\n| | n := k(x) : A\n| | o := k : A",
                "done: 7 items, 5 entries, 0 steps\n",
            ),
            // The type of the second parameter has the first argument put in.
            (
                "[A : *]\n| [x : A]\n| | id := x : A\nB := prim : *\nb := prim : B\nc := id(B, b) : B",
                "done: 6 items, 4 entries, 0 steps\n",
            ),
            // Primitives have parameters too.
            (
                "[A : *]\n| List := prim : *\n| nil := prim : List\nB := prim : *\nn := nil(B) : List(B)",
                "done: 5 items, 4 entries, 0 steps\n",
            ),
            // What is implied stands under the binders round it.
            (
                "[A : *]\n| F := prim : A -> *\n| [x : A]\n| | d := fun y : A . fun z : F y . z : all y : A . F y -> F y",
                "done: 4 items, 2 entries, 0 steps\n",
            ),
            // An argument may be an instance with arguments of its own.
            (
                "A := prim : *\n[x : A]\n| f := prim : A\na := prim : A\nb := f(f(f(a))) : A",
                "done: 5 items, 4 entries, 0 steps\n",
            ),
        ],
    )
}

// A name is that of the innermost binder, then of the innermost open flag, then of an entry.
#[test]
fn one_name_for_several(rt: HostRuntime) -> Result<(), Fail> {
    check_each(
        &rt,
        rt.alloc(),
        0,
        &[
            // The flag, whose type is `*`, and not the entry, which is no type.
            (
                "A := prim : *\nx := prim : A\n[x : *]\n| y := prim : x",
                "done: 4 items, 3 entries, 0 steps\n",
            ),
            // The entry again where the flag is closed.
            (
                "A := prim : *\nx := prim : *\n[x : A]\n| y := x : A\nz := prim : x",
                "done: 5 items, 4 entries, 0 steps\n",
            ),
            // The binder, and not the flag.
            (
                "A := prim : *\n[x : A]\n| y := fun x : * . x : * -> *",
                "done: 3 items, 2 entries, 0 steps\n",
            ),
            // The binder, and not the entry, which has a parameter.
            (
                "[A : *]\n| c := A : *\n| d := fun c : * . c : * -> *",
                "done: 3 items, 2 entries, 0 steps\n",
            ),
            // The entry, whose arguments are implied, behind the binder.
            (
                "[A : *]\n| c := prim : *\n| d := prim : (all c : * . c -> c) -> c",
                "done: 3 items, 2 entries, 0 steps\n",
            ),
        ],
    )
}

#[test]
fn blanks_before_parentheses(rt: HostRuntime) -> Result<(), Fail> {
    check_each(
        &rt,
        rt.alloc(),
        1,
        &[
            // Behind a blank a parenthesis begins an argument of an application.
            (
                "A := prim : *\nf := prim : A -> A\n[u : A]\n| c := u : A\n[x : A]\n| g := c(x) : A\n| h := f (x) : A\n| k := c (x) : A",
                "8:8: text: c wants 1, given 0\n",
            ),
            (
                "A := prim : *\nf := prim : A -> A\n[u : A]\n| c := u : A\n[x : A]\n| g := c(x) : A\n| h := f(x) : A\n| k := c (x) : A",
                "7:8: text: f wants 0, given 1\n",
            ),
        ],
    )
}

// An instance has as many arguments as its entry has parameters, but for those that are implied.
#[test]
fn refused_counts(rt: HostRuntime) -> Result<(), Fail> {
    check_each(
        &rt,
        rt.alloc(),
        1,
        &[
            // A flag that is opened again under its name is another flag.
            (
                "A := prim : *\n[x : A]\n| [y : A]\n| | c := x : A\n[x : A]\n| d := c(x) : A",
                "6:8: text: c wants 2, given 1\n",
            ),
            (
                "A := prim : *\n[x : A]\n| [y : A]\n| | k := x : A\n| | m := k(y, x) : A\n| [y : A]\n| | n := k(x) : A\n| | o := k : A",
                "8:10: text: k wants 1, given 0\n",
            ),
            (
                "[A : *]\n| c := A : *\n| d := c(A, A) : *",
                "3:8: text: c wants 1, given 2\n",
            ),
            // The argument for the flag that is open is implied.
            (
                "A := prim : *\n[x : A]\n| [y : A]\n| | c := x : A\n| d := c : A",
                "5:8: text: c wants 1, given 0\n",
            ),
            (
                "A := prim : *\n[x : A]\n| c := x : A\nd := c : A",
                "4:6: text: c wants 1, given 0\n",
            ),
        ],
    )
}

#[test]
fn names_without_parameters(rt: HostRuntime) -> Result<(), Fail> {
    check_each(
        &rt,
        rt.alloc(),
        1,
        &[
            // A flag or binder has no arguments.
            ("[x : *]\n| c := x(x) : *", "2:8: text: not a constant x\n"),
            (
                "f := fun x : * . x(x) : *",
                "1:18: text: not a constant x\n",
            ),
            (
                "A := prim : *\n[x : A]\n| c := x : A\nd := fun c : A . c(c) : A -> A",
                "4:18: text: not a constant c\n",
            ),
        ],
    )
}

#[test]
fn order_of_names(rt: HostRuntime) -> Result<(), Fail> {
    check_each(
        &rt,
        rt.alloc(),
        1,
        &[
            // The name of an instance is looked up before those of its arguments, and these from left to right.
            ("B := c(d) : *", "1:6: text: unknown name c\n"),
            (
                "A := prim : *\n[x : A]\n| c := x : A\nd := c(y, z) : A",
                "4:6: text: c wants 1, given 2\n",
            ),
            (
                "A := prim : *\n[x : A]\n| [y : A]\n| | c := x : A\nd := c(z, w) : A",
                "5:8: text: unknown name z\n",
            ),
            (
                "A := prim : *\nB := A(d) : *",
                "2:6: text: A wants 0, given 1\n",
            ),
            (
                "[x : *]\n| c := x : *\n| d := c(y) : *",
                "3:10: text: unknown name y\n",
            ),
        ],
    )
}

#[test]
fn refused_arguments(rt: HostRuntime) -> Result<(), Fail> {
    check_each(
        &rt,
        rt.alloc(),
        3,
        &[
            (
                "[A : *]\n| c := prim : *\nd := c(box) : *",
                "3:1: rule inst-prim 1 at body.1\n",
            ),
            (
                "[A : *]\n| c := A : *\nd := c(box) : *",
                "3:1: rule inst 1 at body.1\n",
            ),
            // The type of `*` is `box`, which isn't the parameter's.
            (
                "[A : *]\n| c := A : *\nd := c(*) : *",
                "3:1: rule inst 1 at body.1\n",
            ),
            (
                "[A : *]\n| [x : A]\n| | c := x : A\nB := prim : *\nd := c(B, fun x : box . x) : B",
                "5:1: rule abst 1 at body.2.dom\n",
            ),
            // The first argument is looked at first, and the stated type before.
            (
                "[A : *]\n| [B : *]\n| | c := prim : *\nd := prim : c(box, box)",
                "4:1: rule inst-prim 1 at type.1\n",
            ),
        ],
    )
}
