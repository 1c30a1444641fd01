//! Runs over small books that a rule refuses at a part of a part. The answers were worked out by hand from the rules.

use crate::desk::check_each;
use crate::refusal_runs::check_refused_each;
use book_top::WhyName;
use std::test::Fail;

#[test]
fn paths_to_parts_of_parts(rt: HostRuntime) -> Result<(), Fail> {
    check_refused_each(
        &rt,
        rt.alloc(),
        &[
            // `f a` is an element of `A`, and no type.
            (
                "A := prim : *\na := prim : A\nT := prim : all f : A -> A . A -> f a",
                "3:1: rule form 2 at type.ran.ran\n",
                WhyName::NotSort,
            ),
            // `P` wants an element of `A`, and `A` is one of `*`.
            (
                "A := prim : *\nP := prim : A -> *\nT := prim : (A -> P A) -> A",
                "3:1: rule appl 2 at type.dom.ran.arg\n",
                WhyName::NotSame,
            ),
            // The second of three arguments is to be an element of `B`, and `a` is one of `A`.
            (
                "A := prim : *\nB := prim : *\nf := prim : A -> B -> A\na := prim : A\nx := f a a a : A",
                "5:1: rule appl 2 at body.fun.arg\n",
                WhyName::NotSame,
            ),
        ],
    )
}

#[test]
fn paths_below_binders(rt: HostRuntime) -> Result<(), Fail> {
    check_refused_each(
        &rt,
        rt.alloc(),
        &[
            // `h` wants an element of `A`, and `g` is a function.
            (
                "A := prim : *\ng := prim : (A -> A) -> A\nh := prim : A -> A -> A\nx := g (fun y : A . h g y) : A",
                "4:1: rule appl 2 at body.arg.body.fun.arg\n",
                WhyName::NotSame,
            ),
            // `g` wants an element of `Y`, and `x` is one of `X`, which is another variable.
            (
                "f := fun X : * . fun x : X . fun Y : * . fun g : Y -> Y . g x : all X : * . X -> all Y : * . (Y -> Y) -> Y",
                "1:1: rule appl 2 at body.body.body.body.body.arg\n",
                WhyName::NotSame,
            ),
            // The inner function's values are `*`, so that its type would be `A -> box`, which has no sort.
            (
                "A := prim : *\ng := prim : (A -> A) -> A\nx := g (fun y : A . fun z : A . *) : A",
                "3:1: rule abst 2 at body.arg.body\n",
                WhyName::BoxBody,
            ),
        ],
    )
}

#[test]
fn paths_into_arguments_of_instances(rt: HostRuntime) -> Result<(), Fail> {
    check_refused_each(
        &rt,
        rt.alloc(),
        &[
            // `k` wants two elements of `A`, and `A` is one of `*`.
            (
                "A := prim : *\n[x : A]\n| [y : A]\n| | k := x : A\na := prim : A\nb := k(a, k(a, A)) : A",
                "6:1: rule inst 2 at body.2.2\n",
                WhyName::NotSame,
            ),
            // `n` wants a type, and `a` is an element of one.
            (
                "[X : *]\n| L := prim : *\n| n := prim : L\nA := prim : *\na := prim : A\nc := fun l : L(A) . n(a) : L(A) -> L(A)",
                "6:1: rule inst-prim 1 at body.body.1\n",
                WhyName::NotSame,
            ),
            // `y` is an element of `Y`, and no type.
            (
                "[X : *]\n| D := X -> X : *\n[Y : *]\n| [y : Y]\n| | T := prim : Y -> D(y -> Y)",
                "5:5: rule form 1 at type.ran.1.dom\n",
                WhyName::NotSort,
            ),
            // `h` wants an element of `A`, and `b` is one of `B`.
            (
                "[X : *]\n| [f : X -> X]\n| | c := f : X -> X\nA := prim : *\nB := prim : *\nb := prim : B\nh := prim : A -> A\nd := c(A, fun x : A . h b) : A -> A",
                "8:1: rule appl 2 at body.2.body.arg\n",
                WhyName::NotSame,
            ),
        ],
    )
}

#[test]
fn paths_under_flags(rt: HostRuntime) -> Result<(), Fail> {
    check_refused_each(
        &rt,
        rt.alloc(),
        &[
            // The first argument is implied, and is `X`. So the one that is written is to be an element of `X`, and `X` is one of `*`.
            (
                "[X : *]\n| [x : X]\n| | c := x : X\n| | d := c(X) : X",
                "4:5: rule inst 2 at body.2\n",
                WhyName::NotSame,
            ),
            // `x` and `y` are two variables, so that `P x` and `P y` aren't equal.
            (
                "[X : *]\n| [P : X -> *]\n| | [x : X]\n| | | [y : X]\n| | | | [p : P x]\n| | | | | q := p : P y",
                "6:11: rule def 2 at body\n",
                WhyName::NotSame,
            ),
        ],
    )
}

// Behind parts whose types were compared.
#[test]
fn paths_behind_compared_types(rt: HostRuntime) -> Result<(), Fail> {
    check_refused_each(
        &rt,
        rt.alloc(),
        &[
            // `s` is an element of `A`, to which `S` unfolds. `f` is none.
            (
                "A := prim : *\nS := A : *\ns := prim : S\nf := prim : A -> A -> A\nx := f s f : A",
                "5:1: rule appl 2 at body.arg\n",
                WhyName::NotSame,
            ),
            // `F` unfolds to `A -> A`: `f` wants an element of `A`, and is one of `A -> A`.
            (
                "A := prim : *\nF := A -> A : *\nf := prim : F\ng := fun x : A . f (f f) : A -> A",
                "4:1: rule appl 2 at body.body.arg.arg\n",
                WhyName::NotSame,
            ),
            // `a` is an element of `A`, and no type of a variable.
            (
                "A := prim : *\na := prim : A\nb := a : (fun x : A . A) (fun y : a . y)",
                "3:1: rule abst 1 at type.arg.dom\n",
                WhyName::NotSort,
            ),
        ],
    )
}

// Of two parts of a term that can't be typed the one is named that is read first.
#[test]
fn first_of_two_parts(rt: HostRuntime) -> Result<(), Fail> {
    check_each(
        &rt,
        rt.alloc(),
        3,
        &[
            // Neither the domain nor the range has a sort. What is wrong in the domain comes first, however deep.
            (
                "A := prim : *\na := prim : A\nT := prim : (A -> a) -> box",
                "3:1: rule form 2 at type.dom.ran\n",
            ),
            // The function is none, and the argument has no type.
            (
                "A := prim : *\na := prim : A\nb := a box : A",
                "3:1: rule appl 1 at body.fun\n",
            ),
            // `*` hasn't the type `*`, and `box` has none.
            (
                "[X : *]\n| [Y : *]\n| | c := X : *\nd := c(*, box) : *",
                "4:1: rule inst 1 at body.1\n",
            ),
            // The variable's type has no sort, and the body no type.
            (
                "T := prim : (fun X : box . box) *",
                "1:1: rule abst 1 at type.fun.dom\n",
            ),
        ],
    )
}

// Likewise of the stated type and the body, and of an item and one below it.
#[test]
fn first_of_type_and_body(rt: HostRuntime) -> Result<(), Fail> {
    check_each(
        &rt,
        rt.alloc(),
        3,
        &[
            // The stated type is no type, and the body has none.
            (
                "A := prim : *\na := prim : A\nx := box : a",
                "3:1: rule def 2 at type\n",
            ),
            // The function's type would be `A -> box`, which has no sort; and the stated type is another.
            (
                "A := prim : *\nf := fun x : A . * : A -> A",
                "2:1: rule abst 2 at body\n",
            ),
            // `*` is no element of `A`, as `f` wants one; and the stated type isn't that of the values of `f`.
            (
                "A := prim : *\nf := prim : A -> A\nx := f (f *) : *",
                "3:1: rule appl 2 at body.arg.arg\n",
            ),
            // The flag's type has no sort. The item below, where a name stands for nothing, isn't looked at.
            ("[x : box]\n| y := z : *", "1:1: rule weak 2 at type\n"),
        ],
    )
}
