//! Runs over a desk in memory with their outcomes, worked out by hand.

use crate::desk::{
    ONE_PRIMITIVE, answer, check, check_pieces, compare_faults, compare_file, compare_old,
    compare_run, desk_with,
};
use book_top::{RuleFault, Status, TextWhat, WhyName};
use ld_infer::{PathStep, RuleName};
use std::alloc::Global;
use std::process::Abort;
use std::test::Fail;

// Checks each of the books, compares what is said, and compares the derivation.
fn compare_derivations(
    rt: &impl Abort,
    alloc: Global,
    books: &[(&str, &str, &[u8])],
) -> Result<(), Fail> {
    for (book, report, derivation) in books {
        let desk = check(rt, alloc, book.as_bytes(), 0, report)?;
        compare_file(rt, &desk, "out", derivation, book);
    }
    Ok(())
}

#[test]
fn derivations_of_one_item(rt: HostRuntime) -> Result<(), Fail> {
    compare_derivations(
        &rt,
        rt.alloc(),
        &[
            (
                "",
                "done: 0 items, 0 entries, 0 steps\n",
                b"LDDERIV1\x01\x02\x30\x00\x00\x00\x01\x60\x00",
            ),
            (
                "A := prim : *",
                "done: 1 items, 1 entries, 0 steps\n",
                &ONE_PRIMITIVE,
            ),
            (
                "K := * : box",
                "done: 1 items, 1 entries, 0 steps\n",
                b"LDDERIV1\x01\x02\x30\x00\x00\x00\x01\x40\x01K\x00\x37\x01\x00\x00\x01\x00\x60\x01",
            ),
        ],
    )
}

// Checks a book of two items, and sees that it begins a derivation.
fn check_two(rt: &impl Abort, alloc: Global, book: &str) -> Result<(), Fail> {
    let two = "done: 2 items, 2 entries, 0 steps\n";
    let desk = check(rt, alloc, book.as_bytes(), 0, two)?;
    assert!(rt;
        desk.file("out")
            .is_some_and(|file| file.starts_with(b"LDDERIV1"))
    );
    Ok(())
}

#[test]
fn books_of_two_items(rt: HostRuntime) -> Result<(), Fail> {
    check_two(&rt, rt.alloc(), "A := prim : *\nf := prim : A -> A")?;
    check_two(&rt, rt.alloc(), "A := prim : *\nB := (A -> A) -> A : *")?;
    check_two(&rt, rt.alloc(), "A := * -> * : box\nf := prim : * -> *")
}

// Checks each of the books, compares the status and what is said, and compares what is left in the file.
fn compare_left(
    rt: &impl Abort,
    alloc: Global,
    left: &[u8],
    books: &[(&[u8], u8, &str)],
) -> Result<(), Fail> {
    for (book, code, report) in books {
        let desk = check(rt, alloc, book, *code, report)?;
        compare_file(rt, &desk, "out", left, report);
    }
    Ok(())
}

#[test]
fn refused_first_items(rt: HostRuntime) -> Result<(), Fail> {
    compare_left(
        &rt,
        rt.alloc(),
        &ONE_PRIMITIVE[..8],
        &[
            (b"P := prim : box", 3, "1:1: rule def-prim 2 at type\n"),
            (b"x := y : *", 1, "1:6: text: unknown name y\n"),
            (b"f := fun x : * . x : *", 3, "1:1: rule def 2 at body\n"),
            (b"| A := prim : *", 1, "1:3: text: depth 1 over 0\n"),
        ],
    )
}

#[test]
fn refused_second_items(rt: HostRuntime) -> Result<(), Fail> {
    compare_left(
        &rt,
        rt.alloc(),
        &ONE_PRIMITIVE[..19],
        &[
            (
                b"A := prim : *\nA := prim : *",
                1,
                "2:1: text: name taken A\n",
            ),
            (
                b"A := prim : *\nA := prim : box",
                1,
                "2:1: text: name taken A\n",
            ),
            (
                b"A := prim : *\nx := A : box",
                3,
                "2:1: rule def 2 at body\n",
            ),
            (
                b"A := prim : *\nx := A A : *",
                3,
                "2:1: rule appl 1 at body.fun\n",
            ),
            (
                b"A := prim : *\nx := by intro A : *",
                1,
                "2:1: text: not built\n",
            ),
        ],
    )
}

#[test]
fn no_books(rt: HostRuntime) -> Result<(), Fail> {
    compare_left(
        &rt,
        rt.alloc(),
        b"old",
        &[
            (b"x := * :", 1, "1:9: text: syntax\n"),
            (b"x := $ : *", 1, "1:6: text: bad byte\n"),
            (b"\xff", 1, "1:1: text: bad byte\n"),
            (
                b"# \xce\xb1\n\xce\xb1 := prim $",
                1,
                "2:11: text: bad byte\n",
            ),
            (b"x", 1, "1:2: text: syntax\n"),
            (b"A := : *", 1, "1:6: text: syntax\n"),
            (b"A := prim : * )", 1, "1:15: text: syntax\n"),
            (b"A := by foo x : *", 1, "1:9: text: syntax\n"),
            (b"A := (prim", 1, "1:7: text: syntax\n"),
            (b"f := fun . x", 1, "1:10: text: syntax\n"),
            // A blank between them parts the arrow's characters.
            (b"A := prim : * - > *", 1, "1:15: text: bad byte\n"),
        ],
    )
}

// Compares the place of what is wrong in the text of a book.
fn compare_place(
    rt: &impl Abort,
    alloc: Global,
    book: &str,
    wanted: (TextWhat, usize, usize),
) -> Result<(), Fail> {
    match answer(alloc, book)? {
        Status::Text(fault) => {
            assert_eq!(rt;
                (fault.what, fault.at.start, fault.at.end),
                wanted,
                "{book}"
            );
        }
        status => assert!(rt; false, "{book}: {status:?}"),
    }
    Ok(())
}

// The same for each of the books.
fn compare_places(
    rt: &impl Abort,
    alloc: Global,
    books: &[(&str, TextWhat, usize, usize)],
) -> Result<(), Fail> {
    for (book, what, start, end) in books {
        compare_place(rt, alloc, book, (*what, *start, *end))?;
    }
    Ok(())
}

#[test]
fn places_of_names(rt: HostRuntime) -> Result<(), Fail> {
    compare_places(
        &rt,
        rt.alloc(),
        &[
            ("x := y : *", TextWhat::Unknown, 5, 6),
            // The names of the stated type come first, and those of the body in text order.
            ("x := y : z", TextWhat::Unknown, 9, 10),
            ("x := y -> z : *", TextWhat::Unknown, 5, 6),
            ("A := prim : *\nx := y : A", TextWhat::Unknown, 19, 20),
            // The fault of a name is at the name alone.
            ("x := y(*) : *", TextWhat::Unknown, 5, 6),
            ("[xy : *]\n| z := xy(*) : *", TextWhat::NotAConstant, 16, 18),
            (
                "AB := prim : *\nx := AB(*) : *",
                TextWhat::ParamsMany {
                    wanted: 0,
                    given: 1,
                },
                20,
                22,
            ),
            (
                "[A : *]\n| BC := A : *\nx := BC : *",
                TextWhat::ParamsMissing {
                    wanted: 1,
                    given: 0,
                },
                27,
                29,
            ),
        ],
    )
}

#[test]
fn places_of_items_and_characters(rt: HostRuntime) -> Result<(), Fail> {
    compare_places(
        &rt,
        rt.alloc(),
        &[
            ("A := prim : *\nA := y : z", TextWhat::NameTaken, 14, 15),
            (
                "A := prim : *\nx := by same * : box",
                TextWhat::NotBuilt,
                14,
                34,
            ),
            ("x := * :", TextWhat::Syntax, 8, 8),
            ("x := $ : *", TextWhat::BadByte, 5, 5),
        ],
    )
}

// Compares the item, the rule, the premise and the reason of a refusal.
fn compare_premise(rt: &impl Abort, fault: &RuleFault, wanted: (u64, RuleName, u32, WhyName)) {
    assert_eq!(rt; (fault.item, fault.rule, fault.premise, fault.why), wanted);
}

// Compares the first step of the path of a refusal.
fn compare_step(rt: &impl Abort, fault: &RuleFault, step: PathStep) {
    assert!(rt; fault.path.len() > 0 && fault.path.step(0) == step);
}

// Compares the item, the rule, the premise and the reason of the refusal of a book, and the first step of the path.
fn compare_refusal(
    rt: &impl Abort,
    alloc: Global,
    book: &str,
    wanted: (u64, RuleName, u32, WhyName),
    step: PathStep,
) -> Result<(), Fail> {
    match answer(alloc, book)? {
        Status::Rule(fault) => {
            compare_premise(rt, &fault, wanted);
            compare_step(rt, &fault, step);
        }
        status => assert!(rt; false, "{book}: {status:?}"),
    }
    Ok(())
}

#[test]
fn premises_that_fail(rt: HostRuntime) -> Result<(), Fail> {
    let no_type = (1, RuleName::DefPrim, 2, WhyName::NoType);
    compare_refusal(&rt, rt.alloc(), "P := prim : box", no_type, PathStep::Of)?;
    let no_type = (1, RuleName::Def, 2, WhyName::NoType);
    compare_refusal(&rt, rt.alloc(), "P := box : *", no_type, PathStep::Body)?;
    // Another type than the word `box`, a stated type that isn't the same, and an argument of another type.
    let not_same = (2, RuleName::Def, 2, WhyName::NotSame);
    for book in ["A := prim : *\nx := A : box", "A := prim : *\nx := A : A"] {
        compare_refusal(&rt, rt.alloc(), book, not_same, PathStep::Body)?;
    }
    let not_same = (3, RuleName::Appl, 2, WhyName::NotSame);
    compare_refusal(
        &rt,
        rt.alloc(),
        "A := prim : *\nf := prim : A -> A\nx := f A : A",
        not_same,
        PathStep::Body,
    )
}

#[test]
fn books_of_many_bytes(rt: HostRuntime) -> Result<(), Fail> {
    let mut book = vec![in rt.alloc(); b'a'; 4_194_304]?;
    book[0] = b'#';
    let done = "done: 0 items, 0 entries, 0 steps\n";
    check(&rt, rt.alloc(), &book, 0, done)?;
    book.push(b'a')?;
    let desk = check(&rt, rt.alloc(), &book, 6, "limit: book bytes\n")?;
    compare_old(&rt, &desk);
    Ok(())
}

// Nested by 500 arrows, at the last name.
#[test]
fn arrows_nested_too_deep(rt: HostRuntime) -> Result<(), Fail> {
    let pieces: &[(usize, &str)] = &[(1, "A := prim : *\nB := "), (500, "A -> "), (1, "A : *")];
    let desk = check_pieces(&rt, rt.alloc(), pieces, 6, "2:2506: limit: nesting\n")?;
    compare_old(&rt, &desk);
    Ok(())
}

// Checks a book with a call that fails after so many bytes, and compares what is said and what is left in the file.
fn fail_at(
    rt: &impl Abort,
    alloc: Global,
    fails: (u64, usize),
    said: &[u8],
    left: &[u8],
) -> Result<(), Fail> {
    let mut desk = desk_with(alloc, b"A := prim : *", &[fails])?;
    let words = ["check", "book", "out"];
    compare_run(rt, alloc, &words, &mut desk, 5, said);
    compare_file(rt, &desk, "out", left, "out");
    compare_faults(rt, &desk, 1);
    Ok(())
}

// The fetch and the start fail.
#[test]
fn calls_that_fail_before_the_file(rt: HostRuntime) -> Result<(), Fail> {
    fail_at(&rt, rt.alloc(), (0, 0), b"", b"old")?;
    fail_at(&rt, rt.alloc(), (1, 0), b"", b"old")
}

// The header, the item's chunk, the end, and the report.
#[test]
fn calls_that_fail_behind_the_start(rt: HostRuntime) -> Result<(), Fail> {
    fail_at(&rt, rt.alloc(), (2, 3), b"", &ONE_PRIMITIVE[..3])?;
    fail_at(&rt, rt.alloc(), (3, 5), b"", &ONE_PRIMITIVE[..13])?;
    fail_at(&rt, rt.alloc(), (4, 2), b"", &ONE_PRIMITIVE[..21])?;
    fail_at(&rt, rt.alloc(), (5, 2), b"do", &ONE_PRIMITIVE)
}
