//! Runs over books whose names are in other letters, or long.

use crate::desk::{check, check_each};
use std::alloc::Global;
use std::process::Abort;
use std::test::Fail;

// Names and comments in other letters.
#[test]
fn other_letters(rt: HostRuntime) -> Result<(), Fail> {
    check_each(
        &rt,
        rt.alloc(),
        0,
        &[
            ("α := prim : *", "done: 1 items, 1 entries, 0 steps\n"),
            (
                "# 証明の本\n命題_1 := prim : * # первое\r\n\nÄ' := 命題_1 -> 命題_1 : *",
                "done: 2 items, 2 entries, 0 steps\n",
            ),
            ("_x := prim : *\n", "done: 1 items, 1 entries, 0 steps\n"),
        ],
    )
}

// A column counts characters.
#[test]
fn columns_of_other_letters(rt: HostRuntime) -> Result<(), Fail> {
    check_each(
        &rt,
        rt.alloc(),
        1,
        &[
            ("α := β : *", "1:6: text: unknown name β\n"),
            ("# é\nx := é -> ж : *", "2:6: text: unknown name é\n"),
            (
                "é := prim : *\nx := é -> ж : *",
                "2:11: text: unknown name ж\n",
            ),
            ("→ := prim : *", "1:1: text: bad byte\n"),
        ],
    )
}

// Checks a book with a name of this length.
fn check_long(
    rt: &impl Abort,
    alloc: Global,
    length: usize,
    code: u8,
    report: &str,
) -> Result<(), Fail> {
    let mut book = vec![in alloc; b'a'; length]?;
    book.extend_from_slice(b" := prim : *")?;
    check(rt, alloc, &book, code, report)?;
    Ok(())
}

#[test]
fn long_names(rt: HostRuntime) -> Result<(), Fail> {
    let done = "done: 1 items, 1 entries, 0 steps\n";
    check_long(&rt, rt.alloc(), 255, 0, done)?;
    check_long(&rt, rt.alloc(), 256, 1, "1:1: text: long name\n")
}
