//! Runs of words that ask for a check, or for nothing that is known. The outcomes were worked out by hand.

use crate::desk::{
    ONE_PRIMITIVE, USAGE, compare_faults, compare_file, compare_old, compare_run, desk_of,
    desk_with,
};
use std::alloc::Global;
use std::process::Abort;
use std::test::Fail;

// Runs words that ask for nothing that is known. The desk's second call would fail, and its only call is the report's.
fn unknown(rt: &impl Abort, alloc: Global, words: &[&str]) -> Result<(), Fail> {
    let mut desk = desk_with(alloc, b"A := prim : *", &[(1, 0)])?;
    compare_run(rt, alloc, words, &mut desk, 2, USAGE.as_bytes());
    compare_old(rt, &desk);
    compare_faults(rt, &desk, 0);
    Ok(())
}

// The same for each of these.
fn each_unknown(rt: &impl Abort, alloc: Global, asked: &[&[&str]]) -> Result<(), Fail> {
    for words in asked {
        unknown(rt, alloc, words)?;
    }
    Ok(())
}

#[test]
fn no_commands(rt: HostRuntime) -> Result<(), Fail> {
    each_unknown(
        &rt,
        rt.alloc(),
        &[
            &["check", "book", "-out"],
            &["check", "--help", "out"],
            &["--help"],
            &["verify", "book", "out"],
            &["check", "book"],
            &["check", "book", "out", "extra"],
            &["check", "book", "out", "--budget"],
            &["check", "book", "out", "--budget="],
            &["check", "book", "out", "--budget=+1"],
            &["check", "book", "out", "--budget", "1000000001"],
            &["check", "book", "out", "--budget", "00000000001"],
            &["check", "book", "out", "--budget", "1", "--budget", "2"],
            &[],
        ],
    )
}

// Runs words that ask for a check of the book of this name, whose derivation goes into the file `out`.
fn known(rt: &impl Abort, alloc: Global, words: &[&str], book: &str) -> Result<(), Fail> {
    let mut desk = desk_of(alloc, [(book, b"A := prim : *"), ("out", b"old")], &[])?;
    let done = b"done: 1 items, 1 entries, 0 steps\n";
    compare_run(rt, alloc, words, &mut desk, 0, done);
    compare_file(rt, &desk, "out", &ONE_PRIMITIVE, book);
    Ok(())
}

// The same for each of these.
fn each_known(rt: &impl Abort, alloc: Global, asked: &[(&[&str], &str)]) -> Result<(), Fail> {
    for (words, book) in asked {
        known(rt, alloc, words, book)?;
    }
    Ok(())
}

#[test]
fn commands(rt: HostRuntime) -> Result<(), Fail> {
    each_known(
        &rt,
        rt.alloc(),
        &[
            (&["--budget", "5", "check", "book", "out"], "book"),
            (&["check", "--budget=5", "book", "out"], "book"),
            (&["check", "book", "out", "--budget", "1000000000"], "book"),
            (&["check", "--", "book", "out"], "book"),
            (&["check", "-", "out"], "-"),
            (&["check", "--", "--budget", "out"], "--budget"),
        ],
    )
}

// A book and its derivation may be one file.
#[test]
fn one_file_for_both(rt: HostRuntime) -> Result<(), Fail> {
    let mut desk = desk_with(rt.alloc(), b"A := prim : *", &[])?;
    let words = ["check", "book", "book"];
    let done = b"done: 1 items, 1 entries, 0 steps\n";
    compare_run(&rt, rt.alloc(), &words, &mut desk, 0, done);
    compare_file(&rt, &desk, "book", &ONE_PRIMITIVE, "book");
    Ok(())
}

#[test]
fn no_such_book(rt: HostRuntime) -> Result<(), Fail> {
    let mut desk = desk_with(rt.alloc(), b"A := prim : *", &[])?;
    let words = ["check", "other", "out"];
    compare_run(&rt, rt.alloc(), &words, &mut desk, 5, b"");
    compare_old(&rt, &desk);
    Ok(())
}
