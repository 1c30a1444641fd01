//! What the tests share: desks in memory, and runs over them whose answers are compared.

use book_top::{Status, run};
use fb_base::{MemDesk, NoMemory, Text};
use std::alloc::Global;
use std::process::Abort;
use std::test::Fail;

// The derivation of the one entry `A`, a primitive of the type `*`. The chunk of the entry ends after 19 bytes.
pub const ONE_PRIMITIVE: [u8; 27] =
    *b"LDDERIV1\x01\x02\x30\x00\x00\x00\x01\x41\x01A\x00\x38\x01\x00\x00\x01\x00\x60\x01";

pub const USAGE: &str =
    "usage: flagbook check BOOK OUT, verify DERIV, print BOOK NAME, term BOOK TEXT, gen N OUT, with --budget N\n";

// A desk whose file `book` holds the book and whose file `out` holds `old`. In each failing call so many bytes pass.
pub fn desk_with(alloc: Global, book: &[u8], fails: &[(u64, usize)]) -> Result<MemDesk, NoMemory> {
    desk_of(alloc, [("book", book), ("out", b"old")], fails)
}

// A desk with these files.
pub fn desk_of(
    alloc: Global,
    named: [(&str, &[u8]); 2],
    fails: &[(u64, usize)],
) -> Result<MemDesk, NoMemory> {
    let mut files = Vec::new(alloc);
    for (name, content) in named {
        let name = Text::from_bytes(alloc, name.as_bytes())?;
        let content = Text::from_bytes(alloc, content)?;
        files.push((name, content)).map_err(|_| NoMemory)?;
    }
    let fails = Vec::from_slice(alloc, fails).map_err(|_| NoMemory)?;
    MemDesk::new(alloc, files, fails)
}

// The answer for a book.
pub fn answer(alloc: Global, book: &str) -> Result<Status, NoMemory> {
    let mut desk = desk_with(alloc, book.as_bytes(), &[])?;
    Ok(run(alloc, &["check", "book", "out"], &mut desk))
}

// Compares the status after a run of these words.
pub fn compare_status(rt: &impl Abort, words: &[&str], status: &Status, code: u8) {
    assert_eq!(rt; status.code(), code, "{words:?}: {status:?}");
}

// Compares what is said.
fn compare_said(rt: &impl Abort, desk: &MemDesk, said: &[u8]) {
    assert_eq!(rt; desk.said(), said);
}

// Compares how many calls failed.
pub fn compare_faults(rt: &impl Abort, desk: &MemDesk, faults: u64) {
    assert_eq!(rt; desk.faults(), faults);
}

// Runs these words, compares the status and what is said, and gives the status.
pub fn compare_run(
    rt: &impl Abort,
    alloc: Global,
    words: &[&str],
    desk: &mut MemDesk,
    code: u8,
    said: &[u8],
) -> Status {
    let status = run(alloc, words, desk);
    compare_status(rt, words, &status, code);
    compare_said(rt, desk, said);
    status
}

// Compares what a file holds, after a run for this book or these words.
pub fn compare_file(rt: &impl Abort, desk: &MemDesk, name: &str, content: &[u8], of: &str) {
    assert!(rt; desk.file(name) == Some(content), "{of}");
}

// The file `out` is as before.
pub fn compare_old(rt: &impl Abort, desk: &MemDesk) {
    compare_file(rt, desk, "out", b"old", "out");
}

// Checks the book, compares the status and what is said, and gives the desk.
pub fn check(
    rt: &impl Abort,
    alloc: Global,
    book: &[u8],
    code: u8,
    report: &str,
) -> Result<MemDesk, Fail> {
    let mut desk = desk_with(alloc, book, &[])?;
    let words = ["check", "book", "out"];
    compare_run(rt, alloc, &words, &mut desk, code, report.as_bytes());
    compare_file(rt, &desk, "book", book, "book");
    Ok(desk)
}

// Checks each of these books, whose status is to be this one, and compares what is said.
pub fn check_each(
    rt: &impl Abort,
    alloc: Global,
    code: u8,
    books: &[(&str, &str)],
) -> Result<(), Fail> {
    for (book, report) in books {
        check(rt, alloc, book.as_bytes(), code, report)?;
    }
    Ok(())
}

// A book of these pieces, each so many times.
fn book_of(alloc: Global, pieces: &[(usize, &str)]) -> Result<Vec<u8>, NoMemory> {
    let mut book = Vec::new(alloc);
    for (times, piece) in pieces {
        for _ in 0..*times {
            book.extend_from_slice(piece.as_bytes())
                .map_err(|_| NoMemory)?;
        }
    }
    Ok(book)
}

// Checks a book of these pieces.
pub fn check_pieces(
    rt: &impl Abort,
    alloc: Global,
    pieces: &[(usize, &str)],
    code: u8,
    report: &str,
) -> Result<MemDesk, Fail> {
    let book = book_of(alloc, pieces)?;
    check(rt, alloc, &book, code, report)
}

// Checks the book within a budget, and compares the status and what is said.
pub fn check_within(
    rt: &impl Abort,
    alloc: Global,
    book: &[u8],
    budget: &'static str,
    code: u8,
    report: &str,
) -> Result<(), Fail> {
    let mut desk = desk_with(alloc, book, &[])?;
    let words = ["check", "book", "out", "--budget", budget];
    compare_run(rt, alloc, &words, &mut desk, code, report.as_bytes());
    Ok(())
}

// The same within each of these budgets.
pub fn check_budgets(
    rt: &impl Abort,
    alloc: Global,
    book: &[u8],
    budgets: &[(&'static str, u8, &str)],
) -> Result<(), Fail> {
    for (budget, code, report) in budgets {
        check_within(rt, alloc, book, budget, *code, report)?;
    }
    Ok(())
}
