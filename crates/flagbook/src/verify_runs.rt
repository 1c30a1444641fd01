//! Verifications of derivation files over a desk in memory. The answers were worked out by hand.

use crate::desk::{
    ONE_PRIMITIVE, USAGE, check, compare_faults, compare_file, compare_old, compare_run,
    compare_status, desk_of,
};
use book_top::{Status, run};
use dr_text::reader::RecordFault;
use fb_base::{MemDesk, NoMemory};
use std::alloc::Global;
use std::process::Abort;
use std::test::Fail;

// A desk whose file `deriv` holds these bytes, and whose file `out` holds `old`.
fn desk_for(alloc: Global, bytes: &[u8], fails: &[(u64, usize)]) -> Result<MemDesk, NoMemory> {
    desk_of(alloc, [("deriv", bytes), ("out", b"old")], fails)
}

// Verifies a file of these bytes, compares the status and what is said, and sees that no file is changed.
fn verify(
    rt: &impl Abort,
    alloc: Global,
    bytes: &[u8],
    code: u8,
    report: &str,
) -> Result<Status, Fail> {
    let mut desk = desk_for(alloc, bytes, &[])?;
    let words = ["verify", "deriv"];
    let status = compare_run(rt, alloc, &words, &mut desk, code, report.as_bytes());
    compare_file(rt, &desk, "deriv", bytes, "deriv");
    compare_old(rt, &desk);
    Ok(status)
}

// Verifies a file of the first bytes of a derivation with these behind them.
fn verify_behind(
    rt: &impl Abort,
    alloc: Global,
    first: &[u8],
    rest: &[u8],
    report: &str,
) -> Result<Status, Fail> {
    let mut bytes = Vec::from_slice(alloc, first)?;
    bytes.extend_from_slice(rest)?;
    verify(rt, alloc, &bytes, 8, report)
}

#[test]
fn cut_files(rt: HostRuntime) -> Result<(), Fail> {
    for (end, code, report) in [
        (27, 0, "done: 1 entries\n"),
        // Between two records, and within the fifth.
        (25, 8, "unfinished\n"),
        (24, 8, "offset 19: malformed\n"),
        (8, 8, "unfinished\n"),
        (7, 8, "offset 0: malformed\n"),
        (0, 8, "offset 0: malformed\n"),
    ] {
        verify(&rt, rt.alloc(), &ONE_PRIMITIVE[..end], code, report)?;
    }
    Ok(())
}

// Verifies the 19 bytes of the records before the fifth with these behind them, and compares the fault.
fn compare_fault(
    rt: &impl Abort,
    alloc: Global,
    rest: &[u8],
    report: &str,
    fault: RecordFault,
) -> Result<(), Fail> {
    match verify_behind(rt, alloc, &ONE_PRIMITIVE[..19], rest, report)? {
        Status::BadRecord(found) => assert_eq!(rt; found, fault),
        status => assert!(rt; false, "{status:?}"),
    }
    Ok(())
}

// The same with each of these.
fn compare_changed(
    rt: &impl Abort,
    alloc: Global,
    files: &[(&[u8], &str, RecordFault)],
) -> Result<(), Fail> {
    for (rest, report, fault) in files {
        compare_fault(rt, alloc, rest, report, *fault)?;
    }
    Ok(())
}

// The fifth record is changed.
#[test]
fn changed_records(rt: HostRuntime) -> Result<(), Fail> {
    compare_changed(
        &rt,
        rt.alloc(),
        &[
            (
                b"\x38\x01\x00\x00\x01\x01\x60\x01",
                "record 4: reference\n",
                RecordFault::BadRef(4),
            ),
            (
                b"\x38\x01\x00\x00\x00\x00\x60\x01",
                "record 4: step\n",
                RecordFault::BadStep(4),
            ),
        ],
    )
}

// The end record is changed.
#[test]
fn changed_ends(rt: HostRuntime) -> Result<(), Fail> {
    compare_changed(
        &rt,
        rt.alloc(),
        &[
            // The number of the end record isn't spelled in the least bytes.
            (
                b"\x38\x01\x00\x00\x01\x00\x60\x81\x00",
                "offset 25: malformed\n",
                RecordFault::Malformed(25),
            ),
            (
                b"\x38\x01\x00\x00\x01\x00\x60\x01\x00",
                "offset 27: malformed\n",
                RecordFault::Malformed(27),
            ),
            // The end is a judgement over all entries.
            (
                b"\x38\x01\x00\x00\x01\x00\x60\x00",
                "record 5: step\n",
                RecordFault::BadStep(5),
            ),
            (
                b"\x38\x01\x00\x00\x01\x00\x60\x02",
                "record 5: reference\n",
                RecordFault::BadRef(5),
            ),
        ],
    )
}

// Verifies files of a header with these bytes behind it.
fn verify_hostile(rt: &impl Abort, alloc: Global, files: &[(&[u8], &str)]) -> Result<(), Fail> {
    for (rest, report) in files {
        verify_behind(rt, alloc, &ONE_PRIMITIVE[..8], rest, report)?;
    }
    Ok(())
}

// What stands behind the header.
#[test]
fn hostile_files(rt: HostRuntime) -> Result<(), Fail> {
    verify_hostile(
        &rt,
        rt.alloc(),
        &[
            // A number that isn't spelled in the least bytes, and a count that the bytes don't have.
            (b"\x03\x80\x00", "offset 8: malformed\n"),
            (
                b"\x07\x00\xff\xff\xff\xff\xff\xff\xff\xff\xff\x01",
                "offset 8: malformed\n",
            ),
            // A term and a context that aren't there, an entry that isn't there, and unequal terms.
            (b"\x10\x00\x00", "record 0: reference\n"),
            (b"\x07\x05\x00", "record 0: reference\n"),
            (b"\x01\x02\x20\x00\x01", "record 2: step\n"),
            // A variable index of 65,536.
            (b"\x03\x80\x80\x04", "record 0: step\n"),
            (b"\x03\xff\xff\x03", "unfinished\n"),
        ],
    )
}

// Verifies the front of a file, which ends before the file does.
fn verify_front(rt: &impl Abort, alloc: Global, front: &[u8]) -> Result<(), Fail> {
    let mut desk = desk_for(alloc, front, &[])?;
    let words = ["verify", "deriv"];
    let status = run(alloc, &words, &mut desk);
    compare_status(rt, &words, &status, 8);
    Ok(())
}

// Checks a book, and verifies what it wrote and each front of that.
fn check_and_verify(
    rt: &impl Abort,
    alloc: Global,
    book: &str,
    said: &str,
    report: &str,
) -> Result<(), Fail> {
    let desk = check(rt, alloc, book.as_bytes(), 0, said)?;
    let Some(file) = desk.file("out") else {
        assert!(rt; false, "{book}");
        return Ok(());
    };
    verify(rt, alloc, file, 0, report)?;
    for end in 0..file.len() {
        verify_front(rt, alloc, &file[..end])?;
    }
    Ok(())
}

// The same for each of these books.
fn check_and_verify_each(
    rt: &impl Abort,
    alloc: Global,
    books: &[(&str, &str, &str)],
) -> Result<(), Fail> {
    for (book, said, report) in books {
        check_and_verify(rt, alloc, book, said, report)?;
    }
    Ok(())
}

// Of one item, or of none.
#[test]
fn written_files_of_one_item(rt: HostRuntime) -> Result<(), Fail> {
    check_and_verify_each(
        &rt,
        rt.alloc(),
        &[
            (
                "",
                "done: 0 items, 0 entries, 0 steps\n",
                "done: 0 entries\n",
            ),
            (
                "A := prim : *",
                "done: 1 items, 1 entries, 0 steps\n",
                "done: 1 entries\n",
            ),
            (
                "K := * : box",
                "done: 1 items, 1 entries, 0 steps\n",
                "done: 1 entries\n",
            ),
        ],
    )
}

#[test]
fn written_files_of_several_items(rt: HostRuntime) -> Result<(), Fail> {
    check_and_verify_each(
        &rt,
        rt.alloc(),
        &[
            (
                "A := prim : *\nf := prim : A -> A",
                "done: 2 items, 2 entries, 0 steps\n",
                "done: 2 entries\n",
            ),
            (
                "A := prim : *\nB := (A -> A) -> A : *",
                "done: 2 items, 2 entries, 0 steps\n",
                "done: 2 entries\n",
            ),
            (
                "A := * -> * : box\nf := prim : * -> *",
                "done: 2 items, 2 entries, 0 steps\n",
                "done: 2 entries\n",
            ),
            (
                "A := prim : *\n[x : A]\n| [y : A]\n| | k := x : A\n| | m := k(y, x) : A\n| | n := k(x) : A\n| | o := k : A",
                "done: 7 items, 5 entries, 0 steps\n",
                "done: 5 entries\n",
            ),
        ],
    )
}

// Runs these words over a derivation of one entry, and compares the status and what is said.
fn compare_words(
    rt: &impl Abort,
    alloc: Global,
    asked: &[(&[&str], u8, &str)],
) -> Result<(), Fail> {
    for (words, code, said) in asked {
        let mut desk = desk_for(alloc, &ONE_PRIMITIVE, &[])?;
        compare_run(rt, alloc, words, &mut desk, *code, said.as_bytes());
        compare_old(rt, &desk);
    }
    Ok(())
}

#[test]
fn words_of_verify(rt: HostRuntime) -> Result<(), Fail> {
    compare_words(
        &rt,
        rt.alloc(),
        &[
            (&["verify", "deriv"], 0, "done: 1 entries\n"),
            (
                &["verify", "deriv", "--budget", "5"],
                0,
                "done: 1 entries\n",
            ),
            (&["--budget=0", "verify", "deriv"], 0, "done: 1 entries\n"),
            (&["verify", "--", "deriv"], 0, "done: 1 entries\n"),
            (&["verify", "other"], 5, ""),
            (&["verify"], 2, USAGE),
            (&["verify", "deriv", "out"], 2, USAGE),
            (&["deriv", "verify"], 2, USAGE),
            (&["check", "deriv"], 2, USAGE),
            (&["verify", "deriv", "--budget", "+5"], 2, USAGE),
            (&["verify", "deriv", "--budget=1", "--budget=1"], 2, USAGE),
        ],
    )
}

// Verifies with a call that fails after so many bytes, and compares what is said.
fn fail_at(
    rt: &impl Abort,
    alloc: Global,
    call: u64,
    passed: usize,
    said: &[u8],
) -> Result<(), Fail> {
    let mut desk = desk_for(alloc, &ONE_PRIMITIVE, &[(call, passed)])?;
    compare_run(rt, alloc, &["verify", "deriv"], &mut desk, 5, said);
    compare_faults(rt, &desk, 1);
    Ok(())
}

#[test]
fn failing_calls_of_verify(rt: HostRuntime) -> Result<(), Fail> {
    // The fetch, and the report.
    fail_at(&rt, rt.alloc(), 0, 0, b"")?;
    fail_at(&rt, rt.alloc(), 1, 4, b"done")
}
