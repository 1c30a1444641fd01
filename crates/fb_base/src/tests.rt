//! What no contract says: that calls succeed where memory is left, and that real files are reached.
ghost use Rattle.std.specs.Prelude.{◌≡◌, true, IfOk, IsErrOf, IsTrue, OnOk, Some};
ghost use Rattle.fb_base.specs.Desk.{Rose, content_of};
ghost use Rattle.fb_base.specs.MemDesk.{seen_of};
ghost use Rattle.fb_base.specs.declared.desk.DeskFault.TheVariants.{Failed};

use crate::{Desk, DeskFault, HostDesk, MemDesk, NoMemory, Text, place};
use std::alloc::Global;
use std::fs;
use std::process::Abort;
use std::test::Fail;

fn text(alloc: Global, letters: &str) -> Result<Text, NoMemory> {
    Text::from_bytes(alloc, letters.as_bytes())
}

// A desk with the files `book` and, twice, `notes`, on which the call of that number fails after so many bytes.
fn failing_desk(alloc: Global, number: u64, count: usize) -> Result<MemDesk, NoMemory> {
    let mut files = Vec::new(alloc);
    for (name, content) in [("notes", "old"), ("book", "a := b"), ("notes", "new")] {
        files
            .push((text(alloc, name)?, text(alloc, content)?))
            .map_err(|_| NoMemory)?;
    }
    let mut fails = Vec::new(alloc);
    fails.push((number, count)).map_err(|_| NoMemory)?;
    fails.push((number, 0)).map_err(|_| NoMemory)?;
    MemDesk::new(alloc, files, fails)
}

// A caller that knows no more of a desk than its trait says.
fn copy<D: Desk>(alloc: Global, desk: &mut D, from: &str, to: &str) -> Result<(), DeskFault>
    ensures rose { IsErrOf result Failed → Rose (D.seen desk.old).faults (D.seen desk.new).faults }
    ensures said { (D.seen desk.new).said ≡ (D.seen desk.old).said }
    ensures there { OnOk result (IsTrue (D.seen desk.old).tells_files → (D.seen desk.new).files to.now ≡ Some (content_of (D.seen desk.new) to.now)) }
{
    let bytes = desk.fetch(alloc, from, 100)?;
    desk.start(to)?;
    desk.append(&bytes)
}

// Fetches so much of a file, and compares it.
fn expect_content<D: Desk>(
    rt: &impl Abort,
    alloc: Global,
    desk: &mut D,
    name: &str,
    most: usize,
    want: &[u8],
) -> Result<(), Fail>
    ensures { (D.seen desk.new).started ≡ (D.seen desk.old).started }
{
    assert_eq!(rt; desk.fetch(alloc, name, most)?.as_slice(), want);
    Ok(())
}

// A fetch that is refused.
fn expect_refused<D: Desk>(rt: &impl Abort, alloc: Global, desk: &mut D, name: &str, most: usize)
    ensures { (D.seen desk.new).started ≡ (D.seen desk.old).started }
{
    assert!(rt; desk.fetch(alloc, name, most).is_err());
}

#[test]
fn texts_and_places(rt: HostRuntime) -> Result<(), Fail> {
    let letters = text(rt.alloc(), "a\nλx")?;
    assert_eq!(rt; letters.bytes(), "a\nλx".as_bytes());
    assert_eq!(rt; letters.bytes().len(), 5);
    for (offset, found) in [
        (0, (1, 1)),
        (1, (1, 2)),
        (2, (2, 1)),
        (4, (2, 2)),
        (5, (2, 3)),
    ] {
        assert!(rt; offset <= letters.bytes().len());
        assert_eq!(rt; place(letters.bytes(), offset), found, "at {offset}");
    }
    assert_eq!(rt; letters.into_bytes().as_slice(), "a\nλx".as_bytes());
    Ok(())
}

#[test]
fn fetches_from_memory(rt: HostRuntime) -> Result<(), Fail> {
    let mut desk = failing_desk(rt.alloc(), 3, 0)?;
    expect_content(&rt, rt.alloc(), &mut desk, "notes", 9, b"new")?;
    expect_content(&rt, rt.alloc(), &mut desk, "book", 2, b"a ")?;
    expect_refused(&rt, rt.alloc(), &mut desk, "boo", 9);
    expect_refused(&rt, rt.alloc(), &mut desk, "book", 9);
    expect_content(&rt, rt.alloc(), &mut desk, "book", 9, b"a := b")?;
    assert_eq!(rt; desk.faults(), 2);
    Ok(())
}

#[test]
fn copies_a_file(rt: HostRuntime) -> Result<(), Fail> {
    let mut desk = failing_desk(rt.alloc(), 3, 0)?;
    copy(rt.alloc(), &mut desk, "book", "new")?;
    assert!(rt; desk.file("new") == desk.file("book"));
    Ok(())
}

// Compares what a file holds.
fn expect_held(rt: &impl Abort, desk: &MemDesk, name: &str, held: &str) {
    assert!(rt; desk.file(name) == Some(held.as_bytes()), "{held}");
}

// A desk on which `book` holds `head`, and the next call fails after `count` bytes.
fn started_desk(alloc: Global, count: usize) -> Result<MemDesk, Fail>
    ensures { IfOk result (λ desk. (seen_of desk).started ≡ true) }
{
    let mut desk = failing_desk(alloc, 2, count)?;
    desk.start("book")?;
    desk.append(b"head")?;
    Ok(desk)
}

// Appends `piece` behind `head` in a call that fails after `count` bytes, and compares what the file holds then.
fn append_in_part(
    rt: &impl Abort,
    alloc: Global,
    count: usize,
    piece: &str,
    held: &str,
) -> Result<(), Fail> {
    let mut desk = started_desk(alloc, count)?;
    assert!(rt; desk.append(piece.as_bytes()).is_err());
    expect_held(rt, &desk, "book", held);
    assert_eq!(rt; desk.faults(), 1);
    Ok(())
}

#[test]
fn appends_in_part(rt: HostRuntime) -> Result<(), Fail> {
    append_in_part(&rt, rt.alloc(), 5, "abcdefgh", "headabcde")?;
    append_in_part(&rt, rt.alloc(), 5, "abcdef", "headabcde")?;
    append_in_part(&rt, rt.alloc(), 0, "abc", "head")
}

// A piece that is no longer than the count passes but for its last byte.
#[test]
fn appends_all_but_a_byte(rt: HostRuntime) -> Result<(), Fail> {
    append_in_part(&rt, rt.alloc(), 5, "abcde", "headabcd")?;
    append_in_part(&rt, rt.alloc(), 5, "abc", "headab")?;
    append_in_part(&rt, rt.alloc(), 5, "a", "head")?;
    append_in_part(&rt, rt.alloc(), 5, "", "head")
}

// Starts `book` in a call that fails after `count` bytes, and compares what it holds then.
fn start_in_part(rt: &impl Abort, alloc: Global, count: usize, held: &str) -> Result<(), Fail> {
    let mut desk = failing_desk(alloc, 0, count)?;
    assert!(rt; desk.start("book").is_err());
    desk.start("other")?;
    desk.append(b"x")?;
    expect_held(rt, &desk, "book", held);
    expect_held(rt, &desk, "other", "x");
    Ok(())
}

#[test]
fn starts_in_part(rt: HostRuntime) -> Result<(), Fail> {
    start_in_part(&rt, rt.alloc(), 0, "a := b")?;
    start_in_part(&rt, rt.alloc(), 1, "")?;
    start_in_part(&rt, rt.alloc(), 7, "")
}

#[test]
fn says_in_part(rt: HostRuntime) -> Result<(), Fail> {
    let mut desk = failing_desk(rt.alloc(), 1, 3)?;
    desk.say(b"one ")?;
    assert!(rt; desk.say(b"second").is_err());
    desk.say(b" third")?;
    assert_eq!(rt; desk.said(), b"one sec third".as_slice());
    Ok(())
}

#[test]
fn reaches_real_files(rt: HostRuntime) -> Result<(), Fail> {
    let name = "host-desk-test.txt";
    let mut desk = HostDesk::new(rt.clone()?);
    desk.start(name)?;
    desk.append(b"first, ")?;
    desk.append(b"second")?;
    expect_content(&rt, rt.alloc(), &mut desk, name, 100, b"first, second")?;
    expect_content(&rt, rt.alloc(), &mut desk, name, 5, b"first")?;
    desk.start(name)?;
    expect_content(&rt, rt.alloc(), &mut desk, name, 5, b"")?;
    fs::remove_file(&rt, name)?;
    expect_refused(&rt, rt.alloc(), &mut desk, name, 5);
    Ok(())
}

// More than is read and written at once.
#[test]
fn reaches_long_files(rt: HostRuntime) -> Result<(), Fail> {
    let name = "host-desk-long.txt";
    let long = vec![in rt.alloc(); b'x'; 10_000]?;
    let mut desk = HostDesk::new(rt.clone()?);
    desk.start(name)?;
    desk.append(&long)?;
    expect_content(&rt, rt.alloc(), &mut desk, name, 20_000, &long)?;
    expect_content(&rt, rt.alloc(), &mut desk, name, 8192, &[b'x'; 8192])?;
    fs::remove_file(&rt, name)?;
    Ok(())
}

#[test]
fn refuses_folders(rt: HostRuntime) -> Result<(), Fail> {
    let mut desk = HostDesk::new(rt.clone()?);
    desk.say(b"said\n")?;
    expect_refused(&rt, rt.alloc(), &mut desk, ".", 5);
    assert!(rt; desk.start(".").is_err());
    assert!(rt; desk.start("no-such-folder/x").is_err());
    Ok(())
}
