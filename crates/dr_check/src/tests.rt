//! Derivation files, byte by byte.
use crate::check_file;
use dr_text::reader::RecordFault;
use ld_env::Env;
use std::alloc::{AllocError, Global};
use std::process::Abort;
use std::test::Fail;

// A primitive `A : *`, and `* : box` over it.
const PRIMITIVE: &[u8] =
    b"LDDERIV1\x01\x02\x30\x00\x00\x00\x01\x41\x01A\x00\x38\x01\x00\x00\x01\x00\x60\x01";

// How many entries a file has, or its fault.
fn answer(rt: &impl Abort, alloc: Global, bytes: &[u8]) -> Result<u32, RecordFault> {
    assert!(rt; bytes.len() <= 4096);
    match check_file(alloc, bytes) {
        Ok(checked) => Ok(checked.env.len()),
        Err(fault) => Err(fault),
    }
}

// The file has so many entries, or this fault.
fn expect(rt: &impl Abort, alloc: Global, bytes: &[u8], wanted: Result<u32, RecordFault>) {
    assert_eq!(rt; answer(rt, alloc, bytes), wanted);
}

// Whether there is one entry, `A`.
fn has_primitive(env: &Env) -> bool {
    env.len() == 1 && env.name(0) == b"A".as_slice()
}

// Whether there are two entries, and the second is `id`, a line without parameters.
fn has_line(env: &Env) -> bool {
    env.len() == 2
        && env.name(1) == b"id".as_slice()
        && env.entry(1).body.is_some()
        && env.entry(1).params.as_slice().is_empty()
}

#[test]
fn takes_no_entries(rt: HostRuntime) -> Result<(), Fail> {
    let empty = b"LDDERIV1\x01\x02\x30\x00\x00\x00\x01\x60\x00";
    expect(&rt, rt.alloc(), empty, Ok(0));
    let longer = b"LDDERIV1\x01\x02\x30\x00\x00\x00\x01\x60\x00\x00";
    expect(&rt, rt.alloc(), longer, Err(RecordFault::Malformed(17)));
    Ok(())
}

#[test]
fn takes_a_primitive(rt: HostRuntime) -> Result<(), Fail> {
    assert!(rt; PRIMITIVE.len() == 27);
    let checked = check_file(rt.alloc(), PRIMITIVE)?;
    assert!(rt; has_primitive(&checked.env));
    Ok(())
}

#[test]
fn refuses_a_front(rt: HostRuntime) -> Result<(), Fail> {
    assert!(rt; PRIMITIVE.len() == 27);
    expect(
        &rt,
        rt.alloc(),
        &PRIMITIVE[..25],
        Err(RecordFault::Unfinished),
    );
    expect(
        &rt,
        rt.alloc(),
        &PRIMITIVE[..24],
        Err(RecordFault::Malformed(19)),
    );
    expect(
        &rt,
        rt.alloc(),
        &PRIMITIVE[..7],
        Err(RecordFault::Malformed(0)),
    );
    Ok(())
}

#[test]
fn refuses_a_premise(rt: HostRuntime) -> Result<(), Fail> {
    // node 1 rests on itself
    let absent =
        b"LDDERIV1\x01\x02\x30\x00\x00\x00\x01\x41\x01A\x00\x38\x01\x00\x00\x01\x01\x60\x01";
    expect(&rt, rt.alloc(), absent, Err(RecordFault::BadRef(4)));
    // it has another type than its premise
    let other =
        b"LDDERIV1\x01\x02\x30\x00\x00\x00\x01\x41\x01A\x00\x38\x01\x00\x00\x00\x00\x60\x01";
    expect(&rt, rt.alloc(), other, Err(RecordFault::BadStep(4)));
    // it is over more entries than there are
    let over = b"LDDERIV1\x01\x02\x30\x00\x00\x00\x01\x41\x01A\x00\x38\x02\x00\x00\x01\x00\x60\x01";
    expect(&rt, rt.alloc(), over, Err(RecordFault::BadRef(4)));
    Ok(())
}

#[test]
fn refuses_an_end(rt: HostRuntime) -> Result<(), Fail> {
    // the number isn't spelled in the least bytes
    let longer =
        b"LDDERIV1\x01\x02\x30\x00\x00\x00\x01\x41\x01A\x00\x38\x01\x00\x00\x01\x00\x60\x81\x00";
    expect(&rt, rt.alloc(), longer, Err(RecordFault::Malformed(25)));
    // the node isn't over all entries
    let early = b"LDDERIV1\x01\x02\x30\x00\x00\x00\x01\x41\x01A\x00\x60\x00";
    expect(&rt, rt.alloc(), early, Err(RecordFault::BadStep(4)));
    Ok(())
}

#[test]
fn refuses_entries(rt: HostRuntime) -> Result<(), Fail> {
    // no name
    let nameless = b"LDDERIV1\x01\x02\x30\x00\x00\x00\x01\x41\x00\x00";
    expect(&rt, rt.alloc(), nameless, Err(RecordFault::BadStep(3)));
    // a name that is taken
    let taken =
        b"LDDERIV1\x01\x02\x30\x00\x00\x00\x01\x41\x01A\x00\x38\x01\x00\x00\x01\x00\x40\x01A\x01";
    expect(&rt, rt.alloc(), taken, Err(RecordFault::BadStep(5)));
    // a node over fewer entries than there are
    let over = b"LDDERIV1\x01\x02\x30\x00\x00\x00\x01\x41\x01A\x00\x41\x01B\x00";
    expect(&rt, rt.alloc(), over, Err(RecordFault::BadStep(4)));
    Ok(())
}

#[test]
fn refuses_terms(rt: HostRuntime) -> Result<(), Fail> {
    // an instance of no entry
    let absent = b"LDDERIV1\x07\x05\x00";
    expect(&rt, rt.alloc(), absent, Err(RecordFault::BadRef(0)));
    // the index 65,536, and one of more than 32 bits
    let high = b"LDDERIV1\x03\x80\x80\x04";
    expect(&rt, rt.alloc(), high, Err(RecordFault::BadStep(0)));
    let higher = b"LDDERIV1\x03\x80\x80\x80\x80\x10";
    expect(&rt, rt.alloc(), higher, Err(RecordFault::BadStep(0)));
    // the index 65,535
    let greatest = b"LDDERIV1\x03\xff\xff\x03";
    expect(&rt, rt.alloc(), greatest, Err(RecordFault::Unfinished));
    // more arguments than there are bytes
    let many = b"LDDERIV1\x07\x00\xff\xff\xff\xff\xff\xff\xff\xff\xff\x01\x00";
    expect(&rt, rt.alloc(), many, Err(RecordFault::Malformed(8)));
    Ok(())
}

// A primitive `A : *`, the line `id := \ x : A . x`, which unfolds and is applied, and a flag.
fn line_file(alloc: Global) -> Result<Vec<u8>, AllocError> {
    let mut bytes = b"LDDERIV1".to_vec(alloc)?;
    for record in [
        // `*`, `box` and node 0; the entry `A`, over it node 1
        b"\x01\x02\x30\x00\x00\x00\x01\x41\x01A\x00\x38\x01\x00\x00\x01\x00".as_slice(),
        // term 2, `A`, and node 2, `A : *`; context 1, of a variable of `A`, and in it node 3, `A : *`
        b"\x07\x00\x00\x3a\x01\x00\x02\x00\x01\x00\x10\x00\x02\x32\x01\x01\x02\x00\x02\x02",
        // term 3, the variable, and node 4, its type
        b"\x03\x00\x31\x01\x01\x03\x02\x02",
        // term 4, `A -> A`, and node 5, its sort; term 5, the body of `id`, and node 6, its type
        b"\x06\x02\x02\x33\x01\x00\x04\x00\x02\x03\x05\x02\x03\x35\x01\x00\x05\x04\x04\x05",
        // a flag of node 5; the entry `id`; over it node 7, `* : box`
        b"\x50\x05\x40\x02id\x06\x37\x02\x00\x00\x01\x01",
        // term 6, the body of `id` at the variable, and equality 0, that it is the variable
        b"\x04\x05\x03\x23\x06\x03",
        // term 7, `id`; equalities 1 and 2, with its body
        b"\x07\x01\x00\x24\x07\x05\x21\x05\x07\x01",
        // the end
        b"\x60\x07",
    ] {
        bytes.extend_from_slice(record)?;
    }
    Ok(bytes)
}

#[test]
fn takes_a_line(rt: HostRuntime) -> Result<(), Fail> {
    let bytes = line_file(rt.alloc())?;
    assert!(rt; bytes.len() <= 4096);
    let checked = check_file(rt.alloc(), &bytes)?;
    assert!(rt; has_line(&checked.env));
    Ok(())
}
