//! The parts of a record behind its tag.
ghost use Rattle.std.specs.Prelude.{MatchOption};
ghost use Rattle.dr_text.specs.Shapes.{AreParts, BeginsNothing};
ghost use Rattle.dr_text.specs.declared.shape.Shape.TheVariants as shape;

use crate::decode::{read_number, split_numbers};
use crate::shape::Shape;

/// The numbers before a record's name, the name, the numbers behind it, and the bytes behind the record.
#[derive(Clone, Copy, Debug)]
pub struct Body<'a> {
    pub before: &'a [u8],
    pub name: &'a [u8],
    pub behind: &'a [u8],
    pub rest: &'a [u8],
}

/// The parts at the front that fit the shape. None where there are none.
pub fn read_body(shape: Shape, bytes: &[u8]) -> Option<Body<'_>>
    ensures { MatchOption result (BeginsNothing shape bytes.now) (λ p. AreParts shape bytes.now p.before.now p.name.now p.behind.now p.rest.now) }
{
    match shape {
        Shape::Plain(count) => read_plain(count, bytes),
        Shape::Counted(front) => read_counted(front, bytes),
        Shape::Named => read_named(bytes),
    }
}

fn read_plain(count: u64, bytes: &[u8]) -> Option<Body<'_>>
    ensures { MatchOption result (BeginsNothing (shape.Plain count) bytes.now) (λ p. AreParts (shape.Plain count) bytes.now p.before.now p.name.now p.behind.now p.rest.now) }
{
    let Some((before, rest)) = split_numbers(bytes, count) else {
        return None;
    };
    Some(Body {
        before,
        name: &[],
        behind: &[],
        rest,
    })
}

// Its numbers behind the count are read one at a time, and no memory is taken, however large the count is.
fn read_counted(front: u64, bytes: &[u8]) -> Option<Body<'_>>
    ensures { MatchOption result (BeginsNothing (shape.Counted front) bytes.now) (λ p. AreParts (shape.Counted front) bytes.now p.before.now p.name.now p.behind.now p.rest.now) }
{
    let Some((_, counted)) = split_numbers(bytes, front) else {
        return None;
    };
    let Some((count, others)) = read_number(counted) else {
        return None;
    };
    let Some((_, rest)) = split_numbers(others, count) else {
        return None;
    };
    let (before, _) = bytes.split_at(bytes.len() - rest.len());
    Some(Body {
        before,
        name: &[],
        behind: &[],
        rest,
    })
}

fn read_named(bytes: &[u8]) -> Option<Body<'_>>
    ensures { MatchOption result (BeginsNothing shape.Named bytes.now) (λ p. AreParts shape.Named bytes.now p.before.now p.name.now p.behind.now p.rest.now) }
{
    let Some((len, named)) = read_number(bytes) else {
        return None;
    };
    if len > named.len() as u64 {
        return None;
    }
    let (name, others) = named.split_at(len as usize);
    let Some((behind, rest)) = split_numbers(others, 1) else {
        return None;
    };
    let (before, _) = bytes.split_at(bytes.len() - named.len());
    Some(Body {
        before,
        name,
        behind,
        rest,
    })
}
