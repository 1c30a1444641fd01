//! The records of a derivation file, read one after another.
ghost use Rattle.std.specs.Prelude.{◌≡◌, ◌∷◌, false, MatchBool, MatchOption, MatchResult};
ghost use Rattle.dr_text.specs.Read.{Answers, HasHeader, FrontRecord, BeginsNoRecord};
ghost use Rattle.dr_text.specs.declared.reader.RecordFault.TheVariants as fault;

use crate::body::{Body, read_body};
use crate::rec::Rec;
use crate::record::header;
use crate::shape::shape_of;
use std::marker::Model;
use thiserror::Error;

/// Why a derivation file is refused.
#[derive(Clone, Copy, Debug, PartialEq, Eq, Error)]
pub enum RecordFault {
    /// The bytes from this place on spell no record, or there are bytes behind the end record. Places count bytes from
    /// the beginning of the file. At 0 the header isn't there.
    #[error("no record stands at byte {0}")]
    Malformed(usize),
    /// The file ends between two records, and no end record was read.
    #[error("the file has no end record")]
    Unfinished,
    /// The record of this number, counted from 0, names something that isn't there before it.
    #[error("record {0} names something that isn't there")]
    BadRef(u64),
    /// The record of this number, counted from 0, doesn't meet its condition.
    #[error("record {0} doesn't follow")]
    BadStep(u64),
    /// Memory ran out.
    #[error("memory ran out")]
    Memory,
}

/// A derivation file that is read record by record. Contracts see its bytes, the place up to which it is read, and
/// whether an end record was read.
#[derive(Debug, Drop)]
pub struct Records<'a> {
    bytes: &'a [u8],
    at: usize,
    ended: bool,
}

impl<'a> Model for Records<'a> {
    ghost use Rattle.std.specs.Prelude.{◌≤◌, length};
    ghost use Rattle.dr_text.specs.Read.{Reading};

    ghost Value = { Reading };

    ghost view = { λ a. record { bytes = a.bytes.now; at = a.at; ended = a.ended } };

    ghost invariant = { λ a. a.at ≤ length a.bytes.now };
}

impl<'a> Records<'a> {
    /// The records behind the header. Where the header isn't there, the answer is `Malformed(0)`.
    pub fn new(bytes: &'a [u8]) -> Result<Records<'a>, RecordFault>
        ensures { MatchResult result (λ r. HasHeader bytes.now × (r ≡ record { bytes = bytes.now; at = 8; ended = false }))
            (λ e. (HasHeader bytes.now → ⊥) × (e ≡ fault.Malformed 0)) }
    {
        if !begins_with_header(bytes) {
            return Err(RecordFault::Malformed(0));
        }
        Ok(Records {
            bytes,
            at: 8,
            ended: false,
        })
    }

    /// The next record. None behind the end record, at the end of the bytes.
    ///
    /// A record that is refused is not passed: each further call gives the same answer.
    pub fn next(&mut self) -> Result<Option<Rec<'a>>, RecordFault>
        ensures { Answers self.old self.new result }
    {
        let (_, left) = self.bytes.split_at(self.at);
        let Some((tag, behind)) = left.split_first() else {
            return if self.ended {
                Ok(None)
            } else {
                Err(RecordFault::Unfinished)
            };
        };
        if self.ended {
            return Err(RecordFault::Malformed(self.at));
        }
        let Some((rec, rest)) = read_record(*tag, behind) else {
            return Err(RecordFault::Malformed(self.at));
        };
        self.at = self.bytes.len() - rest.len();
        self.ended = *tag == 0x60;
        Ok(Some(rec))
    }
}

// Whether the header stands at the front.
fn begins_with_header(bytes: &[u8]) -> bool
    ensures { MatchBool result (HasHeader bytes.now) (HasHeader bytes.now → ⊥) }
{
    bytes.starts_with(header())
}

// The record with this tag whose numbers and name stand at the front, and the bytes behind it.
fn read_record(tag: u8, bytes: &[u8]) -> Option<(Rec<'_>, &[u8])>
    ensures { MatchOption result (BeginsNoRecord (tag ∷ bytes.now)) (λ p. FrontRecord (tag ∷ bytes.now) p.0 p.1.now) }
{
    let Some(shape) = shape_of(tag) else {
        return None;
    };
    let Some(
        Body {
            before,
            name,
            behind,
            rest,
        },
    ) = read_body(shape, bytes)
    else {
        return None;
    };
    let rec = Rec {
        tag,
        before,
        name,
        behind,
    };
    Some((rec, rest))
}
