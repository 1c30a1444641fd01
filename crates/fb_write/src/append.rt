//! Bytes behind others.
ghost use Rattle.std.specs.Prelude.{◌≡◌, ◌++◌};
ghost use Rattle.fb_parse.specs.ItemView.{at_span};
ghost use Rattle.fb_parse.specs.Standing.{LiesIn};
ghost use Rattle.fb_write.specs.Appends.{Appends};

use fb_base::{NoMemory, Span};

/// Appends words.
pub fn push(words: &str, out: &mut Vec<u8>) -> Result<(), NoMemory>
    ensures { Appends out.old.items out.new.items words.now result }
{
    push_bytes(words.as_bytes(), out)
}

fn push_bytes(bytes: &[u8], out: &mut Vec<u8>) -> Result<(), NoMemory>
    ensures { Appends out.old.items out.new.items bytes.now result }
{
    out.extend_from_slice(bytes).map_err(|_| NoMemory)
}

/// Appends the bytes of the text at a span.
pub fn push_span(text: &[u8], at: Span, out: &mut Vec<u8>) -> Result<(), NoMemory>
    requires { LiesIn text.now at }
    ensures { Appends out.old.items out.new.items (at_span text.now at) result }
{
    let (_, rest) = text.split_at(at.start);
    let (bytes, _) = rest.split_at(at.end - at.start);
    push_bytes(bytes, out)
}
