//! Books.
ghost use Rattle.std.specs.Prelude.{◌≡◌, ◌<◌, ◌≤◌, ◌+◌, ◌-◌, ◌^◌, true, length, IfOk, MatchResult};
ghost use Rattle.fb_lex.specs.TokenList.{left};
ghost use Rattle.fb_parse.specs.ItemParts.{ItemIs, SomeItem};
ghost use Rattle.fb_parse.specs.Parts.{behind_term};
ghost use Rattle.fb_parse.specs.ItemParts as part;
ghost use Rattle.fb_parse.specs.Items as spec;
ghost use Rattle.fb_parse.specs.Reading.{Read, Stands};
ghost use Rattle.fb_parse.specs.Lines.{LinesAre, LinesFail};
ghost use Rattle.fb_parse.specs.ItemView.{item_view, items_view};

use crate::fault::ParseFault;
use crate::item::{ItemPart, item};
use crate::steps::advance;
use crate::tree::Book;
use bumpalo::Bump;
use bumpalo::collections::into_bump_slice;
use fb_lex::{Kind, Token};

const MOST_ITEMS: usize = 100_000;

// Whether a token of this kind begins an item.
fn begins_item(kind: Kind) -> bool
    ensures { result ≡ part.begins_item kind }
{
    matches!(kind, Kind::LBracket | Kind::Name)
}

// Whether a line ends at a token of this kind.
fn ends_line(kind: Kind) -> bool
    ensures { result ≡ spec.ends_line kind }
{
    matches!(kind, Kind::Newline | Kind::End)
}

/// The lines of a book, from the first token of its text on.
pub fn lines<'a>(arena: &'a Bump, text: &'a [u8], first: Token) -> Result<Book<'a>, ParseFault>
    requires stands { Stands text.now first }
    requires short { length text.now + 1 < 2 ^ 32 }
    ensures { MatchResult result (λ book. LinesAre text.now 0 first (items_view text.now book.items.now) × (length book.items.now ≤ 100000))
        (LinesFail text.now 0 100000 first) }
{
    let mut items = Vec::new(arena);
    let mut bars = 0u32;
    let mut next = first;
    'lines: loop {
        match next.kind {
            Kind::End => break,
            Kind::Bar => {
                next = advance(text, next)?;
                bars += 1;
            }
            Kind::Newline => {
                next = advance(text, next)?;
                bars = 0;
            }
            _ => {
                if !begins_item(next.kind) {
                    return Err(ParseFault::Syntax(next.span.start));
                }
                let part = next_item(arena, text, next, bars, items.len())?;
                if items.push(part.item).is_err() {
                    return Err(ParseFault::Memory);
                }
                next = part.next;
            }
        }
    }
    Ok(Book {
        items: into_bump_slice(items),
    })
}

// The item that begins at this token, behind so many items, with the end of its line behind it.
fn next_item<'a>(
    arena: &'a Bump,
    text: &'a [u8],
    at: Token,
    bars: u32,
    before: usize,
) -> Result<ItemPart<'a>, ParseFault>
    requires stands { Stands text.now at }
    requires begins { part.begins_item at.kind ≡ true }
    requires few { before ≤ 100000 }
    ensures read { MatchResult result (λ p. Read text.now (ItemIs bars (item_view text.now p.item)) (SomeItem bars) behind_term at p.next)
        (LinesFail text.now bars (100000 - before) at) }
    ensures ended { IfOk result (λ p. spec.ends_line p.next.kind ≡ true) }
    ensures room { IfOk result (λ p. before < 100000) }
    ensures later { IfOk result (λ p. left text.now p.next < left text.now at) }
    ensures stands { IfOk result (λ p. Stands text.now p.next) }
{
    if before == MOST_ITEMS {
        return Err(ParseFault::ManyItems(at.span.start));
    }
    let part = item(arena, text, at, bars)?;
    if !ends_line(part.next.kind) {
        return Err(ParseFault::Syntax(part.next.span.start));
    }
    Ok(part)
}
