//! Items.
ghost use Rattle.std.specs.Prelude.{◌≡◌, ◌<◌, MatchResult, IfOk};
ghost use Rattle.fb_lex.specs.TokenList.{left};
ghost use Rattle.fb_lex.specs.declared.tokens.Kind.TheVariants as kinds;
ghost use Rattle.fb_parse.specs.Parts.{behind_term};
ghost use Rattle.fb_parse.specs.ItemParts.{EntryIs, SomeEntry, ItemIs, SomeItem};
ghost use Rattle.fb_parse.specs.Reading.{Read, Fails, Stands};
ghost use Rattle.fb_parse.specs.ItemView.{kind_view, item_view};

use crate::body::body;
use crate::fault::ParseFault;
use crate::steps::{expect, expect_name};
use crate::term::term;
use crate::tree::{Item, ItemKind};
use bumpalo::Bump;
use fb_base::Span;
use fb_lex::{Kind, Token};

/// An item that was read, and the token behind it.
#[derive(Clone, Copy)]
pub struct ItemPart<'a> {
    pub item: Item<'a>,
    pub next: Token,
}

// What makes an entry, where it ends, and the token behind it.
#[derive(Clone, Copy)]
struct EntryPart<'a> {
    kind: ItemKind<'a>,
    end: usize,
    next: Token,
}

/// A flag, a primitive or a line, behind its bars.
pub fn item<'a>(
    arena: &'a Bump,
    text: &'a [u8],
    at: Token,
    bars: u32,
) -> Result<ItemPart<'a>, ParseFault>
    requires stands { Stands text.now at }
    ensures read { MatchResult result (λ p. Read text.now (ItemIs bars (item_view text.now p.item)) (SomeItem bars) behind_term at p.next) (Fails text.now (SomeItem bars) behind_term at) }
    ensures later { IfOk result (λ p. left text.now p.next < left text.now at) }
    ensures stands { IfOk result (λ p. Stands text.now p.next) }
{
    if at.kind == Kind::LBracket {
        return flag(arena, text, at, bars);
    }
    let assign = expect_name(text, at)?;
    let from = expect(text, assign, Kind::Assign)?;
    let entry = entry(arena, text, from)?;
    Ok(ItemPart {
        item: Item {
            bars,
            name: at.span,
            span: Span {
                start: at.span.start,
                end: entry.end,
            },
            kind: entry.kind,
        },
        next: entry.next,
    })
}

fn flag<'a>(
    arena: &'a Bump,
    text: &'a [u8],
    at: Token,
    bars: u32,
) -> Result<ItemPart<'a>, ParseFault>
    requires stands { Stands text.now at }
    requires kind { at.kind ≡ kinds.LBracket }
    ensures read { MatchResult result (λ p. Read text.now (ItemIs bars (item_view text.now p.item)) (SomeItem bars) behind_term at p.next) (Fails text.now (SomeItem bars) behind_term at) }
    ensures later { IfOk result (λ p. left text.now p.next < left text.now at) }
    ensures stands { IfOk result (λ p. Stands text.now p.next) }
{
    let name = expect(text, at, Kind::LBracket)?;
    let colon = expect_name(text, name)?;
    let from = expect(text, colon, Kind::Colon)?;
    let of = term(arena, text, from, 1)?;
    let next = expect(text, of.next, Kind::RBracket)?;
    Ok(ItemPart {
        item: Item {
            bars,
            name: name.span,
            span: Span {
                start: at.span.start,
                end: of.next.span.end,
            },
            kind: ItemKind::Flag(of.tree),
        },
        next,
    })
}

// What stands behind the sign := of a primitive or a line.
fn entry<'a>(arena: &'a Bump, text: &'a [u8], at: Token) -> Result<EntryPart<'a>, ParseFault>
    requires stands { Stands text.now at }
    ensures read { MatchResult result (λ p. Read text.now (EntryIs (kind_view text.now p.kind) p.end) SomeEntry behind_term at p.next) (Fails text.now SomeEntry behind_term at) }
    ensures later { IfOk result (λ p. left text.now p.next < left text.now at) }
    ensures stands { IfOk result (λ p. Stands text.now p.next) }
{
    if at.kind == Kind::Prim {
        return primitive(arena, text, at);
    }
    let body = body(arena, text, at)?;
    let from = expect(text, body.next, Kind::Colon)?;
    let of = term(arena, text, from, 1)?;
    Ok(EntryPart {
        kind: ItemKind::Line {
            body: body.body,
            of: of.tree,
        },
        end: of.end,
        next: of.next,
    })
}

fn primitive<'a>(arena: &'a Bump, text: &'a [u8], at: Token) -> Result<EntryPart<'a>, ParseFault>
    requires stands { Stands text.now at }
    requires kind { at.kind ≡ kinds.Prim }
    ensures read { MatchResult result (λ p. Read text.now (EntryIs (kind_view text.now p.kind) p.end) SomeEntry behind_term at p.next) (Fails text.now SomeEntry behind_term at) }
    ensures later { IfOk result (λ p. left text.now p.next < left text.now at) }
    ensures stands { IfOk result (λ p. Stands text.now p.next) }
{
    let colon = expect(text, at, Kind::Prim)?;
    let from = expect(text, colon, Kind::Colon)?;
    let of = term(arena, text, from, 1)?;
    Ok(EntryPart {
        kind: ItemKind::Prim(of.tree),
        end: of.end,
        next: of.next,
    })
}
