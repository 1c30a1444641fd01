//! Records from their tags, numbers and names.
ghost use Rattle.std.specs.Prelude.{◌≡◌, IfOk};
ghost use Rattle.ld_terms.specs.Record.{Record};
ghost use Rattle.dr_text.specs.Read.{parts_of};
ghost use Rattle.dr_check.specs.Rules.{eq_rule_of, rule_of};
ghost use Rattle.dr_check.specs.Spelled.{record_of};
ghost use Rattle.dr_check.specs.Decoded.{first, others, term_by, eq_rule_by, rule_by, last_by, record_by};

use crate::rules::{EqualRule, NodeRule};
use crate::spelled::{Claim, Spelled};
use dr_text::rec::{Numbers, Rec};
use fb_base::NoMemory;
use std::alloc::Global;

/// The record that was read. Memory is taken for its list of numbers only, as far as they stand in the file.
pub(crate) fn decode<'a>(alloc: Global, rec: &Rec<'a>) -> Result<Spelled<'a>, NoMemory>
    ensures { IfOk result (λ s. (r : Record) → rec.now ≡ parts_of r → record_of s ≡ r) }
{
    decode_parts(alloc, rec)
}

// The record with these parts.
fn decode_parts<'a>(alloc: Global, rec: &Rec<'a>) -> Result<Spelled<'a>, NoMemory>
    ensures { IfOk result (λ s. record_of s ≡ record_by rec.now) }
{
    let tag = rec.tag();
    let mut numbers = rec.numbers();
    if tag < 0x10 {
        decode_term(alloc, tag, &mut numbers)
    } else if tag < 0x20 {
        Ok(Spelled::Context(take(&mut numbers), take(&mut numbers)))
    } else if tag < 0x30 {
        let left = take(&mut numbers);
        let right = take(&mut numbers);
        let rule = decode_equal_rule(alloc, tag, &mut numbers)?;
        Ok(Spelled::Equal(left, right, rule))
    } else if tag < 0x40 {
        let claim = decode_claim(&mut numbers);
        let rule = decode_node_rule(alloc, tag, &mut numbers)?;
        Ok(Spelled::Node(claim, rule))
    } else {
        Ok(decode_last(tag, rec.name(), &mut numbers))
    }
}

fn decode_term<'a>(alloc: Global, tag: u8, numbers: &mut Numbers) -> Result<Spelled<'a>, NoMemory>
    ensures { IfOk result (λ s. record_of s ≡ term_by tag numbers.old) }
{
    Ok(match tag {
        0x01 => Spelled::Star,
        0x02 => Spelled::Box_,
        0x03 => Spelled::Var(take(numbers)),
        0x04 => Spelled::App(take(numbers), take(numbers)),
        0x05 => Spelled::Lam(take(numbers), take(numbers)),
        0x06 => Spelled::Pi(take(numbers), take(numbers)),
        _ => {
            let entry = take(numbers);
            let arguments = take_counted(alloc, numbers)?;
            Spelled::Const(entry, arguments)
        }
    })
}

fn decode_equal_rule(alloc: Global, tag: u8, numbers: &mut Numbers) -> Result<EqualRule, NoMemory>
    ensures { IfOk result (λ rule. eq_rule_of rule ≡ eq_rule_by tag numbers.old) }
{
    Ok(match tag {
        0x20 => EqualRule::Refl,
        0x21 => EqualRule::Sym(take(numbers)),
        0x22 => EqualRule::Trans(take(numbers), take(numbers)),
        0x23 => EqualRule::Beta,
        0x24 => EqualRule::Delta,
        0x25 => EqualRule::App(take(numbers), take(numbers)),
        0x26 => EqualRule::Lam(take(numbers), take(numbers)),
        0x27 => EqualRule::Pi(take(numbers), take(numbers)),
        _ => EqualRule::Const(take_counted(alloc, numbers)?),
    })
}

fn decode_claim(numbers: &mut Numbers) -> Claim
    ensures entries { result.entries ≡ first numbers.old }
    ensures ctx { result.ctx ≡ first (others numbers.old) }
    ensures term { result.term ≡ first (others (others numbers.old)) }
    ensures of { result.of ≡ first (others (others (others numbers.old))) }
    ensures rest { numbers.new ≡ others (others (others (others numbers.old))) }
{
    Claim {
        entries: take(numbers),
        ctx: take(numbers),
        term: take(numbers),
        of: take(numbers),
    }
}

fn decode_node_rule(alloc: Global, tag: u8, numbers: &mut Numbers) -> Result<NodeRule, NoMemory>
    ensures { IfOk result (λ rule. rule_of rule ≡ rule_by tag numbers.old) }
{
    Ok(match tag {
        0x30 => NodeRule::Sort,
        0x31 => NodeRule::Var(take(numbers)),
        0x32 => NodeRule::Weak(take(numbers), take(numbers)),
        0x33 => NodeRule::Form(take(numbers), take(numbers)),
        0x34 => NodeRule::Appl(take(numbers), take(numbers)),
        0x35 => NodeRule::Abst(take(numbers), take(numbers)),
        0x36 => NodeRule::Conv(take(numbers), take(numbers), take(numbers)),
        0x37 => NodeRule::Def(take(numbers)),
        0x38 => NodeRule::DefPrim(take(numbers)),
        0x39 => {
            let star = take(numbers);
            NodeRule::Inst(star, take_counted(alloc, numbers)?)
        }
        _ => {
            let star = take(numbers);
            NodeRule::InstPrim(star, take_counted(alloc, numbers)?)
        }
    })
}

// The records of entries, flags and the end. A name's length stands before it.
fn decode_last<'a>(tag: u8, name: &'a [u8], numbers: &mut Numbers) -> Spelled<'a>
    ensures { record_of result ≡ last_by tag name.now numbers.old }
{
    match tag {
        0x40 => {
            let _length = take(numbers);
            Spelled::Entry(name, take(numbers))
        }
        0x41 => {
            let _length = take(numbers);
            Spelled::PrimEntry(name, take(numbers))
        }
        0x50 => Spelled::Flag(take(numbers)),
        _ => Spelled::End(take(numbers)),
    }
}

// The next number. A record that was read has as many as are taken from it.
fn take(numbers: &mut Numbers) -> usize
    ensures number { result ≡ first numbers.old }
    ensures rest { numbers.new ≡ others numbers.old }
{
    match numbers.next() {
        Some(n) => n as usize,
        None => 0,
    }
}

// The numbers behind their count, up to the last.
fn take_counted(alloc: Global, numbers: &mut Numbers) -> Result<Vec<usize>, NoMemory>
    ensures { IfOk result (λ taken. taken.items ≡ others numbers.old) }
{
    let _count = take(numbers);
    let mut taken = Vec::new(alloc);
    while let Some(n) = numbers.next() {
        taken.push(n as usize).map_err(|_| NoMemory)?;
    }
    Ok(taken)
}
