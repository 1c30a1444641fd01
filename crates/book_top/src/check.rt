//! The check of a parsed book, and the writing of its derivation.
ghost use Rattle.std.specs.Prelude.{◌≡◌, ◌≤◌, true, IsTrue, List, [], length, All, Some, IfSome, IfOk, IfErr, OnOk, IsErrOf};
ghost use Rattle.fb_base.specs.Desk.{Rose, OthersStay, content_of};
ghost use Rattle.fb_parse.specs.ItemView.{item_view, items_view};
ghost use Rattle.fb_scope.specs.State.{start};
ghost use Rattle.ld_terms.specs.Tree.{Nil, count};
ghost use Rattle.ld_terms.specs.Item as term;
ghost use Rattle.ld_terms.specs.Known.{nothing};
ghost use Rattle.ld_record.specs.Kept.{IsSound};
ghost use Rattle.ld_record.specs.Growth.{Knows, Adds};
ghost use Rattle.dr_text.specs.Spelling.{header as header_bytes};
ghost use Rattle.dr_text.specs.Written.{IsWritten, last_judgement};
ghost use Rattle.dr_text.specs.Derives.{Derives};
ghost use Rattle.ld_infer.specs.Standing.{known, env, Continues};
ghost use Rattle.book_top.specs.Desk.{OnlyTarget};
ghost use Rattle.book_top.specs.Chunks.{WritesChunk};
ghost use Rattle.book_top.specs.Left.{BeginsFile};
ghost use Rattle.book_top.specs.Checked.{stop_at, StopsItem, StopsEnd, IsChecked};
ghost use Rattle.book_top.specs.Judged.{IsNameSpan, IsInStep, HasRoom, IsAccepted};

use crate::item::{ItemStop, judge_item};
use crate::status::Summary;
use dr_text::{Writer, header};
use fb_base::{Desk, DeskFault, NoMemory, Span};
use fb_parse::Item;
use fb_scope::Scope;
use ld_defrules::close_to;
use ld_infer::Theory;
use ld_record::JudgeId;
use std::alloc::Global;

/// Why a check stopped.
#[derive(Debug, Drop)]
pub enum Stop {
    Desk,
    Memory,
    /// The item of this number, counted from 1, isn't accepted.
    Item(u64, Span, ItemStop),
}

impl From<DeskFault> for Stop {
    ghost use Rattle.std.specs.Prelude.{◌≡◌};
    ghost use Rattle.book_top.specs.Chunks.{stop_by};

    ghost from_gives = { λ fault stop. stop ≡ stop_by fault };

    fn from(fault: DeskFault) -> Self {
        match fault {
            DeskFault::Failed => Stop::Desk,
            DeskFault::Memory => Stop::Memory,
        }
    }
}

impl From<NoMemory> for Stop {
    ghost use Rattle.std.specs.Prelude.{◌≡◌};
    ghost use Rattle.book_top.specs.declared.check.Stop.TheVariants.{Memory};

    ghost from_gives = { λ _ stop. stop ≡ Memory };

    fn from(_: NoMemory) -> Self {
        Stop::Memory
    }
}

// Writes the records that are not written, and with a judgement the end of the file.
fn write_chunk<D: Desk>(
    alloc: Global,
    theory: &Theory,
    writer: &mut Writer,
    ended: Option<JudgeId>,
    desk: &mut D,
) -> Result<(), DeskFault>
    requires started { (D.seen desk.old).started ≡ true }
    requires written { writer.old.written ≤ length theory.now.kept }
    requires ended { IfSome ended (λ j. Knows (known theory.now) j (last_judgement (known theory.now))) }
    ensures chunk { WritesChunk theory.now.items theory.now.kept writer.old writer.new ended (D.seen desk.old) (D.seen desk.new) result }
    ensures written { OnOk result (writer.new.written ≡ length theory.now.kept) }
    ensures sound { OnOk result (IsSound theory.now.items theory.now.kept) }
    ensures stays { OnlyTarget (D.seen desk.old) (D.seen desk.new) }
    ensures failed { IsErrOf result DeskFault.Failed → writer.new.written ≡ length theory.now.kept }
    ensures desk { IsErrOf result DeskFault.Failed → Rose (D.seen desk.old).faults (D.seen desk.new).faults }
    ensures never { IsErrOf result DeskFault.Failed → IsTrue (D.seen desk.old).tells_files → IsTrue (D.seen desk.old).sound → ⊥ }
{
    let mut out = Vec::new(alloc);
    writer.chunk(theory.bank(), theory.deriv(), ended, &mut out)?;
    desk.append(&out)
}

// Judges one item, and writes its records. It gives the steps of the judging.
fn check_item<D: Desk>(
    alloc: Global,
    theory: &mut Theory,
    scope: &mut Scope,
    writer: &mut Writer,
    desk: &mut D,
    text: &[u8],
    number: u64,
    item: &Item,
    budget: u64,
) -> Result<u64, Stop>
    requires name { IsNameSpan text.now item.now.name }
    requires step { IsInStep theory.old scope.old }
    requires room { HasRoom theory.old scope.old }
    requires started { (D.seen desk.old).started ≡ true }
    requires written { writer.old.written ≤ length theory.old.kept }
    ensures writes { OnOk result (IsSound theory.old.items theory.old.kept → IsTrue (D.seen desk.old).tells_files
        → IsWritten theory.old.items theory.old.kept writer.old (content_of (D.seen desk.old) (D.seen desk.old).target)
        → IsWritten theory.new.items theory.new.kept writer.new (content_of (D.seen desk.new) (D.seen desk.old).target)) }
    ensures written { OnOk result (writer.new.written ≡ length theory.new.kept) }
    ensures sound { OnOk result (IsSound theory.new.items theory.new.kept) }
    ensures accepted { IfOk result (λ steps. IsAccepted budget theory.old theory.new scope.old scope.new (item_view text.now item.now) steps) }
    ensures step { OnOk result (IsInStep theory.new scope.new) }
    ensures stays { OnlyTarget (D.seen desk.old) (D.seen desk.new) }
    ensures stops { IfErr result (λ stop. StopsItem budget theory.old theory.new scope.old scope.new writer.old writer.new (D.seen desk.old) (D.seen desk.new) (item_view text.now item.now) number stop) }
    ensures desk { IsErrOf result Stop.Desk → Rose (D.seen desk.old).faults (D.seen desk.new).faults }
    ensures never { IsErrOf result Stop.Desk → IsTrue (D.seen desk.old).tells_files → IsTrue (D.seen desk.old).sound → ⊥ }
{
    let steps = match judge_item(alloc, theory, scope, text, item, budget) {
        Ok(steps) => steps,
        Err(stop) => return Err(refused(stop, number, item.span)),
    };
    write_chunk(alloc, theory, writer, None, desk)?;
    Ok(steps)
}

// Where a check stops for an item of this number.
fn refused(stop: ItemStop, number: u64, at: Span) -> Stop
    ensures { result ≡ stop_at number at stop }
{
    match stop {
        ItemStop::Memory => Stop::Memory,
        stop => Stop::Item(number, at, stop),
    }
}

// Starts the file, with its header.
fn begin<D: Desk>(desk: &mut D, out: &str) -> Result<(), DeskFault>
    ensures started { OnOk result ((D.seen desk.new).started ≡ true) }
    ensures target { OnOk result (IsTrue (D.seen desk.old).tells_files → (D.seen desk.new).target ≡ out.now) }
    ensures header { OnOk result (IsTrue (D.seen desk.old).tells_files → (D.seen desk.new).files out.now ≡ Some header_bytes) }
    ensures begun { IfErr result (λ fault. IsTrue (D.seen desk.old).tells_files → BeginsFile ((D.seen desk.old).files out.now) ((D.seen desk.new).files out.now) fault) }
    ensures told { (D.seen desk.new).tells_files ≡ (D.seen desk.old).tells_files }
    ensures tells_said { (D.seen desk.new).tells_said ≡ (D.seen desk.old).tells_said }
    ensures said { (D.seen desk.new).said ≡ (D.seen desk.old).said }
    ensures others { IsTrue (D.seen desk.old).tells_files → OthersStay (D.seen desk.old) (D.seen desk.new) out.now }
    ensures never_falls { (D.seen desk.old).faults ≤ (D.seen desk.new).faults }
    ensures sound_stays { (D.seen desk.new).sound ≡ (D.seen desk.old).sound }
    ensures desk { IsErrOf result DeskFault.Failed → Rose (D.seen desk.old).faults (D.seen desk.new).faults }
    ensures never { IsErrOf result DeskFault.Failed → IsTrue (D.seen desk.old).tells_files → IsTrue (D.seen desk.old).sound → ⊥ }
{
    desk.start(out)?;
    desk.append(header())
}

// Closes all flags, for the judgement with which a derivation ends.
fn end_judgement(theory: &mut Theory) -> Result<JudgeId, NoMemory>
    requires few { count theory.old.context ≤ 64 }
    ensures number { IfOk result (λ j. Knows (known theory.new) j (last_judgement (known theory.new))) }
    ensures continues { Continues (record theory.old { context = Nil }) theory.new }
{
    close_to(theory, 0);
    theory.star_judgement()
}

// Writes the end of the file.
fn finish<D: Desk>(
    alloc: Global,
    theory: &mut Theory,
    writer: &mut Writer,
    desk: &mut D,
) -> Result<(), Stop>
    requires few { count theory.old.context ≤ 64 }
    requires started { (D.seen desk.old).started ≡ true }
    requires written { writer.old.written ≤ length theory.old.kept }
    ensures done { OnOk result (IsSound theory.old.items theory.old.kept → IsTrue (D.seen desk.old).tells_files
        → IsWritten theory.old.items theory.old.kept writer.old (content_of (D.seen desk.old) (D.seen desk.old).target)
        → Derives (content_of (D.seen desk.new) (D.seen desk.old).target) (env theory.old) (known theory.old).notes) }
    ensures stays { OnlyTarget (D.seen desk.old) (D.seen desk.new) }
    ensures entries { OnOk result (env theory.new ≡ env theory.old) }
    ensures stops { IfErr result (λ stop. StopsEnd theory.old writer.old (D.seen desk.old) (D.seen desk.new) stop) }
    ensures desk { IsErrOf result Stop.Desk → Rose (D.seen desk.old).faults (D.seen desk.new).faults }
    ensures never { IsErrOf result Stop.Desk → IsTrue (D.seen desk.old).tells_files → IsTrue (D.seen desk.old).sound → ⊥ }
{
    let star = end_judgement(theory)?;
    write_chunk(alloc, theory, writer, Some(star), desk)?;
    Ok(())
}

// A theory without entries, with nothing open, and nothing of it written but the header.
fn fresh(alloc: Global) -> Result<(Theory, Scope, Writer), NoMemory>
    ensures known { IfOk result (λ all. Adds nothing (known all.0)) }
    ensures sound { IfOk result (λ all. IsSound all.0.items all.0.kept) }
    ensures context { IfOk result (λ all. all.0.context ≡ Nil) }
    ensures scope { IfOk result (λ all. all.1 ≡ start) }
    ensures writer { IfOk result (λ all. (items : List term.Item) → IsWritten items [] all.2 header_bytes) }
{
    let theory = Theory::new(alloc)?;
    Ok((theory, Scope::new(alloc), Writer::new(alloc)))
}

// What a check of these items says where it is done.
fn summary(theory: &Theory, items: &[Item], steps: u64) -> Summary
    ensures items { result.items ≡ length items.now }
    ensures entries { result.entries ≡ length (env theory.now) }
    ensures steps { result.steps ≡ steps }
{
    Summary {
        items: items.len() as u64,
        entries: theory.env().len() as u64,
        steps,
    }
}

/// Checks the items of a book with this text, each within the budget, and writes the derivation.
pub fn check_items<D: Desk>(
    alloc: Global,
    desk: &mut D,
    out: &str,
    text: &[u8],
    items: &[Item],
    budget: u64,
) -> Result<Summary, Stop>
    requires names { All (λ i. IsNameSpan text.now i.name) items.now }
    requires few { length items.now ≤ 100000 }
    requires budget { budget ≤ 1000000000 }
    ensures answer { IsTrue (D.seen desk.old).tells_files → IsChecked budget ((D.seen desk.old).files out.now) ((D.seen desk.new).files out.now) (items_view text.now items.now) result }
    ensures others { IsTrue (D.seen desk.old).tells_files → OthersStay (D.seen desk.old) (D.seen desk.new) out.now }
    ensures never_falls { (D.seen desk.old).faults ≤ (D.seen desk.new).faults }
    ensures told { (D.seen desk.new).tells_files ≡ (D.seen desk.old).tells_files }
    ensures tells_said { (D.seen desk.new).tells_said ≡ (D.seen desk.old).tells_said }
    ensures said { (D.seen desk.new).said ≡ (D.seen desk.old).said }
    ensures sound_stays { (D.seen desk.new).sound ≡ (D.seen desk.old).sound }
    ensures desk { IsErrOf result Stop.Desk → Rose (D.seen desk.old).faults (D.seen desk.new).faults }
    ensures never { IsErrOf result Stop.Desk → IsTrue (D.seen desk.old).tells_files → IsTrue (D.seen desk.old).sound → ⊥ }
{
    begin(desk, out)?;
    let (mut theory, mut scope, mut writer) = fresh(alloc)?;
    let mut steps = 0;
    for (number, item) in items.iter().enumerate() {
        steps += check_item(
            alloc,
            &mut theory,
            &mut scope,
            &mut writer,
            desk,
            text,
            number as u64 + 1,
            item,
            budget,
        )?;
    }
    finish(alloc, &mut theory, &mut writer, desk)?;
    Ok(summary(&theory, items, steps))
}
