//! What a run answers.

use dr_text::reader::RecordFault;
use fb_base::Span;
use ld_infer::{Path, RuleName};

/// The text in which a fault lies.
#[derive(Clone, Copy, Debug, PartialEq, Eq)]
pub enum Side {
    /// The book.
    Book,
}

/// What a run that did its work counted: the items and entries of the book, and the sum of its items' costs in
/// steps (docs/calculus.md, "What it costs"). A verification counts entries alone; the other two are 0.
#[derive(Clone, Copy, Debug, PartialEq, Eq)]
pub struct Summary {
    pub items: u64,
    pub entries: u64,
    pub steps: u64,
}

/// Why a text has no reading.
#[derive(Clone, Copy, Debug, PartialEq, Eq)]
pub enum TextWhat {
    /// No token begins with the byte, or a character isn't UTF-8.
    BadByte,
    /// A name has more than 255 bytes.
    LongName,
    /// A token with which the tokens before it begin no book.
    Syntax,
    /// No binder, open flag or entry has the name.
    Unknown,
    /// The name has arguments touching it, and is that of a binder or an open flag.
    NotAConstant,
    /// Fewer arguments are given than are wanted: those for the parameters of the entry whose flags aren't open.
    ParamsMissing { wanted: u32, given: u32 },
    /// More arguments are given than the entry has parameters, which are those wanted.
    ParamsMany { wanted: u32, given: u32 },
    /// An open flag has the name already.
    FlagTaken,
    /// An entry has the name already.
    NameTaken,
    /// The item has more bars than flags are open.
    DepthTooGreat { bars: u32, flags: u32 },
    /// A body of a line that this version does not do yet. The span is the item's.
    NotBuilt,
}

/// A fault of a text, and where it is. The span of a fault of tokens or of the grammar is empty.
#[derive(Clone, Copy, Debug, PartialEq, Eq)]
pub struct TextFault {
    pub side: Side,
    pub at: Span,
    pub what: TextWhat,
}

/// Why a premise fails.
#[derive(Clone, Copy, Debug, PartialEq, Eq)]
pub enum WhyName {
    /// The part is `box`, which has no type.
    NoType,
    /// No sort is the type that was found for the part.
    NotSort,
    /// No product is the type that was found for the part.
    NotFunction,
    /// The part is an abstraction whose body has the type `box`.
    BoxBody,
    /// The part has another type than the one that is wanted.
    NotSame,
}

/// The first item that a rule refuses: its number, counted from 1, its span, and the premise that fails, with the
/// path from the item to the part at which it fails.
#[derive(Debug, Drop)]
pub struct RuleFault {
    pub side: Side,
    pub item: u64,
    pub at: Span,
    pub rule: RuleName,
    pub premise: u32,
    pub path: Path,
    pub why: WhyName,
}

/// What the judging of an item wants more of than it may have.
#[derive(Clone, Copy, Debug, PartialEq, Eq)]
pub enum Want {
    /// More steps than the budget.
    Steps,
    /// A term higher than 500, or a variable index above 65,535.
    Height,
    /// Readings nested deeper than 1,000.
    Nesting,
}

/// The first item that isn't judged within its budget and the limits of judging: its number, counted from 1, and its span.
#[derive(Clone, Copy, Debug, PartialEq, Eq)]
pub struct BudgetFault {
    pub side: Side,
    pub item: u64,
    pub at: Span,
    pub want: Want,
}

/// A limit that a text passed. Offsets are in bytes.
#[derive(Clone, Copy, Debug, PartialEq, Eq)]
pub enum LimitFault {
    /// The book has more than 4,194,304 bytes.
    BookBytes,
    /// The derivation file has more than 536,870,912 bytes.
    DerivBytes,
    /// A term nested deeper than 500 begins at the offset.
    Nesting(usize),
    /// Item 100,001 begins at the offset.
    Items(usize),
    /// A term of the item that begins at the offset is higher than 500.
    Height(usize),
    /// The item that begins at the offset would open flag 65.
    Flags(usize),
}

/// The answer of a run.
#[derive(Debug, Drop)]
pub enum Status {
    /// The book is accepted, and its derivation written; or the file is a derivation.
    Done(Summary),
    /// The book has no reading: its text is none, or its first refused item has more bars than flags are open, a taken
    /// name, a name that stands for nothing with the arguments that it is given, or a form that isn't built.
    Text(TextFault),
    /// The words ask for nothing that is known.
    Usage,
    /// A rule refuses the first item that is refused.
    Rule(RuleFault),
    /// The budget is below the cost of the first item that is refused, or a limit of judging is passed there.
    Budget(BudgetFault),
    /// A file could not be read or written, or the report not said.
    Desk,
    /// The book or the derivation file passes a limit.
    Limit(LimitFault),
    /// Memory ran out.
    Memory,
    /// The file is no derivation: its first fault. For want of memory the answer is `Memory`.
    BadRecord(RecordFault),
}

impl Status {
    ghost use Rattle.book_top.specs.Report.{code_of};
    ghost use Rattle.std.specs.Prelude.{◌≡◌};

    /// The status with which the program ends.
    pub fn code(&self) -> u8
        ensures { result ≡ code_of self.now }
    {
        match self {
            Status::Done(_) => 0,
            Status::Text(_) => 1,
            Status::Usage => 2,
            Status::Rule(_) => 3,
            Status::Budget(_) => 4,
            Status::Desk => 5,
            Status::Limit(_) => 6,
            Status::Memory => 7,
            Status::BadRecord(_) => 8,
        }
    }
}
