//! The laws of the reading.
//!
//! They speak of the plain reading alone, and not of code. All but the first ask that the context is legal, which it is only
//! over a legal environment, and that the trees of each pair known at the start are convertible over it.
ghost use Rattle.ld_infer.specs.Laws.{ReadsOnce};
ghost use Rattle.ld_infer.specs.Rightness.{ReadingDerivable, RefusedUntyped, AgainNotRefused, ReasonsHold};

/// From the same known pairs, the reading of a term has at most one answer, leaves the same known pairs and makes the same
/// number of steps; and so has the sort of a term.
pub fn reads_once()
    ensures { ReadsOnce }
{}

/// A type that a reading gives is derivable, and has a sort where its sort comes with it; a sort that it gives is a type of the
/// term. Whatever it answers, the known pairs that it leaves are again convertible.
pub fn reading_derivable()
    ensures { ReadingDerivable }
{}

/// A term that a reading refuses has no type in its context; and where its sort is refused, no sort is a type of it.
pub fn refused_untyped()
    ensures { RefusedUntyped }
{}

/// A type that has a sort is not refused where it is typed again. What a reading types again has one: the type of a body
/// that isn't `box`, a product to which the type of a function leads, and the type that is wanted of an argument. So each
/// refusal points to a part of the term itself, and none to a type that is typed again, as [`reasons_hold`] says.
pub fn again_not_refused()
    ensures { AgainNotRefused }
{}

/// What the reason of a refusal says holds of the part at the refusal's path, in a context of as many variables as it says.
pub fn reasons_hold()
    ensures { ReasonsHold }
{}
