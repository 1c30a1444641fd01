//! The laws of judging an item.
//!
//! They speak of the plain judging alone, and not of code.
ghost use Rattle.ld_defrules.specs.Laws.{JudgesOnce};
ghost use Rattle.ld_defrules.specs.Rightness.{JudgingRight, ReasonsHold};

/// From the same known pairs, the judging of an item has at most one answer, leaves the same known pairs and makes the same
/// number of steps.
pub fn judges_once()
    ensures { JudgesOnce }
{}

/// In a legal context, and from known pairs whose trees are convertible: where a flag or a primitive is accepted, its type has
/// a sort, and where a line is, its body has the stated type; where a rule refuses the item, this isn't derivable.
pub fn judging_right()
    ensures { JudgingRight }
{}

/// There too: what the reason of a refusal says holds of the part of the item at the refusal's path, in a context of as many
/// variables as it says. The path leads into the item's type or into a line's body.
pub fn reasons_hold()
    ensures { ReasonsHold }
{}
