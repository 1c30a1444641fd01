//! The laws of the comparison.
ghost use Rattle.ld_convert.specs.Laws.{ComparesOnce};
ghost use Rattle.ld_convert.specs.Apartness.{ComparesApart};
ghost use Rattle.ld_convert.specs.Sameness.{ComparesSame};

/// From the same known pairs, a comparison has at most one answer, leaves the same known pairs and makes the same number
/// of steps.
pub fn compares_once()
    ensures { ComparesOnce }
{}

/// In a scoped environment, where a comparison ends with two trees apart, neither these nor the two that were compared are
/// convertible. Nothing is asked of the known pairs or of types.
pub fn compares_apart()
    ensures { ComparesApart }
{}

/// From known pairs whose trees are convertible, two terms that a comparison finds the same are convertible. Whatever it
/// answers, the known pairs that it leaves are again such pairs. Nothing is asked of the environment or of types.
pub fn compares_same()
    ensures { ComparesSame }
{}
