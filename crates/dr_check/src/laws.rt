//! The law of refused files: their bytes determine the fault.
ghost use Rattle.dr_check.specs.Laws.{OneFirstFault};

/// A file has one first fault.
pub fn one_first_fault()
    ensures { OneFirstFault }
{}
