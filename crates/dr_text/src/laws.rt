//! The laws of derivation files: the bytes determine what is read.
ghost use Rattle.dr_text.specs.Laws.{OneNumber, OneSpelling, OneRecord, OneOfParts, OneList, OneEnvironment, DerivedIsLegal};

/// A number's spelling is read one way.
pub fn one_number()
    ensures { OneNumber }
{}

/// One record stands at a place, and its spelling begins that of no other.
pub fn one_record()
    ensures spelling { OneSpelling }
    ensures place { OneRecord }
{}

/// What a [`Rec`](crate::rec::Rec) gives is that of one record.
pub fn one_of_parts()
    ensures { OneOfParts }
{}

/// A file spells one list of records.
pub fn one_list()
    ensures { OneList }
{}

/// A file that derives an environment derives no second one.
pub fn one_environment()
    ensures { OneEnvironment }
{}

/// The environment that a file derives is legal.
pub fn derived_is_legal()
    ensures { DerivedIsLegal }
{}
