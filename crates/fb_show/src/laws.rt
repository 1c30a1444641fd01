//! The laws of shown terms: the shown tree is read as the term and can be written, and no entry has the name of a level.
ghost use Rattle.fb_show.specs.Laws.{BasesAreLeast, ReadsAsShown, ShownIsWritable};

/// A shown term is read as the term.
pub fn shown_terms_read_back()
    ensures { ReadsAsShown }
{}

/// A shown term has a canonical text, which is read as its tree.
pub fn shown_terms_are_writable()
    ensures { ShownIsWritable }
{}

/// The base has the least number of letters that no entry's name has before digits.
pub fn bases_are_least()
    ensures { BasesAreLeast }
{}
