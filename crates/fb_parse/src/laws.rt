//! The laws of reading: a text is one term or one book at most, or is refused in one way, apart from want of memory. The items of
//! a book have names of the text form.
ghost use Rattle.fb_parse.specs.Laws.{OneReadingAsTerm, OneReadingAsBook, OneTerm, OneBook, TermsAreNotRefused, BooksAreNotRefused, OneRefusalOfTerms, OneRefusalOfBooks, ItemNamesAreSpelled};

/// A list of tokens is one term at most, and the book of one list of items.
pub fn one_reading()
    ensures as_term { OneReadingAsTerm }
    ensures as_book { OneReadingAsBook }
{}

/// A text is one term at most: the tree that [`parse_term`](crate::parse_term) gives is the only one.
pub fn one_term()
    ensures { OneTerm }
{}

/// A text is the book of one list of items at most: those that [`parse_book`](crate::parse_book) gives are the only ones.
pub fn one_book()
    ensures { OneBook }
{}

/// A text that is a term, or a book, is refused for want of memory alone.
pub fn not_refused()
    ensures terms { TermsAreNotRefused }
    ensures books { BooksAreNotRefused }
{}

/// A text is refused in one way at most, apart from want of memory.
pub fn one_refusal()
    ensures terms { OneRefusalOfTerms }
    ensures books { OneRefusalOfBooks }
{}

/// Each entry and each flag of a book has a name as the tokens have it, and so one that can be written and read again.
pub fn item_names_are_spelled()
    ensures { ItemNamesAreSpelled }
{}
