//! The laws of the canonical text: it is read as the tree that it was written from, spans aside.
ghost use Rattle.fb_write.specs.ReadBack.{GivenTermsAreWritable, TermsReadBack, SpansDontCount, GivenItemsAreWritable, ItemSpansDontCount, ItemsReadBack, BooksGoOn};
ghost use Rattle.fb_write.specs.Joined.{TextsJoin, BooksJoin};

/// A term is writable exactly where some text gives it, spans aside, and is then read from its canonical text.
pub fn terms_read_back()
    ensures given { GivenTermsAreWritable }
    ensures spans { SpansDontCount }
    ensures back { TermsReadBack }
{}

/// The items of a book are writable, and those that are writable are read from their canonical texts.
pub fn items_read_back()
    ensures given { GivenItemsAreWritable }
    ensures spans { ItemSpansDontCount }
    ensures back { ItemsReadBack }
{}

/// Behind a book's text and a line feed, the canonical texts of items are read as these items, behind the book's own.
pub fn books_go_on()
    ensures { BooksGoOn }
{}

/// The tokens of two texts with a line feed between them are those of both, and are the book of the items of both.
pub fn texts_join()
    ensures tokens { TextsJoin }
    ensures items { BooksJoin }
{}
