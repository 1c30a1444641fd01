//! The laws of the verdict.
//!
//! They speak of the plain verdict alone, and not of code.
ghost use Rattle.book_top.specs.Laws.{JudgedOnce};
ghost use Rattle.book_top.specs.Growing.{BooksGrow};
ghost use Rattle.book_top.specs.Rightness.{VerdictDerivable, RefusedUnderivable};

/// An item of a book has at most one verdict, at one cost.
pub fn judged_once()
    ensures { JudgedOnce }
{}

/// Over a legal environment and context, what the rule of an accepted item asks for is derivable, where the flags beyond its
/// bars are closed.
pub fn verdict_derivable()
    ensures { VerdictDerivable }
{}

/// What the rule of an item asks for isn't derivable where the item is refused by a rule, and what the reason of the refusal
/// says holds of the part of the item at the refusal's path.
pub fn refused_underivable()
    ensures { RefusedUnderivable }
{}

/// With an item that is accepted, a legal book is legal again; so each book of accepted items is legal.
pub fn books_grow()
    ensures { BooksGrow }
{}
