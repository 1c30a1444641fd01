//! The laws of printed proofs.
//!
//! They speak of the items of a term, or of an entry, as they are defined, and not of code or of text. Those of the
//! readings and of types ask that what is printed has a type, and that the trees of each pair known at the start are convertible.
ghost use Rattle.fb_steps.specs.Agreement.{PlacesAgree};
ghost use Rattle.fb_steps.specs.Laws.{ItemsUnfold, ItemsDerivable, ItemsShown, NeverRefused, PlacesLegal};
ghost use Rattle.fb_steps.specs.Named.{LineNamed, LinesNamed};
ghost use Rattle.fb_steps.specs.Small.{ItemsSmall};
ghost use Rattle.fb_steps.specs.Once.{StepsOnce, SpellsOnce};

/// The items spell entries behind those that are there: each line's body unfolds to the part for which it is printed, the last
/// line's to the whole term, under the term's flags; and the last stated type is the term's.
pub fn items_unfold()
    ensures { ItemsUnfold }
{}

/// What each item's rule asks for is derivable after the items before it. So the environment that the items spell is legal, and
/// none of them is refused by a rule.
pub fn items_derivable()
    ensures { ItemsDerivable }
{}

/// Where items have derivations, a book with a legal context is one again after each of them.
pub fn places_legal()
    ensures { PlacesLegal }
{}

/// No reading that is made for the items is refused by a rule.
pub fn never_refused()
    ensures { NeverRefused }
{}

/// Each tree that an item shows is a term over the entries that were there and the flags at its depth, with as many arguments in
/// each instance as its entry has parameters; and no flag is opened where 64 are open.
pub fn items_shown()
    ensures { ItemsShown }
{}

/// Where the term and its type are small, so are the terms of each item as they are read.
pub fn items_small()
    ensures { ItemsSmall }
{}

/// From the same known pairs, steps left and lines before, the work ends in one way at most, with one list of items.
pub fn steps_once()
    ensures { StepsOnce }
{}

/// Items spell one place at most.
pub fn spells_once()
    ensures { SpellsOnce }
{}

/// Where a line was made under the open flags and no others, its name stands for its instance with all of them.
pub fn line_named()
    ensures { LineNamed }
{}

/// Each entry that items add has the name of a line of its number.
pub fn lines_named()
    ensures { LinesNamed }
{}

/// A place and a book that agree do so again where flags are closed, a flag is opened or a line is added.
pub fn places_agree()
    ensures { PlacesAgree }
{}
