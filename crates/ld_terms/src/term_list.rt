//! A list of terms.
ghost use Rattle.std.specs.Prelude.{◌≡◌};

use crate::bank::TermId;
use std::marker::Model;

/// A list of terms, as the arguments of an instance or the types of parameters.
#[derive(Debug, Drop)]
pub struct Terms {
    terms: Vec<TermId>,
}

impl Model for Terms {
    ghost use Rattle.std.specs.Prelude.{List};
    ghost use Rattle.ld_terms.specs.declared.bank.TermId.{TermId};

    ghost Value = { List TermId };

    ghost view = { λ l. l.terms.items };
}

impl Terms {
    /// The list of the vector's terms, in its memory.
    pub fn from_vec(items: Vec<TermId>) -> Terms
        ensures { result ≡ items.items }
    {
        Terms { terms: items }
    }

    /// The terms, in their order.
    pub fn as_slice(&self) -> &[TermId]
        ensures { result.now ≡ self.now }
    {
        &self.terms
    }
}
