//! The laws of derivations: a judgement that has been kept or read as an instance of its rule is derivable, and the two sides
//! of such an equality are convertible.
ghost use Rattle.ld_record.specs.Laws.{NodesAreDerivable, EqualitiesAreConvertible, EnvironmentIsLegal};
ghost use Rattle.ld_record.specs.Laws.{KeptNodesAreDerivable, KeptEqualitiesAreConvertible, KeptTermsAreNamed};

/// The nodes of records that stand one after another are derivable, each over the entries below its number.
pub fn nodes_are_derivable()
    ensures { NodesAreDerivable }
{}

/// The two sides of each equality of such records are convertible by beta and delta, over the entries below its bound.
pub fn equalities_are_convertible()
    ensures { EqualitiesAreConvertible }
{}

/// The environment of such records, where they may be ended, is legal.
pub fn environment_is_legal()
    ensures { EnvironmentIsLegal }
{}

/// The judgements that a [`Deriv`](crate::Deriv) keeps are derivable.
pub fn kept_nodes_are_derivable()
    ensures { KeptNodesAreDerivable }
{}

/// The two sides of each equality that a [`Deriv`](crate::Deriv) keeps are convertible by beta and delta, over the entries
/// below its bound.
pub fn kept_equalities_are_convertible()
    ensures { KeptEqualitiesAreConvertible }
{}

/// The terms and types of the kept judgements name only entries that are there, with as many arguments as parameters.
pub fn kept_terms_are_named()
    ensures { KeptTermsAreNamed }
{}
