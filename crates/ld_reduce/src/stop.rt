//! Why a call with a budget stops.
use fb_base::NoMemory;
use ld_terms::TermFault;
use thiserror::Error;

/// Why there is no answer about a term.
#[derive(Clone, Copy, Debug, PartialEq, Eq, Error)]
pub enum Stop {
    /// A step is wanted and none is left.
    #[error("no step is left")]
    Spent,
    /// Readings are nested deeper than 1,000. No call of this crate is nested.
    #[error("the nesting is too deep")]
    Nested,
    /// A term that is formed on the way is higher than 500, or has a variable index above 65,535.
    #[error("a term is too high")]
    High,
    #[error("memory ran out")]
    Memory,
}

impl From<NoMemory> for Stop {
    ghost use Rattle.std.specs.Prelude.{◌≡◌};
    ghost use Rattle.ld_reduce.specs.declared.stop.Stop.TheVariants.{Memory};

    ghost from_gives = { λ _ stop. stop ≡ Memory };

    fn from(_: NoMemory) -> Self {
        Stop::Memory
    }
}

impl From<TermFault> for Stop {
    ghost use Rattle.std.specs.Prelude.{◌≡◌};
    ghost use Rattle.ld_reduce.specs.Cost.{stop_of};

    ghost from_gives = { λ fault stop. stop ≡ stop_of fault };

    fn from(fault: TermFault) -> Self {
        match fault {
            TermFault::High => Stop::High,
            TermFault::Memory => Stop::Memory,
        }
    }
}
