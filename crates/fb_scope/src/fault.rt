//! Why a name, a flag or a depth is refused.
use thiserror::Error;

/// Why a name stands for nothing, or flags are not opened or closed.
#[derive(Debug, Drop, Error, PartialEq, Eq)]
pub enum ScopeFault {
    #[error("nothing has this name")]
    Unknown,
    /// A binder or a flag takes no list of arguments.
    #[error("the name is no entry's")]
    NotAConstant,
    #[error("at least {wanted} arguments are wanted, {given} are given")]
    ParamsMissing { wanted: u32, given: u32 },
    #[error("at most {wanted} arguments are wanted, {given} are given")]
    ParamsMany { wanted: u32, given: u32 },
    #[error("an open flag has this name")]
    FlagTaken,
    #[error("{bars} flags are to stay open, {flags} are")]
    DepthTooGreat { bars: u32, flags: u32 },
    #[error("64 flags are open")]
    ManyFlags,
    #[error("memory ran out")]
    Memory,
}
