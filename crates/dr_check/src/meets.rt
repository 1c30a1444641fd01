//! Whether the record of an entry, of a flag or of the end meets its condition.
ghost use Rattle.std.specs.Prelude.{◌≡◌, ◌↔◌, ◌<◌, length, IsTrue};
ghost use Rattle.ld_terms.specs.Derivable.{IsSort};
ghost use Rattle.ld_terms.specs.Entry.{IsFresh};
ghost use Rattle.ld_terms.specs.Known.{judgement_at, IsFree, IsNode, IsOverAll, MayBeLine, MayBePrimitive, MayBeFlag, MayEnd};

use crate::checker::Checker;
use crate::compare::{is_empty, is_sort};
use crate::known::judges_star;

/// Whether a node may be kept as a line under the name.
pub(crate) fn may_be_line(checker: &Checker, name: &[u8], n: usize) -> bool
    requires { IsNode checker.now.state.known n }
    ensures { IsTrue result ↔ MayBeLine checker.now.state.known name.now n }
{
    is_free(checker, name) && is_over_all(checker, n)
}

/// Whether a node may be kept as a primitive under the name.
pub(crate) fn may_be_primitive(checker: &Checker, name: &[u8], n: usize) -> bool
    requires { IsNode checker.now.state.known n }
    ensures { IsTrue result ↔ MayBePrimitive checker.now.state.known name.now n }
{
    is_free(checker, name) && may_be_flag(checker, n)
}

/// Whether a node may be kept as a flag.
pub(crate) fn may_be_flag(checker: &Checker, n: usize) -> bool
    requires { IsNode checker.now.state.known n }
    ensures { IsTrue result ↔ MayBeFlag checker.now.state.known n }
{
    is_over_all(checker, n) && gives_sort(checker, n)
}

/// Whether the file may end with a node.
pub(crate) fn may_end(checker: &Checker, n: usize) -> bool
    requires { IsNode checker.now.state.known n }
    ensures { IsTrue result ↔ MayEnd checker.now.state.known n }
{
    let node = checker.node(n);
    is_empty(checker.bank(), node.ctx) && judges_star(checker, n, checker.env().len(), node.ctx)
}

// Whether the name has 1 to 255 bytes, and no entry has it.
fn is_free(checker: &Checker, name: &[u8]) -> bool
    ensures { IsTrue result ↔ IsFree checker.now.state.known name.now }
{
    !name.is_empty() && name.len() <= 255 && is_fresh(checker, name)
}

fn is_fresh(checker: &Checker, name: &[u8]) -> bool
    ensures { IsTrue result ↔ IsFresh name.now checker.now.state.known.env }
{
    checker.env().find(name).is_none()
}

// Whether a node is over all entries so far.
fn is_over_all(checker: &Checker, n: usize) -> bool
    requires { IsNode checker.now.state.known n }
    ensures { IsTrue result ↔ IsOverAll checker.now.state.known n }
{
    checker.node(n).entries == checker.env().len()
}

// Whether the type of a node is a sort.
fn gives_sort(checker: &Checker, n: usize) -> bool
    requires { IsNode checker.now.state.known n }
    ensures { IsTrue result ↔ IsSort (judgement_at checker.now.state.known n).type }
{
    is_sort(checker.bank(), checker.node(n).of)
}
