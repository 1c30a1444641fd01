//! The names of a term.
ghost use Rattle.std.specs.Prelude.{◌≡◌, true, false, length};
ghost use Rattle.std.specs.Option.{option_copied};
ghost use Rattle.ld_env.specs.Named.{names_of as names_in};
ghost use Rattle.ld_terms.specs.Tree as spec;
ghost use Rattle.fb_parse.specs.View.{view, views};
ghost use Rattle.fb_scope.specs.State.{bound};
ghost use Rattle.fb_scope.specs.Resolve.{resolve};
ghost use Rattle.book_top.specs.Names.{tree_of, applied, named, name_span, name_fault, given};
ghost use Rattle.book_top.specs.Built.{Reads};

use crate::status::{Side, TextFault, TextWhat};
use fb_base::{NoMemory, Span};
use fb_parse::{Form, Tree};
use fb_scope::{Found, Scope, ScopeFault};
use ld_env::Env;

/// Why the names of a term aren't all read.
#[derive(Debug, Drop)]
pub enum NameStop {
    Text(TextFault),
    Memory,
}

impl From<TextFault> for NameStop {
    ghost use Rattle.std.specs.Prelude.{◌≡◌};
    ghost use Rattle.book_top.specs.declared.names.NameStop.TheVariants.{Text};

    ghost from_gives = { λ fault stop. stop ≡ Text fault };

    fn from(fault: TextFault) -> Self {
        NameStop::Text(fault)
    }
}

impl From<NoMemory> for NameStop {
    ghost use Rattle.std.specs.Prelude.{◌≡◌};
    ghost use Rattle.book_top.specs.declared.names.NameStop.TheVariants.{Memory};

    ghost from_gives = { λ _ stop. stop ≡ Memory };

    fn from(_: NoMemory) -> Self {
        NameStop::Memory
    }
}

/// A fault of the book.
pub fn fault_at(what: TextWhat, at: Span) -> TextFault
    ensures { result ≡ record { side = Side.Book; at = at; what = what } }
{
    TextFault {
        side: Side::Book,
        at,
        what,
    }
}

/// Looks up the names of a term in text order, and refuses the first that stands for nothing. The name of an instance
/// comes before its arguments.
#[cycle(check_names)]
pub fn check_names(scope: &mut Scope, env: &Env, tree: Tree) -> Result<(), NameStop>
    requires { length scope.old.marks ≡ length env.now }
    ensures answer { Reads (tree_of scope.old (names_in env.now) (view tree.entry)) result }
    ensures same { scope.new ≡ scope.old }
{
    match tree.form {
        Form::Star | Form::Box_ => Ok(()),
        Form::Name(name) => {
            stands_for(scope, env, name.as_bytes(), tree.span, 0, false)?;
            Ok(())
        }
        Form::Arrow(domain, range) => {
            check_names(scope, env, *domain)?;
            check_under(scope, env, None, *range)
        }
        Form::Fun(name, of, body) | Form::All(name, of, body) => {
            check_names(scope, env, *of)?;
            check_under(scope, env, Some(name.as_bytes()), *body)
        }
        Form::Apply(function, arguments) => {
            check_names(scope, env, *function)?;
            check_arguments(scope, env, arguments)
        }
        Form::Inst(name, arguments) => {
            let given = given(arguments);
            stands_for(scope, env, name.as_bytes(), tree.span, given, true)?;
            check_arguments(scope, env, arguments)
        }
    }
}

// The names of the arguments of an application, whatever its function is; so it is with those of an instance.
#[cycle(check_names)]
fn check_arguments(scope: &mut Scope, env: &Env, arguments: &[Tree]) -> Result<(), NameStop>
    requires { length scope.old.marks ≡ length env.now }
    ensures answer { (f : spec.Tree) → Reads (applied scope.old (names_in env.now) f (views arguments.now)) result }
    ensures same { scope.new ≡ scope.old }
{
    for argument in arguments {
        check_names(scope, env, *argument)?;
    }
    Ok(())
}

// The names of a term under a binder, which has no name under an arrow.
#[cycle(check_names)]
fn check_under(
    scope: &mut Scope,
    env: &Env,
    name: Option<&[u8]>,
    tree: Tree,
) -> Result<(), NameStop>
    requires { length scope.old.marks ≡ length env.now }
    ensures answer { Reads (tree_of (bound (option_copied name.entry) scope.old) (names_in env.now) (view tree.entry)) result }
    ensures same { scope.new ≡ scope.old }
{
    scope.bind(name)?;
    let read = check_names(scope, env, tree);
    scope.unbind();
    read
}

// What a name stands for with so many arguments written, where `instance` says whether a list of them is written.
fn stands_for(
    scope: &Scope,
    env: &Env,
    name: &[u8],
    at: Span,
    given: u32,
    instance: bool,
) -> Result<Found, TextFault>
    requires { length scope.now.marks ≡ length env.now }
    ensures { result ≡ named at name.now (resolve scope.now (names_in env.now) name.now given instance) }
{
    match scope.resolve(env, name, given, instance) {
        Ok(found) => Ok(found),
        Err(fault) => Err(fault_at(name_fault(fault), name_span(at, name))),
    }
}

// Why a name stands for nothing. What is of flags and depths is never answered for a name.
fn name_fault(fault: ScopeFault) -> TextWhat
    ensures { result ≡ name_fault fault }
{
    match fault {
        ScopeFault::NotAConstant => TextWhat::NotAConstant,
        ScopeFault::ParamsMissing { wanted, given } => TextWhat::ParamsMissing { wanted, given },
        ScopeFault::ParamsMany { wanted, given } => TextWhat::ParamsMany { wanted, given },
        ScopeFault::Unknown
        | ScopeFault::FlagTaken
        | ScopeFault::DepthTooGreat { .. }
        | ScopeFault::ManyFlags
        | ScopeFault::Memory => TextWhat::Unknown,
    }
}

// The span of the name with which a term begins.
fn name_span(at: Span, name: &[u8]) -> Span
    ensures { result ≡ name_span at name.now }
{
    Span {
        start: at.start,
        end: at.start.saturating_add(name.len()).min(at.end),
    }
}

/// How many arguments are written, at most 4,294,967,295.
pub fn given(arguments: &[Tree]) -> u32
    ensures { result ≡ given (views arguments.now) }
{
    arguments.len().min(u32::MAX as usize) as u32
}
