//! Names along two small books, where flags are opened, closed and opened again.
ghost use Rattle.std.specs.Prelude.{◌≡◌, ◌<◌, ◌+◌, length, IfOk, OnOk};

use crate::{Found, Scope, ScopeFault};
use fb_base::Text;
use ld_env::{Entry, Env};
use ld_terms::{Bank, Node, Terms};
use std::alloc::Global;
use std::process::Abort;
use std::test::Fail;

// Opens a flag.
fn open(rt: &impl Abort, scope: &mut Scope, name: &[u8]) -> Result<(), Fail>
    requires { scope.old.opened < 100 }
    ensures number { OnOk result (scope.new.opened ≡ scope.old.opened + 1) }
    ensures marks { OnOk result (scope.new.marks ≡ scope.old.marks) }
{
    assert_eq!(rt; scope.flag_fault(name), None);
    scope.enter(name)?;
    Ok(())
}

// Appends a primitive with a parameter for each open flag.
fn make(alloc: Global, env: &mut Env, scope: &mut Scope, name: &[u8]) -> Result<(), Fail>
    requires few { length env.old < 100 }
    requires noted { length scope.old.marks ≡ length env.old }
    ensures noted { OnOk result (length scope.new.marks ≡ length env.new) }
    ensures made { OnOk result (0 < length scope.new.marks) }
    ensures number { OnOk result (scope.new.opened ≡ scope.old.opened) }
{
    let mut bank = Bank::new(alloc);
    let star = bank.add(Node::Star)?;
    let mut params = Vec::new(alloc);
    for _ in 0..scope.depth() {
        params.push(star)?;
    }
    let entry = Entry {
        params: Terms::from_vec(params),
        body: None,
        of: star,
    };
    scope.note()?;
    env.push(Text::from_bytes(alloc, name)?, entry)?;
    Ok(())
}

// [x] [y] k, with both flags open.
fn book(rt: &impl Abort, alloc: Global) -> Result<(Env, Scope), Fail>
    ensures noted { IfOk result (λ b. length b.1.marks ≡ length b.0) }
    ensures made { IfOk result (λ b. 0 < length b.1.marks) }
    ensures number { IfOk result (λ b. b.1.opened ≡ 2) }
{
    let mut env = Env::new(alloc);
    let mut scope = Scope::new(alloc);
    open(rt, &mut scope, b"x")?;
    open(rt, &mut scope, b"y")?;
    make(alloc, &mut env, &mut scope, b"k")?;
    Ok((env, scope))
}

fn expect(
    rt: &impl Abort,
    env: &Env,
    scope: &Scope,
    name: &[u8],
    given: u32,
    want: Result<Found, ScopeFault>,
)
    requires { length scope.now.marks ≡ length env.now }
{
    assert_eq!(rt; scope.resolve(env, name, given, given > 0), want);
}

fn constant(k: u32, implied: u32) -> Result<Found, ScopeFault> {
    Ok(Found::Const { k, implied })
}

fn missing(wanted: u32, given: u32) -> Result<Found, ScopeFault> {
    Err(ScopeFault::ParamsMissing { wanted, given })
}

// Closes flags down to a depth, and opens another.
fn reopen(rt: &impl Abort, scope: &mut Scope, depth: u32, name: &[u8]) -> Result<(), Fail>
    requires { scope.old.opened < 100 }
    ensures { OnOk result (scope.new.marks ≡ scope.old.marks) }
{
    scope.leave_to(depth)?;
    open(rt, scope, name)
}

fn expect_variables(rt: &impl Abort, scope: &Scope, want: u32) {
    assert_eq!(rt; scope.variable_count(), want);
}

fn expect_further(rt: &impl Abort, scope: &Scope, want: Option<u32>)
    requires { 0 < length scope.now.marks }
{
    assert_eq!(rt; scope.further(0), want);
}

// [x] [y] k, both closed, and another [x].
#[test]
fn a_flag_of_the_same_name_is_another(rt: HostRuntime) -> Result<(), Fail> {
    let (env, mut scope) = book(&rt, rt.alloc())?;
    reopen(&rt, &mut scope, 0, b"x")?;
    expect(&rt, &env, &scope, b"k", 1, missing(2, 1));
    expect(&rt, &env, &scope, b"k", 2, constant(0, 0));
    Ok(())
}

#[test]
fn open_flags_are_implied(rt: HostRuntime) -> Result<(), Fail> {
    let (env, scope) = book(&rt, rt.alloc())?;
    expect_variables(&rt, &scope, 2);
    expect(&rt, &env, &scope, b"k", 0, constant(0, 2));
    expect(&rt, &env, &scope, b"k", 1, constant(0, 1));
    expect(&rt, &env, &scope, b"k", 2, constant(0, 0));
    let many = ScopeFault::ParamsMany {
        wanted: 2,
        given: 3,
    };
    expect(&rt, &env, &scope, b"k", 3, Err(many));
    Ok(())
}

// [x] [y] k, and another [y] in place of the first.
#[test]
fn a_flag_that_is_opened_again_is_another(rt: HostRuntime) -> Result<(), Fail> {
    let (env, mut scope) = book(&rt, rt.alloc())?;
    reopen(&rt, &mut scope, 1, b"y")?;
    expect(&rt, &env, &scope, b"k", 1, constant(0, 1));
    expect(&rt, &env, &scope, b"k", 0, missing(1, 0));
    Ok(())
}

#[test]
fn flags_behind_the_open_ones_are_counted(rt: HostRuntime) -> Result<(), Fail> {
    let (_, mut scope) = book(&rt, rt.alloc())?;
    expect_further(&rt, &scope, None);
    scope.leave_to(1)?;
    expect_further(&rt, &scope, Some(1));
    Ok(())
}

// An entry x, then a flag x, then a binder x and one without a name.
fn entry_then_flag(
    rt: &impl Abort,
    alloc: Global,
    env: &mut Env,
    scope: &mut Scope,
) -> Result<(), Fail>
    requires few { length env.old < 100 }
    requires noted { length scope.old.marks ≡ length env.old }
    requires number { scope.old.opened < 100 }
{
    make(alloc, env, scope, b"x")?;
    expect(rt, env, scope, b"x", 0, constant(0, 0));
    open(rt, scope, b"x")?;
    expect_flag(rt, env, scope);
    Ok(())
}

// The flag x, no constant, and no y.
fn expect_flag(rt: &impl Abort, env: &Env, scope: &Scope)
    requires { length scope.now.marks ≡ length env.now }
{
    expect(rt, env, scope, b"x", 0, Ok(Found::Var(0)));
    expect(rt, env, scope, b"x", 1, Err(ScopeFault::NotAConstant));
    expect(rt, env, scope, b"y", 0, Err(ScopeFault::Unknown));
}

#[test]
fn binders_come_before_flags_before_entries(rt: HostRuntime) -> Result<(), Fail> {
    let mut env = Env::new(rt.alloc());
    let mut scope = Scope::new(rt.alloc());
    entry_then_flag(&rt, rt.alloc(), &mut env, &mut scope)
}

fn bind_and_unbind(rt: &impl Abort, env: &Env, scope: &mut Scope) -> Result<(), Fail>
    requires { length scope.old.marks ≡ length env.now }
{
    scope.bind(Some(b"x"))?;
    scope.bind(Some(b"x"))?;
    scope.bind(None)?;
    expect_variables(rt, scope, 3);
    expect(rt, env, scope, b"x", 0, Ok(Found::Var(1)));
    scope.unbind();
    scope.unbind();
    expect(rt, env, scope, b"x", 0, Ok(Found::Var(0)));
    Ok(())
}

#[test]
fn the_innermost_binder_is_found(rt: HostRuntime) -> Result<(), Fail> {
    let env = Env::new(rt.alloc());
    let mut scope = Scope::new(rt.alloc());
    bind_and_unbind(&rt, &env, &mut scope)
}

fn expect_flags(rt: &impl Abort, scope: &Scope) {
    assert_eq!(rt; scope.flag_fault(b"x"), Some(ScopeFault::FlagTaken));
    assert_eq!(rt; scope.depth(), 2);
    assert_eq!(rt; scope.flag_name(0), b"x".as_slice());
}

#[test]
fn flags_are_opened_and_closed(rt: HostRuntime) -> Result<(), Fail> {
    let (_, mut scope) = book(&rt, rt.alloc())?;
    expect_flags(&rt, &scope);
    let great = ScopeFault::DepthTooGreat { bars: 3, flags: 2 };
    assert_eq!(rt; scope.leave_to(3), Err(great));
    Ok(())
}
