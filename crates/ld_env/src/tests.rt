//! A few entries, found by name and by number.
ghost use Rattle.std.specs.Prelude.{◌≡◌, ◌<◌, ◌≤◌, ◌+◌, ◌^◌, length, IfOk};

use crate::{Entry, Env, EnvFault};
use fb_base::Text;
use ld_terms::{Bank, Node, TermId, Terms};
use std::alloc::Global;
use std::process::Abort;
use std::test::Fail;

// Appends a primitive without parameters.
fn push(alloc: Global, env: &mut Env, name: &[u8], of: TermId) -> Result<u32, EnvFault>
    requires { length env.old + 1 < 2 ^ 32 }
    ensures kept { length env.old ≤ length env.new }
    ensures one_more { IfOk result (λ k. length env.new ≡ length env.old + 1) }
{
    let Ok(name) = Text::from_bytes(alloc, name) else {
        return Err(EnvFault::Memory);
    };
    let entry = Entry {
        params: Terms::from_vec(Vec::new(alloc)),
        body: None,
        of,
    };
    env.push(name, entry)
}

// `nat` and `zero`, with the types of the two.
fn sample(rt: &impl Abort, alloc: Global) -> Result<(Env, TermId, TermId), Fail>
    ensures { IfOk result (λ s. length s.0 ≡ 2) }
{
    let mut bank = Bank::new(alloc);
    let star = bank.add(Node::Star)?;
    let over = bank.add(Node::Box_)?;
    let mut env = Env::new(alloc);
    let first = push(alloc, &mut env, b"nat", star)?;
    let second = push(alloc, &mut env, b"zero", over)?;
    expect_numbers(rt, (first, second), (0, 1));
    Ok((env, star, over))
}

fn expect_numbers(rt: &impl Abort, found: (u32, u32), want: (u32, u32)) {
    assert_eq!(rt; found, want);
}

fn expect_answer(rt: &impl Abort, found: &Result<u32, EnvFault>, want: &Result<u32, EnvFault>) {
    assert_eq!(rt; found, want);
}

fn expect_place(rt: &impl Abort, env: &Env, name: &[u8], want: Option<u32>) {
    assert_eq!(rt; env.find(name), want);
}

fn expect_entry(rt: &impl Abort, env: &Env, k: u32, name: &[u8], of: TermId)
    requires { k < length env.now }
{
    assert_eq!(rt; env.name(k), name);
    assert_eq!(rt; env.entry(k).of, of);
}

#[test]
fn finds_by_name(rt: HostRuntime) -> Result<(), Fail> {
    let (env, _, _) = sample(&rt, rt.alloc())?;
    expect_place(&rt, &env, b"nat", Some(0));
    expect_place(&rt, &env, b"zero", Some(1));
    expect_place(&rt, &env, b"one", None);
    Ok(())
}

#[test]
fn finds_by_number(rt: HostRuntime) -> Result<(), Fail> {
    let (env, star, over) = sample(&rt, rt.alloc())?;
    expect_entry(&rt, &env, 0, b"nat", star);
    expect_entry(&rt, &env, 1, b"zero", over);
    assert_eq!(rt; env.len(), 2);
    Ok(())
}

#[test]
fn refuses_a_name_that_is_taken(rt: HostRuntime) -> Result<(), Fail> {
    let (mut env, star, over) = sample(&rt, rt.alloc())?;
    let again = push(rt.alloc(), &mut env, b"nat", over);
    expect_entry(&rt, &env, 0, b"nat", star);
    expect_answer(&rt, &again, &Err(EnvFault::NameTaken));
    Ok(())
}

#[test]
fn takes_the_last_away(rt: HostRuntime) -> Result<(), Fail> {
    let (mut env, _, over) = sample(&rt, rt.alloc())?;
    env.pop();
    env.pop();
    expect_place(&rt, &env, b"nat", None);
    let again = push(rt.alloc(), &mut env, b"nat", over);
    expect_answer(&rt, &again, &Ok(0));
    Ok(())
}
