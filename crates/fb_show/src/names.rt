//! Names that no entry has.
ghost use Rattle.std.specs.Prelude.{◌≡◌, ◌<◌, ◌+◌, ◌^◌, ◌++◌, false, length, suc, replicate, decimal, slice_get, Some, IfOk};
ghost use Rattle.std.specs.List.{list_any};
ghost use Rattle.std.specs.Str as texts;
ghost use Rattle.std.specs.String.{string_bytes};
ghost use Rattle.ld_env.specs.Named.{names_of};
ghost use Rattle.fb_show.specs.Display as spec;
ghost use Rattle.fb_show.specs.Cut.{own_names};
ghost use Rattle.fb_show.specs.Laws.{AreNames};

use bumpalo::Bump;
use bumpalo::collections::into_bump_str;
use fb_base::NoMemory;
use fb_scope::Scope;
use ld_env::Env;
use std::alloc::{Allocator, Global};
use std::str::from_utf8;

/// The base of names that begin with this letter.
pub fn base<'a>(arena: &'a Bump, env: &Env, letter: u8) -> Result<&'a str, NoMemory>
    requires { letter < 128 }
    ensures { IfOk result (λ s. s.now ≡ spec.base letter (names_of env.now)) }
{
    let letters = least_free(env, env.len(), letter, 1);
    Ok(into_bump_str(repeated(arena, letter as char, letters)?))
}

// The least number of letters, from so many on, that no name has before digits.
fn least_free(env: &Env, tries: u32, letter: u8, letters: u64) -> u64
    requires { letters + tries < 2 ^ 64 }
    ensures { result ≡ spec.least_free tries letter letters (names_of env.now) }
{
    if tries == 0 || !is_taken(env, letter, letters) {
        return letters;
    }
    least_free(env, tries - 1, letter, letters + 1)
}

/// The base of names that begin with this letter, where open flags have names too.
pub fn own_base(alloc: Global, env: &Env, scope: &Scope, letter: u8) -> Result<String, NoMemory>
    requires { letter < 128 }
    ensures { IfOk result (λ s. string_bytes s ≡ spec.base letter (own_names scope.now ++ names_of env.now)) }
{
    let tries = scope.depth() as u64 + env.len() as u64;
    let letters = own_least_free(env, scope, tries, letter, 1);
    repeated(alloc, letter as char, letters)
}

fn own_least_free(env: &Env, scope: &Scope, tries: u64, letter: u8, letters: u64) -> u64
    requires { letters + tries < 2 ^ 64 }
    ensures { result ≡ spec.least_free tries letter letters (own_names scope.now ++ names_of env.now) }
{
    if tries == 0 || !is_own_taken(env, scope, letter, letters) {
        return letters;
    }
    own_least_free(env, scope, tries - 1, letter, letters + 1)
}

fn is_own_taken(env: &Env, scope: &Scope, letter: u8, letters: u64) -> bool
    ensures { result ≡ spec.is_taken letter letters (own_names scope.now ++ names_of env.now) }
{
    is_flag_taken(scope, letter, letters) || is_taken(env, letter, letters)
}

fn is_flag_taken(scope: &Scope, letter: u8, letters: u64) -> bool
    ensures { result ≡ spec.is_taken letter letters (own_names scope.now) }
{
    for level in 0..scope.depth() {
        if is_numbered(letter, letters, scope.flag_name(level)) {
            return true;
        }
    }
    false
}

fn is_taken(env: &Env, letter: u8, letters: u64) -> bool
    ensures { result ≡ spec.is_taken letter letters (names_of env.now) }
{
    for k in 0..env.len() {
        if is_numbered(letter, letters, env.name(k)) {
            return true;
        }
    }
    false
}

fn is_numbered(letter: u8, letters: u64, name: &[u8]) -> bool
    ensures { result ≡ spec.is_numbered letter letters name.now }
{
    match name.split_first() {
        None => false,
        Some((first, others)) => {
            if letters == 0 {
                return are_digits(name);
            }
            *first == letter && is_numbered(letter, letters - 1, others)
        }
    }
}

fn are_digits(bytes: &[u8]) -> bool
    ensures { result ≡ texts.all_ascii_digits bytes.now }
{
    match bytes.split_first() {
        None => true,
        Some((first, others)) => first.is_ascii_digit() && are_digits(others),
    }
}

// So many of one letter.
fn repeated<A: Allocator>(alloc: A, letter: char, times: u64) -> Result<String<A>, NoMemory>
    requires { letter < 128 }
    ensures { IfOk result (λ s. string_bytes s ≡ replicate times letter) }
{
    let mut text = String::new(alloc);
    for _ in 0..times {
        if text.push(letter).is_err() {
            return Err(NoMemory);
        }
    }
    Ok(text)
}

/// The name of a level's variable.
pub fn level_name<'a>(arena: &'a Bump, base: &str, level: u64) -> Result<&'a str, NoMemory>
    requires { level + 1 < 2 ^ 64 }
    ensures { IfOk result (λ s. s.now ≡ base.now ++ decimal (suc level)) }
{
    let number = level + 1;
    match format!(in arena; "{base}{number}") {
        Ok(name) => Ok(into_bump_str(name)),
        Err(_) => Err(NoMemory),
    }
}

/// The name of an entry.
pub fn entry_name<'a>(arena: &'a Bump, env: &Env, k: u32) -> Result<&'a str, NoMemory>
    requires there { k < length env.now }
    requires names { AreNames (names_of env.now) }
    ensures { IfOk result (λ s. slice_get (names_of env.now) k ≡ Some s.now) }
{
    let name = from_utf8(env.name(k)).unwrap();
    match arena.try_alloc_str(name) {
        Ok(name) => Ok(name),
        Err(_) => Err(NoMemory),
    }
}
