//! What a name stands for.
ghost use Rattle.std.specs.Prelude.{◌≡◌, ◌<◌, ◌≤◌, length, reverse, position, IfOk, IfSome, Some};
ghost use Rattle.std.specs.Str.{bytes_eq};
ghost use Rattle.ld_env.specs.Named.{names_of};
ghost use Rattle.fb_scope.specs.State.{numbers};
ghost use Rattle.fb_scope.specs.Kept.{AreImplied};
ghost use Rattle.fb_scope.specs.Resolve.{is_named, variables, made_under, further, instance_of, as_entry, resolve};

use crate::fault::ScopeFault;
use crate::scope::{Flag, Scope};
use fb_base::Text;
use ld_env::Env;

/// What a name stands for: a variable, by the number of binders and flags between, or an entry whose first arguments,
/// so many, are the variables of the first open flags.
#[derive(Clone, Copy, Debug, PartialEq, Eq)]
pub enum Found {
    Var(u32),
    Const { k: u32, implied: u32 },
}

impl Scope {
    /// What a name stands for with `given` arguments written behind it. `instance` says whether a list of arguments is
    /// written, which may be empty.
    pub fn resolve(
        &self,
        env: &Env,
        name: &[u8],
        given: u32,
        instance: bool,
    ) -> Result<Found, ScopeFault>
        requires { length self.now.marks ≡ length env.now }
        ensures found { result ≡ resolve self.now (names_of env.now) name.now given instance }
        ensures implied { IfOk result (AreImplied self.now) }
    {
        if let Some(index) = self.variable(name) {
            return if instance {
                Err(ScopeFault::NotAConstant)
            } else {
                Ok(Found::Var(index))
            };
        }
        match entry_named(env, name) {
            Some(k) => self.instance(k, given),
            None => Err(ScopeFault::Unknown),
        }
    }

    /// How many flags of an entry follow those that are open, where its flags begin with these and go on.
    pub fn further(&self, k: u32) -> Option<u32>
        requires { k < length self.now.marks }
        ensures { result ≡ further (made_under self.now k) (numbers self.now.flags) }
    {
        self.marks[k as usize].further(&self.flags)
    }

    // The index of the variable of this name.
    fn variable(&self, name: &[u8]) -> Option<u32>
        ensures { result ≡ position (is_named name.now) (variables self.now) }
    {
        if let Some(index) = innermost_binder(&self.binders, name) {
            return Some(index as u32);
        }
        let index = innermost_flag(&self.flags, name)?;
        Some((self.binders.len() + index) as u32)
    }

    // An instance of an entry with so many arguments written.
    fn instance(&self, k: u32, given: u32) -> Result<Found, ScopeFault>
        requires { k < length self.now.marks }
        ensures found { result ≡ as_entry self.now given (Some k) }
        ensures implied { IfOk result (AreImplied self.now) }
    {
        let mark = &self.marks[k as usize];
        instance_of(k, mark.len(), mark.shared(&self.flags), given)
    }
}

fn instance_of(k: u32, params: u32, still_open: u32, given: u32) -> Result<Found, ScopeFault>
    requires { still_open ≤ params }
    ensures { result ≡ instance_of k params still_open given }
{
    if params < given {
        return Err(ScopeFault::ParamsMany {
            wanted: params,
            given,
        });
    }
    let implied = params - given;
    if still_open < implied {
        return Err(ScopeFault::ParamsMissing {
            wanted: params - still_open,
            given,
        });
    }
    Ok(Found::Const { k, implied })
}

fn innermost_binder(binders: &[Option<Text>], name: &[u8]) -> Option<usize>
    ensures { result ≡ position (is_named name.now) (reverse binders.now) }
{
    binders
        .iter()
        .rev()
        .position(|binder| is_named(binder, name))
}

fn innermost_flag(flags: &[Flag], name: &[u8]) -> Option<usize>
    ensures { result ≡ position (λ f. bytes_eq name.now f.name) (reverse flags.now) }
{
    flags.iter().rev().position(|flag| flag.has_name(name))
}

fn is_named(binder: &Option<Text>, name: &[u8]) -> bool
    ensures { result ≡ is_named name.now binder.now }
{
    match binder {
        Some(other) => name == other.bytes(),
        None => false,
    }
}

// The number of the entry of this name.
fn entry_named(env: &Env, name: &[u8]) -> Option<u32>
    ensures place { result ≡ position (bytes_eq name.now) (names_of env.now) }
    ensures within { IfSome result (λ k. k < length env.now) }
{
    env.find(name)
}
