//! The name of a level, up to a limit.
ghost use Rattle.std.specs.Prelude.{◌≡◌, ◌<◌, ◌≤◌, ◌+◌, ◌^◌, length, OnOk};
ghost use Rattle.fb_show.specs.Cut.{own_names, Filled};
ghost use Rattle.fb_show.specs.Shown.{own_numbered};

use crate::filling::{put, put_words};
use fb_base::NoMemory;
use fb_scope::Scope;

/// Appends the name of a level: that of its flag, or the base and a number.
pub fn level(
    scope: &Scope,
    base: &str,
    level: u64,
    limit: usize,
    out: &mut Vec<u8>,
) -> Result<(), NoMemory>
    requires within { length out.old.items ≤ limit }
    requires room { level + 1 < 2 ^ 64 }
    ensures filled { OnOk result (Filled limit out.old.items out.new.items (own_numbered (own_names scope.now) base.now level)) }
    ensures within { OnOk result (length out.new.items ≤ limit) }
{
    if level < scope.depth() as u64 {
        return put(scope.flag_name(level as u32), limit, out);
    }
    let number = level + 1;
    match format!(in *out.allocator(); "{base}{number}") {
        Ok(name) => put_words(&name, limit, out),
        Err(_) => Err(NoMemory),
    }
}
