//! The text of a shown term, up to a limit.
ghost use Rattle.std.specs.Prelude.{◌≡◌, ◌<◌, ◌≤◌, ◌+◌, ◌^◌, ◌++◌, [], false, suc, length, take, replicate, codes, OnOk};
ghost use Rattle.std.specs.Str.{byte};
ghost use Rattle.ld_terms.specs.Item.{height_of};
ghost use Rattle.ld_terms.specs.Bank.{item_at, tree_at, list_at, IsTermAt, IsListAt};
ghost use Rattle.ld_env.specs.Named.{names_of};
ghost use Rattle.fb_show.specs.Cut as spec;
ghost use Rattle.fb_show.specs.Cut.{cut, own_names, shown_text, Filled};
ghost use Rattle.fb_show.specs.Display.{base, named_level};
ghost use Rattle.fb_show.specs.Formed.{IsFormed};
ghost use Rattle.fb_show.specs.Shown.{params_of};

use crate::filling::append;
use crate::names::own_base;
use crate::walk::write;
use fb_base::NoMemory;
use fb_scope::Scope;
use ld_env::Env;
use ld_terms::{Bank, TermId};

/// Appends the text of a term that stands under `depth` variables, the first of which are the open flags, cut where it
/// has more than `most` bytes.
pub fn show_cut(
    bank: &Bank,
    env: &Env,
    scope: &Scope,
    depth: u32,
    t: TermId,
    most: usize,
    out: &mut Vec<u8>,
) -> Result<(), NoMemory>
    requires term { IsTermAt bank.now t }
    requires formed { IsFormed (params_of env.now) depth (tree_at bank.now t) }
    ensures { OnOk result (out.new.items ≡ out.old.items
        ++ cut most (shown_text (own_names scope.now) (names_of env.now) depth (tree_at bank.now t))) }
{
    let alloc = *out.allocator();
    let base = own_base(alloc, env, scope, b'x')?;
    let mut text = Vec::new(alloc);
    let _height = bank.height(t);
    write(
        bank,
        env,
        scope,
        &base,
        depth as u64,
        t,
        most.saturating_add(1),
        &mut text,
    )?;
    put_cut(&text, most, out)
}

// The text that was written up to one byte more than is allowed, as it is or cut.
fn put_cut(text: &[u8], most: usize, out: &mut Vec<u8>) -> Result<(), NoMemory>
    ensures { OnOk result (out.new.items ≡ out.old.items ++ cut most text.now) }
{
    if text.len() <= most {
        return append(text, out);
    }
    let (front, _) = text.split_at(cut_at(text, most));
    append(front, out)?;
    append(b"...", out)
}

// The greatest place up to n at which a character begins.
fn cut_at(text: &[u8], n: usize) -> usize
    requires { n < length text.now }
    ensures place { result ≡ spec.cut_at text.now n }
    ensures within { result ≤ n }
{
    if n == 0 {
        return 0;
    }
    if text[n] >= 128 && text[n] < 192 {
        return cut_at(text, n - 1);
    }
    n
}
