//! Bytes up to a limit.
ghost use Rattle.std.specs.Prelude.{◌≡◌, ◌≤◌, ◌++◌, [], length, decimal, OnOk};
ghost use Rattle.fb_show.specs.Cut.{Filled};

use fb_base::NoMemory;

/// Appends bytes up to the limit.
pub fn put(bytes: &[u8], limit: usize, out: &mut Vec<u8>) -> Result<(), NoMemory>
    requires { length out.old.items ≤ limit }
    ensures filled { OnOk result (Filled limit out.old.items out.new.items bytes.now) }
    ensures within { OnOk result (length out.new.items ≤ limit) }
{
    let room = limit - out.len();
    if bytes.len() <= room {
        return append(bytes, out);
    }
    let (front, _) = bytes.split_at(room);
    append(front, out)
}

/// Appends words up to the limit.
pub fn put_words(words: &str, limit: usize, out: &mut Vec<u8>) -> Result<(), NoMemory>
    requires { length out.old.items ≤ limit }
    ensures filled { OnOk result (Filled limit out.old.items out.new.items words.now) }
    ensures within { OnOk result (length out.new.items ≤ limit) }
{
    put(words.as_bytes(), limit, out)
}

/// Appends bytes.
pub fn append(bytes: &[u8], out: &mut Vec<u8>) -> Result<(), NoMemory>
    ensures { OnOk result (out.new.items ≡ out.old.items ++ bytes.now) }
{
    out.extend_from_slice(bytes).map_err(|_| NoMemory)
}
