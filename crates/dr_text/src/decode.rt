//! Numbers at the front of bytes.
ghost use Rattle.std.specs.Prelude.{◌≡◌, ◌++◌, ◌<◌, ◌+◌, ◌^◌, ◌∷◌, List, ℕ, IfSome, MatchOption};
ghost use Rattle.dr_text.specs.Number.{number};
ghost use Rattle.dr_text.specs.Read.{BeginsNoNumber, GoesOn, GoesOnNowhere, Spells, BeginsTooFew};

/// The number at the front, and the bytes behind it.
pub fn read_number(bytes: &[u8]) -> Option<(u64, &[u8])>
    ensures number { MatchOption result (BeginsNoNumber bytes.now) (λ p. bytes.now ≡ number p.0 ++ p.1.now) }
    ensures small { IfSome result (λ p. p.0 < 2 ^ 64) }
{
    let Some((first, behind)) = bytes.split_first() else {
        return None;
    };
    if *first < 128 {
        return Some((*first as u64, behind));
    }
    read_others(*first as u64 - 128, behind)
}

// The number with these low seven bits, and the bytes behind its others.
fn read_others(low: u64, bytes: &[u8]) -> Option<(u64, &[u8])>
    requires { low < 128 }
    ensures number { MatchOption result (GoesOnNowhere low 128 bytes.now) (λ p. GoesOn low 128 bytes.now p.0 p.1.now) }
    ensures small { IfSome result (λ p. p.0 < 2 ^ 64) }
{
    let mut value = low;
    let mut scale = 128;
    let mut rest = bytes;
    for _place in 1_u32..9 {
        let Some((b, behind)) = rest.split_first() else {
            return None;
        };
        if *b == 0 {
            return None;
        }
        if *b < 128 {
            return Some((value + scale * *b as u64, behind));
        }
        value += scale * (*b as u64 - 128);
        scale *= 128;
        rest = behind;
    }
    read_last(value, rest)
}

// The number whose bits below the highest of 64 are these, and which has that one too.
fn read_last(value: u64, bytes: &[u8]) -> Option<(u64, &[u8])>
    requires { value < 2 ^ 63 }
    ensures last { MatchOption result ((rest : List ℕ) → bytes.now ≡ 1 ∷ rest → ⊥) (λ p. (p.0 ≡ value + 2 ^ 63) × (bytes.now ≡ 1 ∷ p.1.now)) }
    ensures small { IfSome result (λ p. p.0 < 2 ^ 64) }
{
    let Some((b, behind)) = bytes.split_first() else {
        return None;
    };
    if *b != 1 {
        return None;
    }
    Some((value + (1 << 63), behind))
}

/// So many numbers at the front, as their bytes, and the bytes behind them.
pub fn split_numbers(bytes: &[u8], count: u64) -> Option<(&[u8], &[u8])>
    ensures { MatchOption result (BeginsTooFew count bytes.now) (λ p. Spells count bytes.now p.0.now p.1.now) }
{
    let mut rest = bytes;
    for _place in 0..count {
        match read_number(rest) {
            Some((_, behind)) => rest = behind,
            None => return None,
        }
    }
    Some(bytes.split_at(bytes.len() - rest.len()))
}
