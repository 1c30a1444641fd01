//! Numbers in the least number of bytes, seven bits a byte, the lowest first.
ghost use Rattle.std.specs.Prelude.{◌≡◌, ◌++◌, ◌<◌, ◌^◌, OnOk};
ghost use Rattle.std.specs.List.{AllByRecursion};
ghost use Rattle.dr_text.specs.Number.{number};
ghost use Rattle.dr_text.specs.Spelling.{numbers_bytes};

use fb_base::NoMemory;

/// Appends a number.
pub fn push_number(n: usize, out: &mut Vec<u8>) -> Result<(), NoMemory>
    ensures { OnOk result (out.new.items ≡ out.old.items ++ number n) }
{
    if n < 128 {
        out.push(n as u8).map_err(|_| NoMemory)?;
        return Ok(());
    }
    out.push((n % 128 + 128) as u8).map_err(|_| NoMemory)?;
    push_number(n / 128, out)
}

/// Appends some numbers.
pub fn push_numbers(numbers: &[usize], out: &mut Vec<u8>) -> Result<(), NoMemory>
    ensures bytes { OnOk result (out.new.items ≡ out.old.items ++ numbers_bytes numbers.now) }
    ensures range { AllByRecursion (λ n. n < 2 ^ 64) numbers.now }
{
    for n in numbers {
        push_number(*n, out)?;
    }
    Ok(())
}
