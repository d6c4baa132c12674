// The numbers of a line.
ghost use Rattle.std.specs.Prelude.{◌≡◌, ◌≤◌, true, length, take, drop};
ghost use Rattle.std.specs.Str.{all_ascii_digits};
ghost use Rattle.lines.specs.Decimals.{NoDigit};
ghost use Rattle.lines.specs.Fields.{IsAfterSpaceResult, IsByteResult, IsFirstNumberResult, IsValueResult, IsNumbersResult, IsBytesResult};

use forms::Refusal;

/// The N numbers of 64 bits that a text is, each in digits after one space, and no more.
/// Refused with `BadLine` (20) where it is no such text.
pub fn numbers<const N: usize>(text: &[u8]) -> Result<[u64; N], Refusal>
    ensures { IsNumbersResult N text.now result }
{
    let mut numbers = [0; N];
    let mut rest = text;
    for number in &mut numbers {
        (*number, rest) = first_number(rest)?;
    }
    if !rest.is_empty() {
        return Err(Refusal::BadLine);
    }
    Ok(numbers)
}

/// Three such numbers of a byte each, and no more; refused with `BadLine` (20) otherwise.
pub fn three_bytes(text: &[u8]) -> Result<[u8; 3], Refusal>
    ensures { IsBytesResult text.now result }
{
    let [x, a, b] = numbers::<3>(text)?;
    Ok([byte(x)?, byte(a)?, byte(b)?])
}

fn byte(n: u64) -> Result<u8, Refusal>
    ensures { IsByteResult n result }
{
    u8::try_from(n).map_err(|_| Refusal::BadLine)
}

// The number after a space that a text begins with, and what follows its digits.
fn first_number(text: &[u8]) -> Result<(u64, &[u8]), Refusal>
    ensures { IsFirstNumberResult text.now result }
{
    let rest = after_space(text)?;
    let (digits, rest) = rest.split_at(leading_digits(rest));
    Ok((value(digits)?, rest))
}

/// What follows the space that a text begins with; refused with `BadLine` (20) where it begins with none.
pub fn after_space(text: &[u8]) -> Result<&[u8], Refusal>
    ensures { IsAfterSpaceResult text.now result }
{
    text.strip_prefix(b" ").ok_or(Refusal::BadLine)
}

// How many digits a text begins with.
fn leading_digits(text: &[u8]) -> usize
    ensures within { result ≤ length text.now }
    ensures digits { all_ascii_digits (take result text.now) ≡ true }
    ensures stop { NoDigit (drop result text.now) }
{
    text.iter()
        .position(|b| !b.is_ascii_digit())
        .unwrap_or(text.len())
}

// The number that digits write, one or more, if it keeps to 64 bits.
fn value(digits: &[u8]) -> Result<u64, Refusal>
    requires { all_ascii_digits digits.now ≡ true }
    ensures { IsValueResult digits.now result }
{
    if digits.is_empty() {
        return Err(Refusal::BadLine);
    }
    digits
        .iter()
        .try_fold(0u64, |n, b| {
            let digit = u64::from(*b - b'0');
            n.checked_mul(10)?.checked_add(digit)
        })
        .ok_or(Refusal::BadLine)
}
