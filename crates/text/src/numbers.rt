// A number: the longest run of digits at a place.
ghost use Rattle.std.specs.Prelude.{◌≡◌, ◌+◌, ◌<◌, ◌≤◌, length, drop, IfOk};
ghost use Rattle.std.specs.List.{prefix_len};
ghost use Rattle.text.specs.Numbers.{is_digit, AllDigits, max_digits, digits, decimal, fair, number_at};

use crate::classes::is_digit;
use faults::TextFault;

// The most digits of a number.
const MAX_DIGITS: usize = 5;

// How many digits stand in front.
fn digit_count(bytes: &[u8]) -> usize
    ensures { result ≡ prefix_len is_digit bytes.now }
{
    bytes.iter().take_while(|byte| is_digit(**byte)).count()
}

// The longest run of digits at `at`.
fn run_at(file: &[u8], at: usize) -> &[u8]
    ensures value { result.now ≡ digits (drop at file.now) }
    ensures digits { AllDigits result.now }
    ensures inside { 0 < length result.now → at + length result.now ≤ length file.now }
{
    let rest = file.get(at..).unwrap_or(&[]);
    &rest[..digit_count(rest)]
}

// Whether a run of so many digits, of which the first is given, may be a number.
fn is_fair(first: u8, size: usize) -> bool
    ensures { result ≡ fair first size }
{
    size <= MAX_DIGITS && (first != b'0' || size == 1)
}

// The value of a run of digits.
fn value_of(run: &[u8]) -> u32
    requires few { length run.now ≤ max_digits }
    requires digits { AllDigits run.now }
    ensures { result ≡ decimal 0 run.now }
{
    // Tried: `fold`, whose closure owes that the sum fits at any value before.
    let mut value: u32 = 0;
    for digit in run {
        value = value * 10 + u32::from(*digit - b'0');
    }
    value
}

// The number at `at`, and the place after it: by a rule of the project a value and the next place come out, so a file and a
// place go in, here and in the lines above.
pub fn number(file: &[u8], at: usize) -> Result<(u32, usize), TextFault>
    ensures value { result ≡ number_at file.now at }
    ensures forward { IfOk result (λ v. at < v.1) }
{
    match run_at(file, at) {
        [] => Err(TextFault::Misfit(at)),
        run @ [first, ..] if is_fair(*first, run.len()) => Ok((value_of(run), at + run.len())),
        _ => Err(TextFault::BadNumber(at)),
    }
}
