//! The numbers of a command line.

ghost use Rattle.std.specs.Prelude.{◌≡◌, ◌≤◌, IfSome, option_and_then};
ghost use Rattle.cs_model.specs.Line.{at_most, decimal_number};
ghost use Rattle.cs_model.specs.Text.{number_between};

/// The greatest number that a line may have.
pub(crate) const MOST: u64 = 1_000_000_000_000;

/// The number that a word gives in decimal digits without leading zeros, where it is from `lowest` to `highest`.
#[tactic(auto, using(cs_model::proofs::Digits::between))]
pub(crate) fn number_from(text: &str, lowest: u64, highest: u64) -> Option<u64>
    requires { highest ≤ MOST }
    ensures value { result ≡ number_between lowest highest text.now }
    ensures range { IfSome result (λ n. (lowest ≤ n) × (n ≤ highest)) }
{
    let number = number_within(text, highest)?;
    if number < lowest { None } else { Some(number) }
}

/// The number that a word gives in decimal digits without leading zeros, where it is at most so much.
#[tactic(auto, using(cs_model::proofs::Digits::numbers))]
fn number_within(text: &str, highest: u64) -> Option<u64>
    requires { highest ≤ MOST }
    ensures value { result ≡ option_and_then (at_most highest) (decimal_number text.now) }
    ensures range { IfSome result (λ n. n ≤ highest) }
{
    let bytes = text.as_bytes();
    if bytes.is_empty() || (bytes[0] == b'0' && bytes.len() > 1) {
        return None;
    }
    let mut number = 0u64;
    for byte in bytes {
        if !byte.is_ascii_digit() {
            return None;
        }
        number = 10 * number + u64::from(*byte - b'0');
        if number > highest {
            return None;
        }
    }
    Some(number)
}
