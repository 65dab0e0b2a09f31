//! Numbers in decimal digits.

ghost use Rattle.std.specs.Prelude.{◌≡◌, ◌≤◌, IfSome, option_and_then};
ghost use Rattle.cs_model.specs.Line.{at_most, most_steps, decimal_number};
ghost use Rattle.cs_model.specs.Text.{number_between};

/// The number that a word is in decimal digits without leading zeros, where it lies between these two. The word may be
/// of any length.
pub(crate) fn number_between(lowest: u64, highest: u64, word: &[u8]) -> Option<u64>
    requires small { highest ≤ most_steps }
    ensures value { result ≡ number_between lowest highest word.now }
    ensures bound { IfSome result (λ number. number ≤ highest) }
{
    let number = number_up_to(highest, word)?;
    if number < lowest {
        return None;
    }
    Some(number)
}

/// The number that a word is, where it is at most the highest.
#[tactic(auto, using(cs_model::proofs::Digits::numbers))]
fn number_up_to(highest: u64, word: &[u8]) -> Option<u64>
    requires small { highest ≤ most_steps }
    ensures value { result ≡ option_and_then (at_most highest) (decimal_number word.now) }
    ensures bound { IfSome result (λ number. number ≤ highest) }
{
    if word.is_empty() || (word[0] == b'0' && word.len() > 1) {
        return None;
    }
    let mut number = 0u64;
    for digit in word {
        if !digit.is_ascii_digit() {
            return None;
        }
        number = 10 * number + u64::from(*digit - b'0');
        if number > highest {
            return None;
        }
    }
    Some(number)
}
