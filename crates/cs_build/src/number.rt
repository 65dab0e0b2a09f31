//! Numbers in decimal digits.

ghost use Rattle.std.specs.Prelude.{◌≡◌, ℕ, pos, ◌≤◌, min, option_map, IfSome};
ghost use Rattle.cs_model.specs.Line.{decimal_number};
ghost use Rattle.cs_model.specs.Text.{integer_in, negative_in};
ghost use Rattle.cs_build.specs.Narrow.{narrow};

/// The least size of a negative number that stands as `i32::MIN`, 2^31.
const LARGEST: u64 = 2_147_483_648;

/// The number that a word is in decimal digits without leading zeros, with a minus sign where it is negative. A number
/// beyond those of an `i32` is the nearest one.
pub fn read_integer(word: &[u8]) -> Option<i32>
    ensures { result ≡ option_map narrow (integer_in word.now) }
{
    let [first, digits @ ..] = word else {
        return None;
    };
    if *first == b'-' {
        read_negative(digits)
    } else {
        read_natural(word)
    }
}

/// The number without a sign, or the greatest `i32` where it is greater.
#[tactic(auto, using(crate::proofs::NumberLemmas::narrowing))]
fn read_natural(word: &[u8]) -> Option<i32>
    ensures { result ≡ option_map (λ n. narrow (pos n)) (decimal_number word.now) }
{
    let size = read_size(word)?;
    Some(size.min(LARGEST - 1) as i32)
}

/// The negative number of that size, or the least `i32` where it is less. There is no negative 0.
#[tactic(auto, using(crate::proofs::NumberLemmas::narrowing))]
fn read_negative(digits: &[u8]) -> Option<i32>
    ensures { result ≡ option_map narrow (negative_in digits.now) }
{
    let size = read_size(digits)?;
    if size == 0 {
        return None;
    }
    Some(-(size as i64) as i32)
}

/// The number in digits, or 2^31 where it is greater.
#[tactic(auto, using(crate::proofs::NumberLemmas::numbers))]
fn read_size(digits: &[u8]) -> Option<u64>
    ensures value { result ≡ option_map (min 2147483648) (decimal_number digits.now) }
    ensures bound { IfSome result (λ size. size ≤ 2147483648) }
{
    if digits.is_empty() || (digits[0] == b'0' && digits.len() > 1) {
        return None;
    }
    let mut size = 0u64;
    for digit in digits {
        if !digit.is_ascii_digit() {
            return None;
        }
        size = (10 * size + u64::from(*digit - b'0')).min(LARGEST);
    }
    Some(size)
}
