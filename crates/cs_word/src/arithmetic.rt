//! Arithmetic on SmallIntegers, which have 31 bits: exact, or `None`.

ghost use Rattle.std.specs.Prelude.{◌≡◌, ℤ, pos, ◌+ℤ◌, ◌-ℤ◌, ◌*ℤ◌, ◌^◌};
ghost use Rattle.cs_word.specs.Word.{IsSmall};
ghost use Rattle.cs_model.specs.Arithmetic.{if_small, quotient, floor_quotient, floor_remainder, shifted, floor_div};

/// The sum, or `None` exactly where it isn't a SmallInteger.
pub fn add(a: i32, b: i32) -> Option<i32>
    requires a_small { IsSmall a }
    requires b_small { IsSmall b }
    ensures { result ≡ if_small (a +ℤ b) }
{
    narrowed(i64::from(a) + i64::from(b))
}

/// The difference, or `None` exactly where it isn't a SmallInteger.
pub fn sub(a: i32, b: i32) -> Option<i32>
    requires a_small { IsSmall a }
    requires b_small { IsSmall b }
    ensures { result ≡ if_small (a -ℤ b) }
{
    narrowed(i64::from(a) - i64::from(b))
}

/// The product, or `None` exactly where it isn't a SmallInteger.
pub fn mul(a: i32, b: i32) -> Option<i32>
    requires a_small { IsSmall a }
    requires b_small { IsSmall b }
    ensures { result ≡ if_small (a *ℤ b) }
{
    narrowed(i64::from(a) * i64::from(b))
}

/// The quotient rounded toward zero (`quo:`), or `None` exactly where `b` is 0 or the quotient
/// isn't a SmallInteger.
pub fn quo(a: i32, b: i32) -> Option<i32>
    requires a_small { IsSmall a }
    requires b_small { IsSmall b }
    ensures { result ≡ quotient a b }
{
    if b == 0 {
        None
    } else {
        narrowed(i64::from(a) / i64::from(b))
    }
}

/// The quotient rounded down (`//`), or `None` exactly where `b` is 0 or the quotient isn't a
/// SmallInteger.
pub fn div(a: i32, b: i32) -> Option<i32>
    requires a_small { IsSmall a }
    requires b_small { IsSmall b }
    ensures { result ≡ floor_quotient a b }
{
    if b == 0 {
        None
    } else if b > 0 {
        narrowed(i64::from(a.div_euclid(b)))
    } else {
        narrowed(i64::from((-a).div_euclid(-b)))
    }
}

/// What the quotient rounded down leaves (`\\`): 0 or of the divisor's sign. `None` exactly where
/// `b` is 0.
pub fn rem(a: i32, b: i32) -> Option<i32>
    requires a_small { IsSmall a }
    requires b_small { IsSmall b }
    ensures { result ≡ floor_remainder a b }
{
    if b == 0 {
        None
    } else if b > 0 {
        narrowed(i64::from(a.rem_euclid(b)))
    } else {
        narrowed(i64::from(-((-a).rem_euclid(-b))))
    }
}

/// `a` shifted by `b` bits (`bitShift:`): to the left where `b` isn't negative, and then `None`
/// exactly where the result isn't a SmallInteger; else to the right, rounded down.
pub fn shift(a: i32, b: i32) -> Option<i32>
    requires a_small { IsSmall a }
    requires b_small { IsSmall b }
    ensures { result ≡ shifted a b }
{
    if b >= 0 {
        shifted_left(a, b as u32)
    } else {
        Some(shifted_right(a, (-b) as u32))
    }
}

/// The product with 2^`amount`, where it is a SmallInteger.
fn shifted_left(a: i32, amount: u32) -> Option<i32>
    requires { IsSmall a }
    ensures { result ≡ if_small (a *ℤ pos (2 ^ amount)) }
{
    if a == 0 {
        Some(0)
    } else if amount > 30 {
        None
    } else {
        narrowed(i64::from(a) * i64::from(1_u32 << amount))
    }
}

/// The quotient by 2^`amount`, rounded down. From 31 bits on only the sign is left.
fn shifted_right(a: i32, amount: u32) -> i32
    requires { IsSmall a }
    ensures { result ≡ floor_div a (pos (2 ^ amount)) }
{
    a >> amount.min(31)
}

/// The number, where it is a SmallInteger.
fn narrowed(n: i64) -> Option<i32>
    ensures { result ≡ if_small n }
{
    if n < -(1 << 30) || n >= 1 << 30 {
        None
    } else {
        Some(n as i32)
    }
}
