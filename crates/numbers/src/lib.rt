//! Numbers from −2,147,483,647 to 2,147,483,647.

#![tactic(auto)]

ghost use Rattle.std.specs.Prelude.{◌≡◌, true, ℤ, pos, ◌+ℤ◌, ◌-ℤ◌, ◌*ℤ◌, neg_ℤ, ◌≢◌, unsigned_abs};
ghost use Rattle.values.specs.Lawful.{in_range};
ghost use Rattle.values.specs.Numbers.{modulus as modulus_of};
ghost use Rattle.numbers.specs.Number.{ranged as ranged_of, divided, unless_zero};

use values::Fault;

/// `n`, if it is in range.
fn ranged(n: i64) -> Result<i32, Fault>
    ensures { result ≡ ranged_of n }
{
    match i32::try_from(n) {
        Ok(n) if n != i32::MIN => Ok(n),
        _ => Err(Fault::OutOfRange),
    }
}

/// `a + b`.
pub fn sum(a: i32, b: i32) -> Result<i32, Fault>
    ensures { result ≡ ranged_of (a +ℤ b) }
{
    ranged(a as i64 + b as i64)
}

/// `a - b`.
pub fn difference(a: i32, b: i32) -> Result<i32, Fault>
    ensures { result ≡ ranged_of (a -ℤ b) }
{
    ranged(a as i64 - b as i64)
}

/// `a * b`.
pub fn product(a: i32, b: i32) -> Result<i32, Fault>
    ensures { result ≡ ranged_of (a *ℤ b) }
{
    ranged(a as i64 * b as i64)
}

/// `-a`, for a number `a`.
pub fn negated(a: i32) -> i32
    ensures { in_range a ≡ true → result ≡ neg_ℤ a }
{
    a.wrapping_neg()
}

/// The size of a number `a`.
pub fn magnitude(a: i32) -> i32
    ensures { in_range a ≡ true → result ≡ pos (unsigned_abs a) }
{
    a.wrapping_abs()
}

/// Which result of a division is wanted.
#[derive(Clone, Copy, Debug, PartialEq, Eq)]
pub enum Division {
    /// The quotient, cut toward zero.
    Div,
    /// The remainder with the sign of the dividend.
    Rem,
    /// The remainder with the sign of the divisor.
    Mod,
}

/// The remainder with the sign of `b`.
fn modulus(a: i32, b: i32) -> i32
    requires number { in_range a ≡ true }
    requires divisor { b ≢ pos 0 }
    ensures { result ≡ modulus_of a b }
{
    let r = a % b;
    if r != 0 && (r < 0) != (b < 0) {
        r + b
    } else {
        r
    }
}

/// Quotient, remainder or modulus of a number `a` by `b`.
pub fn divide(how: Division, a: i32, b: i32) -> Result<i32, Fault>
    ensures { in_range a ≡ true → result ≡ unless_zero b (divided how a b) }
{
    if b == 0 {
        return Err(Fault::DivisionByZero);
    }
    if a == i32::MIN {
        return Err(Fault::OutOfRange);
    }
    match how {
        Division::Div => Ok(a / b),
        Division::Rem => Ok(a % b),
        Division::Mod => Ok(modulus(a, b)),
    }
}
