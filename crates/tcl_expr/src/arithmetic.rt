//! Arithmetic on integers of 64 bits, exact or refused.
ghost use Rattle.std.specs.Prelude.{◌≡◌, ◌≢◌, ◌^◌, ◌+ℤ◌, ◌-ℤ◌, ◌*ℤ◌, ◌⊎◌, true, false, int_lt, int_rem, neg_ℤ, pos};
ghost use Rattle.tcl_expr.specs.Arithmetic as exact;

/// The sum, where 64 bits hold it.
#[tactic(auto, using(crate::proofs::ArithmeticLemmas::held))]
pub fn sum(left: i64, right: i64) -> Option<i64>
    ensures { result ≡ exact.in_64_bits (left +ℤ right) }
{
    left.checked_add(right)
}

/// The difference, where 64 bits hold it.
#[tactic(auto, using(crate::proofs::ArithmeticLemmas::held))]
pub fn difference(left: i64, right: i64) -> Option<i64>
    ensures { result ≡ exact.in_64_bits (left -ℤ right) }
{
    left.checked_sub(right)
}

/// The product, where 64 bits hold it.
#[tactic(auto, using(crate::proofs::ArithmeticLemmas::held))]
pub fn product(left: i64, right: i64) -> Option<i64>
    ensures { result ≡ exact.in_64_bits (left *ℤ right) }
{
    left.checked_mul(right)
}

/// The number with the other sign, where 64 bits hold it.
#[tactic(auto, using(crate::proofs::ArithmeticLemmas::held))]
pub fn negated(number: i64) -> Option<i64>
    ensures { result ≡ exact.in_64_bits (neg_ℤ number) }
{
    number.checked_neg()
}

/// The number with each bit the other way round.
pub fn complement(number: i64) -> i64
    ensures { result ≡ exact.complement number }
{
    -1 - number
}

/// Whether division toward 0 leaves a remainder on the other side of 0 than the divisor.
fn is_uneven(left: i64, right: i64) -> bool
    requires { right ≢ pos 0 }
    ensures rest { result ≡ true → int_rem left right ≢ pos 0 }
    ensures side { result ≡ true → int_lt (int_rem left right) (pos 0) ≢ int_lt right (pos 0) }
    ensures even { result ≡ false → (int_rem left right ≡ pos 0) ⊎ (int_lt (int_rem left right) (pos 0) ≡ int_lt right (pos 0)) }
{
    let remainder = left.wrapping_rem(right);
    remainder != 0 && (remainder < 0) != (right < 0)
}

/// The quotient rounded down, where 64 bits hold it.
#[tactic(auto, using(crate::proofs::ArithmeticLemmas::quotients))]
pub fn floor_quotient(left: i64, right: i64) -> Option<i64>
    requires { right ≢ pos 0 }
    ensures { result ≡ exact.in_64_bits (exact.floor_quotient left right) }
{
    let quotient = left.checked_div(right)?;
    if is_uneven(left, right) {
        quotient.checked_sub(1)
    } else {
        Some(quotient)
    }
}

/// The remainder of the quotient that is rounded down: it has the divisor's sign.
#[tactic(auto, using(crate::proofs::ArithmeticLemmas::remainders))]
pub fn floor_remainder(left: i64, right: i64) -> i64
    requires { right ≢ pos 0 }
    ensures { result ≡ exact.floor_remainder left right }
{
    let remainder = left.wrapping_rem(right);
    if is_uneven(left, right) {
        remainder + right
    } else {
        remainder
    }
}

/// The number shifted to the left, exact, where 64 bits hold it.
#[tactic(auto, using(crate::proofs::ShiftLemmas::lefts))]
fn left_by(number: i64, count: u64) -> Option<i64>
    ensures { result ≡ exact.in_64_bits (number *ℤ pos (2 ^ count)) }
{
    if count < 63 {
        number.checked_mul(2i64.pow(count as u32))
    } else {
        match number {
            0 => Some(0),
            -1 if count == 63 => Some(i64::MIN),
            _ => None,
        }
    }
}

/// The number shifted to the left, exact, where 64 bits hold it and the count isn't negative.
#[tactic(auto, using(crate::proofs::ShiftLemmas::counts))]
pub fn shifted_left(number: i64, count: i64) -> Option<i64>
    ensures { result ≡ exact.shifted_left number count }
{
    if count < 0 {
        return None;
    }
    left_by(number, count.unsigned_abs())
}

/// The number shifted to the right, rounded down, where the count isn't negative.
#[tactic(auto, using(crate::proofs::ShiftLemmas::rights))]
pub fn shifted_right(number: i64, count: i64) -> Option<i64>
    ensures { result ≡ exact.shifted_right number count }
{
    if count < 0 {
        return None;
    }
    Some(number >> count.unsigned_abs().min(63))
}
