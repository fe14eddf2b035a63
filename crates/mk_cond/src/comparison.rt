//! Values and comparisons.
ghost use Rattle.std.specs.Prelude.{◌≡◌, ◌⊎◌, ◌↔◌, true, None, IsErr};
ghost use Rattle.mk_cond.specs.Truth as spec;

use crate::cond::CmpOp;
use crate::fault::NoNumber;
use mk_bytes::{Num, number};

// The number that a side is.
fn side_number(value: &[u8], quoted: bool) -> Option<Num>
    ensures { result ≡ spec.side_number value.now quoted }
{
    if quoted { None } else { number(value) }
}

/// The truth of a value that stands alone in a condition. An unquoted number is true where it is
/// not 0, and any other value where it is not empty.
pub fn truth(value: &[u8], quoted: bool) -> bool
    ensures { result ≡ spec.truth value.now quoted }
{
    match side_number(value, quoted) {
        Some(n) => !n.is_zero(),
        None => !value.is_empty(),
    }
}

fn compare_numbers(op: CmpOp, left: Num, right: Num) -> bool
    ensures { result ≡ spec.compare_numbers op left right }
{
    match op {
        CmpOp::Equal => left == right,
        CmpOp::NotEqual => left != right,
        CmpOp::Less => left < right,
        CmpOp::LessOrEqual => left <= right,
        CmpOp::Greater => left > right,
        CmpOp::GreaterOrEqual => left >= right,
    }
}

fn compare_texts(op: CmpOp, left: &[u8], right: &[u8]) -> Result<bool, NoNumber>
    ensures { result ≡ spec.compare_texts op left.now right.now }
{
    match op {
        CmpOp::Equal => Ok(left == right),
        CmpOp::NotEqual => Ok(left != right),
        _ => Err(NoNumber),
    }
}

/// The truth of a comparison in a condition. Where both sides are numbers, and neither is a quoted
/// text, they are compared by value, else byte by byte. `NoNumber` comes exactly where `op` asks
/// for an order, and a side is a quoted text or no number.
pub fn compare(
    left: &[u8],
    left_quoted: bool,
    op: CmpOp,
    right: &[u8],
    right_quoted: bool,
) -> Result<bool, NoNumber>
    ensures exact { result ≡ spec.compare left.now left_quoted op right.now right_quoted }
    ensures refused { IsErr result ↔ ((spec.asks_order op ≡ true)
        × ((spec.side_number left.now left_quoted ≡ None)
        ⊎ (spec.side_number right.now right_quoted ≡ None))) }
{
    match (
        side_number(left, left_quoted),
        side_number(right, right_quoted),
    ) {
        (Some(m), Some(n)) => Ok(compare_numbers(op, m, n)),
        _ => compare_texts(op, left, right),
    }
}
