//! The values of an enumeration's labels.
ghost use Rattle.std.specs.Prelude.{◌≡◌, ◌≤ℤ◌, ◌+ℤ◌, pos, IfSome};
ghost use Rattle.type_scope.specs.Labels.{HIGHEST, label_values};

use tsdl_parser::Label;

/// The least value of a label, and of a clock's offset.
pub const LOWEST: i128 = i64::MIN as i128;

/// The greatest.
pub const HIGHEST: i128 = u64::MAX as i128;

/// The first and the last value of a label. One without a value takes `next`, which is one more than the
/// last of the label before, or 0. `None` comes where the values fall or one is out of range.
pub fn label_values(next: i128, label: &Label) -> Option<(i128, i128)>
    ensures values { result ≡ label_values next label.now }
    ensures bound { IfSome result (λ r. r.1 ≤ℤ HIGHEST) }
{
    let low = label.low.unwrap_or(next);
    let high = label.high.unwrap_or(low);
    (LOWEST <= low && low <= high && high <= HIGHEST).then_some((low, high))
}

/// The value after the last of a label.
pub fn behind(high: i128) -> i128
    requires { high ≤ℤ HIGHEST }
    ensures { result ≡ high +ℤ pos 1 }
{
    high + 1
}
