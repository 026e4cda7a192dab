//! Fields in the forms and ranges that kinds of events need.
ghost use Rattle.std.specs.Prelude.{◌≡◌, neg_ℤ, pos};
ghost use Rattle.std.specs.Option.{option_copied};
ghost use Rattle.ctf_fields.specs.Values.{below_if_any};
ghost use Rattle.kernel_layout.specs.Sought.{text_of};
ghost use Rattle.kernel_layout.specs.Needed.{between, number, of_32, of_64, small, value_of};

use crate::fields::Fields;
use crate::sought::Sought;
use ctf_fields::{Field, below, below_64, number_of};

/// A tid, a processor, an interrupt or a status: 0 to 2^31 - 1.
pub fn small<F: Fields>(fields: F, name: Sought) -> Option<u32>
    requires { F.can_tell fields }
    ensures { result ≡ small (F.table fields) (F.root fields) (text_of name) }
{
    Some(below(fields.number(name), 1 << 31)? as u32)
}

/// A number of 32 bits without a sign.
pub fn of_32<F: Fields>(fields: F, name: Sought) -> Option<u32>
    requires { F.can_tell fields }
    ensures { result ≡ of_32 (F.table fields) (F.root fields) (text_of name) }
{
    within_32(fields.number(name))
}

/// A number of 64 bits without a sign.
pub fn of_64<F: Fields>(fields: F, name: Sought) -> Option<u64>
    requires { F.can_tell fields }
    ensures { result ≡ of_64 (F.table fields) (F.root fields) (text_of name) }
{
    below_64(fields.number(name))
}

/// A priority: a number of 32 bits with a sign.
pub fn priority<F: Fields>(fields: F, name: Sought) -> Option<i32>
    requires { F.can_tell fields }
    ensures { result ≡ between (neg_ℤ (pos 2147483648)) (pos 2147483647) (number (F.table fields) (F.root fields) (text_of name)) }
{
    i32::try_from(fields.number(name)?).ok()
}

/// A thread's state: a number of 64 bits with a sign.
pub fn state<F: Fields>(fields: F, name: Sought) -> Option<i64>
    requires { F.can_tell fields }
    ensures { result ≡ between (neg_ℤ (pos 9223372036854775808)) (pos 9223372036854775807) (number (F.table fields) (F.root fields) (text_of name)) }
{
    i64::try_from(fields.number(name)?).ok()
}

/// The value of a field that is a number.
pub fn value_of(field: Option<&Field>) -> Option<i128>
    ensures { result ≡ value_of (option_copied field.entry) }
{
    let (value, _) = number_of(field)?;
    Some(value)
}

/// A value that is a number of 16 bits without a sign.
pub fn within_16(value: Option<i128>) -> Option<u16>
    ensures { result ≡ below_if_any 65536 value }
{
    Some(below(value, 1 << 16)? as u16)
}

/// A value that is a number of 32 bits without a sign.
pub fn within_32(value: Option<i128>) -> Option<u32>
    ensures { result ≡ below_if_any 4294967296 value }
{
    Some(below(value, 1 << 32)? as u32)
}
