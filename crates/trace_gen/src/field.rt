//! Numbers one after the other, in little endian bytes.
ghost use Rattle.std.specs.Prelude.{◌≡◌, ◌≤◌, ◌+◌, ◌*◌, ◌++◌, OnOk, length};
ghost use Rattle.trace_gen.specs.Layout.{field_bytes, fields_bytes};

use byteorder::{LittleEndian, WriteBytesExt};
use trace_types::OutOfMemory;

/// A number of 8, 16, 32 or 64 bits.
#[derive(Clone, Copy, Debug)]
pub enum Field {
    Byte(u8),
    Short(u16),
    Word(u32),
    Long(u64),
}

/// Appends the bytes of fields, one after the other. The only error is lack of memory.
#[tactic(auto, unfolding(crate::specs::Layout::fields_bytes))]
pub fn put_fields(fields: &[Field], out: &mut Vec<u8>) -> Result<(), OutOfMemory>
    ensures bytes { OnOk result (out.new.items ≡ out.old.items ++ fields_bytes fields.now) }
    ensures length { OnOk result (length out.new.items ≤ length out.old.items + 8 * length fields.now) }
{
    for field in fields {
        put_field(*field, out)?;
    }
    Ok(())
}

#[tactic(auto, unfolding(crate::specs::Layout::field_bytes))]
fn put_field(field: Field, out: &mut Vec<u8>) -> Result<(), OutOfMemory>
    ensures bytes { OnOk result (out.new.items ≡ out.old.items ++ field_bytes field) }
    ensures length { OnOk result (length out.new.items ≤ length out.old.items + 8) }
{
    match field {
        Field::Byte(number) => out.push(number)?,
        Field::Short(number) => out
            .write_u16::<LittleEndian>(number)
            .map_err(|_| OutOfMemory)?,
        Field::Word(number) => out
            .write_u32::<LittleEndian>(number)
            .map_err(|_| OutOfMemory)?,
        Field::Long(number) => out
            .write_u64::<LittleEndian>(number)
            .map_err(|_| OutOfMemory)?,
    }
    Ok(())
}
