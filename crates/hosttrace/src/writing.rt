//! Writing a whole text to a sink.
ghost use Rattle.std.specs.Prelude.{OnOk, OnErr};
ghost use Rattle.std.specs.Io.KnownBytes.{Appends};
ghost use Rattle.hosttrace.specs.Writing.{AppendsFront};
ghost use Rattle.ht_outside.specs.Faults.{IsCaused};
ghost use Rattle.ht_outside.specs.declared.sink.SinkError.TheVariants.{Failed};

use ht_outside::{Sink, SinkError};

/// Writes a text. Each call of the sink gets all that is left of it.
pub fn write_text<K: Sink>(sink: &mut K, text: &[u8]) -> Result<(), SinkError>
    ensures written { OnOk result (Appends (K.contents sink.old) (K.contents sink.new) text.now) }
    ensures front { OnErr result (AppendsFront (K.contents sink.old) (K.contents sink.new) text.now) }
    ensures cause { IsCaused Failed result (K.faults sink.old) (K.faults sink.new) }
{
    let mut rest = text;
    while !rest.is_empty() {
        match sink.write(rest) {
            Ok(count) => rest = &rest[count..],
            Err(error) => return Err(error),
        }
    }
    Ok(())
}
