//! Writing the fields of kinds that several kinds have, or that take more than a number.
ghost use Rattle.std.specs.Prelude.{◌≡◌, ◌++◌, ◌∷◌, [], OnOk};
ghost use Rattle.std.specs.Fmt.{decimal, signed_decimal};
ghost use Rattle.trace_types.specs.ByteTexts.{byte_text};
ghost use Rattle.event_list.specs.Lines.{AreBytes, lost_words, name_at, process_words, request_words, segment_words, switch_words, woken_words};
ghost use Rattle.event_list.specs.Spaced.{spaced};

use crate::thread::NamedThread;
use itoa::{Buffer, Integer};
use trace_types::{Comm, OutOfMemory, SegKey, Text, write_byte_text};

/// Appends a space and a word as it is.
pub fn write_word(word: &[u8], out: &mut Vec<u8>) -> Result<(), OutOfMemory>
    ensures { OnOk result (out.new.items ≡ out.old.items ++ 32 ∷ word.now) }
{
    out.push(b' ')?;
    out.extend_from_slice(word)?;
    Ok(())
}

/// Appends a space and a number.
pub fn write_number<I: Integer>(number: I, out: &mut Vec<u8>) -> Result<(), OutOfMemory>
    ensures { OnOk result (out.new.items ≡ out.old.items ++ 32 ∷ I.text number) }
{
    let mut digits = Buffer::new();
    out.push(b' ')?;
    out.extend_from_slice(digits.format(number).as_bytes())?;
    Ok(())
}

/// Appends a space and the word that stands for bytes.
pub fn write_bytes(bytes: &[u8], out: &mut Vec<u8>) -> Result<(), OutOfMemory>
    ensures text { OnOk result (out.new.items ≡ out.old.items ++ 32 ∷ byte_text bytes.now) }
    ensures bytes { AreBytes bytes.now }
{
    out.push(b' ')?;
    write_byte_text(bytes, out)
}

/// Appends a thread with its name and priority.
pub fn write_thread(thread: &NamedThread, out: &mut Vec<u8>) -> Result<(), OutOfMemory>
    ensures text { OnOk result (out.new.items ≡ out.old.items ++ spaced (decimal thread.now.tid ∷ byte_text thread.now.comm ∷ signed_decimal thread.now.prio ∷ [])) }
    ensures bytes { OnOk result (AreBytes thread.now.comm) }
{
    write_number(thread.tid, out)?;
    write_bytes(thread.comm.as_bytes(), out)?;
    write_number(thread.prio, out)
}

/// Appends the fields of a switch.
pub fn write_switch(
    prev: &NamedThread,
    prev_state: i64,
    next: &NamedThread,
    out: &mut Vec<u8>,
) -> Result<(), OutOfMemory>
    ensures text { OnOk result (out.new.items ≡ out.old.items ++ spaced (switch_words prev_state prev.now.tid next.now.tid prev.now.prio next.now.prio prev.now.comm next.now.comm)) }
    ensures bytes { OnOk result (AreBytes prev.now.comm × AreBytes next.now.comm) }
{
    write_thread(prev, out)?;
    write_number(prev_state, out)?;
    write_thread(next, out)
}

/// Appends the fields of a wakeup.
pub fn write_woken(
    thread: &NamedThread,
    target_cpu: u32,
    out: &mut Vec<u8>,
) -> Result<(), OutOfMemory>
    ensures text { OnOk result (out.new.items ≡ out.old.items ++ spaced (woken_words thread.now.tid thread.now.comm thread.now.prio target_cpu)) }
    ensures bytes { OnOk result (AreBytes thread.now.comm) }
{
    write_thread(thread, out)?;
    write_number(target_cpu, out)
}

/// Appends the fields of a fork.
pub fn write_fork(
    parent_tid: u32,
    child_tid: u32,
    child_comm: &Comm,
    out: &mut Vec<u8>,
) -> Result<(), OutOfMemory>
    ensures text { OnOk result (out.new.items ≡ out.old.items ++ spaced (decimal parent_tid ∷ decimal child_tid ∷ byte_text child_comm.now ∷ [])) }
    ensures bytes { OnOk result (AreBytes child_comm.now) }
{
    write_two(parent_tid, child_tid, out)?;
    write_bytes(child_comm.as_bytes(), out)
}

/// Appends two numbers.
pub fn write_two(first: u32, second: u32, out: &mut Vec<u8>) -> Result<(), OutOfMemory>
    ensures { OnOk result (out.new.items ≡ out.old.items ++ spaced (decimal first ∷ decimal second ∷ [])) }
{
    write_number(first, out)?;
    write_number(second, out)
}

/// Appends the fields of a thread that was there before the trace.
pub fn write_process(
    tid: u32,
    ppid: u32,
    name: &Comm,
    status: u32,
    out: &mut Vec<u8>,
) -> Result<(), OutOfMemory>
    ensures text { OnOk result (out.new.items ≡ out.old.items ++ spaced (process_words tid ppid name.now status)) }
    ensures bytes { OnOk result (AreBytes name.now) }
{
    write_two(tid, ppid, out)?;
    write_bytes(name.as_bytes(), out)?;
    write_number(status, out)
}

/// Appends the fields of a disk's request.
pub fn write_request(
    sector: u64,
    dev: u32,
    nr_sector: u32,
    out: &mut Vec<u8>,
) -> Result<(), OutOfMemory>
    ensures { OnOk result (out.new.items ≡ out.old.items ++ spaced (request_words sector dev nr_sector)) }
{
    write_number(dev, out)?;
    write_number(sector, out)?;
    write_number(nr_sector, out)
}

/// Appends the fields of a segment.
pub fn write_segment(key: &SegKey, out: &mut Vec<u8>) -> Result<(), OutOfMemory>
    ensures { OnOk result (out.new.items ≡ out.old.items ++ spaced (segment_words key.now)) }
{
    write_ends(key, out)?;
    write_number(key.seq, out)?;
    write_number(key.ack_seq, out)?;
    write_number(key.flags, out)
}

// Appends where a segment goes from and to.
fn write_ends(key: &SegKey, out: &mut Vec<u8>) -> Result<(), OutOfMemory>
    ensures { OnOk result (out.new.items ≡ out.old.items ++ spaced (decimal key.now.saddr ∷ decimal key.now.daddr ∷ decimal key.now.source_port ∷ decimal key.now.dest_port ∷ [])) }
{
    write_number(key.saddr, out)?;
    write_number(key.daddr, out)?;
    write_number(key.source_port, out)?;
    write_number(key.dest_port, out)
}

/// Appends the fields of a mark of lost events.
pub fn write_lost(events: u64, gap: bool, out: &mut Vec<u8>) -> Result<(), OutOfMemory>
    ensures { OnOk result (out.new.items ≡ out.old.items ++ spaced (lost_words events gap)) }
{
    write_number(events, out)?;
    write_number(u8::from(gap), out)
}

/// Appends a space and the name of a number.
pub fn write_name(names: &[Text], number: u32, out: &mut Vec<u8>) -> Result<(), OutOfMemory>
    ensures text { OnOk result (out.new.items ≡ out.old.items ++ 32 ∷ byte_text (name_at names.now number)) }
    ensures bytes { OnOk result (AreBytes (name_at names.now number)) }
{
    match names.get(number as usize) {
        Some(name) => write_bytes(name.as_bytes(), out),
        None => write_bytes(b"", out),
    }
}
