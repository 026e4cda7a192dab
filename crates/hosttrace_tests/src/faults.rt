//! Stores and sinks that fail.
use hosttrace::{Status, run};
use ht_outside::{MemorySink, MemoryStore, OpenGate, Sink, SinkError, Store, StoreError};
use std::alloc::AllocGlobal;
use std::str;
use std::test::Fail;
use std::thread::Threads;
use trace_types::Text;

// A store in memory whose call of this number fails, counted from 0.
#[derive(Drop)]
struct ScriptedStore {
    files: MemoryStore,
    calls: u64,
    fails_at: u64,
    faults: u64,
}

impl Store for ScriptedStore {
    ghost use Rattle.std.specs.Prelude.{None};

    ghost holds = { λ _. None };

    ghost faults = { λ s. s.faults };

    fn names(&mut self, dir: &[u8]) -> Result<Vec<Text>, StoreError> {
        let broken = self.calls == self.fails_at;
        self.calls = self.calls.saturating_add(1);
        if broken {
            self.faults = self.faults.saturating_add(1);
            return Err(StoreError::Failed);
        }
        self.files.names(dir)
    }

    fn read(
        &mut self,
        dir: &[u8],
        name: &[u8],
        at: u64,
        buf: &mut [u8],
    ) -> Result<usize, StoreError> {
        let broken = self.calls == self.fails_at;
        self.calls = self.calls.saturating_add(1);
        if broken {
            self.faults = self.faults.saturating_add(1);
            return Err(StoreError::Failed);
        }
        self.files.read(dir, name, at, buf)
    }
}

// A sink that takes so many bytes and then fails.
#[derive(Drop)]
struct NarrowSink {
    bytes: Vec<u8>,
    room: usize,
    faults: u64,
}

impl Sink for NarrowSink {
    ghost use Rattle.std.specs.Prelude.{Some};

    ghost contents = { λ s. Some s.bytes.items };

    ghost faults = { λ s. s.faults };

    fn write(&mut self, piece: &[u8]) -> Result<usize, SinkError> {
        let count = self.room.min(piece.len());
        if count == 0 {
            self.faults = self.faults.saturating_add(1);
            return Err(SinkError::Failed);
        }
        match self.bytes.extend_from_slice(&piece[..count]) {
            Ok(()) => {
                self.room -= count;
                Ok(count)
            }
            Err(_) => Err(SinkError::OutOfMemory),
        }
    }
}

// Processor 0 goes from idle to bash at 100.
const ONE_SWITCH: &[u8] = b"hosttrace events 1\n\
    100 0 0 100 switch 0 swapper/0 20 0 7 bash 20\n";

const METADATA: &[u8] = b"trace { byte_order = le; };";

const QUESTIONS: &[u8] = b"249 h0/Cpu/0/Thread\n99 h0/Cpu/0/Thread\n";

const ANSWERS: &str = "249 h0/Cpu/0/Thread int 7\n99 h0/Cpu/0/Thread null\n";

// Asks two questions, as `ran`.
fn asked<R: AllocGlobal + Threads + Sync>(
    rt: &R,
    fails_at: u64,
    room: usize,
) -> Result<(Status, Vec<u8>, Vec<u8>), Fail> {
    ran(rt, "ask --questions q --list a.list", fails_at, room)
}

// Runs words where the store's call of this number fails and the sink for the text takes so many
// bytes: the status, what was written, and the line on the sink for errors.
fn ran<R: AllocGlobal + Threads + Sync>(
    rt: &R,
    line: &str,
    fails_at: u64,
    room: usize,
) -> Result<(Status, Vec<u8>, Vec<u8>), Fail> {
    let alloc = rt.alloc();
    let mut words = Vec::new(alloc);
    for word in line.split_whitespace() {
        words.push(String::from_str(alloc, word)?)?;
    }
    let mut files = MemoryStore::new(alloc);
    files.put(b"", b"a.list", ONE_SWITCH)?;
    files.put(b"", b"q", QUESTIONS)?;
    files.put(b"d", b"metadata", METADATA)?;
    let mut store = ScriptedStore {
        files,
        calls: 0,
        fails_at,
        faults: 0,
    };
    let mut out = NarrowSink {
        bytes: Vec::new(alloc),
        room,
        faults: 0,
    };
    let mut err = MemorySink {
        bytes: Vec::new(alloc),
    };
    let status = run(rt, alloc, &words, &mut store, &mut out, &mut err, &OpenGate);
    Ok((status, out.bytes, err.bytes))
}

// Each file is read by two calls: its bytes, and then none.
#[test]
fn a_store_that_fails_at_each_call(rt: HostRuntime) -> Result<(), Fail> {
    for call in 0..4 {
        let (status, out, err) = asked(&rt, call, 1000)?;
        assert_eq!(rt; status, Status::ReadFault);
        assert_eq!(rt; status.code(), 3);
        assert_eq!(rt; str::from_utf8(&err)?, "read fault\n");
        assert!(rt; out.is_empty());
    }
    let (status, out, err) = asked(&rt, 4, 1000)?;
    assert_eq!(rt; status, Status::Done);
    assert_eq!(rt; str::from_utf8(&out)?, ANSWERS);
    assert!(rt; err.is_empty());
    Ok(())
}

// A folder is read by three calls: its names, the bytes of its metadata, and then none.
#[test]
fn a_folder_that_fails_at_each_call(rt: HostRuntime) -> Result<(), Fail> {
    for call in 0..3 {
        let (status, out, err) = ran(&rt, "check d", call, 1000)?;
        assert_eq!(rt; status, Status::ReadFault);
        assert_eq!(rt; str::from_utf8(&err)?, "read fault\n");
        assert!(rt; out.is_empty());
    }
    let (status, out, err) = ran(&rt, "check d", 3, 1000)?;
    assert_eq!(rt; status, Status::Done);
    assert_eq!(rt;
        str::from_utf8(&out)?,
        "host 0 streams 0 events 0 clocks 0\n"
    );
    assert!(rt; err.is_empty());
    Ok(())
}

// A sink that is full leaves a front of the text.
#[test]
fn a_sink_that_takes_a_part(rt: HostRuntime) -> Result<(), Fail> {
    for room in [0, 1, 26, 49] {
        let (status, out, err) = asked(&rt, 100, room)?;
        assert_eq!(rt; status, Status::WriteFault);
        assert_eq!(rt; status.code(), 4);
        assert_eq!(rt; str::from_utf8(&err)?, "write fault\n");
        assert_eq!(rt; out.len(), room);
        assert!(rt; ANSWERS.as_bytes().starts_with(&out));
    }
    let (status, out, _) = asked(&rt, 100, 50)?;
    assert_eq!(rt; status, Status::Done);
    assert_eq!(rt; out.len(), 50);
    Ok(())
}
