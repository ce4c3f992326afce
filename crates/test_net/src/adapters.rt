//! Sources and sinks: whole reads and writes over short and failing calls, and the adapters over std.
use base_io::{
    Bytes, Failed, MemorySink, MemorySource, NoMemory, Numbers, ReadAllFault, Source, StdSink,
    StdSource, SureSink, SureSource, WriteFault, read_all, write_all,
};
use std::alloc::Global;
use std::io;

fn failing(alloc: Global, call: u64) -> Result<Numbers, NoMemory> {
    let mut list = Numbers::new(alloc);
    list.push(call)?;
    Ok(list)
}

/// How many bytes were read, or why not all were.
fn read_from<S: Source + Drop>(alloc: Global, mut source: S) -> Result<usize, ReadAllFault> {
    Ok(read_all(alloc, &mut source)?.as_slice().len())
}

/// How many of 300 bytes are read in steps of so many, or from a source that never fails where that is 0.
fn read_in_steps(alloc: Global, step: usize, call: u64) -> Result<usize, ReadAllFault> {
    let bytes = Bytes::from_slice(alloc, &[7; 300])?;
    if step == 0 {
        return read_from(alloc, SureSource::new(bytes));
    }
    read_from(alloc, MemorySource::new(bytes, step, failing(alloc, call)?))
}

/// Bytes a call, the call that fails, and what comes of it.
static READS: [(usize, u64, Result<usize, ReadAllFault>); 4] = [
    (0, 0, Ok(300)),
    (1, 0, Ok(300)),
    (7, 0, Ok(300)),
    (64, 3, Err(ReadAllFault::ReadFault)),
];

#[test]
fn a_source_is_read_whole_whatever_its_steps(rt: HostRuntime) {
    for (step, call, read) in &READS {
        assert!(rt; read_in_steps(rt.alloc(), *step, *call) == *read);
    }
}

fn written_in_steps(alloc: Global, call: u64) -> Result<(bool, usize), NoMemory> {
    let mut sink = MemorySink::new(alloc, 64, failing(alloc, call)?);
    let whole = write_all(&mut sink, &[7; 300]).is_ok();
    Ok((whole, sink.written().len()))
}

#[test]
fn a_write_that_fails_leaves_a_prefix(rt: HostRuntime) {
    assert!(rt;
        written_in_steps(rt.alloc(), 3) == Ok((false, 128))
            && written_in_steps(rt.alloc(), 9) == Ok((true, 300))
            && write_all(&mut SureSink::new(), &[7; 300]).is_ok()
    );
}

/// A reader that is interrupted, gives two bytes, and fails from then on.
#[derive(Drop)]
struct Breaking {
    calls: u8,
}

impl io::Read for Breaking {
    ghost use Rattle.std.specs.Prelude.{None};

    ghost remaining = { λ _. None };

    fn read(&mut self, buf: &mut [u8]) -> io::Result<usize> {
        self.calls = self.calls.saturating_add(1);
        match self.calls {
            1 => Err(io::ErrorKind::Interrupted.into()),
            2 => Ok(buf.len().min(2)),
            _ => Err(io::ErrorKind::Other.into()),
        }
    }
}

fn broken_reads() -> [Result<usize, Failed>; 2] {
    let mut source = StdSource::new(Breaking { calls: 0 });
    let mut buf = [0u8; 4];
    [source.read(&mut buf), source.read(&mut buf)]
}

fn is_kept(alloc: Global, bytes: &[u8]) -> bool {
    let mut kept: Vec<u8> = Vec::new(alloc);
    let whole = write_all(&mut StdSink::new(&mut kept), bytes).is_ok();
    whole && kept.as_slice() == bytes
}

fn kept_of_four() -> (bool, [u8; 3]) {
    let mut room = [0u8; 3];
    let result = write_all(&mut StdSink::new(room.as_mut_slice()), b"abcd");
    (result == Err(WriteFault), room)
}

#[test]
fn readers_and_writers_of_std_are_sources_and_sinks(rt: HostRuntime) {
    assert!(rt;
        read_from(rt.alloc(), StdSource::new(b"from a reader".as_slice())) == Ok(13)
            && broken_reads() == [Ok(2), Err(Failed)]
            && is_kept(rt.alloc(), b"to a writer")
            && kept_of_four() == (true, *b"abc")
    );
}
