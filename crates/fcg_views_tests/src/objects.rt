//! What no clause says: that calls succeed where there is memory, and what is left where one fails in mid-stream. The
//! helpers' own contracts show what a caller knows of objects in memory.
ghost use Rattle.std.specs.Prelude.{◌≡◌, ◌<◌, ◌++◌, None, length, IfOk, OnOk, IsErrOf};
ghost use Rattle.fcg_bytes.specs.Objects.{aside_of_none};

use fcg_bytes::{
    Failed, MemorySink, MemorySource, ReadAllRefusal, Sink, StdSink, StdSource, read_all,
    write_whole,
};
use fcg_views::Bytes;
use std::alloc::Global;
use std::io::{ErrorKind, Read};
use std::test::Fail;

const TEXT: [u8; 6] = *b"sixbyt";

// A sink that takes two bytes a call at most, and fails at one call.
#[derive(Drop)]
struct Trickle {
    bytes: Vec<u8>,
    calls: u64,
    fail: u64,
    faults: u64,
}

impl Sink for Trickle {
    ghost taken = { λ _. None };

    ghost faults = { λ s. s.faults };

    ghost aside = { λ _. aside_of_none };

    fn write(&mut self, bytes: &[u8]) -> Result<usize, Failed> {
        let call = self.calls;
        self.calls = self.calls.saturating_add(1);
        let count = bytes.len().min(2);
        if call == self.fail || self.bytes.extend_from_slice(&bytes[..count]).is_err() {
            self.faults = self.faults.saturating_add(1);
            return Err(Failed);
        }
        Ok(count)
    }
}

// A reader that fails.
#[derive(Drop)]
struct Broken;

impl Read for Broken {
    fn read(&mut self, _buf: &mut [u8]) -> std::io::Result<usize> {
        Err(ErrorKind::Other.into())
    }
}

fn read_pieces(
    alloc: Global,
    bytes: &[u8],
    piece: usize,
    limit: usize,
) -> Result<Bytes, ReadAllRefusal>
    ensures ok { IfOk result (λ read. read ≡ bytes.now) }
    ensures too_long { IsErrOf result ReadAllRefusal.TooLong → limit < length bytes.now }
{
    let mut source = MemorySource::new(bytes.to_vec(alloc)?, piece, Vec::new(alloc));
    read_all(alloc, &mut source, limit)
}

fn read_slice(alloc: Global, bytes: &[u8], limit: usize) -> Result<Bytes, ReadAllRefusal>
    ensures ok { IfOk result (λ read. read ≡ bytes.now) }
    ensures too_long { IsErrOf result ReadAllRefusal.TooLong → limit < length bytes.now }
{
    let mut source = StdSource::new(bytes);
    read_all(alloc, &mut source, limit)
}

fn write_on(sink: &mut MemorySink, bytes: &[u8]) -> Result<(), Failed>
    ensures { OnOk result (sink.new.taken ≡ sink.old.taken ++ bytes.now) }
{
    write_whole(sink, bytes)
}

const PIECES: &[usize] = &[0, 1, 4, 100];

// Whether the text is read whole within 6 bytes, and is too long for 5.
fn reads_within(alloc: Global, piece: usize) -> bool {
    let whole = read_pieces(alloc, &TEXT, piece, 6).is_ok_and(|bytes| bytes.as_slice()
        == TEXT.as_slice());
    let refusal = read_pieces(alloc, &TEXT, piece, 5).err();
    whole && refusal == Some(ReadAllRefusal::TooLong)
}

#[test]
fn reads_all_within_the_limit(rt: HostRuntime) -> Result<(), Fail> {
    for piece in PIECES {
        assert!(rt; reads_within(rt.alloc(), *piece), "in pieces of {piece}");
    }
    Ok(())
}

// A source of the text in pieces of two bytes, whose second call fails.
fn failing_source(alloc: Global) -> Result<MemorySource, Fail> {
    let fail = [1].to_vec(alloc)?;
    Ok(MemorySource::new(TEXT.to_vec(alloc)?, 2, fail))
}

#[test]
fn reads_on_after_a_failure(rt: HostRuntime) -> Result<(), Fail> {
    let mut source = failing_source(rt.alloc())?;
    let refusal = read_all(rt.alloc(), &mut source, 6).err();
    assert!(rt; refusal == Some(ReadAllRefusal::Failed));
    let bytes = read_all(rt.alloc(), &mut source, 6)?;
    assert!(rt; bytes.as_slice() == b"xbyt".as_slice());
    Ok(())
}

// The call that fails, and how many bytes were taken.
const FRONTS: &[(u64, usize)] = &[(0, 0), (2, 4), (3, 6)];

fn failing_sink(alloc: Global, fail: u64) -> Trickle {
    Trickle {
        bytes: Vec::new(alloc),
        calls: 0,
        fail,
        faults: 0,
    }
}

#[test]
fn writes_a_front(rt: HostRuntime) -> Result<(), Fail> {
    for (fail, front) in FRONTS {
        let mut sink = failing_sink(rt.alloc(), *fail);
        let whole = write_whole(&mut sink, &TEXT).is_ok();
        assert!(rt;
            whole == (*front == 6) && TEXT.starts_with(&sink.bytes) && sink.bytes.len() == *front,
            "at {fail}"
        );
    }
    Ok(())
}

// Whether these bytes are taken, in this order.
const WRITES: &[(&[u8], bool)] = &[
    (b"four", true),
    (b"two", false),
    (b"four", false),
    (b"two", true),
];

// A sink with room for seven bytes, whose second call fails.
fn small_sink(alloc: Global) -> Result<MemorySink, Fail> {
    let fail = [1].to_vec(alloc)?;
    Ok(MemorySink::new(alloc, 7, fail)?)
}

#[test]
fn fills_its_room(rt: HostRuntime) -> Result<(), Fail> {
    let mut sink = small_sink(rt.alloc())?;
    for (bytes, taken) in WRITES {
        assert!(rt; write_on(&mut sink, bytes).is_ok() == *taken);
    }
    assert!(rt; sink.bytes() == b"fourtwo".as_slice());
    Ok(())
}

#[test]
fn over_readers(rt: HostRuntime) -> Result<(), Fail> {
    let read = read_slice(rt.alloc(), &TEXT, 6);
    assert!(rt; read.is_ok_and(|bytes| bytes.as_slice() == TEXT.as_slice()));
    let refusal = read_all(rt.alloc(), &mut StdSource::new(Broken), 6).err();
    assert!(rt; refusal == Some(ReadAllRefusal::Failed));
    Ok(())
}

// What a writer without an end takes.
fn written(alloc: Global) -> Result<Vec<u8>, Fail> {
    let mut written = Vec::new(alloc);
    let mut sink = StdSink::new(&mut written);
    write_whole(&mut sink, &TEXT)?;
    Ok(written)
}

#[test]
fn over_writers(rt: HostRuntime) -> Result<(), Fail> {
    assert!(rt; written(rt.alloc())?.as_slice() == TEXT.as_slice());

    // Such a writer takes none of the bytes once it is full.
    let mut room = [0; 4];
    let mut sink = StdSink::new(room.as_mut_slice());
    assert!(rt; write_whole(&mut sink, &TEXT) == Err(Failed));
    assert!(rt; TEXT.starts_with(&room));
    Ok(())
}
