//! What no clause says: that a run succeeds where there is memory, what it prints, and what is left where a read or a
//! write fails in mid-stream.
ghost use Rattle.std.specs.Prelude.{None};
ghost use Rattle.fcg_bytes.specs.Objects.{aside_of_none};

use crate::bundles::{CALLS, CALLS_ITSELF, LAMBDA, METHODS, SMALLEST};
use fcg_bytes::{Failed, MemoryFiles, MemorySink, MemorySource, Sink};
use fcg_top::{Status, run};
use fcg_views::NoMemory;
use std::alloc::{AllocError, Global};
use std::test::Fail;

/// What a run over memory left.
#[derive(Drop)]
pub struct Outcome {
    pub status: Status,
    pub output: MemorySink,
    pub errors: MemorySink,
}

impl Outcome {
    /// Whether it ended with this status and left these bytes on the output, and these on the errors.
    pub fn is(&self, status: Status, output: &[u8], errors: &[u8]) -> bool {
        self.status == status && self.output.bytes() == output && self.errors.bytes() == errors
    }
}

// A sink that takes five bytes a call at most, and fails at the call with this number.
#[derive(Drop)]
struct Trickle {
    bytes: Vec<u8>,
    fail: u64,
    calls: u64,
    faults: u64,
}

impl Sink for Trickle {
    ghost taken = { λ _. None };

    ghost faults = { λ s. s.faults };

    ghost aside = { λ _. aside_of_none };

    fn write(&mut self, bytes: &[u8]) -> Result<usize, Failed> {
        let call = self.calls;
        self.calls = self.calls.saturating_add(1);
        let count = bytes.len().min(5);
        if call == self.fail || self.bytes.extend_from_slice(&bytes[..count]).is_err() {
            self.faults = self.faults.saturating_add(1);
            return Err(Failed);
        }
        Ok(count)
    }
}

// The words between the spaces of a line.
fn words(alloc: Global, line: &str) -> Result<Vec<String>, AllocError> {
    let mut words = Vec::new(alloc);
    for word in line.split(' ') {
        words.push(String::from_str(alloc, word)?)?;
    }
    Ok(words)
}

// A source in pieces of ten bytes, where the reads with these numbers fail.
fn source_of(alloc: Global, bytes: &[u8], fail: &[u64]) -> Result<MemorySource, AllocError> {
    Ok(MemorySource::new(bytes.to_vec(alloc)?, 10, fail.to_vec(alloc)?))
}

/// An outcome of nothing yet, with room for so many bytes on the output, whose call with a number fails.
pub fn outcome_of(alloc: Global, room: usize, fail: &[u64]) -> Result<Outcome, NoMemory> {
    let output = MemorySink::new(alloc, room, fail.to_vec(alloc)?)?;
    let errors = MemorySink::new(alloc, 1000, Vec::new(alloc))?;
    Ok(Outcome {
        status: Status::Words,
        output,
        errors,
    })
}

// Runs words over a source.
fn run_source(
    alloc: Global,
    line: &str,
    input: &mut MemorySource,
    outcome: &mut Outcome,
) -> Result<(), AllocError> {
    let words = words(alloc, line)?;
    let mut files = MemoryFiles::new(Vec::new(alloc), Vec::new(alloc));
    outcome.status = run(
        alloc,
        &words,
        input,
        &mut outcome.output,
        &mut outcome.errors,
        &mut files,
    );
    Ok(())
}

/// Runs words over bytes in pieces of ten, where the reads with these numbers fail.
pub fn run_over(
    alloc: Global,
    line: &str,
    bytes: &[u8],
    fail: &[u64],
) -> Result<Outcome, NoMemory> {
    let mut input = source_of(alloc, bytes, fail)?;
    let mut outcome = outcome_of(alloc, 2000, &[])?;
    run_source(alloc, line, &mut input, &mut outcome)?;
    Ok(outcome)
}

// The words, the input, and then the status, the output and the errors.
const RUNS: &[(&str, &[u8], Status, &str, &str)] = &[
    (
        "list",
        SMALLEST,
        Status::Ok,
        "type I\ntypes 1 methods 0\n",
        "",
    ),
    (
        "list",
        METHODS,
        Status::Ok,
        "type p/Q\nmethod go(I[JLjava/lang/String;)Ljava/lang/Object;\nmethod %C3%A9t%C3%A9()V\ntypes 1 methods 2\n",
        "",
    ),
    (
        "list",
        b"FCGB\x00\x01\x00\x00\x00\x00",
        Status::Ok,
        "types 0 methods 0\n",
        "",
    ),
    (
        "list",
        b"FCG",
        Status::Refused,
        "",
        "{\"entry\":0,\"fault\":\"BadBundle\",\"offset\":0,\"rule\":\"Cut\"}\n",
    ),
    (
        "list",
        b"FCGB\x00\x01\xff\xff\xff\xff",
        Status::Refused,
        "",
        "{\"entry\":0,\"fault\":\"BadBundle\",\"offset\":10,\"rule\":\"Cut\"}\n",
    ),
    (
        "list",
        b"PK\x03\x04",
        Status::Refused,
        "",
        "{\"fault\":\"Jar\"}\n",
    ),
    ("sites", SMALLEST, Status::Ok, "sites 0\n", ""),
    ("sites", METHODS, Status::Ok, "sites 0\n", ""),
    (
        "sites",
        b"FCGB\x00\x01\x00\x00\x00\x00",
        Status::Ok,
        "sites 0\n",
        "",
    ),
    (
        "sites",
        b"FCG",
        Status::Refused,
        "",
        "{\"entry\":0,\"fault\":\"BadBundle\",\"offset\":0,\"rule\":\"Cut\"}\n",
    ),
    (
        "sites",
        b"PK\x03\x04",
        Status::Refused,
        "",
        "{\"fault\":\"Jar\"}\n",
    ),
    ("", SMALLEST, Status::Words, "", "words\n"),
    ("site", SMALLEST, Status::Words, "", "words\n"),
    ("list x", SMALLEST, Status::Words, "", "words\n"),
    ("sites x", SMALLEST, Status::Words, "", "words\n"),
    ("pack", SMALLEST, Status::Words, "", "words\n"),
    ("pack ", SMALLEST, Status::Words, "", "words\n"),
    ("pack -d", SMALLEST, Status::Words, "", "words\n"),
    ("pack d e", SMALLEST, Status::Words, "", "words\n"),
];

#[test]
fn prints_or_refuses(rt: HostRuntime) -> Result<(), Fail> {
    for (line, bytes, status, output, errors) in RUNS {
        let outcome = run_over(rt.alloc(), line, bytes, &[])?;
        assert!(rt;
            outcome.is(*status, output.as_bytes(), errors.as_bytes()),
            "{line}"
        );
    }
    Ok(())
}

const LISTED: &[(&str, &[u8], &str)] = &[
    (
        "list",
        CALLS_ITSELF,
        "type p/A\nmethod m()V\ntypes 1 methods 1\n",
    ),
    (
        "sites",
        CALLS_ITSELF,
        "site p/A.m()V 0 static p/A.m()V\nsites 1\n",
    ),
    (
        "sites",
        LAMBDA,
        concat!(
            "site p/L.main()V 0 handle6 java/lang/invoke/LambdaMetafactory.metafactory()V\n",
            "site p/L.main()V 0 handle6 p/L.lambda$main$0()V\n",
            "sites 2\n",
        ),
    ),
    (
        "sites",
        CALLS,
        concat!(
            "site p/Calls.%3Cinit%3E()V 1 special java/lang/Object.%3Cinit%3E()V\n",
            "site p/Calls.toString()Ljava/lang/String; 1 special java/lang/Object.toString()Ljava/lang/String;\n",
            "site p/Calls.dense(ILjava/lang/CharSequence;)I 29 interface java/lang/CharSequence.length()I\n",
            "site p/Calls.dense(ILjava/lang/CharSequence;)I 36 static java/lang/Math.abs(I)I\n",
            "site p/Calls.dense(ILjava/lang/CharSequence;)I 41 interface java/lang/CharSequence.toString()Ljava/lang/String;\n",
            "site p/Calls.dense(ILjava/lang/CharSequence;)I 46 virtual java/lang/String.length()I\n",
            "site p/Calls.dense(ILjava/lang/CharSequence;)I 51 static p/Calls.sparse(I)I\n",
            "site p/Calls.sparse(I)I 42 static java/lang/Math.max(II)I\n",
            "site p/Calls.sparse(I)I 47 static java/lang/Integer.bitCount(I)I\n",
            "site p/Calls.sparse(I)I 53 static p/Calls.dense(ILjava/lang/CharSequence;)I\n",
            "site p/Calls.twice(Lp/Calls;)I 1 virtual java/lang/Object.hashCode()I\n",
            "site p/Calls.twice(Lp/Calls;)I 5 virtual java/lang/Object.hashCode()I\n",
            "sites 12\n",
        ),
    ),
];

#[test]
fn prints_the_calls_of_code(rt: HostRuntime) -> Result<(), Fail> {
    for (line, bytes, output) in LISTED {
        let outcome = run_over(rt.alloc(), line, bytes, &[])?;
        assert!(rt; outcome.is(Status::Ok, output.as_bytes(), b""), "{line}");
    }
    Ok(())
}

/// The front of a bundle of so many entries.
pub fn begin_bundle(alloc: Global, count: u8) -> Result<Vec<u8>, AllocError> {
    let mut bytes = b"FCGB\x00\x01\x00\x00\x00".to_vec(alloc)?;
    bytes.push(count)?;
    Ok(bytes)
}

/// An entry more.
pub fn push_entry(bytes: &mut Vec<u8>, path: &[u8], body: &[u8]) -> Result<(), Fail> {
    bytes.extend_from_slice(&u16::try_from(path.len())?.to_be_bytes())?;
    bytes.extend_from_slice(path)?;
    bytes.extend_from_slice(&u32::try_from(body.len())?.to_be_bytes())?;
    bytes.extend_from_slice(body)?;
    Ok(())
}

// A bundle of the smallest class file at each of these paths.
fn bundle_at(alloc: Global, paths: &[&[u8]]) -> Result<Vec<u8>, Fail> {
    let mut bytes = begin_bundle(alloc, u8::try_from(paths.len())?)?;
    for path in paths {
        push_entry(&mut bytes, path, &SMALLEST[23..])?;
    }
    Ok(bytes)
}

// Whether `list` refuses a bundle with this line.
fn is_refused(alloc: Global, bytes: &[u8], line: &[u8]) -> Result<bool, NoMemory> {
    let outcome = run_over(alloc, "list", bytes, &[])?;
    Ok(outcome.is(Status::Refused, b"", line))
}

const AT_LENGTH: &[u8] = b"{\"entry\":0,\"fault\":\"BadBundle\",\"offset\":10,\"rule\":\"Path\"}\n";

// The paths of the entries, and the line on the errors.
const PATHS: &[(&[&[u8]], &[u8])] = &[
    (
        &[b"a/../I.class"],
        b"{\"entry\":0,\"fault\":\"BadBundle\",\"offset\":12,\"rule\":\"Path\"}\n",
    ),
    (
        &[b"\x7f.class"],
        b"{\"entry\":0,\"fault\":\"BadBundle\",\"offset\":12,\"rule\":\"Path\"}\n",
    ),
    (&[b""], AT_LENGTH),
    (
        &[b"I.class", b"I.class"],
        b"{\"entry\":1,\"fault\":\"BadBundle\",\"offset\":78,\"rule\":\"Path\"}\n",
    ),
];

#[test]
fn refuses_paths(rt: HostRuntime) -> Result<(), Fail> {
    for (paths, line) in PATHS {
        let bytes = bundle_at(rt.alloc(), paths)?;
        assert!(rt; is_refused(rt.alloc(), &bytes, line)?);
    }
    let long = vec![in rt.alloc(); b'a'; 1025]?;
    let bytes = bundle_at(rt.alloc(), &[long.as_slice()])?;
    assert!(rt; is_refused(rt.alloc(), &bytes, AT_LENGTH)?);
    Ok(())
}

// A bundle of a text, the smallest class file, and the same for later versions of the platform.
fn with_others(alloc: Global) -> Result<Vec<u8>, Fail> {
    let mut bytes = begin_bundle(alloc, 3)?;
    push_entry(&mut bytes, b"a.txt", b"no class file")?;
    push_entry(&mut bytes, b"I.class", &SMALLEST[23..])?;
    push_entry(&mut bytes, b"META-INF/versions/9/I.class", &SMALLEST[23..])?;
    Ok(bytes)
}

#[test]
fn passes_entries_over(rt: HostRuntime) -> Result<(), Fail> {
    let bytes = with_others(rt.alloc())?;
    let outcome = run_over(rt.alloc(), "list", &bytes, &[])?;
    assert!(rt; outcome.is(Status::Ok, b"type I\ntypes 1 methods 0\n", b""));
    Ok(())
}

// The smallest bundle with another byte at a place, without its last bytes, and with others after it.
fn changed(alloc: Global, at: usize, byte: u8, cut: usize, more: &[u8]) -> Result<Vec<u8>, Fail> {
    let mut bytes = SMALLEST.to_vec(alloc)?;
    if let Some(place) = bytes.get_mut(at) {
        *place = byte;
    }
    bytes.truncate(SMALLEST.len().saturating_sub(cut));
    bytes.extend_from_slice(more)?;
    Ok(bytes)
}

// A byte of a name; a body without its last byte; and a byte after the last entry.
const CHANGED: &[(usize, u8, usize, &[u8], &[u8])] = &[
    (
        45,
        0,
        0,
        b"",
        b"{\"entry\":0,\"fault\":\"BadClass\",\"index\":3,\"offset\":22,\"rule\":\"BadUtf8\"}\n",
    ),
    (
        22,
        52,
        1,
        b"",
        b"{\"entry\":0,\"fault\":\"BadClass\",\"index\":0,\"offset\":51,\"rule\":\"Cut\"}\n",
    ),
    (
        22,
        53,
        0,
        b"\0",
        b"{\"entry\":1,\"fault\":\"BadBundle\",\"offset\":76,\"rule\":\"Trailing\"}\n",
    ),
];

#[test]
fn refuses_class_files_and_what_follows(rt: HostRuntime) -> Result<(), Fail> {
    for (at, byte, cut, more, line) in CHANGED {
        let bytes = changed(rt.alloc(), *at, *byte, *cut, more)?;
        assert!(rt; is_refused(rt.alloc(), &bytes, line)?);
    }
    Ok(())
}

const FAILED_READS: &[(&str, u64)] = &[("list", 0), ("list", 3), ("list", 8), ("sites", 3)];

#[test]
fn a_read_fails(rt: HostRuntime) -> Result<(), Fail> {
    for (line, call) in FAILED_READS {
        let outcome = run_over(rt.alloc(), line, SMALLEST, &[*call])?;
        assert!(rt;
            outcome.is(Status::ReadFailed, b"", b"read failed\n"),
            "{line} at {call}"
        );
    }
    Ok(())
}

// Runs words over the smallest bundle into a sink that fails, with no room on the errors. Tells whether they stay empty, too.
fn run_trickle(
    alloc: Global,
    line: &str,
    output: &mut Trickle,
) -> Result<(Status, bool), NoMemory> {
    let words = words(alloc, line)?;
    let mut input = source_of(alloc, SMALLEST, &[])?;
    let mut errors = MemorySink::new(alloc, 0, Vec::new(alloc))?;
    let mut files = MemoryFiles::new(Vec::new(alloc), Vec::new(alloc));
    let status = run(alloc, &words, &mut input, output, &mut errors, &mut files);
    Ok((status, errors.bytes().is_empty()))
}

// The words, the number of the write that fails, and what was written before.
const FAILED_WRITES: &[(&str, u64, &str)] = &[("list", 2, "type I\ntyp"), ("sites", 1, "sites")];

#[test]
fn a_write_fails(rt: HostRuntime) -> Result<(), Fail> {
    for (line, fail, written) in FAILED_WRITES {
        let mut output = Trickle {
            bytes: Vec::new(rt.alloc()),
            fail: *fail,
            calls: 0,
            faults: 0,
        };
        let (status, empty) = run_trickle(rt.alloc(), line, &mut output)?;
        let same = output.bytes.as_slice() == written.as_bytes();
        assert!(rt; status == Status::WriteFailed && same && empty, "{line}");
    }
    Ok(())
}

const TOO_LONG: &[u8] = b"{\"fault\":\"BodyTooLong\",\"limit\":67108864}\n";

#[test]
fn above_the_limit(rt: HostRuntime) -> Result<(), Fail> {
    for line in ["list", "sites"] {
        let bytes = vec![in rt.alloc(); 0u8; 67_108_865]?;
        let mut input = MemorySource::new(bytes, 1_000_000, Vec::new(rt.alloc()));
        let mut outcome = outcome_of(rt.alloc(), 100, &[])?;
        run_source(rt.alloc(), line, &mut input, &mut outcome)?;
        assert!(rt; outcome.is(Status::Refused, b"", TOO_LONG), "{line}");
    }
    Ok(())
}
