//! Words without a command, a source and a sink that fail, an input at its limit, and runs on threads.
use ido_base::memory::OutOfMemory;
use ido_cli::{alone, ido};
use ido_outside::{Gate, MemSink, MemSource, OpenGate, SureSink, SureSource};
use std::alloc::{AllocError, Global};
use std::process::Abort;
use std::sync::Wait;
use std::sync::atomic::{AtomicBool, AtomicU64, Ordering};
use std::test::Fail;
use std::thread::Threads;

const ADD_ONE: &[u8] =
    b"mutex m; persistent(m) long x = 5; thread t { lock(m); x = x + 1; unlock(m); }\n";

fn words_of(alloc: Global, texts: &[&str]) -> Result<Vec<String>, AllocError> {
    let mut words = Vec::new(alloc);
    for text in texts {
        words.push(String::from_str(alloc, text)?)?;
    }
    Ok(words)
}

/// A source whose read of this number fails, counted from 1.
fn source_with(alloc: Global, input: &[u8], read: u64) -> Result<MemSource, AllocError> {
    let fails = vec![in alloc; read]?;
    Ok(MemSource::new(input.to_vec(alloc)?, 16, fails))
}

/// A sink whose write of this number fails, counted from 1.
fn sink_with(alloc: Global, write: u64) -> Result<MemSink, OutOfMemory> {
    let fails = vec![in alloc; write]?;
    MemSink::new(alloc, 3_000, 8, fails)
}

/// What a call comes to where its read and its write of these numbers fail, counted from 1.
fn call_with_faults<R: Threads + Wait + Sync>(
    rt: &R,
    alloc: Global,
    texts: &[&str],
    input: &[u8],
    read: u64,
    write: u64,
) -> Result<(u8, Vec<u8>), Fail> {
    let words = words_of(alloc, texts)?;
    let mut source = source_with(alloc, input, read)?;
    let mut sink = sink_with(alloc, write)?;
    let status = ido(rt, alloc, &words, &mut source, &mut sink, &OpenGate);
    Ok((status, sink.into_written()))
}

/// How many reads a call has that ends so: each fails in turn, and nothing is written.
fn fail_reads<R: Threads + Wait + Sync + Abort>(
    rt: &R,
    alloc: Global,
    texts: &[&str],
    input: &[u8],
    ended: u8,
) -> Result<usize, Fail> {
    let mut reads = 0;
    for read in 1..1_000u32 {
        let (status, written) = call_with_faults(rt, alloc, texts, input, u64::from(read), 0)?;
        if status == ended {
            break;
        }
        assert_eq!(rt; (status, written.len()), (4, 0), "{texts:?}, read {read}");
        reads = read as usize;
    }
    Ok(reads)
}

/// How many writes a call has that ends so, with this output: each fails in turn, and what was written before is the head of it.
fn fail_writes<R: Threads + Wait + Sync + Abort>(
    rt: &R,
    alloc: Global,
    texts: &[&str],
    input: &[u8],
    ended: u8,
    output: &[u8],
) -> Result<usize, Fail> {
    let mut writes = 0;
    for write in 1..1_000u32 {
        let (status, written) = call_with_faults(rt, alloc, texts, input, 0, u64::from(write))?;
        if status == ended {
            break;
        }
        assert_eq!(rt;
            (status, written.len(), output.starts_with(&written)),
            (5, 8 * (write as usize - 1), true),
            "{texts:?}, write {write}"
        );
        writes = write as usize;
    }
    Ok(writes)
}

/// Each read of a call fails in turn, and then each of its writes. Reads have 16 bytes at most, writes 8; there are so many writes.
fn fail_each<R: Threads + Wait + Sync + Abort>(
    rt: &R,
    alloc: Global,
    texts: &[&str],
    input: &[u8],
    writes: usize,
) -> Result<(), Fail> {
    let (ended, output) = call_with_faults(rt, alloc, texts, input, 0, 0)?;
    let read = fail_reads(rt, alloc, texts, input, ended)?;
    let written = fail_writes(rt, alloc, texts, input, ended, &output)?;
    let reads = if input.is_empty() {
        0
    } else {
        input.len().div_ceil(16) + 1
    };
    assert_eq!(rt; (read, written), (reads, writes), "{texts:?}");
    Ok(())
}

/// The image of version 2 that the same run leaves as this one of version 3, whose one life has one run: another number as its version, and
/// no number of lives, which has four bytes there before the last twelve.
fn of_version_2(alloc: Global, image: &[u8]) -> Result<Vec<u8>, AllocError> {
    let mut bytes = Vec::new(alloc);
    for (i, byte) in image.iter().enumerate() {
        let left = image.len() - i;
        if i == 8 {
            bytes.push(2)?;
        } else if left <= 12 || left > 16 {
            bytes.push(*byte)?;
        }
    }
    Ok(bytes)
}

/// Each read and each write of each command fails in turn.
#[test]
fn faults_outside(rt: HostRuntime) -> Result<(), Fail> {
    for (texts, input, writes) in [
        (["ido", "compile"].as_slice(), ADD_ONE, 36),
        (&["ido", "regions"], ADD_ONE, 10),
        (&["ido", "order"], ADD_ONE, 1),
        (&["ido", "seeded", "7", "1000"], ADD_ONE, 4),
        (&["ido", "live", "1000"], ADD_ONE, 4),
        (&["ido", "make", "1", "0"], b"", 130),
        (&["ido", "load", "1", "0"], b"", 3),
    ] {
        fail_each(&rt, rt.alloc(), texts, input, writes)?;
    }
    Ok(())
}

/// That of commands whose input is a source with what follows it.
#[test]
fn faults_outside_a_script(rt: HostRuntime) -> Result<(), Fail> {
    for (texts, rest, writes) in [
        (["ido", "play"].as_slice(), b"s 0 100000\n".as_slice(), 4),
        (&["ido", "image"], b"s 0 100000\n", 272),
        (&["ido", "sweep"], b"s 0 3\n", 5),
        (&["ido", "source"], b"schedule 0*4\n", 4),
    ] {
        let input = joined(rt.alloc(), ADD_ONE, rest)?;
        fail_each(&rt, rt.alloc(), texts, &input, writes)?;
    }
    Ok(())
}

/// That of the listing of an object.
#[test]
fn faults_outside_an_object(rt: HostRuntime) -> Result<(), Fail> {
    let (_, object) = call(&rt, rt.alloc(), &["ido", "compile"], ADD_ONE)?;
    fail_each(&rt, rt.alloc(), &["ido", "list"], &object, 260)
}

/// That of a recovery by an image, and of the image that is made of it.
#[test]
fn faults_outside_an_image(rt: HostRuntime) -> Result<(), Fail> {
    let played = joined(rt.alloc(), ADD_ONE, b"s 0 100000\n")?;
    let (_, image) = call(&rt, rt.alloc(), &["ido", "image"], &played)?;
    let older = of_version_2(rt.alloc(), &image)?;
    for (texts, input, writes) in [
        (["ido", "recover", "1000"], &image, 4),
        (["ido", "upgrade", "1000"], &older, 272),
    ] {
        fail_each(&rt, rt.alloc(), &texts, input, writes)?;
    }
    Ok(())
}

/// Words that name no command, and none at all.
#[test]
fn no_words(rt: HostRuntime) -> Result<(), Fail> {
    for texts in [[].as_slice(), &["ido"], &["play"]] {
        let (status, output) = call(&rt, rt.alloc(), texts, ADD_ONE)?;
        assert_eq!(rt;
            (status, output.as_slice()),
            (2, b"refused words\n".as_slice()),
            "{texts:?}"
        );
    }
    Ok(())
}

/// An input of `play` that is so long, by line feeds at its end.
fn long_input(alloc: Global, length: usize) -> Result<Vec<u8>, AllocError> {
    let mut bytes = ADD_ONE.to_vec(alloc)?;
    bytes.extend_from_slice(b"\n%%\ns 0 100000\n")?;
    bytes.resize(length, b'\n')?;
    Ok(bytes)
}

/// What is answered to an input of `play` that is so long, and what it was written to.
fn play_long(alloc: Global, length: usize) -> Result<(Option<u8>, SureSink), Fail> {
    let words = words_of(alloc, &["ido", "play"])?;
    let mut source = SureSource::new(long_input(alloc, length)?, 65_536);
    let mut sink = SureSink::new(alloc, 200, 7)?;
    let answer = alone(alloc, &words, &mut source, &mut sink);
    Ok((answer, sink))
}

#[test]
fn limits_of_an_input(rt: HostRuntime) -> Result<(), Fail> {
    for (length, status, output) in [
        (
            67_108_864,
            0,
            b"x = 6\nended 0 1\nschedule 0*4\n".as_slice(),
        ),
        (67_108_865, 6, b"refused limit\n"),
    ] {
        let (answer, sink) = play_long(rt.alloc(), length)?;
        assert_eq!(rt;
            (answer, sink.written()),
            (Some(status), Some(output)),
            "at {length}"
        );
    }
    Ok(())
}

/// Four threads, each of which adds a hundred ones to one variable.
const HUNDREDS: &[u8] = b"mutex m; persistent(m) long x;
thread a { for (int i = 0; i < 100; i++) { lock(m); x = x + 1; unlock(m); } }
thread b { for (int i = 0; i < 100; i++) { lock(m); x = x + 1; unlock(m); } }
thread c { for (int i = 0; i < 100; i++) { lock(m); x = x + 1; unlock(m); } }
thread d { for (int i = 0; i < 100; i++) { lock(m); x = x + 1; unlock(m); } }
";

/// What is answered without threads, and what it was written to, where each first read and write would fail.
fn left(alloc: Global, texts: &[&str]) -> Result<(Option<u8>, MemSink), Fail> {
    let words = words_of(alloc, texts)?;
    let mut source = source_with(alloc, ADD_ONE, 1)?;
    let mut sink = sink_with(alloc, 1)?;
    let answer = alone(alloc, &words, &mut source, &mut sink);
    Ok((answer, sink))
}

/// What needs threads is left, with nothing read or written: this source and this sink would fail.
#[test]
fn left_to_threads(rt: HostRuntime) -> Result<(), Fail> {
    for texts in [
        ["ido", "live", "5"].as_slice(),
        &["ido", "recover", "5"],
        &["ido", "upgrade", "5"],
        &["ido", "load", "1", "0"],
        &["ido", "sweep"],
    ] {
        let (answer, sink) = left(rt.alloc(), texts)?;
        assert_eq!(rt;
            (answer, sink.written()),
            (None, b"".as_slice()),
            "{texts:?}"
        );
    }
    Ok(())
}

/// A gate at which the workers of harts 0 and 1 wait for each other before each of their first turns.
#[derive(Drop)]
struct Meeting {
    first: AtomicU64,
    second: AtomicU64,
    missed: AtomicBool,
}

/// How often a worker looks for the other one.
const LOOKS: u32 = 100_000_000;

/// Turns before which the workers meet.
const MEETINGS: u64 = 3;

impl Meeting {
    fn new() -> Meeting {
        Meeting {
            first: AtomicU64::new(0),
            second: AtomicU64::new(0),
            missed: AtomicBool::new(false),
        }
    }

    /// Tells that a worker has come to its turn, and waits until the other one has.
    fn meet(&self, mine: &AtomicU64, other: &AtomicU64, turn: u64) {
        mine.store(turn, Ordering::SeqCst);
        for _ in 0..LOOKS {
            if other.load(Ordering::SeqCst) >= turn {
                return;
            }
        }
        self.missed.store(true, Ordering::SeqCst);
    }
}

impl Gate for Meeting {
    fn pass(&self, hart: u32, turn: u64) {
        if turn > MEETINGS {
            return;
        }
        if hart == 0 {
            self.meet(&self.first, &self.second, turn);
        } else if hart == 1 {
            self.meet(&self.second, &self.first, turn);
        }
    }
}

/// Harts run beside each other.
#[test]
fn beside(rt: HostRuntime) -> Result<(), Fail> {
    let gate = Meeting::new();
    let (status, _) = call_at(&rt, rt.alloc(), &["ido", "live", "10000"], HUNDREDS, &gate)?;
    assert!(rt; status == 0 || status == 3, "status {status}");
    assert_eq!(rt; gate.missed.load(Ordering::SeqCst), false);
    assert_eq!(rt; gate.first.load(Ordering::SeqCst), MEETINGS);
    assert_eq!(rt; gate.second.load(Ordering::SeqCst), MEETINGS);
    Ok(())
}

/// The status and the output of a call whose threads pass the gate.
fn call_at<R: Threads + Wait + Sync, G: Gate + Sync>(
    rt: &R,
    alloc: Global,
    texts: &[&str],
    input: &[u8],
    gate: &G,
) -> Result<(u8, Vec<u8>), Fail> {
    let words = words_of(alloc, texts)?;
    let mut source = SureSource::new(input.to_vec(alloc)?, 65_536);
    let mut sink = SureSink::new(alloc, 4_194_304, 65_536)?;
    let status = ido(rt, alloc, &words, &mut source, &mut sink, gate);
    let output = sink.written().unwrap_or(b"").to_vec(alloc)?;
    Ok((status, output))
}

/// The status and the output of a call.
fn call<R: Threads + Wait + Sync>(
    rt: &R,
    alloc: Global,
    texts: &[&str],
    input: &[u8],
) -> Result<(u8, Vec<u8>), Fail> {
    call_at(rt, alloc, texts, input, &OpenGate)
}

/// An input of a source and what stands after its line `%%`.
fn joined(alloc: Global, source: &[u8], rest: &[u8]) -> Result<Vec<u8>, AllocError> {
    let mut input = source.to_vec(alloc)?;
    input.extend_from_slice(b"%%\n")?;
    input.extend_from_slice(rest)?;
    Ok(input)
}

/// A gate that holds the points 0 and 3, each until the other has come.
#[derive(Drop)]
struct Ends {
    meeting: Meeting,
}

impl Gate for Ends {
    fn pass(&self, point: u32, turn: u64) {
        match point {
            0 => self
                .meeting
                .meet(&self.meeting.first, &self.meeting.second, turn),
            3 => self
                .meeting
                .meet(&self.meeting.second, &self.meeting.first, turn),
            _ => {}
        }
    }
}

/// Points of a sweep are looked at beside each other, the first of four beside the last.
#[test]
fn swept_beside(rt: HostRuntime) -> Result<(), Fail> {
    let input = joined(rt.alloc(), ADD_ONE, b"s 0 3\n")?;
    let gate = Ends {
        meeting: Meeting::new(),
    };
    let (status, output) = call_at(&rt, rt.alloc(), &["ido", "sweep"], &input, &gate)?;
    assert_eq!(rt; gate.meeting.missed.load(Ordering::SeqCst), false);
    assert_eq!(rt; gate.meeting.first.load(Ordering::SeqCst), 1);
    assert_eq!(rt; gate.meeting.second.load(Ordering::SeqCst), 1);
    assert_eq!(rt;
        (status, output.as_slice()),
        (0, b"from 0 to 3\nx = 5\nended 0 0\nschedule\n".as_slice())
    );
    Ok(())
}
