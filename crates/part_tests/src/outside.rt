//! That a call of an adapter is one call of its reader or writer, which gives and takes little at a time, and fails in the middle.
use ido_outside::{Failed, InFault, Reading, Sink, Source, Writing, read_all, write_all};
use std::alloc::Global;
use std::io;
use std::io::{Error, ErrorKind, Read, Write};
use std::test::Fail;

const TEXT: &[u8] = b"persistent";

/// A reader of the text and a writer, of `piece` bytes a call at most. The call of number `fails` fails.
#[derive(Drop)]
struct Slow {
    piece: usize,
    fails: u64,
    calls: u64,
    next: usize,
    taken: Vec<u8>,
}

impl Slow {
    fn new(alloc: Global, piece: usize, fails: u64) -> Self {
        Slow {
            piece,
            fails,
            calls: 0,
            next: 0,
            taken: Vec::new(alloc),
        }
    }

    fn call(&mut self) -> io::Result<()> {
        self.calls = self.calls.saturating_add(1);
        if self.calls == self.fails {
            return Err(Error::from(ErrorKind::Interrupted));
        }
        Ok(())
    }
}

impl Read for Slow {
    fn read(&mut self, buf: &mut [u8]) -> io::Result<usize> {
        self.call()?;
        let rest = TEXT.get(self.next..).unwrap_or(b"");
        let count = self.piece.min(rest.len()).min(buf.len());
        buf[..count].copy_from_slice(&rest[..count]);
        self.next = self.next.saturating_add(count);
        Ok(count)
    }
}

impl Write for Slow {
    fn write(&mut self, buf: &[u8]) -> io::Result<usize> {
        self.call()?;
        let count = self.piece.min(buf.len());
        self.taken.extend_from_slice(&buf[..count])?;
        Ok(count)
    }

    fn flush(&mut self) -> io::Result<()> {
        Ok(())
    }
}

/// What each read of an adapter gives, and that it is one call of its reader.
#[test]
fn a_read_is_one_call_of_the_reader(rt: HostRuntime) -> Result<(), Fail> {
    let mut source = Reading::new(Slow::new(rt.alloc(), 4, 2));
    let mut buffer = [0u8; 8];
    for (number, given, faults) in [
        (1, Some(b"pers".as_slice()), 0),
        (2, None, 1),
        (3, Some(b"iste"), 1),
        (4, Some(b"nt"), 1),
        (5, Some(b""), 1),
    ] {
        let answer = source.read(&mut buffer);
        let count = answer.ok().map(|count| count.min(8));
        assert_eq!(rt; count.map(|count| &buffer[..count]), given, "read {number}");
        assert_eq!(rt; source.faults(), faults, "read {number}");
    }
    assert_eq!(rt; source.into_inner().calls, 5);
    Ok(())
}

/// What each write of an adapter takes, and that it is one call of its writer.
#[test]
fn a_write_is_one_call_of_the_writer(rt: HostRuntime) -> Result<(), Fail> {
    let mut sink = Writing::new(Slow::new(rt.alloc(), 4, 2));
    for (piece, answer, faults) in [
        (TEXT, Ok(4), 0),
        (b"istent", Err(Failed), 1),
        (b"ist", Ok(3), 1),
        (b"", Ok(0), 1),
        (b"ent", Ok(3), 1),
    ] {
        assert_eq!(rt; sink.write(piece), answer);
        assert_eq!(rt; sink.faults(), faults);
    }
    let writer = sink.into_inner();
    assert_eq!(rt; writer.taken.as_slice(), TEXT);
    assert_eq!(rt; writer.calls, 5);
    Ok(())
}

/// Each failing call in turn, in pieces of any size: 0 bytes a call are the end of what is read, and a
/// fault of what is written.
#[test]
fn std_ends_count_their_faults(rt: HostRuntime) -> Result<(), Fail> {
    for (piece, fails, fault, read, written) in [
        (3, 0, false, TEXT, TEXT),
        (20, 0, false, TEXT, TEXT),
        (3, 1, true, b"", b""),
        (3, 4, true, b"", b"persisten"),
        (20, 1, true, b"", b""),
        (0, 0, true, b"", b""),
    ] {
        let mut source = Reading::new(Slow::new(rt.alloc(), piece, fails));
        let fault_of_read = fault && piece > 0;
        match read_all(rt.alloc(), &mut source, 10) {
            Ok(bytes) => assert_eq!(rt; bytes.as_slice(), read),
            Err(error) => assert_eq!(rt; error, InFault::Failed),
        }
        assert_eq!(rt; source.faults(), if fault_of_read { 1 } else { 0 });

        let mut sink = Writing::new(Slow::new(rt.alloc(), piece, fails));
        assert_eq!(rt; write_all(&mut sink, TEXT).is_err(), fault);
        assert_eq!(rt; sink.faults(), if fault { 1 } else { 0 });
        assert_eq!(rt; sink.into_inner().taken.as_slice(), written);
    }
    Ok(())
}
