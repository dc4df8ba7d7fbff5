// The adapters over a reader and a writer that fail in mid-stream.
use super::*;
use std::io;
use std::io::{Error, ErrorKind};
use std::test::Fail;

// A reader of two letters a call, whose second call is interrupted and whose third fails.
#[derive(Drop)]
struct Faltering {
    calls: u8,
}

impl Read for Faltering {
    fn read(&mut self, buffer: &mut [u8]) -> io::Result<usize> {
        self.calls = self.calls.saturating_add(1);
        match self.calls {
            2 => Err(Error::from(ErrorKind::Interrupted)),
            3 => Err(Error::from(ErrorKind::BrokenPipe)),
            1 | 4 if buffer.len() >= 2 => {
                buffer[..2].copy_from_slice(b"ab");
                Ok(2)
            }
            _ => Ok(0),
        }
    }
}

#[test]
fn a_reader_that_fails_in_mid_stream_is_a_fault_and_then_goes_on(rt: HostRuntime) {
    let mut source = StdSource::new(Faltering { calls: 0 });
    for (answer, faults) in [
        (Taken::Bytes(2), 0),
        (Taken::Failed, 1),
        (Taken::Failed, 2),
        (Taken::Bytes(2), 2),
        (Taken::End, 2),
    ] {
        let mut buffer = [0; 4];
        assert_eq!(rt; source.take(&mut buffer), answer);
        assert_eq!(rt; source.faults, faults);
    }
}

// A writer of one byte a call, whose fifth call takes none and whose seventh fails, and whose
// third flush fails.
#[derive(Drop)]
struct Narrow {
    taken: Vec<u8>,
    writes: u8,
    flushes: u8,
}

impl Write for Narrow {
    fn write(&mut self, buffer: &[u8]) -> io::Result<usize> {
        self.writes = self.writes.saturating_add(1);
        match (self.writes, buffer.first()) {
            (5, _) | (_, None) => Ok(0),
            (7, _) => Err(Error::from(ErrorKind::StorageFull)),
            (_, Some(byte)) => {
                self.taken.push(*byte)?;
                Ok(1)
            }
        }
    }

    fn flush(&mut self) -> io::Result<()> {
        self.flushes = self.flushes.saturating_add(1);
        if self.flushes == 3 {
            return Err(Error::from(ErrorKind::StorageFull));
        }
        Ok(())
    }
}

#[test]
fn a_writer_that_takes_little_gets_all_and_each_fault_counts(rt: HostRuntime) -> Result<(), Fail> {
    let mut sink = StdSink::new(Narrow {
        taken: Vec::new(rt.alloc()),
        writes: 0,
        flushes: 0,
    });
    for (piece, answer, faults, taken) in [
        ("abc", Put::Done, 0, "abc"),
        ("", Put::Done, 0, "abc"),
        ("de", Put::Failed(1), 1, "abcd"),
        ("ef", Put::Failed(1), 2, "abcde"),
        ("f", Put::Done, 2, "abcdef"),
        ("g", Put::Failed(0), 3, "abcdefg"),
        ("h", Put::Done, 3, "abcdefgh"),
    ] {
        assert_eq!(rt; sink.put(piece.as_bytes()), answer, "at {piece}");
        assert_eq!(rt; sink.faults, faults);
        assert_eq!(rt; sink.writer.taken.as_slice(), taken.as_bytes());
    }
    Ok(())
}
