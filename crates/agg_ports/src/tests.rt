// What the sources and sinks in memory answer, call by call.
use crate::{MemorySink, MemorySource, Put, Sink, Source, Taken, WholeSource};
use std::test::Fail;

#[test]
fn a_memory_source_gives_at_most_so_many_bytes_and_fails_where_listed(
    rt: HostRuntime,
) -> Result<(), Fail> {
    let alloc = rt.alloc();
    let fails = [2, 6].to_vec(alloc)?;
    let mut source = MemorySource::new(b"abcdefg".to_vec(alloc)?, 3, fails);
    for (room, answer, front) in [
        (4, Taken::Bytes(3), "abc"),
        (4, Taken::Failed, "...."),
        (2, Taken::Bytes(2), "de"),
        (4, Taken::Bytes(2), "fg"),
        (4, Taken::End, "...."),
        (4, Taken::Failed, "...."),
        (4, Taken::End, "...."),
    ] {
        let mut buffer = [b'.'; 4];
        assert_eq!(rt; source.take(&mut buffer[..room]), answer, "at {front}");
        assert_eq!(rt; &buffer[..front.len()], front.as_bytes());
    }
    Ok(())
}

#[test]
fn a_whole_source_gives_all_that_fits(rt: HostRuntime) -> Result<(), Fail> {
    let mut source = WholeSource::new(b"abcde".to_vec(rt.alloc())?);
    for (answer, front) in [
        (Taken::Bytes(4), "abcd"),
        (Taken::Bytes(1), "e"),
        (Taken::End, ""),
        (Taken::End, ""),
    ] {
        let mut buffer = [0; 4];
        assert_eq!(rt; source.take(&mut buffer), answer, "at {front}");
        assert_eq!(rt; &buffer[..front.len()], front.as_bytes());
    }
    Ok(())
}

#[test]
fn a_memory_sink_takes_a_piece_whole_or_not_at_all(rt: HostRuntime) -> Result<(), Fail> {
    let alloc = rt.alloc();
    let fails = [2, 3].to_vec(alloc)?;
    let mut sink = MemorySink::new(alloc, 5, fails).ok().ok_or("memory")?;
    for (piece, answer, held) in [
        ("abc", Put::Done, "abc"),
        ("de", Put::Failed(0), "abc"),
        ("", Put::Done, "abc"),
        ("def", Put::Failed(0), "abc"),
        ("de", Put::Done, "abcde"),
        ("f", Put::Failed(0), "abcde"),
        ("", Put::Done, "abcde"),
    ] {
        assert_eq!(rt; sink.put(piece.as_bytes()), answer, "at {piece}");
        assert_eq!(rt; sink.held(), held.as_bytes());
    }
    Ok(())
}
