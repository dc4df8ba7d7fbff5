// Lines one at a time: the last one without its newline, the limits, and faults of the source.
use agg_ports::{MemorySource, WholeSource};
use batch_reader::{LineFault, LineReader};
use std::test::Fail;

#[test]
fn the_last_line_may_lack_its_newline(rt: HostRuntime) -> Result<(), Fail> {
    let alloc = rt.alloc();
    let mut source = WholeSource::new(b"a\nb".to_vec(alloc)?);
    let mut lines = LineReader::new(alloc, &mut source, 10, 10);
    for want in ["a", "b"] {
        let line = lines.next_line(alloc)?.ok_or("no line")?;
        assert_eq!(rt; line.as_slice(), want.as_bytes());
    }
    assert!(rt; lines.next_line(alloc)?.is_none());
    Ok(())
}

fn first_fault(rt: &HostRuntime, text: &str, most_line: u64, most_input: u64) -> Option<LineFault> {
    let alloc = rt.alloc();
    let Ok(bytes) = text.as_bytes().to_vec(alloc) else {
        return Some(LineFault::OutOfMemory);
    };
    let mut source = WholeSource::new(bytes);
    let mut lines = LineReader::new(alloc, &mut source, most_line, most_input);
    for _ in 0..9 {
        match lines.next_line(alloc) {
            Ok(Some(_)) => {}
            Ok(None) => return None,
            Err(fault) => return Some(fault),
        }
    }
    None
}

#[test]
fn limits_break_at_one_byte_more(rt: HostRuntime) {
    for (text, most_line, most_input, fault) in [
        ("abc\n", 3, 4, None),
        ("abc", 3, 3, None),
        ("abc\n", 2, 4, Some(LineFault::TooLong)),
        ("abc\n", 3, 3, Some(LineFault::TooLarge)),
        ("abc", 2, 2, Some(LineFault::TooLong)),
        ("abc", 3, 2, Some(LineFault::TooLarge)),
        ("a\nbc\n", 1, 5, Some(LineFault::TooLong)),
        ("a\nbc\n", 2, 4, Some(LineFault::TooLarge)),
        ("a\n\nbc\n", 2, 6, None),
    ] {
        assert_eq!(rt;
            first_fault(&rt, text, most_line, most_input),
            fault,
            "at {text}"
        );
    }
}

#[test]
fn complete_lines_come_before_a_fault(rt: HostRuntime) -> Result<(), Fail> {
    let alloc = rt.alloc();
    let fails = [2].to_vec(alloc)?;
    let mut source = MemorySource::new(b"a\nbc".to_vec(alloc)?, 3, fails);
    let mut lines = LineReader::new(alloc, &mut source, 10, 10);
    let line = lines.next_line(alloc)?.ok_or("no line")?;
    assert_eq!(rt; line.as_slice(), b"a".as_slice());
    assert!(rt; matches!(lines.next_line(alloc), Err(LineFault::Read)));
    Ok(())
}
