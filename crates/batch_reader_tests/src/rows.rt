// Rows of a table of events, and which of two faults is told.
use crate::tables::{Input, read};
use batch_reader::RowFault;
use tsv_values::FieldFault;

const EVENTS: &[u8] = b"1\t10\t/home\t0\t['a','b']\t1\t0\t0
1\t10\t/cart\t1200\t['b']\t0\t1\t0
1\t11\t/it\\'s\t1300\t[]\t1\t0\t0
1\t10\t/pay\t3600\t['c']\t0\t0\t1
2\t12\t/home\t50\t['a']\t1\t0\t0
";

// All at once, and no call fails.
pub fn whole(text: &[u8]) -> Input<'_> {
    Input {
        text,
        most_line: 100,
        most_input: 1000,
        piece: 1000,
        fails: 0,
        most_pieces: 0,
    }
}

#[test]
fn events_are_rows(rt: HostRuntime) {
    for piece in [1000, 7] {
        let input = Input {
            piece,
            ..whole(EVENTS)
        };
        match read(&rt, rt.alloc(), 0, &input) {
            Ok(batch) => assert_eq!(rt; batch.len(), 5),
            Err(fault) => assert!(rt; false, "{fault:?}"),
        }
    }
}

// Every call fails in its turn: each that brings bytes, and the one that would tell the end.
#[test]
fn a_failing_read_is_told_at_every_call(rt: HostRuntime) {
    let calls = (EVENTS.len() / 30) as u64 + 2;
    for fails in 1..calls + 1 {
        let input = Input {
            piece: 30,
            fails,
            ..whole(EVENTS)
        };
        assert!(rt;
            matches!(read(&rt, rt.alloc(), 0, &input), Err(RowFault::Read)),
            "at {fails}"
        );
    }
    let late = Input {
        piece: 30,
        fails: calls + 1,
        ..whole(EVENTS)
    };
    assert!(rt; read(&rt, rt.alloc(), 0, &late).is_ok());
}

#[test]
fn a_bad_row_comes_before_a_failing_read(rt: HostRuntime) {
    let input = Input {
        fails: 2,
        ..whole(b"7\nx\n")
    };
    assert!(rt;
        matches!(
            read(&rt, rt.alloc(), 7, &input),
            Err(RowFault::Row {
                row: 2,
                column: 1,
                fault: FieldFault::NotNumber
            })
        )
    );
}

#[test]
fn a_row_may_lack_a_field(rt: HostRuntime) {
    let input = whole(b"1\t0\t0\n1\t0\n");
    assert!(rt;
        matches!(
            read(&rt, rt.alloc(), 5, &input),
            Err(RowFault::FieldCount {
                row: 2,
                want: 3,
                have: 2
            })
        )
    );
}

// A line of three bytes in an input of six: limits at these, one below and one above.
#[test]
fn limits_break_behind_the_rows(rt: HostRuntime) {
    for (most_line, most_input, want) in [
        (3u64, 6u64, "rows"),
        (4, 7, "rows"),
        (2, 6, "too long"),
        (3, 5, "too large"),
        (2, 5, "too long"),
    ] {
        let input = Input {
            most_line,
            most_input,
            ..whole(b"7\n255\n")
        };
        let told = match read(&rt, rt.alloc(), 7, &input) {
            Ok(_) => "rows",
            Err(RowFault::TooLong { row: 2 }) => "too long",
            Err(RowFault::TooLarge) => "too large",
            Err(_) => "another fault",
        };
        assert_eq!(rt; told, want, "{most_line} {most_input}");
    }
}
