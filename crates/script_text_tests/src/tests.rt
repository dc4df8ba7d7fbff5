ghost use Rattle.std.specs.Prelude.{◌<◌, ◌^◌, length};

use chain_params::ChainFault;
use refusals::{LimitName, RequestFault, Why};
use script_text::{Lines, Script, Statement, read_script};
use std::test::Fail;

fn is_refused(rt: &HostRuntime, text: &[u8], at: u64, because: Why) -> bool
    requires { length text.now < 2 ^ 32 }
{
    match read_script(rt.alloc(), text) {
        Err(RequestFault::Bad { line, why }) => line == at && why == because,
        _ => false,
    }
}

fn is_read(rt: &HostRuntime, text: &[u8], views: usize, sessions: usize) -> bool
    requires { length text.now < 2 ^ 32 }
{
    match read_script(rt.alloc(), text) {
        Ok(script) => script.views.list.len() == views && script.sessions.len() == sessions,
        Err(_) => false,
    }
}

fn statements(script: &Script, session: usize) -> &[Statement] {
    match script.sessions.as_slice().get(session) {
        Some(found) => found.statements.as_slice(),
        None => &[],
    }
}

#[test]
fn rows_are_told_by_their_places(rt: HostRuntime) -> Result<(), Fail> {
    let text =
        b"TABLE s String, x UInt64\nVIEW v SELECT count(), sum(x)\nSESSION 1\nINSERT 2\na\t1\nb\t2\nREAD v\n";
    let script = match read_script(rt.alloc(), text) {
        Ok(script) => script,
        Err(_) => return Err(Fail::from("refused")),
    };
    let lines = Lines {
        from: 74,
        to: 82,
        count: 2,
    };
    assert_eq!(rt; script.views.schema.columns.len(), 2);
    assert_eq!(rt; script.views.list.len(), 1);
    assert_eq!(rt; script.sessions.len(), 1);
    assert!(rt;
        statements(&script, 0) == [Statement::Insert(lines), Statement::Read { view: 0 }].as_slice()
    );
    Ok(())
}

#[test]
fn every_statement_is_read(rt: HostRuntime) -> Result<(), Fail> {
    let text =
        b"TABLE k UInt8, x UInt64\nVIEW v SELECT sum(x) GROUP BY k\n\nVIEW w SELECT count()\n  \nSESSION 1\nLOAD v 1\n7\t0101000000000000000a\nINSERT 2\n7\t5\n\nREAD w\nSESSION 2\nSTATES v\nINSERT 1\n9\t9";
    let script = match read_script(rt.alloc(), text) {
        Ok(script) => script,
        Err(_) => return Err(Fail::from("refused")),
    };
    assert_eq!(rt; script.views.list.len(), 2);
    assert_eq!(rt; script.sessions.len(), 2);
    let loaded = Lines {
        from: 101,
        to: 124,
        count: 1,
    };
    let inserted = Lines {
        from: 133,
        to: 138,
        count: 2,
    };
    let load = Statement::Load {
        view: 0,
        lines: loaded,
    };
    let first = [
        load,
        Statement::Insert(inserted),
        Statement::Read { view: 1 },
    ];
    assert!(rt; statements(&script, 0) == first.as_slice());
    let last = Lines {
        from: 173,
        to: 176,
        count: 1,
    };
    assert!(rt;
        statements(&script, 1)
            == [Statement::States { view: 0 }, Statement::Insert(last)].as_slice()
    );
    Ok(())
}

#[test]
fn line_1_is_a_table(rt: HostRuntime) {
    assert!(rt; is_refused(&rt, b"", 1, Why::Syntax(0)));
    assert!(rt; is_refused(&rt, b"\nTABLE x UInt8", 1, Why::Syntax(0)));
    assert!(rt; is_refused(&rt, b"TABLE x UInt8, x UInt8\nFOO", 1, Why::Repeated(15)));
    assert!(rt; is_read(&rt, b"TABLE x UInt8", 0, 0));
}

#[test]
fn lines_of_spaces_are_skipped(rt: HostRuntime) {
    assert!(rt;
        is_read(
            &rt,
            b"TABLE x UInt8\n\n   \nVIEW v SELECT count()\n \nSESSION 1\n\n",
            1,
            1
        )
    );
    assert!(rt;
        is_refused(
            &rt,
            b"TABLE x UInt8\n\n   \nVIEW v SELECT\n",
            4,
            Why::Syntax(13)
        )
    );
    assert!(rt; is_refused(&rt, b"TABLE x UInt8\n\t\n", 2, Why::Syntax(0)));
}

#[test]
fn lines_stand_in_their_places(rt: HostRuntime) {
    assert!(rt;
        is_refused(
            &rt,
            b"TABLE x UInt8\nSESSION 1\n VIEW v SELECT count()",
            3,
            Why::Syntax(1)
        )
    );
    assert!(rt; is_refused(&rt, b"TABLE x UInt8\nINSERT 1\n1\n", 2, Why::Syntax(0)));
    assert!(rt; is_refused(&rt, b"TABLE x UInt8\nREAD", 2, Why::Syntax(0)));
    assert!(rt; is_refused(&rt, b"TABLE x UInt8\nSESSION 1\nREAD", 3, Why::Syntax(4)));
}

#[test]
fn sessions_stand_in_order(rt: HostRuntime) {
    assert!(rt; is_refused(&rt, b"TABLE x UInt8\nSESSION 2", 2, Why::SessionOrder(8)));
    assert!(rt;
        is_refused(
            &rt,
            b"TABLE x UInt8\nSESSION 1\nSESSION 1",
            3,
            Why::SessionOrder(8)
        )
    );
    assert!(rt; is_refused(&rt, b"TABLE x UInt8\nSESSION -1", 2, Why::SessionOrder(8)));
    assert!(rt; is_read(&rt, b"TABLE x UInt8\nSESSION 1\nSESSION 2", 0, 2));
}

#[test]
fn views_break_rules_at_their_lines(rt: HostRuntime) {
    let unknown = Why::Chain {
        part: 1,
        fault: ChainFault::UnknownName,
    };
    assert!(rt; is_refused(&rt, b"TABLE x UInt8\nVIEW v SELECT sums(x)", 2, unknown));
    assert!(rt;
        is_refused(
            &rt,
            b"TABLE x UInt8\nVIEW v SELECT sum(y)",
            2,
            Why::UnknownColumn(18)
        )
    );
    assert!(rt;
        is_refused(
            &rt,
            b"TABLE x UInt8\nVIEW v SELECT count()\n\nVIEW v SELECT count()",
            4,
            Why::Repeated(5)
        )
    );
}

#[test]
fn as_many_lines_follow(rt: HostRuntime) {
    let large = b"TABLE x UInt8\nSESSION 1\nINSERT 170141183460469231731687303715884105727\n1\n";
    assert!(rt; is_refused(&rt, large, 3, Why::Lines));
    assert!(rt;
        is_refused(
            &rt,
            b"TABLE x UInt8\nSESSION 1\nINSERT 2\n1\n",
            3,
            Why::Lines
        )
    );
    assert!(rt;
        is_refused(
            &rt,
            b"TABLE x UInt8\nSESSION 1\nINSERT -1\n1\n",
            3,
            Why::Syntax(7)
        )
    );
    assert!(rt;
        is_refused(
            &rt,
            b"TABLE x UInt8\nSESSION 1\nLOAD v 5",
            3,
            Why::UnknownView(5)
        )
    );
}

#[test]
fn lines_of_rows_are_counted(rt: HostRuntime) {
    assert!(rt;
        is_refused(
            &rt,
            b"TABLE x UInt8\nSESSION 1\nINSERT 2\n1\n2\nREAD v\n",
            6,
            Why::UnknownView(5)
        )
    );
    assert!(rt;
        is_refused(
            &rt,
            b"TABLE x UInt8\nSESSION 1\nINSERT 2\n\n2\nSTATES v\n",
            6,
            Why::UnknownView(7)
        )
    );
    assert!(rt;
        is_refused(
            &rt,
            b"TABLE x UInt8\nSESSION 1\nINSERT 1\nSESSION 9\nSESSION 3",
            5,
            Why::SessionOrder(8)
        )
    );
    assert!(rt;
        is_read(
            &rt,
            b"TABLE x UInt8\nSESSION 1\nINSERT 1\nSESSION 9\nINSERT 0\nSESSION 2",
            0,
            2
        )
    );
}

#[test]
fn there_are_at_most_16_views(rt: HostRuntime) {
    let text =
        b"TABLE x UInt8\nVIEW a SELECT count()\nVIEW b SELECT count()\nVIEW c SELECT count()\nVIEW d SELECT count()\nVIEW e SELECT count()\nVIEW f SELECT count()\nVIEW g SELECT count()\nVIEW h SELECT count()\nVIEW i SELECT count()\nVIEW j SELECT count()\nVIEW k SELECT count()\nVIEW l SELECT count()\nVIEW m SELECT count()\nVIEW n SELECT count()\nVIEW o SELECT count()\nVIEW p SELECT count()\nVIEW q SELECT count()\n";
    assert!(rt; is_refused(&rt, text, 18, Why::Limit(LimitName::Views)));
}

#[test]
fn there_are_at_most_32_sessions(rt: HostRuntime) {
    let most =
        b"TABLE x UInt8\nSESSION 1\nSESSION 2\nSESSION 3\nSESSION 4\nSESSION 5\nSESSION 6\nSESSION 7\nSESSION 8\nSESSION 9\nSESSION 10\nSESSION 11\nSESSION 12\nSESSION 13\nSESSION 14\nSESSION 15\nSESSION 16\nSESSION 17\nSESSION 18\nSESSION 19\nSESSION 20\nSESSION 21\nSESSION 22\nSESSION 23\nSESSION 24\nSESSION 25\nSESSION 26\nSESSION 27\nSESSION 28\nSESSION 29\nSESSION 30\nSESSION 31\nSESSION 32\n";
    assert!(rt; is_read(&rt, most, 0, 32));
    let one_more =
        b"TABLE x UInt8\nSESSION 1\nSESSION 2\nSESSION 3\nSESSION 4\nSESSION 5\nSESSION 6\nSESSION 7\nSESSION 8\nSESSION 9\nSESSION 10\nSESSION 11\nSESSION 12\nSESSION 13\nSESSION 14\nSESSION 15\nSESSION 16\nSESSION 17\nSESSION 18\nSESSION 19\nSESSION 20\nSESSION 21\nSESSION 22\nSESSION 23\nSESSION 24\nSESSION 25\nSESSION 26\nSESSION 27\nSESSION 28\nSESSION 29\nSESSION 30\nSESSION 31\nSESSION 32\nSESSION 33\n";
    assert!(rt; is_refused(&rt, one_more, 34, Why::Limit(LimitName::Sessions)));
}
