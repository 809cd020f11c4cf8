use crate::{read_header, read_line};
use feed_definitions::{Cause, Header, LineForm};
use scan_types::{Name, VoidRule};
use std::test::Fail;

// Where and why a line is refused.
fn fault_of(line: &[u8]) -> Option<(u32, Cause)> {
    match read_line(line) {
        LineForm::Wrong(fault) => Some((fault.column, fault.cause)),
        _ => None,
    }
}

#[test]
fn faults_stand_at_their_columns(rt: HostRuntime) {
    assert_eq!(rt;
        fault_of(b"quote m1 1x2 home 1.000"),
        Some((19, Cause::OddsRange))
    );
    assert_eq!(rt;
        fault_of(b"quote m1 1x2 home 2.10 \r"),
        Some((23, Cause::Missing))
    );
    assert_eq!(rt;
        fault_of(b" withdraw\tm1 ah -5.25 home"),
        Some((17, Cause::LineRange))
    );
    assert_eq!(rt;
        fault_of(b"withdraw m1 total 2.5 over more"),
        Some((28, Cause::Extra))
    );
    assert_eq!(rt; fault_of(b"quote m\x7f 1x2"), Some((8, Cause::NotAscii)));
    assert_eq!(rt; fault_of(b"# a comment\x7f"), None);
}

#[test]
fn a_header_is_read(rt: HostRuntime) -> Result<(), Fail> {
    let book = Name::read(b"acme").ok_or("no name")?;
    let header = read_header(b"feed 1 acme score\r").ok();
    assert_eq!(rt;
        header,
        Some(Header {
            book,
            rule: VoidRule::Score
        })
    );
    Ok(())
}
