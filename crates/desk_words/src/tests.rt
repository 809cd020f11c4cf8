//! One reading with ample memory: no clause says that memory suffices.

use super::*;
use std::test::Fail;

#[test]
fn words_are_read_with_ample_memory(rt: HostRuntime) -> Result<(), Fail> {
    let alloc = rt.alloc();
    let mut words = Vec::new(alloc);
    for word in ["once", "--pivots=5", "b.feed", "a.feed"] {
        words.push(String::from_str(alloc, word)?)?;
    }
    let Command::Once { pivots, feeds } = read_words(alloc, &words).expect(&rt, "a command") else {
        return Err(Fail::from("once"));
    };
    assert_eq!(rt; pivots, 5);
    let mut names = feeds.names().iter();
    assert_eq!(rt; names.next().map(|name| name.as_str()), Some("b.feed"));
    assert_eq!(rt; names.next().map(|name| name.as_str()), Some("a.feed"));
    assert!(rt; names.next().is_none());
    Ok(())
}
