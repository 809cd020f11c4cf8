use crate::{FindingFault, put_finding, read_finding};
use desk_io::MemSink;
use std::alloc::Global;
use std::test::Fail;

/// Stands for a text that is read.
const IS_READ: u8 = 255;

/// A finding's text, and for each place of it what comes of the text with this byte made a `1`, with this
/// byte left out, and with a space before it: the place of the fault, or `IS_READ`.
///
/// Worked out by an independent program, which splits a text at its spaces and judges each word by itself.
struct Spoiled {
    text: &'static [u8],
    changed: &'static [u8],
    left_out: &'static [u8],
    added: &'static [u8],
}

const SPOILED: [Spoiled; 8] = [
    Spoiled {
        text: b"arb 3 100000 46666 4294967295",
        changed: &[
            0, 1, 2, 3, 12, 6, 255, 255, 255, 255, 255, 255, 16, 255, 255, 255, 255, 255, 22, 255,
            255, 255, 255, 255, 255, 255, 255, 255, 255,
        ],
        left_out: &[
            0, 1, 2, 3, 4, 6, 7, 255, 255, 255, 255, 255, 16, 255, 255, 255, 255, 255, 22, 255,
            255, 255, 255, 255, 255, 255, 255, 255, 255,
        ],
        added: &[
            0, 1, 2, 4, 4, 6, 6, 9, 10, 11, 12, 19, 13, 13, 19, 19, 19, 19, 19, 19, 20, 21, 22, 23,
            24, 25, 26, 27, 28,
        ],
    },
    Spoiled {
        text: b"coherent 2 full 0 0 8 abandoned 1 2 3",
        changed: &[
            0, 1, 2, 3, 4, 5, 6, 7, 8, 21, 11, 11, 12, 13, 14, 15, 255, 17, 255, 19, 255, 22, 22,
            23, 24, 25, 26, 27, 28, 29, 30, 31, 255, 37, 255, 37, 255,
        ],
        left_out: &[
            1, 1, 2, 3, 4, 5, 6, 7, 8, 9, 10, 11, 12, 14, 14, 15, 16, 17, 18, 19, 20, 21, 22, 23,
            24, 25, 26, 27, 28, 29, 30, 31, 32, 36, 34, 36, 36,
        ],
        added: &[
            0, 1, 2, 3, 4, 5, 6, 7, 9, 9, 11, 11, 12, 13, 14, 16, 16, 18, 18, 20, 20, 22, 22, 23,
            24, 25, 26, 27, 28, 29, 30, 32, 32, 34, 34, 36, 36,
        ],
    },
    Spoiled {
        text: b"thin 7 2 5 18446744073709551615 1 full 3 0 9",
        changed: &[
            0, 1, 2, 3, 4, 255, 34, 14, 34, 255, 28, 255, 255, 255, 255, 255, 255, 255, 255, 30,
            255, 255, 255, 30, 255, 255, 255, 255, 255, 255, 255, 31, 255, 34, 34, 35, 36, 37, 38,
            255, 44, 255, 42, 255,
        ],
        left_out: &[
            0, 1, 2, 3, 4, 5, 33, 7, 33, 9, 28, 255, 255, 255, 255, 255, 255, 255, 255, 255, 255,
            255, 255, 255, 255, 255, 255, 255, 255, 255, 255, 31, 32, 33, 34, 35, 37, 37, 38, 39,
            43, 41, 42, 43,
        ],
        added: &[
            0, 1, 2, 3, 5, 5, 7, 7, 9, 9, 11, 11, 16, 17, 18, 19, 20, 21, 22, 21, 24, 25, 26, 25,
            28, 29, 30, 31, 33, 33, 33, 32, 32, 34, 34, 35, 36, 37, 39, 39, 41, 41, 43, 43,
        ],
    },
    Spoiled {
        text: b"narrow 10 1 0 1 abandoned 0 0 1",
        changed: &[
            0, 1, 2, 3, 4, 5, 6, 255, 255, 255, 255, 16, 255, 13, 255, 16, 16, 17, 18, 19, 20, 21,
            22, 23, 24, 25, 255, 27, 255, 29, 255,
        ],
        left_out: &[
            2, 1, 3, 3, 4, 5, 6, 255, 255, 255, 10, 15, 12, 13, 14, 15, 16, 17, 18, 19, 20, 21, 22,
            23, 24, 25, 26, 27, 28, 29, 30,
        ],
        added: &[
            0, 1, 2, 3, 4, 5, 7, 7, 13, 10, 10, 12, 12, 14, 14, 16, 16, 17, 18, 19, 20, 21, 22, 23,
            24, 26, 26, 28, 28, 30, 30,
        ],
    },
    Spoiled {
        text: b"wide 1 0 entry 3 12",
        changed: &[
            0, 1, 2, 3, 4, 255, 6, 255, 8, 9, 10, 11, 12, 13, 14, 255, 19, 255, 255,
        ],
        left_out: &[
            0, 1, 2, 3, 4, 5, 6, 7, 8, 9, 10, 11, 12, 13, 14, 15, 18, 255, 255,
        ],
        added: &[
            0, 1, 2, 3, 5, 5, 7, 7, 9, 9, 10, 11, 12, 13, 15, 15, 17, 17, 18,
        ],
    },
    Spoiled {
        text: b"wide 2 40 weight 5",
        changed: &[
            0, 1, 2, 3, 4, 255, 6, 255, 255, 10, 10, 11, 12, 13, 14, 15, 16, 255,
        ],
        left_out: &[
            0, 1, 2, 3, 4, 5, 6, 255, 255, 9, 11, 11, 12, 13, 14, 15, 16, 17,
        ],
        added: &[
            0, 1, 2, 3, 5, 5, 7, 7, 9, 10, 10, 11, 12, 13, 14, 15, 17, 17,
        ],
    },
    Spoiled {
        text: b"wide 3 7 stake 255",
        changed: &[
            0, 1, 2, 3, 4, 255, 6, 255, 9, 9, 10, 11, 12, 13, 14, 255, 255, 255,
        ],
        left_out: &[
            0, 1, 2, 3, 4, 5, 6, 7, 8, 9, 10, 11, 12, 13, 14, 255, 255, 255,
        ],
        added: &[0, 1, 2, 3, 5, 5, 7, 7, 9, 9, 10, 11, 12, 13, 15, 15, 16, 17],
    },
    Spoiled {
        text: b"out-of-pivots 2 4096",
        changed: &[
            0, 1, 2, 3, 4, 5, 6, 7, 8, 9, 10, 11, 12, 13, 255, 15, 255, 255, 255, 255,
        ],
        left_out: &[
            0, 1, 2, 3, 4, 5, 6, 7, 8, 9, 10, 11, 12, 13, 14, 15, 17, 255, 255, 255,
        ],
        added: &[
            0, 1, 2, 3, 4, 5, 6, 7, 8, 9, 10, 11, 12, 14, 14, 16, 16, 17, 18, 19,
        ],
    },
];

/// Where the text stops being a finding's, or `IS_READ`.
fn outcome(alloc: Global, text: &[u8]) -> Result<u32, Fail> {
    match read_finding(alloc, text) {
        Ok(_) => Ok(u32::from(IS_READ)),
        Err(FindingFault::BadAt(place)) => Ok(place),
        Err(FindingFault::WantOfMemory) => Err("no memory")?,
    }
}

/// The text with these bytes before this place, and without its byte there if so asked.
fn spoil(
    alloc: Global,
    text: &[u8],
    place: usize,
    put: &[u8],
    without: bool,
) -> Result<Vec<u8>, Fail> {
    let mut out = Vec::new(alloc);
    for (at, byte) in text.iter().enumerate() {
        if at == place {
            out.extend_from_slice(put)?;
        }
        if at != place || !without {
            out.push(*byte)?;
        }
    }
    Ok(out)
}

#[test]
fn texts_are_read_and_written_again(rt: HostRuntime) -> Result<(), Fail> {
    let alloc = rt.alloc();
    for row in &SPOILED {
        let finding = read_finding(alloc, row.text)?;
        let mut sink = MemSink::new(alloc, 64, 5, Vec::new(alloc))?;
        assert_eq!(rt; put_finding(&finding.copy(alloc)?, &mut sink), Ok(()));
        assert_eq!(rt; sink.bytes(), row.text);
    }
    Ok(())
}

#[test]
fn spoiled_texts_are_refused_where_they_stop(rt: HostRuntime) -> Result<(), Fail> {
    let alloc = rt.alloc();
    for row in &SPOILED {
        for (place, want) in row.changed.iter().enumerate() {
            let text = spoil(alloc, row.text, place, b"1", true)?;
            assert_eq!(rt; outcome(alloc, text.as_slice())?, u32::from(*want));
        }
        for (place, want) in row.left_out.iter().enumerate() {
            let text = spoil(alloc, row.text, place, b"", true)?;
            assert_eq!(rt; outcome(alloc, text.as_slice())?, u32::from(*want));
        }
        for (place, want) in row.added.iter().enumerate() {
            let text = spoil(alloc, row.text, place, b" ", false)?;
            assert_eq!(rt; outcome(alloc, text.as_slice())?, u32::from(*want));
        }
    }
    Ok(())
}

// The whole of `arb 2 5` begins a finding's text, and of `arb 02 5 5` only `arb 0` does, that of no stakes.
#[test]
fn a_front_that_begins_a_text_is_counted(rt: HostRuntime) -> Result<(), Fail> {
    let alloc = rt.alloc();
    assert_eq!(rt; outcome(alloc, b"arb 2 5")?, 7);
    assert_eq!(rt; outcome(alloc, b"arb 02 5 5")?, 5);
    Ok(())
}
