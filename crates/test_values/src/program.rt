//! What the printing program says: words as definitions, and how a run ended.

use pp_print::{RunEnd, RunFault, message, split_word, status};
use pp_rs::token::{Location, PreprocessorError};
use std::test::Fail;

const WORDS: [(&str, Option<(&str, &str)>); 6] = [
    ("A=7", Some(("A", "7"))),
    ("A=b=c", Some(("A", "b=c"))),
    ("A=", Some(("A", ""))),
    ("==", Some(("", "="))),
    ("A", None),
    ("", None),
];

#[test]
fn words_are_cut(rt: HostRuntime) {
    for (word, parts) in WORDS {
        assert!(rt; split_word(word) == parts, "{word}");
    }
}

// Each end with its status and what is said of it.
const ENDS: [(Result<RunEnd, RunFault>, u8, &str); 8] = [
    (Ok(RunEnd::Done), 0, ""),
    (
        Ok(RunEnd::Stopped {
            error: PreprocessorError::ErrorDirective,
            location: Location {
                start: 3,
                end: 4294967294,
                line: 2,
            },
        }),
        1,
        "error ErrorDirective 3 4294967294",
    ),
    (Err(RunFault::ReadFailed), 2, "pp_print: read failed"),
    (Err(RunFault::TooLong), 2, "pp_print: input too long"),
    (Err(RunFault::NotUtf8), 2, "pp_print: not UTF-8"),
    (Err(RunFault::BadWord), 2, "pp_print: bad word"),
    (Err(RunFault::WriteFailed), 2, "pp_print: write failed"),
    (Err(RunFault::OutOfMemory), 2, "pp_print: out of memory"),
];

#[test]
fn it_is_said_how_a_run_ended(rt: HostRuntime) -> Result<(), Fail> {
    for (end, code, line) in &ENDS {
        let said = message(rt.alloc(), end)?;
        assert!(rt; status(end) == *code && said.as_str() == *line, "{line}");
    }
    Ok(())
}
