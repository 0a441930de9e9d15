//! Files of two workloads.
use crate::{FileReason, FileStop, generate, read_twin};
use std::alloc::Global;
use std::test::Fail;

/// The first line of a file of two workloads that has a fault, and its first reason.
fn refused(alloc: Global, file: &str) -> Option<(u64, FileReason)> {
    match read_twin(alloc, file.as_bytes()) {
        Err(FileStop::Bad { line, reason }) => Some((line, reason)),
        _ => None,
    }
}

// The worked example: the second workload has a SELECT as its fourth line where the first has an INSERT.
#[test]
fn shapes_differ(rt: HostRuntime) {
    let file =
        "mope 1\nTABLE t (a)\nSESSION\nINSERT INTO t VALUES (1)\nEND\nmope 1\nTABLE t (a)\nSESSION\nSELECT * FROM t\nEND\n";
    assert_eq!(rt;
        refused(rt.alloc(), file),
        Some((9, FileReason::ShapesDiffer))
    );
}

// The faults of both workloads come before a difference of their shapes, and line numbers run on.
#[test]
fn faults_before_shapes(rt: HostRuntime) {
    for (file, line, reason) in [
        ("", 1, FileReason::NoEnd),
        ("mope 1\nEND\n", 3, FileReason::NoEnd),
        ("mope 1\nEND\n\nmope 1\n", 5, FileReason::NoEnd),
        ("mope 1\nEND\nEND\n", 3, FileReason::Syntax),
        (
            "mope 1\nEND\nmope 1\nEND\n\nx\n",
            6,
            FileReason::TextAfterEnd,
        ),
        (
            "mope 1\nSESSION\nCOMMIT\nEND\nx",
            3,
            FileReason::Transaction,
        ),
        (
            "mope 1\nTABLE t (a)\nEND\nmope 1\nTABLE u (a)\nSESSION\nREBUILD t (a)\nEND",
            7,
            FileReason::UnknownTable,
        ),
    ] {
        assert_eq!(rt; refused(rt.alloc(), file), Some((line, reason)));
    }
}

const FIRST: &str = "mope 1\nTABLE t (a, b)\nSESSION\nSELECT * FROM t WHERE a = 1 LIMIT 2\nEND\n";

/// The first workload above, and behind it one that has this line in place of its SELECT.
fn with_second(alloc: Global, line: &str) -> Result<Vec<u8>, Fail> {
    let mut file = Vec::new(alloc);
    file.extend_from_slice(FIRST.as_bytes())?;
    file.extend_from_slice(b"\nMOPE 1\nTABLE t (a,b)\nSESSION\n\n")?;
    file.extend_from_slice(line.as_bytes())?;
    file.extend_from_slice(b"\nEND\n")?;
    Ok(file)
}

// Constants, ASC, semicolons, blanks and the letter case of keywords make no difference; all else does.
#[test]
fn what_makes_a_shape(rt: HostRuntime) -> Result<(), Fail> {
    for (line, wanted) in [
        ("SELECT * FROM t WHERE a = 7 LIMIT 2", None),
        ("select  *  from t where a = 1 limit 2 ;", None),
        ("SELECT * FROM t WHERE a = 1 LIMIT 3", Some(11)),
        ("SELECT a, b FROM t WHERE a = 1 LIMIT 2", Some(11)),
        ("SELECT * FROM t WHERE b = 1 LIMIT 2", Some(11)),
        ("SELECT * FROM t WHERE a <= 1 LIMIT 2", Some(11)),
        ("SELECT * FROM t WHERE a = 1 AND a = 1 LIMIT 2", Some(11)),
        (
            "BEGIN\nSELECT * FROM t WHERE a = 1 LIMIT 2\nCOMMIT",
            Some(11),
        ),
        (
            "SELECT * FROM t WHERE a = 1 LIMIT 2\nREBUILD t (a)",
            Some(12),
        ),
    ] {
        let file = with_second(rt.alloc(), line)?;
        match read_twin(rt.alloc(), &file) {
            Ok((_first, _second)) => assert!(rt; wanted.is_none()),
            Err(FileStop::Bad { line, reason }) => {
                assert_eq!(rt; Some(line), wanted);
                assert_eq!(rt; reason, FileReason::ShapesDiffer);
            }
            Err(FileStop::OutOfMemory) => assert!(rt; false),
        }
    }
    Ok(())
}

// Two texts of one number, one behind the other, have one shape.
#[test]
fn generated_twins(rt: HostRuntime) -> Result<(), Fail> {
    let alloc = rt.alloc();
    let text = generate(alloc, 5, 2, 20).expect(&rt, "a text");
    let mut file = Vec::new(alloc);
    file.extend_from_slice(text.as_slice())?;
    file.extend_from_slice(text.as_slice())?;
    let (first, second) = read_twin(alloc, &file).expect(&rt, "two workloads");
    assert_eq!(rt; first.sessions.as_slice().len(), 2);
    assert_eq!(rt; second.sessions.as_slice().len(), 2);
    Ok(())
}
