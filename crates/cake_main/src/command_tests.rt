//! The command over files and sinks in memory, of which one call fails: what the real system can't be made to do.
use cake_base::{MemFiles, MemSink};
use cake_cli::{Status, cake};
use std::alloc::Global;
use std::test::Fail;

/// The files, with notes before, between and behind two headers.
const FILES: [(&str, &[u8]); 3] = [
    (
        "a.c",
        b"#warning one\n#include \"h.h\"\n#include \"g.h\"\n#warning two\nint main(void) { return 0; }\n",
    ),
    ("h.h", b"#warning h\n"),
    ("g.h", b""),
];

const NOTES: &[u8] = b"a.c:1:1: note: one\nh.h:1:1: note: h\na.c:4:1: note: two\n";

const TEXT: &[u8] = b"int main(void);\n\nint main(void)\n{\n    return 0;\n}\n";

/// The word, the number of the read that fails, the numbers of the puts on out and on err that fail with the bytes that
/// they still take, the status, and what is left on out and on err. A number 0 is that of no call.
type Row = (
    &'static str,
    u64,
    (u64, usize),
    (u64, usize),
    Status,
    &'static [u8],
    &'static [u8],
);

const ROWS: [Row; 10] = [
    ("a.c", 0, (0, 0), (0, 0), Status::Written, TEXT, NOTES),
    ("a.c", 4, (2, 0), (2, 0), Status::Written, TEXT, NOTES),
    // a read that fails, with the notes that were left before it
    (
        "a.c",
        1,
        (0, 0),
        (0, 0),
        Status::ReadFault,
        b"",
        b"cake: cannot read a.c\n",
    ),
    (
        "a.c",
        2,
        (0, 0),
        (0, 0),
        Status::ReadFault,
        b"",
        b"a.c:1:1: note: one\ncake: cannot read h.h\n",
    ),
    (
        "a.c",
        3,
        (0, 0),
        (0, 0),
        Status::ReadFault,
        b"",
        b"a.c:1:1: note: one\nh.h:1:1: note: h\ncake: cannot read g.h\n",
    ),
    (
        "b.c",
        0,
        (0, 0),
        (0, 0),
        Status::ReadFault,
        b"",
        b"cake: cannot read b.c\n",
    ),
    // a put that fails leaves what it took, and nothing is put behind it
    (
        "a.c",
        0,
        (1, 5),
        (0, 0),
        Status::WriteFault,
        b"int m",
        NOTES,
    ),
    ("a.c", 0, (1, 0), (0, 0), Status::WriteFault, b"", NOTES),
    ("a.c", 0, (0, 0), (1, 3), Status::WriteFault, b"", b"a.c"),
    ("b.c", 0, (0, 0), (1, 4), Status::WriteFault, b"", b"cake"),
];

/// The files, of which a read is to fail.
fn files(alloc: Global, failing: u64) -> Result<MemFiles, Fail> {
    let mut files = MemFiles::new(alloc);
    for (name, text) in FILES {
        files.add(name, text)?;
    }
    files.fail_call(failing)?;
    Ok(files)
}

/// A sink, of which a put is to fail.
fn sink(alloc: Global, failing: (u64, usize)) -> Result<MemSink, Fail> {
    let mut sink = MemSink::new(alloc, 4096)?;
    sink.fail_call(failing.0, failing.1)?;
    Ok(sink)
}

#[test]
fn faults_of_the_system_are_answered(rt: HostRuntime) -> Result<(), Fail> {
    let alloc = rt.alloc();
    for (word, read, put_out, put_err, status, left_out, left_err) in ROWS {
        let words = [String::from_str(alloc, word)?];
        let mut files = files(alloc, read)?;
        let mut out = sink(alloc, put_out)?;
        let mut err = sink(alloc, put_err)?;
        let answer = cake(alloc, &words, &mut files, &mut out, &mut err);
        assert_eq!(rt; answer, status, "{word}: read {read}");
        assert_eq!(rt; out.bytes(), left_out, "{word}: read {read}");
        assert_eq!(rt; err.bytes(), left_err, "{word}: read {read}");
    }
    Ok(())
}
