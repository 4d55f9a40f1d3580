//! Files and a sink in memory: what is put is what is read, and the listed calls fail.
use cake_base::{Bytes, FileName, Files, MAX_FILE, MemFiles, MemSink, ReadFault, Sink, Stack};
use std::alloc::Global;
use std::test::Fail;

#[test]
fn texts_and_stacks_keep_what_they_get(rt: HostRuntime) -> Result<(), Fail> {
    let alloc = rt.alloc();
    let mut text = Bytes::of(alloc, b"ab")?;
    text.push(b"c")?;
    assert_eq!(rt; text.as_slice(), b"abc".as_slice());
    assert_eq!(rt; FileName::new(alloc, "a.c")?.as_str(), "a.c");
    let mut stack: Stack<u32> = Stack::new(alloc);
    stack.push(1)?;
    stack.push(2)?;
    assert_eq!(rt; stack.pop(), Some(2));
    assert_eq!(rt; stack.pop(), Some(1));
    assert_eq!(rt; stack.pop(), None);
    Ok(())
}

/// A read, by the name of its file: what it answers, and what all reads appended up to it.
type Read = (&'static str, Result<(), ReadFault>, &'static [u8]);

/// `a.c` holds `int`, and `b.c` nothing. The second and the fourth read are to fail.
const READS: [Read; 7] = [
    ("a.c", Ok(()), b"int"),
    ("a.c", Err(ReadFault::Failed), b"int"),
    ("c.c", Err(ReadFault::Missing), b"int"),
    ("c.c", Err(ReadFault::Failed), b"int"),
    ("b.c", Ok(()), b"int"),
    ("", Err(ReadFault::Missing), b"int"),
    ("a.c", Ok(()), b"intint"),
];

#[test]
fn the_listed_reads_fail(rt: HostRuntime) -> Result<(), Fail> {
    let alloc = rt.alloc();
    let mut files = MemFiles::new(alloc);
    assert!(rt; files.add("a.c", b"int")?);
    assert!(rt; files.add("b.c", b"")?);
    assert!(rt; !files.add("a.c", b"char")?);
    files.fail_call(2)?;
    files.fail_call(4)?;
    let mut into = Vec::new(alloc);
    for (name, answer, held) in READS {
        assert_eq!(rt; files.read(alloc, name, &mut into), answer, "{name}");
        assert_eq!(rt; into.as_slice(), held, "{name}");
    }
    Ok(())
}

fn zeros(alloc: Global, count: usize) -> Result<Vec<u8>, Fail> {
    let mut bytes = Vec::new(alloc);
    for _ in 0..count {
        bytes.push(0)?;
    }
    Ok(bytes)
}

#[test]
fn a_file_past_the_greatest_size_is_too_large(rt: HostRuntime) -> Result<(), Fail> {
    let alloc = rt.alloc();
    for (more, answer, length) in [(0, Ok(()), MAX_FILE), (1, Err(ReadFault::TooLarge), 0)] {
        let mut files = MemFiles::new(alloc);
        files.add("large", &zeros(alloc, MAX_FILE + more)?)?;
        let mut into = Vec::new(alloc);
        assert_eq!(rt; files.read(alloc, "large", &mut into), answer);
        assert_eq!(rt; into.len(), length);
    }
    Ok(())
}

/// A room, the puts that are to fail with the bytes that they still take, which of four puts succeed, and what is
/// left of them.
type Puts = (
    usize,
    &'static [(u64, usize)],
    (bool, bool, bool, bool),
    &'static [u8],
);

/// The four puts are those of `ab`, of `cde`, of nothing and of `f`.
const PUTS: [Puts; 11] = [
    (9, &[], (true, true, true, true), b"abcdef"),
    (6, &[], (true, true, true, true), b"abcdef"),
    (5, &[], (true, true, true, false), b"abcde"),
    (4, &[], (true, false, true, false), b"abcd"),
    (0, &[], (false, false, true, false), b""),
    (9, &[(2, 1)], (true, false, true, true), b"abcf"),
    (9, &[(2, 8)], (true, false, true, true), b"abcdef"),
    (3, &[(2, 2)], (true, false, true, false), b"abc"),
    (9, &[(2, 1), (2, 3)], (true, false, true, true), b"abcf"),
    (9, &[(3, 0)], (true, true, false, true), b"abcdef"),
    (9, &[(0, 0), (5, 0)], (true, true, true, true), b"abcdef"),
];

/// A sink of that room in which these puts are to fail.
fn sink_of(alloc: Global, room: usize, listed: &[(u64, usize)]) -> Result<MemSink, Fail> {
    let mut sink = MemSink::new(alloc, room)?;
    for (number, taken) in listed {
        sink.fail_call(*number, *taken)?;
    }
    Ok(sink)
}

#[test]
fn a_put_takes_what_fits_and_what_is_listed(rt: HostRuntime) -> Result<(), Fail> {
    for (room, listed, succeed, left) in PUTS {
        let mut sink = sink_of(rt.alloc(), room, listed)?;
        let first = sink.put(b"ab").is_ok();
        let second = sink.put(b"cde").is_ok();
        let third = sink.put(b"").is_ok();
        let fourth = sink.put(b"f").is_ok();
        assert_eq!(rt; (first, second, third, fourth), succeed, "room {room}");
        assert_eq!(rt; sink.bytes(), left, "room {room}");
    }
    Ok(())
}
