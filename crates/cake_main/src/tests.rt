use crate::files::RealFiles;
use crate::sinks::RealSink;
use cake_base::{Files, ReadFault, Sink, WriteFault};
use std::fs;
use std::test::Fail;

#[test]
fn files_that_are_missing_failed_or_too_large(rt: HostRuntime) -> Result<(), Fail> {
    let alloc = rt.alloc();
    let mut files = RealFiles::new(&rt);
    let mut into = Vec::new(alloc);
    for name in ["no such file", "/dev/null/below", "a\0b"] {
        assert_eq!(rt; files.read(alloc, name, &mut into), Err(ReadFault::Missing));
    }
    assert_eq!(rt;
        files.read(alloc, "/dev", &mut into),
        Err(ReadFault::Failed)
    );
    assert_eq!(rt;
        files.read(alloc, "/dev/zero", &mut into),
        Err(ReadFault::TooLarge)
    );
    assert_eq!(rt; into.len(), 0);
    assert_eq!(rt; files.read(alloc, "/dev/null", &mut into), Ok(()));
    Ok(())
}

#[test]
fn a_write_that_succeeds_and_one_that_fails(rt: HostRuntime) -> Result<(), Fail> {
    let mut sink = RealSink::new(fs::create(&rt, "/dev/null")?);
    assert_eq!(rt; sink.put(b"int main(void);\n"), Ok(()));
    let mut full = RealSink::new(fs::create(&rt, "/dev/full")?);
    assert_eq!(rt; full.put(b"int main(void);\n"), Err(WriteFault::Failed));
    Ok(())
}
