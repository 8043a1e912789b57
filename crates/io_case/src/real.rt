// The files of the system, and a source and a sink over a reader and a writer whose bytes are known.
use outside::{FileErr, Files, PutErr, Source, put_all};
use real_io::{RealFiles, RealSink, RealSource};
use std::test::Fail;

// Whether these bytes were read.
fn is_text(read: Result<Vec<u8>, FileErr>, bytes: &[u8]) -> bool {
    match read {
        Ok(text) => text.as_slice() == bytes,
        Err(_error) => false,
    }
}

#[test]
fn a_file_of_the_system_is_written_and_read(rt: HostRuntime) -> Result<(), Fail> {
    let mut files = RealFiles::new(&rt);
    assert!(rt; files.write(b"one.c", b"main() { }").is_ok());
    let front = files.read(rt.alloc(), b"one.c", 4);
    assert!(rt; is_text(front, b"main"));
    let all = files.read(rt.alloc(), b"one.c", 100);
    assert!(rt; is_text(all, b"main() { }"));
    Ok(())
}

#[test]
fn a_file_that_the_system_lacks_is_absent(rt: HostRuntime) -> Result<(), Fail> {
    let mut files = RealFiles::new(&rt);
    let absent = files.read(rt.alloc(), b"none.c", 4);
    assert!(rt; matches!(absent, Err(FileErr::Absent)));
    let folder = files.read(rt.alloc(), b".", 4);
    assert!(rt; matches!(folder, Err(FileErr::Failed)));
    let unwritten = files.write(b"none/one.c", b"main() { }");
    assert!(rt; matches!(unwritten, Err(PutErr::Failed)));
    Ok(())
}

#[test]
fn a_source_gives_the_bytes_of_its_reader(rt: HostRuntime) -> Result<(), Fail> {
    let mut source = RealSource::new(b"q\n".as_slice());
    let mut room = [0u8; 4];
    assert!(rt; matches!(source.read(&mut room), Ok(2)));
    assert_eq!(rt; room, [b'q', b'\n', 0, 0]);
    assert!(rt; matches!(source.read(&mut room), Ok(0)));
    Ok(())
}

#[test]
fn a_sink_hands_its_bytes_to_its_writer(rt: HostRuntime) -> Result<(), Fail> {
    let mut text = Vec::new(rt.alloc());
    let mut sink = RealSink::new(&mut text);
    put_all(&mut sink, b"cba")?;
    drop(sink);
    assert_eq!(rt; text.as_slice(), b"cba".as_slice());
    Ok(())
}
