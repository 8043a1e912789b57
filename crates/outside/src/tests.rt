// What the objects in memory do, call by call.
use super::*;
use num_le::Name;
use std::alloc::{AllocError, Global};
use std::test::Fail;

fn one_file(alloc: Global) -> Result<Vec<(Name, Vec<u8>)>, AllocError> {
    let mut list = Vec::new(alloc);
    let name = Name::of(alloc, b"a.c")?;
    let bytes = b"one".to_vec(alloc)?;
    list.push((name, bytes))?;
    Ok(list)
}

#[test]
fn a_sink_takes_pieces_and_fails_when_told(rt: HostRuntime) -> Result<(), Fail> {
    let alloc = rt.alloc();
    let fail = [2u32].to_vec(alloc)?;
    let mut sink = MemSink::new(alloc, 8, fail)?;
    sink.piece = 2;
    assert!(rt; put_all(&mut sink, b"abcdef").is_err());
    assert_eq!(rt; sink.bytes(), b"abcd".as_slice());
    assert!(rt; put_all(&mut sink, b"efgh").is_ok());
    assert!(rt; put_all(&mut sink, b"i").is_err());
    assert_eq!(rt; sink.bytes(), b"abcdefgh".as_slice());
    Ok(())
}

#[test]
fn a_source_gives_its_bytes(rt: HostRuntime) -> Result<(), Fail> {
    let alloc = rt.alloc();
    let mut source = MemSource::new(b"abc".to_vec(alloc)?, [1u32].to_vec(alloc)?);
    let mut buf = [0u8; 2];
    assert_eq!(rt; source.read(&mut buf).ok(), Some(2));
    assert!(rt; source.read(&mut buf).is_err());
    assert_eq!(rt; source.read(&mut buf).ok(), Some(1));
    assert_eq!(rt; source.read(&mut buf).ok(), Some(0));
    Ok(())
}

#[test]
fn reads_and_writes_of_files_are_numbered_together(rt: HostRuntime) -> Result<(), Fail> {
    let alloc = rt.alloc();
    let mut files = MemFiles::new(alloc, one_file(alloc)?, [2u32, 4].to_vec(alloc)?);
    let text = files.read(alloc, b"a.c", 2).ok().ok_or("a.c")?;
    assert_eq!(rt; text.as_slice(), b"on".as_slice());
    assert!(rt; files.write(b"a.c", b"two").is_ok());
    assert!(rt; matches!(files.read(alloc, b"b.c", 2), Err(FileErr::Absent)));
    assert!(rt; files.write(b"b.c", b"three").is_ok());
    assert!(rt; matches!(files.read(alloc, b"a.c", 2), Err(FileErr::Failed)));
    assert_eq!(rt; files.bytes(b"a.c"), Some(b"two".as_slice()));
    assert_eq!(rt; files.bytes(b"b.c"), Some(b"three".as_slice()));
    Ok(())
}

#[test]
fn the_sure_ones_never_fail(rt: HostRuntime) -> Result<(), Fail> {
    let alloc = rt.alloc();
    let mut files = SureFiles::new(one_file(alloc)?);
    let text = files.read(alloc, b"a.c", 9).ok().ok_or("a.c")?;
    assert_eq!(rt; text.as_slice(), b"one".as_slice());
    assert!(rt; files.write(b"a.c", b"two").is_ok());
    let mut source = SureSource::new(b"abc".to_vec(alloc)?);
    let mut buf = [0u8; 2];
    assert_eq!(rt; source.read(&mut buf).ok(), Some(2));
    assert_eq!(rt; source.read(&mut buf).ok(), Some(1));
    let mut sink = SureSink::new();
    assert!(rt; put_all(&mut sink, b"abcdef").is_ok());
    assert_eq!(rt; sink.taken(), 6);
    Ok(())
}
