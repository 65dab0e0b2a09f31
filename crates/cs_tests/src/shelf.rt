//! Each public call once on its way to success, and the failures that the calls list.

ghost use Rattle.std.specs.Prelude.{◌≤◌, length};

use cs_shelf::{
    Failed, FileShelf, MemShelf, MemSink, OutSink, ReadError, Shelf, Sink, append_whole,
    read_whole, write_whole,
};
use std::alloc::AllocError;
use std::{env, fs, io};

#[test]
fn memory_takes(rt: HostRuntime) -> Result<(), AllocError> {
    let alloc = rt.alloc();
    let mut sink = MemSink::new(alloc, 8, &[1])?;
    let rows: [(&[u8], bool, &[u8]); 4] = [
        (b"hello", true, b"hello"),
        (b"!", false, b"hello"),
        (b"world", false, b"hellowor"),
        (b"", true, b"hellowor"),
    ];
    for (piece, is_ok, taken) in rows {
        assert_eq!(rt; write_whole(&mut sink, piece).is_ok(), is_ok);
        assert_eq!(rt; sink.taken(), taken);
    }
    assert_eq!(rt; sink.faults(), 2);
    Ok(())
}

#[test]
fn memory_gives(rt: HostRuntime) -> Result<(), AllocError> {
    let alloc = rt.alloc();
    let mut names = Vec::new(alloc);
    names.push(String::from_str(alloc, "a")?)?;
    names.push(String::from_str(alloc, "b")?)?;
    let mut shelf = MemShelf::new(alloc, names, 16, &[2])?;
    shelf.put(0, b"hello world");
    let rows: [(&str, usize, Result<&[u8], ReadError>); 4] = [
        ("a", 11, Ok(b"hello world")),
        ("a", 11, Err(ReadError::Failed)),
        ("a", 10, Err(ReadError::TooLong)),
        ("b", 11, Err(ReadError::Failed)),
    ];
    for (name, most, want) in rows {
        let read = read_whole(alloc, &mut shelf, name, most);
        match want {
            Ok(bytes) => assert!(rt; matches!(&read, Ok(v) if v.as_slice() == bytes)),
            Err(error) => assert!(rt; matches!(&read, Err(e) if *e == error)),
        }
    }
    assert_eq!(rt;
        (shelf.faults(), shelf.last(), shelf.last_read()),
        (2, "b", true)
    );
    Ok(())
}

/// Saves a content in one piece.
fn save<S: Shelf>(shelf: &mut S, name: &str, bytes: &[u8]) -> Result<(), Failed>
    requires name { length name.now ≤ 4096 }
{
    shelf.start(name)?;
    append_whole(shelf, bytes)?;
    shelf.finish()
}

#[test]
fn memory_keeps(rt: HostRuntime) -> Result<(), AllocError> {
    let alloc = rt.alloc();
    let mut names = Vec::new(alloc);
    names.push(String::from_str(alloc, "a")?)?;
    names.push(String::from_str(alloc, "b")?)?;
    let mut shelf = MemShelf::new(alloc, names, 8, &[9])?;
    let rows: [(&str, &[u8], bool, Option<&[u8]>); 5] = [
        ("b", b"hello", true, Some(b"hello")),
        ("c", b"unknown", false, None),
        ("a", b"listed", false, None),
        ("b", b"too long", true, Some(b"too long")),
        ("b", b"too long!", false, Some(b"too long")),
    ];
    for (name, bytes, is_ok, holds) in rows {
        assert_eq!(rt; save(&mut shelf, name, bytes).is_ok(), is_ok);
        if !is_ok {
            assert_eq!(rt; (shelf.last(), shelf.last_read()), (name, false));
        }
        let read = read_whole(alloc, &mut shelf, name, 8);
        match holds {
            Some(bytes) => assert!(rt; matches!(&read, Ok(v) if v.as_slice() == bytes)),
            None => assert!(rt; matches!(&read, Err(ReadError::Failed))),
        }
    }
    assert_eq!(rt; shelf.faults(), 5);
    Ok(())
}

#[test]
fn standard_output_takes(rt: HostRuntime) {
    let mut out = OutSink::new(&rt);
    assert!(rt; write_whole(&mut out, b"written\n").is_ok());
    assert_eq!(rt; out.faults(), 0);
}

#[test]
fn a_file_gives(rt: HostRuntime) -> io::Result<()> {
    let path = env::temp_dir(&rt)?.join(rt.alloc(), "cs_shelf_a_file_gives")?;
    let name = path.as_str();
    assert!(rt; name.len() <= 4096);
    fs::write(&rt, name, "hello file")?;
    let mut files = FileShelf::new(&rt);
    let read = read_whole(rt.alloc(), &mut files, name, 100);
    fs::remove_file(&rt, name)?;
    assert!(rt; matches!(&read, Ok(v) if v.as_slice() == b"hello file".as_slice()));
    assert_eq!(rt; files.faults(), 0);
    Ok(())
}

#[test]
fn a_file_keeps(rt: HostRuntime) -> io::Result<()> {
    let path = env::temp_dir(&rt)?.join(rt.alloc(), "cs_shelf_a_file_keeps")?;
    let below = path.join(rt.alloc(), "none")?;
    let (name, missing) = (path.as_str(), below.as_str());
    assert!(rt; name.len() <= 4096);
    assert!(rt; missing.len() <= 4096);
    fs::write(&rt, name, "an older and longer content")?;
    let mut files = FileShelf::new(&rt);
    assert!(rt; save(&mut files, name, b"kept").is_ok());
    let kept = fs::read_to_string(&rt, name)?;
    assert!(rt; save(&mut files, missing, b"lost").is_err());
    fs::remove_file(&rt, name)?;
    assert_eq!(rt; kept.as_str(), "kept");
    assert_eq!(rt;
        (files.faults(), files.last(), files.last_read()),
        (1, missing, false)
    );
    Ok(())
}
