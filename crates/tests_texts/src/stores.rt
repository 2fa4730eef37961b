//! Each form once: what it holds, and its refusals.
use std::fs;
use std::process::Abort;
use std::rt::HostRuntime;
use std::test::Fail;
use wiz_io::{
    HostSink, HostStore, MemorySink, MemoryStore, PutFault, ReadFault, Sink, Store, SureSink,
    SureStore, WriteFault,
};

/// A read of at most so many bytes gives these, or is refused.
fn check_read(
    rt: &impl Abort,
    store: &mut impl Store,
    name: &str,
    limit: u64,
    expected: Result<&[u8], ReadFault>,
) {
    let read = store.read(name, limit);
    let found = match &read {
        Ok(bytes) => Ok(bytes.as_slice()),
        Err(fault) => Err(*fault),
    };
    assert_eq!(rt; found, expected);
}

fn check_write(
    rt: &impl Abort,
    store: &mut impl Store,
    name: &str,
    bytes: &[u8],
    expected: Result<(), WriteFault>,
) {
    assert_eq!(rt; store.write(name, bytes), expected);
}

fn check_put(rt: &impl Abort, sink: &mut impl Sink, bytes: &[u8], expected: Result<(), PutFault>) {
    assert_eq!(rt; sink.put(bytes), expected);
}

fn check_file(rt: &impl Abort, store: &MemoryStore, name: &str, expected: Option<&[u8]>) {
    let found = match store.file(name) {
        Some(bytes) => Some(bytes.as_slice()),
        None => None,
    };
    assert_eq!(rt; found, expected);
}

#[test]
fn files_in_memory_and_named_calls(rt: HostRuntime) -> Result<(), Fail> {
    let mut store = MemoryStore::new(rt.alloc());
    store.add("a", b"first")?;
    store.fail(1)?;
    store.fail(2)?;
    check_read(&rt, &mut store, "a", 5, Ok(b"first"));
    check_read(&rt, &mut store, "a", 5, Err(ReadFault::Failed));
    check_write(&rt, &mut store, "a", b"second", Err(WriteFault::Failed));
    check_read(&rt, &mut store, "a", 4, Err(ReadFault::TooLong));
    check_read(&rt, &mut store, "b", 4, Err(ReadFault::Missing));
    check_write(&rt, &mut store, "b", b"second", Ok(()));
    check_file(&rt, &store, "a", Some(b"first"));
    check_file(&rt, &store, "b", Some(b"second"));
    check_file(&rt, &store, "c", None);
    Ok(())
}

#[test]
fn output_in_memory_and_named_puts(rt: HostRuntime) -> Result<(), Fail> {
    let mut sink = MemorySink::new(rt.alloc());
    sink.fail(1)?;
    check_put(&rt, &mut sink, b"ab", Ok(()));
    check_put(&rt, &mut sink, b"cd", Err(PutFault::Failed));
    check_put(&rt, &mut sink, b"ef", Ok(()));
    assert_eq!(rt; sink.bytes(), b"abef".as_slice());
    Ok(())
}

#[test]
fn files_without_faults(rt: HostRuntime) -> Result<(), Fail> {
    let mut store = SureStore::new(rt.alloc());
    store.add("a", b"first")?;
    check_write(&rt, &mut store, "a", b"second", Ok(()));
    check_read(&rt, &mut store, "a", 6, Ok(b"second"));
    check_read(&rt, &mut store, "a", 5, Err(ReadFault::TooLong));
    assert!(rt; store.file("b").is_none());
    Ok(())
}

#[test]
fn output_without_faults(rt: HostRuntime) {
    let mut sink = SureSink::new(rt.alloc());
    check_put(&rt, &mut sink, b"ab", Ok(()));
    assert_eq!(rt; sink.bytes(), b"ab".as_slice());
}

#[test]
fn files_of_the_host(rt: HostRuntime) -> Result<(), Fail> {
    let name = "files_of_the_host.txt";
    let mut store = HostStore::new(&rt);
    check_write(&rt, &mut store, name, b"abc", Ok(()));
    check_read(&rt, &mut store, name, 3, Ok(b"abc"));
    check_read(&rt, &mut store, name, 2, Err(ReadFault::TooLong));
    check_read(&rt, &mut store, name, 0, Err(ReadFault::TooLong));
    fs::remove_file(&rt, name)?;
    check_read(&rt, &mut store, name, 3, Err(ReadFault::Missing));
    check_read(&rt, &mut store, ".", 3, Err(ReadFault::Failed));
    check_write(&rt, &mut store, ".", b"abc", Err(WriteFault::Failed));
    Ok(())
}

#[test]
fn output_of_the_host(rt: HostRuntime) {
    check_put(&rt, &mut HostSink::new(&rt), b"abc\n", Ok(()));
}
