//! Tests of lists and streams, with ample memory.
ghost use Rattle.std.specs.Prelude.{◌≡◌, IfOk};

use crate::{
    Failed, Items, MemorySink, MemorySource, OutOfMemory, ReadStop, Sink, Source, StdSink,
    StdSource, read_all, write_all,
};
use std::alloc::Global;
use std::io::{self, Cursor, ErrorKind, Read, Write};
use std::test::Fail;

#[derive(Drop)]
enum Tree {
    Leaf,
    Branches(Items<Items<u64>>),
}

#[derive(Drop)]
struct Forest {
    trees: Items<Tree>,
}

fn is_shared<T: Send + Sync + Drop>(_value: T) -> bool {
    true
}

fn bytes_of(alloc: Global, text: &[u8]) -> Result<Items<u8>, OutOfMemory> {
    Ok(Items::from_vec(text.to_vec(alloc)?))
}

fn numbers(alloc: Global, list: &[u64]) -> Result<Items<u64>, OutOfMemory> {
    Ok(Items::from_vec(list.to_vec(alloc)?))
}

#[test]
fn push_adds_at_the_end(rt: HostRuntime) -> Result<(), Fail> {
    let mut items = Items::new(rt.alloc());
    items.push(3u64)?;
    items.push(1)?;
    assert_eq!(rt; items.as_slice(), [3, 1].as_slice());
    let back = items.into_vec();
    assert_eq!(rt; back.as_slice(), [3, 1].as_slice());
    Ok(())
}

#[test]
fn items_nest_and_are_shared(rt: HostRuntime) -> Result<(), Fail> {
    let mut inner = Items::new(rt.alloc());
    inner.push(numbers(rt.alloc(), &[1, 2])?)?;
    let mut trees = Items::new(rt.alloc());
    trees.push(Tree::Leaf)?;
    trees.push(Tree::Branches(inner))?;
    let forest = Forest { trees };
    assert_eq!(rt; forest.trees.as_slice().len(), 2);
    assert!(rt; is_shared(forest));
    Ok(())
}

#[test]
fn source_in_memory(rt: HostRuntime) -> Result<(), Fail> {
    let bytes = bytes_of(rt.alloc(), b"abcdefg")?;
    let mut source = MemorySource::new(bytes, 3, numbers(rt.alloc(), &[2])?);
    let mut into = [0u8; 5];
    for (want, left) in [
        (Ok(3), "defg"),
        (Err(Failed), "defg"),
        (Ok(3), "g"),
        (Ok(1), ""),
        (Ok(0), ""),
    ] {
        assert_eq!(rt; source.read(&mut into), want);
        assert_eq!(rt; source.left(), left.as_bytes());
    }
    assert_eq!(rt; into.as_slice(), b"gef\0\0".as_slice());
    assert_eq!(rt; source.faults(), 1);
    Ok(())
}

#[test]
fn sink_in_memory(rt: HostRuntime) -> Result<(), Fail> {
    let mut sink = MemorySink::new(rt.alloc(), 4, 3, numbers(rt.alloc(), &[2])?)?;
    for (want, written) in [
        (Ok(3), "abc"),
        (Err(Failed), "abc"),
        (Ok(1), "abca"),
        (Err(Failed), "abca"),
    ] {
        assert_eq!(rt; sink.write(b"abcdef"), want);
        assert_eq!(rt; sink.bytes(), written.as_bytes());
    }
    assert_eq!(rt; sink.faults(), 2);
    Ok(())
}

#[test]
fn read_all_ends(rt: HostRuntime) -> Result<(), Fail> {
    for (most, failing, want) in [
        (7, 9, Ok("abcdefg")),
        (8, 9, Ok("abcdefg")),
        (6, 9, Err(ReadStop::TooLong)),
        (7, 2, Err(ReadStop::Failed)),
    ] {
        let bytes = bytes_of(rt.alloc(), b"abcdefg")?;
        let mut source = MemorySource::new(bytes, 3, numbers(rt.alloc(), &[failing])?);
        match (read_all(rt.alloc(), &mut source, most), want) {
            (Ok(bytes), Ok(text)) => assert_eq!(rt; bytes.as_slice(), text.as_bytes()),
            (Err(stop), Err(other)) => assert_eq!(rt; stop, other),
            _ => assert!(rt; false, "at {most} and {failing}"),
        }
    }
    Ok(())
}

#[test]
fn write_all_ends(rt: HostRuntime) -> Result<(), Fail> {
    for (room, failing, want, written) in [
        (7, 9, Ok(()), "abcdefg"),
        (5, 9, Err(Failed), "abcde"),
        (7, 2, Err(Failed), "abc"),
    ] {
        let mut sink = MemorySink::new(rt.alloc(), room, 3, numbers(rt.alloc(), &[failing])?)?;
        assert_eq!(rt; write_all(&mut sink, b"abcdefg"), want);
        assert_eq!(rt; sink.bytes(), written.as_bytes());
    }
    Ok(())
}

#[derive(Drop)]
struct Broken;

impl Read for Broken {
    fn read(&mut self, _buf: &mut [u8]) -> io::Result<usize> {
        Err(ErrorKind::NotConnected.into())
    }
}

#[test]
fn source_of_std(rt: HostRuntime) -> Result<(), Fail> {
    let mut source = StdSource::new(b"abc".as_slice());
    match read_all(rt.alloc(), &mut source, 3) {
        Ok(bytes) => assert_eq!(rt; bytes.as_slice(), b"abc".as_slice()),
        Err(stop) => assert!(rt; false, "{stop:?}"),
    }
    let mut broken = StdSource::new(Broken);
    let mut into = [0u8; 1];
    assert_eq!(rt; broken.read(&mut into), Err(Failed));
    Ok(())
}

/// A stream that takes whatever it is given, or fails each time, and counts its calls.
#[derive(Drop)]
struct Counting {
    calls: u64,
    fails: bool,
}

impl Counting {
    fn call(&mut self, length: usize) -> io::Result<usize>
        ensures { IfOk result (λ n. n ≡ length) }
    {
        self.calls = self.calls.saturating_add(1);
        if self.fails {
            return Err(ErrorKind::NotConnected.into());
        }
        Ok(length)
    }
}

impl Read for Counting {
    fn read(&mut self, buf: &mut [u8]) -> io::Result<usize> {
        self.call(buf.len())
    }
}

impl Write for Counting {
    fn write(&mut self, buf: &[u8]) -> io::Result<usize> {
        self.call(buf.len())
    }

    fn flush(&mut self) -> io::Result<()> {
        Ok(())
    }
}

// No contract says how often an adapter calls the stream of std that it has: once, at any length.
#[test]
fn adapters_call_once(rt: HostRuntime) -> Result<(), Fail> {
    for length in [1, 2, 63, 64, 4_096, 65_535, 65_536] {
        for fails in [false, true] {
            let mut bytes = vec![in rt.alloc(); 0u8; length]?;
            let want = if fails { Err(Failed) } else { Ok(length) };
            let mut read = Counting { calls: 0, fails };
            let mut source = StdSource::new(&mut read);
            assert_eq!(rt; source.read(&mut bytes), want, "reading {length}");
            drop(source);
            assert_eq!(rt; read.calls, 1, "reading {length}");
            let mut written = Counting { calls: 0, fails };
            let mut sink = StdSink::new(&mut written);
            assert_eq!(rt; sink.write(&bytes), want, "writing {length}");
            drop(sink);
            assert_eq!(rt; written.calls, 1, "writing {length}");
        }
    }
    Ok(())
}

#[test]
fn sink_of_std(rt: HostRuntime) -> Result<(), Fail> {
    let mut into = [0u8; 3];
    let mut sink = StdSink::new(Cursor::new(into.as_mut_slice()));
    assert_eq!(rt; write_all(&mut sink, b"abcd"), Err(Failed));
    drop(sink);
    assert_eq!(rt; into.as_slice(), b"abc".as_slice());
    Ok(())
}
