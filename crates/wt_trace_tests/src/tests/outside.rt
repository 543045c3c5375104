//! What is outside: which calls of those in memory fail, and how readers and writers do.
use crate::tests::program::answers;
use std::alloc::Global;
use std::error::Error;
use std::io::{self, ErrorKind, Read, Write};
use std::process::Abort;
use wt_trace::cut_short::CutShort;
use wt_trace::outside::mem::{MemSink, MemSource};
use wt_trace::outside::standard::{ReaderSource, WriterSink};
use wt_trace::outside::sure::SureSink;
use wt_trace::outside::{Failed, Sink, Source};
use wt_trace::{Answers, ScriptRefused, TraceError};

/// How many bytes a read gives, where it doesn't fail.
fn read<S: Source>(source: &mut S, buffer: &mut [u8]) -> Option<usize> {
    source.read(buffer).ok()
}

/// How many bytes a write takes, where it doesn't fail.
fn write<K: Sink>(sink: &mut K, piece: &[u8]) -> Option<usize> {
    sink.write(piece).ok()
}

#[test]
fn chosen_reads_fail(rt: HostRuntime) {
    let bytes = b"abc".to_vec(rt.alloc()).expect(&rt, "no memory");
    let failing = vec![in rt.alloc(); 1u64].expect(&rt, "no memory");
    let mut source = MemSource::new(bytes, failing);
    let mut buffer = [0u8; 2];
    assert!(rt; read(&mut source, &mut buffer) == Some(2));
    assert!(rt; read(&mut source, &mut buffer).is_none());
    assert!(rt; read(&mut source, &mut buffer) == Some(1));
    assert_eq!(rt; buffer.as_slice(), b"cb".as_slice());
    assert!(rt; read(&mut source, &mut buffer) == Some(0));
    assert!(rt; source.made() == 4);
}

#[test]
fn chosen_writes_fail(rt: HostRuntime) {
    let failing = vec![in rt.alloc(); 1u64].expect(&rt, "no memory");
    let mut sink = MemSink::new(rt.alloc(), failing);
    assert!(rt; write(&mut sink, b"ab") == Some(2));
    assert!(rt; write(&mut sink, b"cd").is_none());
    assert!(rt; write(&mut sink, b"ef") == Some(2));
    assert_eq!(rt; sink.written(), b"abef".as_slice());
    assert!(rt; sink.made() == 3);
    assert!(rt; sink.unkept() == 0);
}

fn shows<E: Error + Drop>(rt: &impl Abort, alloc: Global, error: E, text: &str) {
    let shown = error.to_string(alloc).expect(rt, "no memory");
    assert_eq!(rt; shown.as_str(), text);
}

#[test]
fn errors_have_texts(rt: HostRuntime) {
    let alloc = rt.alloc();
    shows(&rt, alloc, Failed, "read or write failed");
    shows(&rt, alloc, CutShort::SourceFailed, "source failed");
    shows(&rt, alloc, CutShort::SinkFailed, "sink failed");
    shows(&rt, alloc, CutShort::OutOfMemory, "out of memory");
    shows(&rt, alloc, ScriptRefused { line: 3 }, "line 3 refused");
    let unlawful = TraceError::Unlawful {
        at: 2,
        answers: Answers::new(alloc),
    };
    shows(&rt, alloc, unlawful, "turn 2 unlawful");
    shows(&rt, alloc, TraceError::OutOfMemory, "out of memory");
}

/// Each of its reads fails, as those of a directory do.
#[derive(Drop)]
struct Directory;

impl Read for Directory {
    fn read(&mut self, _buf: &mut [u8]) -> io::Result<usize> {
        Err(io::Error::from(ErrorKind::IsADirectory))
    }
}

/// Each of its writes takes nothing, or fails as those to a full device do.
#[derive(Drop)]
struct FullDevice {
    fails: bool,
}

impl Write for FullDevice {
    fn write(&mut self, _buf: &[u8]) -> io::Result<usize> {
        if self.fails {
            return Err(io::Error::from(ErrorKind::StorageFull));
        }
        Ok(0)
    }

    fn flush(&mut self) -> io::Result<()> {
        Ok(())
    }
}

#[test]
fn readers_are_sources_and_writers_are_sinks(rt: HostRuntime) {
    let mut source = ReaderSource::new(b"abc".as_slice());
    let mut buffer = [0u8; 2];
    assert!(rt; read(&mut source, &mut buffer) == Some(2));
    assert!(rt; read(&mut source, &mut buffer) == Some(1));
    assert_eq!(rt; buffer.as_slice(), b"cb".as_slice());
    assert!(rt; read(&mut source, &mut buffer) == Some(0));
    let mut sink = WriterSink::new(Vec::new(rt.alloc()));
    assert!(rt; write(&mut sink, b"ab") == Some(2));
    assert!(rt; write(&mut sink, b"") == Some(0));
}

#[test]
fn a_reader_that_fails_is_no_end_of_input(rt: HostRuntime) {
    let mut source = ReaderSource::new(Directory);
    assert!(rt; read(&mut source, &mut [0u8; 2]).is_none());
    let status = answers(&rt, rt.alloc(), "trace", &mut source, &mut SureSink);
    assert!(rt; status == 4);
}

#[test]
fn a_write_that_fails_is_reported(rt: HostRuntime) {
    for fails in [true, false] {
        let mut source = ReaderSource::new(b"foo".as_slice());
        let mut sink = WriterSink::new(FullDevice { fails });
        assert!(rt; write(&mut sink, b"ab").is_none());
        let status = answers(&rt, rt.alloc(), "trace", &mut source, &mut sink);
        assert!(rt; status == 5);
    }
}
