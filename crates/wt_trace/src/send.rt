//! Sources, sinks and what the program is asked may cross threads.
use crate::command::{Command, StreamCount};
use crate::cut_short::CutShort;
use crate::outside::Failed;
use crate::outside::mem::{MemSink, MemSource};
use crate::outside::standard::{ReaderSource, StdSink, StdSource, WriterSink};
use crate::outside::sure::{SureSink, SureSource};
use crate::summary::Summary;
use std::io::{Read, Write};

fn is_send<T: Send>() {}

/// Each type of this crate is `Send`: that this compiles is the proof.
pub fn all_are_send() {
    is_send::<MemSource>();
    is_send::<MemSink>();
    is_send::<SureSource>();
    is_send::<SureSink>();
    is_send::<StdSource>();
    is_send::<StdSink>();
    is_send::<Failed>();
    is_send::<CutShort>();
    is_send::<Command>();
    is_send::<StreamCount>();
    is_send::<Summary>();
}

/// A reader as a source and a writer as a sink are `Send` where the reader and the writer are.
pub fn adapters_are_send<R: Read + Send, W: Write + Send>() {
    is_send::<ReaderSource<R>>();
    is_send::<WriterSink<W>>();
}
