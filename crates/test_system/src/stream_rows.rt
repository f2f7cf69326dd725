//! Rows on sources and sinks over a real file, over streams that are interrupted or fail, and in memory, for `answers`.

use crate::calls::{Called, Fault, Shown, call_all, push_answer};
use crate::real_folder::{RealFolder, refused};
use crate::script::Script;
use nm_base::{Failed, Many, Text};
use nm_io::{MemSink, Sink, Source, StdSink, StdSource, TakeError, take_all};
use rows::{Lines, Row, RowError, cut, named, number_of};
use std::alloc::Global;
use std::fs::File;

/// A call that takes asks for this many bytes.
const TAKEN: usize = 3;

/// A call of a sink, or of the file that it fills.
#[derive(Clone, Copy)]
enum SinkCall {
    Put,
    Flush,
    TakeAll,
    /// A call on the file, which may then only be written.
    TakeUnread,
}

const CALLS: [(&[u8], SinkCall); 4] = [
    (b"put", SinkCall::Put),
    (b"flush", SinkCall::Flush),
    (b"take-all", SinkCall::TakeAll),
    (b"take-unread", SinkCall::TakeUnread),
];

/// `take`, of a stream that goes as the lines `?` say.
pub fn push_source(alloc: Global, row: &Row<'_>, lines: &mut Lines) -> Result<(), RowError> {
    let mut source = StdSource::new(Script::of(alloc, row));
    call_all(&mut source, row, lines)
}

impl Called for StdSource<Script<'_>> {
    fn call(&mut self, _: &[u8], lines: &mut Lines) -> Result<(), RowError> {
        take(self, lines);
        Ok(())
    }
}

fn take<S: Source>(source: &mut S, lines: &mut Lines) {
    let mut bytes = [0; TAKEN];
    match source.take(&mut bytes) {
        Ok(count) => push_taken(&bytes[..count], lines),
        Err(Failed) => lines.push(b"failed"),
    }
}

fn push_taken(bytes: &[u8], lines: &mut Lines) {
    lines.push(b"taken");
    lines.push_after_blank(bytes);
}

/// `put TEXT` and `flush`, of a stream that goes as the lines `?` say; at the end what it holds.
pub fn push_sink(alloc: Global, row: &Row<'_>, lines: &mut Lines) -> Result<(), RowError> {
    let mut sink = StdSink::new(Script::of(alloc, row));
    let called = call_all(&mut sink, row, lines);
    lines.line(b"held");
    lines.push_after_blank(sink.into_inner().held.as_slice());
    called
}

impl Called for StdSink<Script<'_>> {
    fn call(&mut self, call: &[u8], lines: &mut Lines) -> Result<(), RowError> {
        let (name, text) = cut(call, b' ');
        call_sink(self, named(&CALLS, name)?, text, lines)
    }
}

/// `put TEXT` and `flush`, of a sink in memory; at the end how many bytes it has handed on.
pub fn push_memory(alloc: Global, row: &Row<'_>, lines: &mut Lines) -> Result<(), RowError> {
    let mut sink = MemSink::new(alloc, Many::new(alloc));
    let called = call_all(&mut sink, row, lines);
    lines.line(b"handed ");
    lines.push_number(sink.handed() as u64);
    called
}

impl Called for MemSink {
    fn call(&mut self, call: &[u8], lines: &mut Lines) -> Result<(), RowError> {
        let (name, text) = cut(call, b' ');
        call_sink(self, named(&CALLS, name)?, text, lines)
    }
}

fn call_sink<S: Sink>(
    sink: &mut S,
    call: SinkCall,
    text: &[u8],
    lines: &mut Lines,
) -> Result<(), RowError> {
    match call {
        SinkCall::Put => push_answer(sink.put(text), lines),
        SinkCall::Flush => push_answer(sink.flush(), lines),
        _ => Err(RowError::Broken("no such call of a sink")),
    }
}

/// A new file that a sink fills.
#[derive(Drop)]
struct FilledFile<'a> {
    rt: &'a HostRuntime,
    path: Text,
    sink: StdSink<File>,
}

/// `put TEXT` into a new file, `take-all MOST` from it, and `take-unread`.
pub fn push_file(
    folder: &RealFolder<'_>,
    row: &Row<'_>,
    lines: &mut Lines,
) -> Result<(), RowError> {
    let path = folder.below(b"file")?;
    let sink = StdSink::new(new_file(folder.rt, path.as_str())?);
    let mut file = FilledFile {
        rt: folder.rt,
        path,
        sink,
    };
    call_all(&mut file, row, lines)
}

fn new_file(rt: &HostRuntime, path: &str) -> Result<File, RowError> {
    File::create(rt, path).map_err(refused)
}

impl Called for FilledFile<'_> {
    fn call(&mut self, call: &[u8], lines: &mut Lines) -> Result<(), RowError> {
        let (name, words) = cut(call, b' ');
        match named(&CALLS, name)? {
            SinkCall::TakeAll => self.take_all(words, lines),
            SinkCall::TakeUnread => self.take_unread(lines),
            call => call_sink(&mut self.sink, call, words, lines),
        }
    }
}

impl FilledFile<'_> {
    fn take_all(&self, most: &[u8], lines: &mut Lines) -> Result<(), RowError> {
        let most = number_of(most)?;
        let file = File::open(self.rt, self.path.as_str()).map_err(refused)?;
        let taken = take_all(self.rt.alloc(), &mut StdSource::new(file), most);
        push_answer(taken, lines)
    }

    fn take_unread(&self, lines: &mut Lines) -> Result<(), RowError> {
        let file = new_file(self.rt, self.path.as_str())?;
        take(&mut StdSource::new(file), lines);
        Ok(())
    }
}

impl Shown for Many<u8> {
    fn push(&self, lines: &mut Lines) {
        push_taken(self.as_slice(), lines);
    }
}

impl Fault for TakeError {
    fn told(self) -> Result<&'static [u8], RowError> {
        match self {
            TakeError::TooLong => Ok(b"too long"),
            TakeError::ReadFault => Ok(b"failed"),
            TakeError::NoMemory => Err(RowError::NoMemory),
        }
    }
}
