//! The peer's QPACK streams (RFC 9204, section 4.2). Tables aren't used, so that what comes on them is
//! read and means nothing.
ghost use Rattle.std.specs.Prelude.{◌≡◌, None, Ok, Some, is_some, not};
ghost use Rattle.wt_proto.specs.declared.stream_header.StreamKind.{StreamKind};
ghost use Rattle.wt_seam.specs.UniHeader.{kind_of};
ghost use Rattle.wt_seam.specs.Critical.{after_uni_run, qpack_answer};

use crate::shown::{id_of, shown_by_end, shown_or_ended};
use crate::stream::StreamUniRemoteH3;
use std::alloc::Global;
use std::marker::{Model, PhantomData};
use wt_transport::Transport;
use wt_turn::driver_error::DriverError;
use wt_turn::poll::Poll;
use wt_wire::error::OutOfMemory;

/// Reads all that has come of a stream, and returns how it ended.
fn run_qpack(stream: &mut Option<StreamUniRemoteH3>, t: &mut Transport) -> Poll<DriverError>
    ensures answer { result ≡ qpack_answer stream.old t.old }
    ensures state { t.new ≡ after_uni_run stream.old t.old }
    ensures same { stream.new ≡ stream.old }
{
    let Some(stream) = stream else {
        return Poll::Pending;
    };
    let id = id_of(stream);
    let count = t.unread(id);
    // Instructions for tables: own SETTINGS allow the peer none, and this end uses none, so they change nothing
    // here and aren't kept.
    t.consume(id, count as usize);
    shown_or_ended(t.is_open(), shown_by_end(t.end(id)))
}

/// Marks an encoder stream (RFC 9204, section 4.2).
pub struct Encoder;

/// Marks a decoder stream (RFC 9204, section 4.2).
pub struct Decoder;

/// A marker of one of the two kinds of QPACK streams (RFC 9204, section 4.2).
pub trait QPackKind {
    // the kind that a stream's type says
    ghost kind: { StreamKind };
}

impl QPackKind for Encoder {
    ghost use Rattle.wt_proto.specs.declared.stream_header.StreamKind.TheVariants.{QPackEncoder};

    ghost kind = { QPackEncoder };
}

impl QPackKind for Decoder {
    ghost use Rattle.wt_proto.specs.declared.stream_header.StreamKind.TheVariants.{QPackDecoder};

    ghost kind = { QPackDecoder };
}

/// The peer's encoder stream, where it is set (RFC 9204, section 4.2).
pub type RemoteQPackEncStream = RemoteQPackStream<Encoder>;

/// The peer's decoder stream, where it is set (RFC 9204, section 4.2).
pub type RemoteQPackDecStream = RemoteQPackStream<Decoder>;

/// A QPACK stream of the peer, where it is set; `K` marks which: `Encoder` or `Decoder`.
#[derive(Drop)]
pub struct RemoteQPackStream<K> {
    stream: Option<StreamUniRemoteH3>,
    kind: PhantomData<K>,
}

impl<K> Model for RemoteQPackStream<K> {
    ghost use Rattle.std.specs.Prelude.{Option};
    ghost use Rattle.wt_seam.specs.Critical.{RemoteUni};

    ghost Value = { Option RemoteUni };

    ghost view = { λ s. s.stream };
}

impl<K: QPackKind> RemoteQPackStream<K> {
    /// No stream is set.
    pub fn empty(_alloc: Global) -> Result<Self, OutOfMemory>
        ensures { result ≡ Ok None }
    {
        Ok(RemoteQPackStream {
            stream: None,
            kind: PhantomData,
        })
    }

    /// Whether no stream is set.
    pub fn is_empty(&self) -> bool
        ensures { result ≡ not (is_some self.now) }
    {
        self.stream.is_none()
    }

    /// Sets the stream, whose `kind` is the one that `K` marks.
    pub fn set_stream(&mut self, stream: StreamUniRemoteH3)
        requires { kind_of stream.stage.header ≡ K.kind }
        ensures { self.new ≡ Some stream }
    {
        self.stream = Some(stream);
    }

    /// Reads all that has come. Ready with `Proto(ClosedCriticalStream)` where the peer ended or reset
    /// the stream, else with `NotConnected` where the connection isn't open; pending where no stream is
    /// set.
    pub fn run(&mut self, t: &mut Transport) -> Result<Poll<DriverError>, OutOfMemory>
        ensures answer { result ≡ Ok (qpack_answer self.old t.old) }
        ensures state { t.new ≡ after_uni_run self.old t.old }
        ensures same { self.new ≡ self.old }
    {
        Ok(run_qpack(&mut self.stream, t))
    }
}
