//! Frames (RFC 9114, section 7), and the signal that begins a bidirectional WebTransport stream
//! (draft-ietf-webtrans-http3, section 4.3).
ghost use Rattle.std.specs.Prelude.{◌≡◌, ◌++◌, ◌<◌, ◌^◌, IsTrue, [], List, ℕ, length, IfOk, OnOk, Some, None};
ghost use Rattle.wt_wire.specs.FrameBytes.{IsReadable, frame_bytes, frame_of, frame_type, kind_fits, payload_bytes};
ghost use Rattle.wt_wire.specs.Frames.{frame_at, is_exercise};
ghost use Rattle.wt_wire.specs.Varint.{varint_at};
ghost use Rattle.wt_wire.specs.declared.frame.FrameKind.TheVariants as kinds;

use crate::error::OutOfMemory;
use crate::ids::SessionId;
use crate::varint::{VarInt, write_varint};
use std::alloc::Global;
use std::marker::Model;

/// The type of a DATA frame (RFC 9114, section 7.2.1).
pub(crate) const DATA: u64 = 0x00;

/// The type of a HEADERS frame (RFC 9114, section 7.2.2).
pub(crate) const HEADERS: u64 = 0x01;

/// The type of a SETTINGS frame (RFC 9114, section 7.2.4).
pub(crate) const SETTINGS: u64 = 0x04;

/// The type of the signal that begins a bidirectional WebTransport stream
/// (draft-ietf-webtrans-http3, section 4.3).
pub(crate) const WEBTRANSPORT: u64 = 0x41;

/// What a frame is.
#[derive(Clone, Copy, Debug, PartialEq, Eq)]
pub enum FrameKind {
    /// 0x00 (RFC 9114, section 7.2.1).
    Data,
    /// 0x01 (RFC 9114, section 7.2.2).
    Headers,
    /// 0x04 (RFC 9114, section 7.2.4).
    Settings,
    /// 0x41, which has no length, and a session's id in place of a payload
    /// (draft-ietf-webtrans-http3, section 4.3).
    WebTransport,
    /// A reserved type, 0x1f * N + 0x21 (RFC 9114, section 7.2.8).
    Exercise(VarInt),
}

impl FrameKind {
    /// The frame's type on the wire.
    fn number(self) -> VarInt
        ensures { result ≡ frame_type self }
    {
        match self {
            FrameKind::Data => VarInt::from_u64(DATA),
            FrameKind::Headers => VarInt::from_u64(HEADERS),
            FrameKind::Settings => VarInt::from_u64(SETTINGS),
            FrameKind::WebTransport => VarInt::from_u64(WEBTRANSPORT),
            FrameKind::Exercise(number) => number,
        }
    }
}

/// A frame: its kind, and its payload or the session that it names.
#[derive(Debug, Drop)]
pub struct Frame {
    kind: FrameKind,
    payload: Vec<u8>,
    session: Option<SessionId>,
}

impl Model for Frame {
    ghost use Rattle.wt_wire.specs.FrameBytes.{FrameParts, IsFrame};

    ghost Value = { FrameParts };

    ghost view = { λ f. record { kind = f.kind; payload = f.payload.items; session = f.session } };

    ghost invariant = { λ f. IsFrame (record { kind = f.kind; payload = f.payload.items; session = f.session }) };
}

impl Frame {
    fn with_payload(kind: FrameKind, payload: Vec<u8>) -> Frame
        requires { kind_fits kind None payload.items }
        ensures { result ≡ record { kind = kind; payload = payload.items; session = None } }
    {
        Frame {
            kind,
            payload,
            session: None,
        }
    }

    /// A DATA frame (RFC 9114, section 7.2.1).
    pub fn new_data(alloc: Global, payload: &[u8]) -> Result<Frame, OutOfMemory>
        ensures { IfOk result (λ f. f ≡ record { kind = kinds.Data; payload = payload.now; session = None }) }
    {
        Ok(Frame::with_payload(FrameKind::Data, payload.to_vec(alloc)?))
    }

    /// A HEADERS frame (RFC 9114, section 7.2.2).
    pub fn new_headers(alloc: Global, payload: &[u8]) -> Result<Frame, OutOfMemory>
        ensures { IfOk result (λ f. f ≡ record { kind = kinds.Headers; payload = payload.now; session = None }) }
    {
        Ok(Frame::of_headers(payload.to_vec(alloc)?))
    }

    /// A SETTINGS frame (RFC 9114, section 7.2.4).
    pub fn new_settings(alloc: Global, payload: &[u8]) -> Result<Frame, OutOfMemory>
        ensures { IfOk result (λ f. f ≡ record { kind = kinds.Settings; payload = payload.now; session = None }) }
    {
        Ok(Frame::of_settings(payload.to_vec(alloc)?))
    }

    /// The signal of a stream of this session.
    pub fn new_webtransport(alloc: Global, session: SessionId) -> Frame
        ensures { result ≡ record { kind = kinds.WebTransport; payload = []; session = Some session } }
    {
        Frame {
            kind: FrameKind::WebTransport,
            payload: Vec::new(alloc),
            session: Some(session),
        }
    }

    /// A frame of a reserved type (RFC 9114, section 7.2.8). No other number may be its type, so a frame's kind always fits
    /// what it holds.
    pub fn new_exercise(alloc: Global, number: VarInt, payload: &[u8]) -> Result<Frame, OutOfMemory>
        requires { IsTrue (is_exercise number) }
        ensures { IfOk result (λ f. f ≡ record { kind = kinds.Exercise number; payload = payload.now; session = None }) }
    {
        Ok(Frame::with_payload(FrameKind::Exercise(number), payload.to_vec(alloc)?))
    }

    /// A frame with the same kind, payload and session.
    ///
    /// # Errors
    ///
    /// `OutOfMemory` where its payload found no memory.
    pub fn copy(&self) -> Result<Frame, OutOfMemory>
        ensures { IfOk result (λ f. f ≡ self.now) }
    {
        Ok(Frame {
            kind: self.kind,
            payload: self.payload.to_vec(*self.payload.allocator())?,
            session: self.session,
        })
    }

    /// A HEADERS frame of this payload, with no memory taken.
    pub(crate) fn of_headers(payload: Vec<u8>) -> Frame
        ensures { result ≡ record { kind = kinds.Headers; payload = payload.items; session = None } }
    {
        Frame::with_payload(FrameKind::Headers, payload)
    }

    /// A SETTINGS frame of this payload, with no memory taken (RFC 9114, section 7.2.4).
    pub fn of_settings(payload: Vec<u8>) -> Frame
        ensures { result ≡ record { kind = kinds.Settings; payload = payload.items; session = None } }
    {
        Frame::with_payload(FrameKind::Settings, payload)
    }

    /// What it is.
    pub fn kind(&self) -> FrameKind
        ensures { result ≡ self.now.kind }
    {
        self.kind
    }

    /// Its payload, which is empty in a signal.
    pub fn payload(&self) -> &[u8]
        ensures { result.now ≡ self.now.payload }
    {
        self.payload.as_slice()
    }

    /// The session that a signal names.
    pub fn session_id(&self) -> Option<SessionId>
        ensures { result ≡ self.now.session }
    {
        self.session
    }

    /// Appends the frame's bytes: its type, and its payload after the payload's length, or the
    /// session's id. A peer reads the frame again, where its payload isn't too long.
    #[tactic(auto, using(crate::proofs::FrameAgain::frame_again))]
    pub fn write(&self, out: &mut Vec<u8>) -> Result<(), OutOfMemory>
        ensures bytes { OnOk result (out.new.items ≡ out.old.items ++ frame_bytes self.now) }
        ensures again { OnOk result (IsReadable self.now → (more : List ℕ)
            → frame_at varint_at (frame_bytes self.now ++ more) ≡ Some (frame_of self.now, length (frame_bytes self.now))) }
    {
        write_varint(self.kind.number(), out)?;
        match self.session {
            Some(session) => write_varint(session.session_stream().into_varint(), out),
            None => write_payload(self.payload.as_slice(), out),
        }
    }
}

/// Appends a payload after its length. A length above 2^62 - 1 has no encoding: it is more than
/// any memory holds.
fn write_payload(payload: &[u8], out: &mut Vec<u8>) -> Result<(), OutOfMemory>
    ensures bytes { OnOk result (out.new.items ≡ out.old.items ++ payload_bytes payload.now) }
    ensures short { OnOk result (length payload.now < 2 ^ 62) }
{
    let length = payload.len() as u64;
    // Not a fault of the payload's: no memory holds so much, and no error of a writer says more.
    let Some(length) = VarInt::try_from_u64(length) else {
        return Err(OutOfMemory);
    };
    write_varint(length, out)?;
    out.extend_from_slice(payload)?;
    Ok(())
}
