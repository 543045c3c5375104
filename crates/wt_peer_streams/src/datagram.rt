//! A datagram of a session.
ghost use Rattle.std.specs.Prelude.{◌≡◌, ◌≤◌, ◌/◌, IfOk, length};
ghost use Rattle.wt_message.specs.Datagram.{datagram_bytes, datagram_of};
ghost use Rattle.wt_peer_streams.specs.Admitting.{part_of_datagram, waiting_datagram};
ghost use Rattle.wt_wire.specs.Varint.{varint_bytes};

use crate::window::Named;
use std::alloc::Global;
use std::marker::Model;
use wt_proto::datagram::H3Datagram;
use wt_turn::piece::Piece;
use wt_wire::error::{ErrorCode, OutOfMemory};
use wt_wire::ids::{QStreamId, SessionId};

/// A datagram of a session (RFC 9297, section 2.1): its payload is a part of the piece that came.
#[derive(Debug, Drop)]
pub struct Datagram {
    session: SessionId,
    payload: Piece,
}

impl Model for Datagram {
    ghost use Rattle.wt_kept.specs.Kept.{WaitingDatagram};

    ghost Value = { WaitingDatagram };

    ghost view = { λ d. record { session = d.session; payload = d.payload } };
}

impl Named for Datagram {
    ghost names = { λ d. d.session };

    fn session(&self) -> SessionId {
        self.session
    }
}

impl Datagram {
    /// The session that a datagram names, and how many bytes come before its payload; the error is `Datagram`, where it is none.
    fn parse(bytes: &[u8]) -> Result<(SessionId, usize), ErrorCode>
        ensures parsed { part_of_datagram result bytes.now ≡ waiting_datagram (datagram_of bytes.now) }
        ensures within { IfOk result (λ d. d.1 ≤ length bytes.now) }
    {
        match H3Datagram::read(bytes) {
            Ok(d) => Ok((
                d.qstream_id().into_session_id(),
                bytes.len() - d.payload().len(),
            )),
            Err(code) => Err(code),
        }
    }

    /// The datagram that this piece is; the error is `Datagram`, where it is none.
    pub fn read(piece: Piece) -> Result<Datagram, ErrorCode>
        ensures { result ≡ waiting_datagram (datagram_of piece) }
    {
        match Datagram::parse(piece.as_slice()) {
            Ok((session, header)) => Ok(Datagram {
                session,
                payload: piece.without_front(header),
            }),
            Err(code) => Err(code),
        }
    }

    /// How many bytes come before a payload.
    pub fn header_size(session: SessionId) -> usize
        ensures { result ≡ length (varint_bytes (session / 4)) }
    {
        H3Datagram::header_size(QStreamId::from_session_id(session))
    }

    /// The piece that goes out for a payload of the session.
    pub fn write(alloc: Global, session: SessionId, payload: &[u8]) -> Result<Piece, OutOfMemory>
        ensures { IfOk result (λ piece. piece ≡ datagram_bytes (session / 4) payload.now) }
    {
        let id = QStreamId::from_session_id(session);
        let size = payload.len().saturating_add(H3Datagram::header_size(id));
        let mut bytes = Vec::with_capacity(alloc, size)?;
        H3Datagram::new(id, payload).write(&mut bytes)?;
        Ok(Piece::from_vec(bytes))
    }

    /// The payload.
    pub fn payload(&self) -> &[u8]
        ensures { result.now ≡ self.now.payload }
    {
        self.payload.as_slice()
    }

    /// The session.
    pub fn session_id(&self) -> SessionId
        ensures { result ≡ self.now.session }
    {
        self.session
    }

    /// The payload, as a part of the piece that came.
    pub fn into_payload(self) -> Piece
        ensures { result ≡ self.payload }
    {
        self.payload
    }
}
