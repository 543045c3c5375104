//! How far a client's connect is.
ghost use Rattle.std.specs.Prelude.{◌≡◌};
ghost use Rattle.wt_seam.specs.Writing.{nothing_begun};
ghost use Rattle.wt_session.specs.Connects.{new_asked};
ghost use Rattle.wt_wire.specs.FrameBytes.{frame_bytes};

use std::marker::Model;
use wt_message::session::SessionRequest;
use wt_seam::StreamSession;
use wt_wire::frame::Frame;
use wt_wire::text::Text;

/// How far a connect is.
#[derive(Drop)]
pub(crate) enum Stage {
    /// The connection, the peer's SETTINGS or a stream is awaited, for this request.
    Dialled(SessionRequest),
    /// The connection or the peer's SETTINGS is awaited, for a request of which a field has this name, which only the
    /// session layer sets.
    Reserved(Text),
    /// The request's stream is open.
    Asking(Asking),
}

/// A client's request on its stream. The stream knows how much of the frame is out.
#[derive(Drop)]
pub(crate) struct Asking {
    pub(crate) stream: StreamSession,
    pub(crate) request: Frame,
    /// All of the request is out.
    pub(crate) is_sent: bool,
}

impl Model for Asking {
    ghost use Rattle.std.specs.Prelude.{◌≡◌};
    ghost use Rattle.wt_session.specs.Handshakes.{Asked};
    ghost use Rattle.wt_seam.specs.Writing.{Continues, rest, write_of};
    ghost use Rattle.wt_wire.specs.FrameBytes.{frame_bytes};

    ghost Value = { Asked };

    ghost view = { λ a. record {
      id = a.stream.halves.0.id;
      head = frame_bytes a.request;
      left = rest (write_of a.stream.stage.writing (frame_bytes a.request));
      is_sent = a.is_sent;
    } };

    ghost invariant = { λ a. (a.stream.stage.session ≡ a.stream.halves.0.id) × Continues a.stream.stage.writing (frame_bytes a.request) };
}

impl Asking {
    /// The request on its stream, on which nothing was written.
    pub(crate) fn new(stream: StreamSession, request: Frame) -> Asking
        requires session { stream.stage.session ≡ stream.halves.0.id }
        requires writing { stream.stage.writing ≡ nothing_begun }
        ensures { result ≡ new_asked stream.halves.0.id (frame_bytes request) }
    {
        Asking {
            stream,
            request,
            is_sent: false,
        }
    }
}
