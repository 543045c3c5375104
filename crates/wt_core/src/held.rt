//! What the application of a connection has: the sessions that were established, and their streams.
ghost use Rattle.std.specs.Option.{option_or};
ghost use Rattle.std.specs.Prelude.{[], ◌≡◌, IfOk, None, OnOk, Some, false, true};
ghost use Rattle.wt_core.specs.HeldNow.{HoldsSessions, HoldsStreams, opening_as};
ghost use Rattle.wt_core.specs.Rows.{HasPut, value_at};
ghost use Rattle.wt_turn.specs.declared.reply.Reply.TheVariants as replies;
ghost use Rattle.wt_wire.specs.declared.side.Side.{Side};

use crate::rows::Rows;
use std::alloc::Global;
use std::marker::Model;
use wt_session::{Connection, OpeningBiStream, OpeningUniStream, RecvStream, SendStream};
use wt_turn::reply::Reply;
use wt_wire::error::OutOfMemory;
use wt_wire::ids::{SessionId, StreamId};

/// The sessions that were established, by their streams. One that is gone stays.
#[derive(Drop)]
pub struct Sessions {
    first: Option<SessionId>,
    rows: Rows<Connection>,
}

impl Model for Sessions {
    ghost use Rattle.wt_core.specs.HeldNow.{SessionsNow};

    ghost Value = { SessionsNow };

    ghost view = { λ s. record { first = s.first; rows = s.rows } };
}

impl Sessions {
    /// No session.
    pub fn new(alloc: Global) -> Sessions
        ensures { (side : Side) → HoldsSessions side result [] }
    {
        Sessions {
            first: None,
            rows: Rows::new(alloc),
        }
    }

    /// The session is established.
    pub fn establish(&mut self, connection: Connection) -> Result<Reply, OutOfMemory>
        ensures reply { IfOk result (λ reply. reply ≡ replies.Session connection) }
        ensures rows { OnOk result (HasPut self.old.rows self.new.rows connection (Some connection)) }
        ensures first { OnOk result (self.new.first ≡ option_or self.old.first (Some connection)) }
    {
        let session = connection.session_id();
        self.rows.put(session.session_stream(), connection)?;
        self.first = Some(self.first.unwrap_or(session));
        Ok(Reply::Session(session))
    }

    /// The session that a call names; a call that names none means the first.
    pub fn named(&self, name: Option<SessionId>) -> Option<SessionId>
        ensures { result ≡ option_or name self.now.first }
    {
        match name {
            Some(session) => Some(session),
            None => self.first,
        }
    }

    /// This session, where it was established, to be put back.
    pub fn take(&mut self, session: SessionId) -> Option<Connection>
        ensures value { result ≡ value_at self.old.rows session }
        ensures rest { HasPut self.old.rows self.new.rows session None }
        ensures first { self.new.first ≡ self.old.first }
    {
        self.rows.take(session.session_stream())
    }

    /// It is put back.
    pub fn put_back(
        &mut self,
        session: SessionId,
        connection: Connection,
    ) -> Result<(), OutOfMemory>
        ensures rows { OnOk result (HasPut self.old.rows self.new.rows session (Some connection)) }
        ensures first { self.new.first ≡ self.old.first }
    {
        self.rows.put(session.session_stream(), connection)
    }
}

/// A stream that is being opened, of one direction or of both.
#[derive(Drop)]
pub(crate) enum Way {
    Uni(OpeningUniStream),
    Bi(OpeningBiStream),
}

/// A stream that is being opened. Contracts see which, and of which kind.
#[derive(Drop)]
pub struct Opening {
    pub(crate) way: Way,
}

impl Model for Opening {
    ghost use Rattle.wt_core.specs.HeldNow.{OpeningNow, opening_as};

    ghost Value = { OpeningNow };

    ghost view = { λ o. opening_as o.way };
}

impl Opening {
    /// A unidirectional one.
    pub(crate) fn uni(opening: OpeningUniStream) -> Opening
        ensures { result ≡ record { bidirectional = false; opening = opening } }
    {
        Opening {
            way: Way::Uni(opening),
        }
    }

    /// A bidirectional one.
    pub(crate) fn bi(opening: OpeningBiStream) -> Opening
        ensures { result ≡ record { bidirectional = true; opening = opening } }
    {
        Opening {
            way: Way::Bi(opening),
        }
    }

    /// Which it is.
    pub(crate) fn into_way(self) -> Way
        ensures { opening_as result ≡ self }
    {
        self.way
    }
}

/// The halves that were handed out and not given up, and the streams that are being opened.
#[derive(Drop)]
pub struct Streams {
    pub(crate) sends: Rows<SendStream>,
    pub(crate) recvs: Rows<RecvStream>,
    pub(crate) openings: Rows<Opening>,
}

impl Model for Streams {
    ghost use Rattle.wt_core.specs.HeldNow.{StreamsNow};

    ghost Value = { StreamsNow };

    ghost view = { λ s. record { sends = s.sends; recvs = s.recvs; openings = s.openings } };
}

impl Streams {
    /// No stream.
    pub fn new(alloc: Global) -> Streams
        ensures { (side : Side) → HoldsStreams side result [] }
    {
        Streams {
            sends: Rows::new(alloc),
            recvs: Rows::new(alloc),
            openings: Rows::new(alloc),
        }
    }

    /// The application has this half, on which it sends.
    pub(crate) fn add_send(&mut self, half: SendStream) -> Result<StreamId, OutOfMemory>
        ensures id { IfOk result (λ id. id ≡ half) }
        ensures put { OnOk result (HasPut self.old.sends self.new.sends half (Some half)) }
        ensures recvs { self.new.recvs ≡ self.old.recvs }
        ensures openings { self.new.openings ≡ self.old.openings }
    {
        let id = half.id();
        self.sends.put(id, half)?;
        Ok(id)
    }

    /// The application has this half, on which it receives.
    pub(crate) fn add_recv(&mut self, half: RecvStream) -> Result<StreamId, OutOfMemory>
        ensures id { IfOk result (λ id. id ≡ half) }
        ensures put { OnOk result (HasPut self.old.recvs self.new.recvs half (Some half)) }
        ensures sends { self.new.sends ≡ self.old.sends }
        ensures openings { self.new.openings ≡ self.old.openings }
    {
        let id = half.id();
        self.recvs.put(id, half)?;
        Ok(id)
    }

    /// The application has this stream, which is being opened.
    pub(crate) fn add_opening(
        &mut self,
        id: StreamId,
        opening: Opening,
    ) -> Result<StreamId, OutOfMemory>
        ensures id { IfOk result (λ at. at ≡ id) }
        ensures put { OnOk result (HasPut self.old.openings self.new.openings id (Some opening)) }
        ensures sends { self.new.sends ≡ self.old.sends }
        ensures recvs { self.new.recvs ≡ self.old.recvs }
    {
        self.openings.put(id, opening)?;
        Ok(id)
    }
}
