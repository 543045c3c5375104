//! Rule 2: a session is given on an open connection alone, once the peer's SETTINGS came, and either a CONNECT request came that was given
//! last and all of its response of status 200 is out, or all of the connect's request is out and a 2xx came.

mod frames;
mod outbox;
mod settings;

use crate::by_id::ById;
use crate::facts::{Facts, count_before_close};
use crate::feeding::feed;
use crate::front::Front;
use crate::rules::sessions::frames::{acceptance_frame, request_frame};
use crate::rules::sessions::outbox::Outbox;
use crate::rules::sessions::settings::ControlStream;
use std::alloc::Global;
use wt_proto::reader::FrameReader;
use wt_proto::response_walk::ResponseWalk;
use wt_turn::action::Action;
use wt_turn::answer::Answer;
use wt_turn::call::Call;
use wt_turn::reply::Reply;
use wt_turn::turn::Turn;
use wt_wire::error::OutOfMemory;
use wt_wire::ids::{SessionId, StreamId};
use wt_wire::side::{Side, StreamEnd};

/// What the rule keeps.
#[derive(Drop)]
pub struct SessionRule {
    alloc: Global,
    control: ControlStream,
    /// The stream of the session that may be given: on a server that of the last request, on a client the one that the connect opened.
    asked: Option<StreamId>,
    /// What went out on the streams that may be asked for.
    outbox: Outbox,
    /// On a client, what came on the streams that the connect may have opened.
    responses: ById<FrameReader<ResponseWalk>>,
}

/// The turn begins a connect, or goes on with it.
fn goes_on(turn: &Turn) -> bool {
    matches!(turn, Turn::Call(Call::Connect { .. } | Call::Handshake))
}

fn is_success(walk: &ResponseWalk) -> bool {
    match walk {
        ResponseWalk::Response(response, _) => response.code().is_successful(),
        _ => false,
    }
}

impl SessionRule {
    /// No pair came.
    pub fn new(alloc: Global) -> SessionRule {
        SessionRule {
            alloc,
            control: ControlStream::new(alloc),
            asked: None,
            outbox: Outbox::new(alloc),
            responses: ById::new(alloc),
        }
    }

    /// Whether the stream may still be the one that is asked for.
    fn may_be_asked(&self, facts: &Facts, id: StreamId) -> bool {
        match (facts.side(), self.asked) {
            (Side::Server, _) => {
                id.is_bidirectional()
                    && !id.is_local(Side::Server)
                    && matches!(
                        facts.front(id),
                        Some(Front::Incomplete | Front::Request) | None
                    )
            }
            (Side::Client, Some(asked)) => id == asked,
            (Side::Client, None) => id.is_bidirectional() && id.is_local(Side::Client),
        }
    }

    /// Takes the reader of a response out.
    fn take_reader(&mut self, id: StreamId) -> FrameReader<ResponseWalk> {
        match self.responses.take(id) {
            Some(reader) => reader,
            None => FrameReader::<ResponseWalk>::for_response(self.alloc),
        }
    }

    fn take_bytes(&mut self, facts: &Facts, id: StreamId, bytes: &[u8]) -> Result<(), OutOfMemory> {
        if facts.front(id) == Some(Front::Control) {
            return self.control.take(id, bytes);
        }
        if facts.side() == Side::Client && self.may_be_asked(facts, id) {
            let mut reader = self.take_reader(id);
            feed(&mut reader, bytes)?;
            self.responses.put(id, reader)?;
        }
        Ok(())
    }

    fn take_end(&mut self, facts: &Facts, id: StreamId, end: StreamEnd) -> Result<(), OutOfMemory> {
        if facts.side() == Side::Client && self.may_be_asked(facts, id) {
            let mut reader = self.take_reader(id);
            reader.end(end);
            self.responses.put(id, reader)?;
        }
        Ok(())
    }

    /// Of what came, the peer's control stream and, on a client, responses.
    fn take_turn(&mut self, facts: &Facts, turn: &Turn) -> Result<(), OutOfMemory> {
        if let Some((id, bytes)) = facts.bytes_in(turn) {
            self.take_bytes(facts, id, bytes)?;
        }
        match facts.end_in(turn) {
            Some((id, end)) => self.take_end(facts, id, end),
            None => Ok(()),
        }
    }

    /// The frame that has to go out.
    fn take_call(&mut self, turn: &Turn) -> Result<(), OutOfMemory> {
        match turn {
            Turn::Call(
                Call::Connect {
                    options,
                    lookup: _,
                    outcome: _,
                },
            ) => self.outbox.expect(request_frame(self.alloc, options)?),
            Turn::Call(Call::Accept { headers }) => {
                self.outbox
                    .expect(Some(acceptance_frame(self.alloc, headers)?));
            }
            Turn::Call(Call::Forbidden | Call::NotFound | Call::TooManyRequests) => {
                self.outbox.expect(None);
            }
            _ => {}
        }
        Ok(())
    }

    fn take_action(
        &mut self,
        facts: &Facts,
        turn: &Turn,
        action: &Action,
    ) -> Result<(), OutOfMemory> {
        match action {
            Action::Opened { id } => {
                let is_connects = facts.side() == Side::Client && goes_on(turn);
                if is_connects && self.asked.is_none() && self.may_be_asked(facts, *id) {
                    self.asked = Some(*id);
                }
                Ok(())
            }
            Action::Send { id, piece } if self.may_be_asked(facts, *id) => {
                self.outbox.send(*id, piece.as_slice())
            }
            Action::Send { id, piece: _ } => {
                self.outbox.forget(*id);
                Ok(())
            }
            _ => Ok(()),
        }
    }

    fn take_actions(
        &mut self,
        facts: &Facts,
        turn: &Turn,
        actions: &[Action],
    ) -> Result<(), OutOfMemory> {
        for action in actions {
            self.take_action(facts, turn, action)?;
        }
        Ok(())
    }

    /// A server's request.
    fn take_reply(&mut self, facts: &Facts, reply: &Reply) {
        if let (Side::Server, Reply::Request { id, headers: _ }) = (facts.side(), reply) {
            self.asked = Some(id.session_stream());
            self.outbox.expect(None);
        }
    }

    /// Whether what the peer sent on the stream asks for a session, or grants it.
    fn is_granted(&self, facts: &Facts, id: StreamId) -> bool {
        match facts.side() {
            Side::Server => facts.front(id) == Some(Front::Request),
            Side::Client => match self.responses.get(id) {
                Some(reader) => is_success(reader.outcome()),
                None => false,
            },
        }
    }

    /// Whether the session may be given.
    fn may_give(&mut self, facts: &Facts, turn: &Turn, session: SessionId) -> bool {
        let id = session.session_stream();
        facts.is_open()
            && !matches!(turn, Turn::Loss { .. })
            && self.control.has_settings()
            && self.asked == Some(id)
            && self.is_granted(facts, id)
            && self.outbox.has_sent(id)
    }

    /// Whether the rule holds with this pair.
    pub fn holds(
        &mut self,
        facts: &Facts,
        turn: &Turn,
        answer: &Answer,
    ) -> Result<bool, OutOfMemory> {
        let actions = answer.actions.as_slice();
        let count = count_before_close(actions);
        self.take_turn(facts, turn)?;
        self.take_call(turn)?;
        self.take_actions(facts, turn, &actions[..count])?;
        let holds = match answer.reply {
            Reply::Session(session) => self.may_give(facts, turn, session),
            _ => true,
        };
        self.take_actions(facts, turn, &actions[count..])?;
        self.take_reply(facts, &answer.reply);
        Ok(holds)
    }
}
