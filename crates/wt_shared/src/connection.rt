//! A thread's handle of a shared connection.
ghost use Rattle.std.specs.Prelude.{◌≡◌, ◌≢◌, ◌<◌, ◌++◌, ◌∷◌, [], Err, IfOk, IsTrue, None, OnErr, OnOk, false, true, vec_capacity, vec_len};
ghost use Rattle.wt_turn.specs.declared.call.Call.TheVariants as calls;
ghost use Rattle.wt_turn.specs.declared.turn.Turn.TheVariants as turns;
ghost use Rattle.wt_shared.specs.Calls.{IsCalled, RanOut, may_come_later};
ghost use Rattle.wt_shared.specs.Stored.{may_come, next_answer};
ghost use Rattle.wt_shared.specs.Waiting.{HasEntry, MayHaveEntry, RefusalsAfter, Waited};

use crate::gate::{CondvarGate, Gate};
use crate::kept::{Kept, StepError};
use crate::pending::is_pending;
use crate::shared::Locked;
use crate::told::Told;
use std::alloc::Global;
use std::marker::Model;
use std::sync::{Arc, Wait};
use thiserror::Error;
use wt_turn::piece::Piece;
use wt_turn::{Answer, Call, Turn};
use wt_wire::error::OutOfMemory;
use wt_wire::ids::{SessionId, StreamId};

/// Why a call that waits has no answer.
#[derive(Clone, Copy, PartialEq, Eq, Debug, Error)]
pub enum SharedError {
    /// The gate gave up.
    #[error("the gate gave up")]
    GaveUp,
    /// Out of memory.
    #[error("out of memory")]
    OutOfMemory,
}

/// A handle of a shared connection. Contracts see its list: all that it was told, the first first.
#[derive(Drop)]
pub struct Connection {
    alloc: Global,
    locked: Arc<Locked, Global>,
    told: Vec<Told>,
}

impl Model for Connection {
    ghost use Rattle.std.specs.Prelude.{List};
    ghost use Rattle.wt_shared.specs.declared.told.Told.{Told};

    ghost Value = { List Told };

    ghost view = { λ c. c.told.items };
}

impl Connection {
    pub(crate) fn of(alloc: Global, locked: Arc<Locked, Global>) -> Connection
        ensures { result ≡ [] }
    {
        Connection {
            alloc,
            locked,
            told: Vec::new(alloc),
        }
    }

    /// Another handle of the same connection, which was told nothing yet.
    pub fn handle(&mut self) -> Result<Connection, OutOfMemory>
        ensures new { IfOk result (λ handle. handle ≡ []) }
        ensures same { self.new ≡ self.old }
    {
        let locked = Arc::try_clone(&self.locked)?;
        Ok(Connection::of(self.alloc, locked))
    }

    /// A gate that waits for a change of this connection, and never gives up.
    pub fn gate(&self) -> Result<CondvarGate, OutOfMemory> {
        let locked = Arc::try_clone(&self.locked)?;
        Ok(CondvarGate::of(locked))
    }

    /// All that it was told, the first first.
    pub fn told(&self) -> &[Told]
        ensures { result.now ≡ self.now }
    {
        self.told.as_slice()
    }

    pub(crate) fn into_told(self) -> Vec<Told>
        ensures { result.items ≡ self }
    {
        self.told
    }

    /// Makes this call as one turn of the locked value that is lent, and adds what that turn reports to the list. Waits for
    /// nobody.
    ///
    /// # Errors
    ///
    /// `Unlawful` only where the call isn't lawful after that value's history, so never for a call on a session, on a stream
    /// or by the endpoint; `OutOfMemory`, after which the turn may have been made, and then its entry is in the list.
    pub fn call(&mut self, kept: &mut Kept, call: &Call) -> Result<Answer, StepError>
        ensures answer { IfOk result (λ answer. answer ≡ next_answer kept.old (turns.Call call.now)) }
        ensures called { OnOk result (IsCalled kept.old kept.new self.old self.new call.now) }
        ensures lawful { OnOk result (may_come kept.old (turns.Call call.now) ≡ true) }
        ensures unlawful { result ≡ Err StepError.Unlawful → (kept.old.failed ≡ false) × (may_come kept.old (turns.Call call.now) ≡ false) }
        ensures same { result ≡ Err StepError.Unlawful → (self.new ≡ self.old) × (kept.new ≡ kept.old) }
        ensures later { IsTrue (may_come_later call.now) → result ≢ Err StepError.Unlawful }
        ensures memory { result ≡ Err StepError.OutOfMemory → RanOut kept.old kept.new self.old self.new call.now }
    {
        make_call(self.alloc, &mut self.told, kept, call)
    }

    /// Accepts the next unidirectional stream of this session, once there is one. None means the first session, here and in
    /// the other calls that name one.
    pub fn accept_uni<R: Wait, G: Gate>(
        &mut self,
        rt: &R,
        gate: &mut G,
        session: Option<SessionId>,
    ) -> Result<Answer, SharedError>
        ensures waited { Waited (calls.AcceptUni session) self.old self.new result }
        ensures gate { RefusalsAfter (G.refused gate.old) (G.refused gate.new) result }
    {
        self.wait(rt, gate, &Call::AcceptUni { session })
    }

    /// Accepts the next bidirectional stream of this session, once there is one.
    pub fn accept_bi<R: Wait, G: Gate>(
        &mut self,
        rt: &R,
        gate: &mut G,
        session: Option<SessionId>,
    ) -> Result<Answer, SharedError>
        ensures waited { Waited (calls.AcceptBi session) self.old self.new result }
        ensures gate { RefusalsAfter (G.refused gate.old) (G.refused gate.new) result }
    {
        self.wait(rt, gate, &Call::AcceptBi { session })
    }

    /// Begins to open a unidirectional stream of this session, once the peer allows one more.
    pub fn open_uni<R: Wait, G: Gate>(
        &mut self,
        rt: &R,
        gate: &mut G,
        session: Option<SessionId>,
    ) -> Result<Answer, SharedError>
        ensures waited { Waited (calls.OpenUni session) self.old self.new result }
        ensures gate { RefusalsAfter (G.refused gate.old) (G.refused gate.new) result }
    {
        self.wait(rt, gate, &Call::OpenUni { session })
    }

    /// Begins to open a bidirectional stream of this session, once the peer allows one more.
    pub fn open_bi<R: Wait, G: Gate>(
        &mut self,
        rt: &R,
        gate: &mut G,
        session: Option<SessionId>,
    ) -> Result<Answer, SharedError>
        ensures waited { Waited (calls.OpenBi session) self.old self.new result }
        ensures gate { RefusalsAfter (G.refused gate.old) (G.refused gate.new) result }
    {
        self.wait(rt, gate, &Call::OpenBi { session })
    }

    /// Takes the next datagram of this session, once there is one.
    pub fn receive_datagram<R: Wait, G: Gate>(
        &mut self,
        rt: &R,
        gate: &mut G,
        session: Option<SessionId>,
    ) -> Result<Answer, SharedError>
        ensures waited { Waited (calls.ReceiveDatagram session) self.old self.new result }
        ensures gate { RefusalsAfter (G.refused gate.old) (G.refused gate.new) result }
    {
        self.wait(rt, gate, &Call::ReceiveDatagram { session })
    }

    /// How the connection ended, once it has.
    pub fn closed<R: Wait, G: Gate>(&mut self, rt: &R, gate: &mut G) -> Result<Answer, SharedError>
        ensures waited { Waited calls.Closed self.old self.new result }
        ensures gate { RefusalsAfter (G.refused gate.old) (G.refused gate.new) result }
    {
        self.wait(rt, gate, &Call::Closed)
    }

    /// Writes as many of the bytes as the stream's credit allows, once that is at least one.
    pub fn write<R: Wait, G: Gate>(
        &mut self,
        rt: &R,
        gate: &mut G,
        id: StreamId,
        bytes: Piece,
    ) -> Result<Answer, SharedError>
        ensures waited { Waited (calls.Write id bytes) self.old self.new result }
        ensures gate { RefusalsAfter (G.refused gate.old) (G.refused gate.new) result }
    {
        self.wait(rt, gate, &Call::Write { id, bytes })
    }

    /// Writes the bytes as far as the stream's credit allows: all of them, or a first part, whose length is the answer.
    pub fn write_all<R: Wait, G: Gate>(
        &mut self,
        rt: &R,
        gate: &mut G,
        id: StreamId,
        bytes: Piece,
    ) -> Result<Answer, SharedError>
        ensures waited { Waited (calls.WriteAll id bytes) self.old self.new result }
        ensures gate { RefusalsAfter (G.refused gate.old) (G.refused gate.new) result }
    {
        self.wait(rt, gate, &Call::WriteAll { id, bytes })
    }

    /// Ends a sending half, once the peer has all of it or stopped it.
    pub fn finish<R: Wait, G: Gate>(
        &mut self,
        rt: &R,
        gate: &mut G,
        id: StreamId,
    ) -> Result<Answer, SharedError>
        ensures waited { Waited (calls.Finish id) self.old self.new result }
        ensures gate { RefusalsAfter (G.refused gate.old) (G.refused gate.new) result }
    {
        self.wait(rt, gate, &Call::Finish { id })
    }

    /// How a sending half ended, once the peer has all of it or stopped it.
    pub fn stopped<R: Wait, G: Gate>(
        &mut self,
        rt: &R,
        gate: &mut G,
        id: StreamId,
    ) -> Result<Answer, SharedError>
        ensures waited { Waited (calls.Stopped id) self.old self.new result }
        ensures gate { RefusalsAfter (G.refused gate.old) (G.refused gate.new) result }
    {
        self.wait(rt, gate, &Call::Stopped { id })
    }

    /// Reads up to `size` bytes of a stream, once some are there or the stream's end is.
    pub fn read<R: Wait, G: Gate>(
        &mut self,
        rt: &R,
        gate: &mut G,
        id: StreamId,
        size: u64,
    ) -> Result<Answer, SharedError>
        ensures waited { Waited (calls.Read id size) self.old self.new result }
        ensures gate { RefusalsAfter (G.refused gate.old) (G.refused gate.new) result }
    {
        self.wait(rt, gate, &Call::Read { id, size })
    }

    /// Reads `size` bytes of a stream, once as many are there or the stream's end is.
    pub fn read_exact<R: Wait, G: Gate>(
        &mut self,
        rt: &R,
        gate: &mut G,
        id: StreamId,
        size: u64,
    ) -> Result<Answer, SharedError>
        ensures waited { Waited (calls.ReadExact id size) self.old self.new result }
        ensures gate { RefusalsAfter (G.refused gate.old) (G.refused gate.new) result }
    {
        self.wait(rt, gate, &Call::ReadExact { id, size })
    }

    /// Makes the call under the handle's own lock. Returns its answer, and the count of changes then.
    fn call_locked<R: Wait>(&mut self, rt: &R, call: &Call) -> Result<(Answer, u64), OutOfMemory>
        requires { IsTrue (may_come_later call.now) }
        ensures answer { IfOk result (λ r. HasEntry call.now self.old self.new r.0) }
        ensures memory { OnErr result (MayHaveEntry call.now self.old self.new) }
    {
        let Connection {
            alloc,
            locked,
            told,
        } = self;
        let result = make_later_call(*alloc, told, &mut locked.kept.lock(rt), call);
        locked.changed.notify_all();
        result
    }

    /// Makes the call until its answer isn't Pending, and pauses at the gate in between, with the lock free.
    #[tactic(auto, using(crate::proofs::WaitingLaws::waits_not, crate::proofs::WaitingLaws::waits_more, crate::proofs::WaitingLaws::waits_answers, crate::proofs::WaitingLaws::waits_no_more, crate::proofs::WaitingLaws::waits_out))]
    fn wait<R: Wait, G: Gate>(
        &mut self,
        rt: &R,
        gate: &mut G,
        call: &Call,
    ) -> Result<Answer, SharedError>
        requires { IsTrue (may_come_later call.now) }
        ensures waited { Waited call.now self.old self.new result }
        ensures gate { RefusalsAfter (G.refused gate.old) (G.refused gate.new) result }
    {
        for _ in rt.forever() {
            let (answer, changes) = match self.call_locked(rt, call) {
                Ok(found) => found,
                Err(_) => return Err(SharedError::OutOfMemory),
            };
            if !is_pending(&answer.reply) {
                return Ok(answer);
            }
            if !gate.pause(rt, changes) {
                return Err(SharedError::GaveUp);
            }
        }
        unreachable!()
    }
}

/// Makes a call as one turn of the locked value, and adds what it reports to a handle's list.
fn make_call(
    alloc: Global,
    told: &mut Vec<Told>,
    kept: &mut Kept,
    call: &Call,
) -> Result<Answer, StepError>
    ensures answer { IfOk result (λ answer. answer ≡ next_answer kept.old (turns.Call call.now)) }
    ensures called { OnOk result (IsCalled kept.old kept.new told.old.items told.new.items call.now) }
    ensures lawful { OnOk result (may_come kept.old (turns.Call call.now) ≡ true) }
    ensures unlawful { result ≡ Err StepError.Unlawful → (kept.old.failed ≡ false) × (may_come kept.old (turns.Call call.now) ≡ false) }
    ensures same { result ≡ Err StepError.Unlawful → (told.new.items ≡ told.old.items) × (kept.new ≡ kept.old) }
    ensures later { IsTrue (may_come_later call.now) → result ≢ Err StepError.Unlawful }
    ensures memory { result ≡ Err StepError.OutOfMemory → RanOut kept.old kept.new told.old.items told.new.items call.now }
{
    let turn = Turn::Call(call.copy(alloc)?);
    // The entry's room comes first, so that no turn is made of which the handle can't be told.
    if told.reserve(1).is_err() {
        return Err(StepError::OutOfMemory);
    }
    match kept.step(&turn) {
        Ok(entry) => push_told(told, entry),
        Err(error) => Err(error),
    }
}

/// Adds an entry, for which there is room, and returns its answer. The entry comes even where no memory is there to copy the
/// answer, since its turn was made.
fn push_told(told: &mut Vec<Told>, entry: Told) -> Result<Answer, StepError>
    requires { vec_len told.old < vec_capacity told.old }
    ensures entry { told.new.items ≡ told.old.items ++ entry ∷ [] }
    ensures answer { IfOk result (λ answer. answer ≡ entry.answer) }
    ensures memory { result ≢ Err StepError.Unlawful }
{
    let answer = entry.answer.copy();
    told.push_reserved(entry);
    match answer {
        Ok(answer) => Ok(answer),
        Err(_) => Err(StepError::OutOfMemory),
    }
}

/// Makes a call that is lawful after any turn. Returns its answer, and the count of changes then.
fn make_later_call(
    alloc: Global,
    told: &mut Vec<Told>,
    kept: &mut Kept,
    call: &Call,
) -> Result<(Answer, u64), OutOfMemory>
    requires { IsTrue (may_come_later call.now) }
    ensures answer { IfOk result (λ r. HasEntry call.now told.old.items told.new.items r.0) }
    ensures memory { OnErr result (MayHaveEntry call.now told.old.items told.new.items) }
{
    match make_call(alloc, told, kept, call) {
        Ok(answer) => Ok((answer, kept.changes())),
        Err(StepError::OutOfMemory) => Err(OutOfMemory),
        Err(StepError::Unlawful) => unreachable!(),
    }
}
