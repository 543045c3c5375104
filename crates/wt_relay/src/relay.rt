//! A relay, driven by one transport turn after another.
ghost use Rattle.std.specs.Prelude.{◌≡◌, [], Err, IfOk, List, OnOk, false, true};
ghost use Rattle.wt_endpoint.specs.Connections.{StandsFor};
ghost use Rattle.wt_endpoint.specs.Endpoints.{endpoint_history};
ghost use Rattle.wt_endpoint.specs.declared.turn.EndpointTurn.{EndpointTurn};
ghost use Rattle.wt_relay.specs.Calls.{Answers, takes};
ghost use Rattle.wt_relay.specs.Little.{CopiesStayInRooms, LittleIsKept};
ghost use Rattle.wt_wire.specs.declared.side.Side.TheVariants as sides;

use crate::answers::RelayAnswers;
use crate::desk::Desk;
use crate::kept::Kept;
use crate::passes::take_turn;
use std::alloc::Global;
use std::marker::Model;
use thiserror::Error;
use wt_turn::Turn;

/// Why a relay didn't answer.
#[derive(Clone, Copy, PartialEq, Eq, Debug, Error)]
pub enum RelayError {
    /// The turn is no lawful transport turn there; nothing changed.
    #[error("turn unlawful")]
    Unlawful,
    /// Out of memory, now or before.
    #[error("out of memory")]
    OutOfMemory,
}

/// A server's endpoint whose sessions are in rooms: what arrives on a stream of one session goes out on a stream of each other
/// session of its room.
///
/// A call's clauses are said of each list of turns that the endpoint stands for before it.
#[derive(Drop)]
pub struct Relay {
    failed: bool,
    desk: Desk,
    kept: Kept,
}

impl Model for Relay {
    ghost use Rattle.wt_relay.specs.Little.{copies_kept, pieces_kept};
    ghost use Rattle.wt_relay.specs.Relay.{RelayState};

    ghost Value = { RelayState };

    ghost view = { λ r. record { failed = r.failed; connections = r.desk.connections; told = r.desk.told; pieces = pieces_kept r.kept; copies = copies_kept r.kept } };
}

impl Relay {
    /// A relay with no connection. Nothing is bound.
    pub fn new(alloc: Global) -> Relay
        ensures ready { result.failed ≡ false }
        ensures turns { StandsFor sides.Server result.connections [] }
    {
        Relay {
            failed: false,
            desk: Desk::new(alloc),
            kept: Kept::new(alloc),
        }
    }

    /// Takes a transport turn of this connection, and makes the calls that follow from it: the answers of all of them. Each copy
    /// is on another session than its source, of the same room (`rooms`); beside what is unread at most 4,096 bytes of each source are kept (`little`).
    ///
    /// # Errors
    ///
    /// `Unlawful` exactly where it is no lawful transport turn there, and then nothing changed. `OutOfMemory` may come at any turn, and
    /// comes at each one after it.
    #[tactic(auto, using(crate::proofs::Little::copies_stay_in_rooms, crate::proofs::Little::little_is_kept))]
    pub fn turn(&mut self, number: u32, turn: &Turn) -> Result<RelayAnswers, RelayError>
        ensures answers { (all : List EndpointTurn) → StandsFor sides.Server self.old.connections all
            → IfOk result (λ given. Answers all number turn.now self.new.connections given) }
        ensures lawful { (all : List EndpointTurn) → StandsFor sides.Server self.old.connections all
            → OnOk result (takes (endpoint_history sides.Server all) number turn.now ≡ true) }
        ensures unlawful { (all : List EndpointTurn) → StandsFor sides.Server self.old.connections all
            → result ≡ Err RelayError.Unlawful → takes (endpoint_history sides.Server all) number turn.now ≡ false }
        ensures refused { (all : List EndpointTurn) → StandsFor sides.Server self.old.connections all
            → self.old.failed ≡ false → takes (endpoint_history sides.Server all) number turn.now ≡ false → result ≡ Err RelayError.Unlawful }
        ensures same { result ≡ Err RelayError.Unlawful → self.new ≡ self.old }
        ensures memory { result ≡ Err RelayError.OutOfMemory → self.new.failed ≡ true }
        ensures failed { self.old.failed ≡ true → result ≡ Err RelayError.OutOfMemory }
        ensures ready { OnOk result (self.new.failed ≡ false) }
        ensures rooms { CopiesStayInRooms self.new.copies }
        ensures little { LittleIsKept self.new.pieces }
    {
        if self.failed {
            return Err(RelayError::OutOfMemory);
        }
        if !self.desk.takes(number, turn) {
            return Err(RelayError::Unlawful);
        }
        match take_turn(&mut self.desk, &mut self.kept, number, turn) {
            Ok(answers) => Ok(answers),
            Err(_) => {
                self.failed = true;
                Err(RelayError::OutOfMemory)
            }
        }
    }
}
