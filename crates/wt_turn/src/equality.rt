//! `==` of what a connection is told and what is reported of it is its equality: two values are found equal
//! exactly where their variants and their fields are.
ghost use Rattle.std.specs.Prelude.{◌≡◌, ◌↔◌, IsTrue};

use crate::action::{Action, Actions};
use crate::answer::{Answer, Answers};
use crate::call::Call;
use crate::close::{ApplicationClose, ConnectionClose};
use crate::connecting_error::{ConnectingError, UrlRefusal};
use crate::connection_error::{ConnectionError, H3Error, QuicProtoError};
use crate::datagram_fact::DatagramFact;
use crate::driver_error::DriverError;
use crate::loss::LossReason;
use crate::piece::Piece;
use crate::proto_error::{ProtoReadError, ProtoWriteError};
use crate::reply::Reply;
use crate::stream_error::{
    SendDatagramError, StreamOpeningError, StreamReadError, StreamReadExactError, StreamWriteError,
    WriteAll,
};
use crate::turn::{Turn, Turns};

/// Of pieces.
pub fn pieces_are_equal(first: &Piece, second: &Piece) -> bool
    ensures { IsTrue result ↔ (first.now ≡ second.now) }
{
    first == second
}

/// Of actions.
pub fn actions_are_equal(first: &Action, second: &Action) -> bool
    ensures { IsTrue result ↔ (first.now ≡ second.now) }
{
    first == second
}

/// Of the reasons why a connection is lost.
pub fn losses_are_equal(first: &LossReason, second: &LossReason) -> bool
    ensures { IsTrue result ↔ (first.now ≡ second.now) }
{
    first == second
}

/// Of closes of the application at the peer.
pub fn application_closes_are_equal(first: &ApplicationClose, second: &ApplicationClose) -> bool
    ensures { IsTrue result ↔ (first.now ≡ second.now) }
{
    first == second
}

/// Of closes of the peer's transport.
pub fn connection_closes_are_equal(first: &ConnectionClose, second: &ConnectionClose) -> bool
    ensures { IsTrue result ↔ (first.now ≡ second.now) }
{
    first == second
}

/// Of the errors of a connection.
pub fn connection_errors_are_equal(first: &ConnectionError, second: &ConnectionError) -> bool
    ensures { IsTrue result ↔ (first.now ≡ second.now) }
{
    first == second
}

/// Of the errors of a connect.
pub fn connecting_errors_are_equal(first: &ConnectingError, second: &ConnectingError) -> bool
    ensures { IsTrue result ↔ (first.now ≡ second.now) }
{
    first == second
}

/// Of the reasons why a URL is refused.
pub fn url_refusals_are_equal(first: UrlRefusal, second: UrlRefusal) -> bool
    ensures { IsTrue result ↔ (first ≡ second) }
{
    first == second
}

/// Of errors of the QUIC protocol.
pub fn protocol_errors_are_equal(first: &QuicProtoError, second: &QuicProtoError) -> bool
    ensures { IsTrue result ↔ (first.now ≡ second.now) }
{
    first == second
}

/// Of errors of HTTP/3 or of WebTransport.
pub fn rule_errors_are_equal(first: H3Error, second: H3Error) -> bool
    ensures { IsTrue result ↔ (first ≡ second) }
{
    first == second
}

/// Of the errors of a driver.
pub fn driver_errors_are_equal(first: &DriverError, second: &DriverError) -> bool
    ensures { IsTrue result ↔ (first.now ≡ second.now) }
{
    first == second
}

/// Of the reasons why a stream gave no frame.
pub fn reads_are_equal(first: ProtoReadError, second: ProtoReadError) -> bool
    ensures { IsTrue result ↔ (first ≡ second) }
{
    first == second
}

/// Of the reasons why a frame wasn't written.
pub fn writes_are_equal(first: ProtoWriteError, second: ProtoWriteError) -> bool
    ensures { IsTrue result ↔ (first ≡ second) }
{
    first == second
}

/// Of the errors of a write.
pub fn write_errors_are_equal(first: StreamWriteError, second: StreamWriteError) -> bool
    ensures { IsTrue result ↔ (first ≡ second) }
{
    first == second
}

/// Of the errors of a read.
pub fn read_errors_are_equal(first: StreamReadError, second: StreamReadError) -> bool
    ensures { IsTrue result ↔ (first ≡ second) }
{
    first == second
}

/// Of the errors of an exact read.
pub fn exact_errors_are_equal(first: StreamReadExactError, second: StreamReadExactError) -> bool
    ensures { IsTrue result ↔ (first ≡ second) }
{
    first == second
}

/// Of the errors of a datagram.
pub fn datagram_errors_are_equal(first: SendDatagramError, second: SendDatagramError) -> bool
    ensures { IsTrue result ↔ (first ≡ second) }
{
    first == second
}

/// Of the errors of an opening.
pub fn opening_errors_are_equal(first: StreamOpeningError, second: StreamOpeningError) -> bool
    ensures { IsTrue result ↔ (first ≡ second) }
{
    first == second
}

/// Of what the transport reports about datagrams.
pub fn datagram_facts_are_equal(first: DatagramFact, second: DatagramFact) -> bool
    ensures { IsTrue result ↔ (first ≡ second) }
{
    first == second
}

/// Of the outcomes of a write of all bytes.
pub fn write_outcomes_are_equal(first: WriteAll, second: WriteAll) -> bool
    ensures { IsTrue result ↔ (first ≡ second) }
{
    first == second
}

/// Of calls.
pub fn calls_are_equal(first: &Call, second: &Call) -> bool
    ensures { IsTrue result ↔ (first.now ≡ second.now) }
{
    first == second
}

/// Of turns.
pub fn turns_are_equal(first: &Turn, second: &Turn) -> bool
    ensures { IsTrue result ↔ (first.now ≡ second.now) }
{
    first == second
}

/// Of replies.
pub fn replies_are_equal(first: &Reply, second: &Reply) -> bool
    ensures { IsTrue result ↔ (first.now ≡ second.now) }
{
    first == second
}

/// Of answers.
pub fn answers_are_equal(first: &Answer, second: &Answer) -> bool
    ensures { IsTrue result ↔ (first.now ≡ second.now) }
{
    first == second
}

/// Of lists of actions.
pub fn action_lists_are_equal(first: &Actions, second: &Actions) -> bool
    ensures { IsTrue result ↔ (first.now ≡ second.now) }
{
    first == second
}

/// Of lists of turns.
pub fn turn_lists_are_equal(first: &Turns, second: &Turns) -> bool
    ensures { IsTrue result ↔ (first.now ≡ second.now) }
{
    first == second
}

/// Of lists of answers.
pub fn answer_lists_are_equal(first: &Answers, second: &Answers) -> bool
    ensures { IsTrue result ↔ (first.now ≡ second.now) }
{
    first == second
}
