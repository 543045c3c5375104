//! The words of a WebTransport session: what happens to a connection, what the application calls,
//! what goes out and what is answered, and what is reported to a caller of each failure.
//!
//! A [`turn::Turn`] is one event of the QUIC transport or one [`call::Call`] of the application, an
//! [`action::Action`] is what the transport is to do, and an [`answer::Answer`] is the [`reply::Reply`] to
//! one turn with the actions that go out. Beside them stands the definition of a connection's log.
//!
//! How a peer closed the connection, why it was lost, and each error of a connection, a connect, a
//! stream and a datagram has its own type with its text. The bytes of a peer's reason are a [`piece::Piece`],
//! as all bytes above are.
#![tactic(auto)]

pub mod action;
pub mod answer;
pub mod call;
pub mod close;
pub mod connecting_error;
pub mod connection_error;
pub mod datagram_fact;
pub mod driver_error;
pub mod equality;
pub mod loss;
pub mod piece;
pub mod poll;
pub mod proto_error;
pub mod record;
pub mod reply;
pub mod rows;
pub mod send;
pub mod sequence;
pub mod stream_error;
pub mod transport_rows;
pub mod turn;

pub use action::{Action, Actions};
pub use answer::{Answer, Answers};
pub use call::Call;
pub use close::{ApplicationClose, ConnectionClose, PeerClose};
pub use datagram_fact::DatagramFact;
pub use loss::LossReason;
pub use piece::Piece;
pub use poll::Poll;
pub use record::Record;
pub use reply::Reply;
pub use turn::{Turn, Turns};
