//! The driver of a connection: what the peer sends is read moment by moment, and what goes out because of it goes out.
//!
//! Beside it are a result that is set once and a channel between two ends, for those who share a connection. Re-exported are
//! wt_seam's types of the streams on which a connection rests.
#![tactic(auto)]

pub mod bichannel;
pub mod channel_laws;
pub mod driver;
pub mod halves;
pub mod opening;
pub mod recv_stream;
pub mod send;
pub mod send_stream;
pub mod session_stream;
pub mod shared_result;
pub mod utils;

pub use bichannel::{BiChannel, ChannelEnd, SendOutcome, TrySendError};
pub use driver::{Driver, OpenSession};
pub use halves::{RecvStream, SendStream};
pub use opening::{OpeningBiStream, OpeningUniStream};
pub use shared_result::SharedResult;
pub use wt_peer_streams::Datagram;
pub use wt_seam::{
    ConnectStream, DriverError, LocalSettingsStream, RemoteQPackDecStream, RemoteQPackEncStream,
    RemoteSettingsStream, RemoteSettingsWatcher, connect, qpack, settings,
};
pub use wt_turn::stream_error::{SendDatagramError, StreamOpeningError};
