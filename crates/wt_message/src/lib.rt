//! The messages of WebTransport over HTTP/3: SETTINGS, requests and responses, capsules and datagrams.
//!
//! Each is read from the bytes of a payload and written to them; where on a stream they stand is the
//! matter of wt_proto, which re-exports these types.
#![tactic(auto)]

pub mod capsule;
pub mod datagram;
pub mod send;
pub mod session;
pub mod settings;
pub mod theorems;

pub use capsule::CloseWebTransportSession;
pub use datagram::H3Datagram;
pub use session::{BadStatus, HeadersParseError, ReservedHeader, SessionRequest, SessionResponse};
pub use settings::{SettingId, Settings, SettingsBuilder};
