//! What is kept of the peer's streams and datagrams: what is read owns its reader, what waits owns its place.
#![tactic(auto)]

pub mod arriving;
pub mod critical;
pub mod datagram;
pub mod dispatched;
pub mod gone;
mod live;
mod numbered;
pub mod own_control;
pub mod reading;
pub mod requests;
pub mod sessions;
pub mod window;

pub use arriving::{Arriving, HeaderReader};
pub use critical::CriticalStreams;
pub use datagram::Datagram;
pub use dispatched::Dispatched;
pub use gone::{GoneSessions, SessionEnd};
pub use own_control::OwnControl;
pub use reading::{Fed, Reading};
pub use requests::Requests;
pub use sessions::Sessions;
pub use window::{Admission, Window};
