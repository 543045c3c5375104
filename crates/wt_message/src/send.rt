//! Messages may cross threads.
use crate::{
    BadStatus, CloseWebTransportSession, H3Datagram, HeadersParseError, ReservedHeader,
    SessionRequest, SessionResponse, SettingId, Settings, SettingsBuilder,
};

fn is_send<T: Send>() {}

fn may_be_sent<T: Send>(_value: &T) {}

/// Each message, and each error of one, is `Send`: that this compiles is the proof.
pub fn all_are_send() {
    is_send::<SettingId>();
    is_send::<Settings>();
    is_send::<SettingsBuilder>();
    is_send::<SessionRequest>();
    is_send::<SessionResponse>();
    is_send::<HeadersParseError>();
    is_send::<ReservedHeader>();
    is_send::<BadStatus>();
    is_send::<CloseWebTransportSession>();
}

/// So is a datagram, with the payload that it borrows.
pub fn a_datagram_is_send(datagram: &H3Datagram<'_>) {
    may_be_sent(datagram);
}
