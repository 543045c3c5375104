//! Typed streams and their readers may cross threads.
use crate::connect::ConnectStream;
use crate::next_frame::FrameReader;
use crate::outgoing::Outgoing;
use crate::qpack::{RemoteQPackDecStream, RemoteQPackEncStream};
use crate::settings::{LocalSettingsStream, RemoteSettingsStream, RemoteSettingsWatcher};
use crate::stream::{
    StreamBiLocalH3, StreamBiLocalQuic, StreamBiLocalWT, StreamBiRemoteH3, StreamBiRemoteQuic,
    StreamBiRemoteWT, StreamSession, StreamUniLocalH3, StreamUniLocalQuic, StreamUniLocalWT,
    StreamUniRemoteH3, StreamUniRemoteQuic, StreamUniRemoteWT,
};
use crate::uni_header::HeaderReader;

fn is_send<T: Send>() {}

/// Each typed stream is `Send`, and so are the readers of headers and frames and what goes out: that this
/// compiles is the proof.
pub fn all_are_send() {
    is_send::<StreamBiRemoteQuic>();
    is_send::<StreamBiRemoteH3>();
    is_send::<StreamBiRemoteWT>();
    is_send::<StreamUniRemoteQuic>();
    is_send::<StreamUniRemoteH3>();
    is_send::<StreamUniRemoteWT>();
    is_send::<StreamBiLocalQuic>();
    is_send::<StreamBiLocalH3>();
    is_send::<StreamBiLocalWT>();
    is_send::<StreamUniLocalQuic>();
    is_send::<StreamUniLocalH3>();
    is_send::<StreamUniLocalWT>();
    is_send::<StreamSession>();
    is_send::<HeaderReader>();
    is_send::<FrameReader>();
    is_send::<Outgoing>();
    is_send::<LocalSettingsStream>();
    is_send::<RemoteSettingsStream>();
    is_send::<RemoteSettingsWatcher>();
    is_send::<RemoteQPackEncStream>();
    is_send::<RemoteQPackDecStream>();
    is_send::<ConnectStream>();
}
