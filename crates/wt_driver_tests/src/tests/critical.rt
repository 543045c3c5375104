//! Worked bytes of the streams on which a connection rests, as they come and go out.
use super::stream_rows::{Subject, debugged, rows, says, server};
use super::typed::{after_header, into_session, local_control, request};
use std::alloc::Global;
use std::process::Abort;
use wt_proto::settings::SettingId;
use wt_proto::stream_header::StreamKind;
use wt_seam::{
    ConnectStream, LocalSettingsStream, RemoteQPackDecStream, RemoteQPackEncStream,
    RemoteSettingsStream, RemoteSettingsWatcher, StreamSession, StreamUniLocalH3,
    StreamUniRemoteH3, Transport,
};
use wt_turn::poll::Poll;

fn control_of(rt: &impl Abort, alloc: Global, stream: StreamUniRemoteH3) -> RemoteSettingsStream {
    let mut s = RemoteSettingsStream::empty(alloc).expect(rt, "no memory");
    let is_control = stream.kind() == StreamKind::Control;
    assert!(rt; is_control);
    s.set_stream(stream);
    s
}

impl Subject for RemoteSettingsStream {
    fn ask(&mut self, rt: &impl Abort, alloc: Global, t: &mut Transport) -> String {
        let answer = self.run(t).expect(rt, "no memory");
        debugged(rt, alloc, &answer)
    }
}

fn encoder_of(rt: &impl Abort, alloc: Global, stream: StreamUniRemoteH3) -> RemoteQPackEncStream {
    let mut s = RemoteQPackEncStream::empty(alloc).expect(rt, "no memory");
    let is_encoder = stream.kind() == StreamKind::QPackEncoder;
    assert!(rt; is_encoder);
    s.set_stream(stream);
    s
}

impl Subject for RemoteQPackEncStream {
    fn ask(&mut self, rt: &impl Abort, alloc: Global, t: &mut Transport) -> String {
        let answer = self.run(t).expect(rt, "no memory");
        debugged(rt, alloc, &answer)
    }
}

fn decoder_of(rt: &impl Abort, alloc: Global, stream: StreamUniRemoteH3) -> RemoteQPackDecStream {
    let mut s = RemoteQPackDecStream::empty(alloc).expect(rt, "no memory");
    let is_decoder = stream.kind() == StreamKind::QPackDecoder;
    assert!(rt; is_decoder);
    s.set_stream(stream);
    s
}

impl Subject for RemoteQPackDecStream {
    fn ask(&mut self, rt: &impl Abort, alloc: Global, t: &mut Transport) -> String {
        let answer = self.run(t).expect(rt, "no memory");
        debugged(rt, alloc, &answer)
    }
}

fn local_of(rt: &impl Abort, alloc: Global, stream: StreamUniLocalH3) -> LocalSettingsStream {
    let mut s = LocalSettingsStream::empty(alloc).expect(rt, "no memory");
    let is_control = stream.kind() == StreamKind::Control;
    assert!(rt; is_control);
    s.set_stream(stream);
    s
}

impl Subject for LocalSettingsStream {
    fn ask(&mut self, rt: &impl Abort, alloc: Global, t: &mut Transport) -> String {
        let can_send = self.can_send(t);
        let continues = self.continues().expect(rt, "no memory");
        assert!(rt; can_send && continues);
        let answer = self.send_settings(t).expect(rt, "no memory");
        debugged(rt, alloc, &answer)
    }
}

fn connect_of(rt: &impl Abort, alloc: Global, stream: StreamSession) -> ConnectStream {
    let mut s = ConnectStream::empty(alloc).expect(rt, "no memory");
    s.set_stream(stream);
    s
}

impl Subject for ConnectStream {
    fn ask(&mut self, rt: &impl Abort, alloc: Global, t: &mut Transport) -> String {
        let answer = self.run(t).expect(rt, "no memory");
        debugged(rt, alloc, &answer)
    }
}

/// A watcher gives how many blocked streams the peer's SETTINGS allow, as this text says.
fn gives(
    rt: &impl Abort,
    alloc: Global,
    watcher: &mut RemoteSettingsWatcher,
    s: &RemoteSettingsStream,
    text: &str,
) {
    let given = match watcher.accept_settings(s) {
        Poll::Ready(settings) => settings.get(SettingId::QPackBlockedStreams),
        Poll::Pending => None,
    };
    says(rt, alloc, &given, text);
}

#[test]
fn settings_come_in_pieces_and_are_given_once(rt: HostRuntime) {
    let alloc = rt.alloc();
    let mut t = server(&rt, alloc, "connected 2 2 9 1200\npeer_uni");
    let stream = after_header(&rt, alloc, &mut t, "bytes 2 00\n> Control");
    let mut s = control_of(&rt, alloc, stream);
    let mut first = s.subscribe();
    rows(&rt, alloc, &mut t, &mut s, "bytes 2 0402\n> Pending");
    gives(&rt, alloc, &mut first, &s, "None");
    rows(&rt, alloc, &mut t, &mut s, "bytes 2 07052101\n> Pending");
    gives(&rt, alloc, &mut first, &s, "Some(VarInt { value: 5 })");
    gives(&rt, alloc, &mut first, &s, "None");
    let mut second = s.subscribe();
    gives(&rt, alloc, &mut second, &s, "Some(VarInt { value: 5 })");
    let again = "bytes 2 00000000\n\
        > Ready(Proto(FrameUnexpected))\n\
        loss timed_out\n\
        > Ready(Proto(FrameUnexpected))";
    rows(&rt, alloc, &mut t, &mut s, again);
}

/// The peer's control stream, whose header came alone.
fn control(rt: &impl Abort, alloc: Global, text: &str) {
    let mut t = server(rt, alloc, "connected 2 2 9 1200\npeer_uni");
    let stream = after_header(rt, alloc, &mut t, "bytes 2 00\n> Control");
    let mut s = control_of(rt, alloc, stream);
    rows(rt, alloc, &mut t, &mut s, text);
}

#[test]
fn control_streams_at_fault(rt: HostRuntime) {
    let cases = [
        "bytes 2 0400\n> Pending",
        "bytes 2 0400\nend 2\n> Ready(Proto(ClosedCriticalStream))",
        "reset 2 1\n> Ready(Proto(ClosedCriticalStream))",
        "bytes 2 0400\nloss reset\n> Ready(NotConnected)",
        "bytes 2 2100\n> Ready(Proto(MissingSettings))",
        "bytes 2 04000400\n> Ready(Proto(FrameUnexpected))",
    ];
    for text in cases {
        control(&rt, rt.alloc(), text);
    }
}

#[test]
fn an_encoder_stream_ends(rt: HostRuntime) {
    let alloc = rt.alloc();
    let mut t = server(&rt, alloc, "connected 2 2 9 1200\npeer_uni");
    let stream = after_header(&rt, alloc, &mut t, "bytes 2 02\n> QPackEncoder");
    let mut s = encoder_of(&rt, alloc, stream);
    let text = "bytes 2 3fbd01\n\
        > Pending\n\
        end 2\n\
        > Ready(Proto(ClosedCriticalStream))\n\
        loss timed_out\n\
        > Ready(Proto(ClosedCriticalStream))";
    rows(&rt, alloc, &mut t, &mut s, text);
}

#[test]
fn a_decoder_stream_is_lost(rt: HostRuntime) {
    let alloc = rt.alloc();
    let mut t = server(&rt, alloc, "connected 2 2 9 1200\npeer_uni");
    let stream = after_header(&rt, alloc, &mut t, "bytes 2 03\n> QPackDecoder");
    let mut s = decoder_of(&rt, alloc, stream);
    let text = "> Pending\nloss timed_out\n> Ready(NotConnected)";
    rows(&rt, alloc, &mut t, &mut s, text);
}

#[test]
fn settings_go_out_once_as_credit_comes(rt: HostRuntime) {
    let alloc = rt.alloc();
    let mut t = server(&rt, alloc, "connected 2 2 3 1200");
    let stream = local_control(&rt, alloc, &mut t);
    let mut s = local_of(&rt, alloc, stream);
    let text = "> Pending\n\
        done ; opened 3 ; send 3 000416\n\
        max_data 3 99\n\
        > Ready(Ok(()))\n\
        done ; send 3 0100070008013301ab60374201c0000000c671706a04\n\
        stop 3 7\n\
        > Ready(Ok(()))\n\
        done\n\
        loss timed_out\n\
        > Ready(Err(NotConnected))";
    rows(&rt, alloc, &mut t, &mut s, text);
}

#[test]
fn a_stop_before_settings_are_out_is_reported(rt: HostRuntime) {
    let alloc = rt.alloc();
    let mut t = server(&rt, alloc, "connected 2 2 3 1200");
    let stream = local_control(&rt, alloc, &mut t);
    let mut s = local_of(&rt, alloc, stream);
    let text = "> Pending\n\
        stop 3 7\n\
        > Ready(Err(Proto(ClosedCriticalStream)))";
    rows(&rt, alloc, &mut t, &mut s, text);
}

/// A session's stream.
fn connect(rt: &impl Abort, alloc: Global, text: &str) {
    let mut t = server(rt, alloc, "connected 2 2 9 1200\npeer_bi");
    let request = request(rt, alloc, &mut t);
    let session = into_session(rt, alloc, request);
    let mut s = connect_of(rt, alloc, session);
    rows(rt, alloc, &mut t, &mut s, text);
}

/// A capsule that closes the session, byte by byte.
const CAPSULE: &str = "bytes 0 00\n> Pending\n\
    bytes 0 09\n> Pending\n\
    bytes 0 68\n> Pending\n\
    bytes 0 43\n> Pending\n\
    bytes 0 06\n> Pending\n\
    bytes 0 00\n> Pending\n\
    bytes 0 00\n> Pending\n\
    bytes 0 00\n> Pending\n\
    bytes 0 07\n> Pending\n\
    bytes 0 68\n> Pending\n\
    bytes 0 69\n\
    > Ready(ApplicationClosed(PeerClose { code: VarInt { value: 7 }, \
    reason: Piece { bytes: [104, 105] }, by: PhantomData<_> }))";

/// The end between frames.
const END: &str = "bytes 0 00\n> Pending\n\
    bytes 0 00\n> Pending\n\
    end 0\n\
    > Ready(ApplicationClosed(PeerClose { code: VarInt { value: 0 }, \
    reason: Piece { bytes: [] }, by: PhantomData<_> }))";

#[test]
fn sessions_end(rt: HostRuntime) {
    let cases = [
        CAPSULE,
        END,
        "bytes 0 00\nend 0\n> Ready(Proto(ClosedCriticalStream))",
        // DATA with the first byte of a capsule
        "bytes 0 000100\nend 0\n> Ready(Proto(Message))",
        "bytes 0 000100\nreset 0 1\n> Ready(Proto(ClosedCriticalStream))",
        "bytes 0 000100\nloss reset\n> Ready(NotConnected)",
        "bytes 0 0006684303000007\n> Ready(Proto(Message))",
    ];
    for text in cases {
        connect(&rt, rt.alloc(), text);
    }
}
