//! Headers, frames, stops and ends of typed streams.
use super::drivers::{session, stream};
use super::stream_rows::{Subject, acts, debugged, rows, says, server, unread};
use std::alloc::Global;
use std::fmt::Debug;
use std::process::Abort;
use wt_proto::session::SessionRequest;
use wt_proto::stream_header::StreamHeader;
use wt_seam::{
    StreamBiLocalH3, StreamBiLocalQuic, StreamBiLocalWT, StreamBiRemoteH3, StreamBiRemoteQuic,
    StreamSession, StreamUniLocalH3, StreamUniLocalQuic, StreamUniRemoteH3, StreamUniRemoteQuic,
    Transport,
};
use wt_turn::poll::Poll;
use wt_wire::frame::Frame;
use wt_wire::varint::VarInt;

/// A header of this end, as it goes out, and the stream after it.
#[derive(Drop)]
struct HeaderOut {
    quic: StreamUniLocalQuic,
    header: StreamHeader,
    http: Option<StreamUniLocalH3>,
}

/// A header of the peer's, as it comes, and the stream after it.
#[derive(Drop)]
struct HeaderIn {
    quic: StreamUniRemoteQuic,
    http: Option<StreamUniRemoteH3>,
}

/// Keeps what an answer hands out, and says the rest of it.
fn keep<T: Drop, E: Debug + Drop>(
    rt: &impl Abort,
    alloc: Global,
    kept: &mut Option<T>,
    answer: Poll<Result<T, E>>,
) -> String {
    let rest: Poll<Result<(), E>> = match answer {
        Poll::Ready(Ok(value)) => {
            *kept = Some(value);
            Poll::Ready(Ok(()))
        }
        Poll::Ready(Err(error)) => Poll::Ready(Err(error)),
        Poll::Pending => Poll::Pending,
    };
    debugged(rt, alloc, &rest)
}

/// This end's next unidirectional stream, to have this header.
fn open_uni(rt: &impl Abort, alloc: Global, t: &mut Transport, header: StreamHeader) -> HeaderOut {
    let answer = StreamUniLocalQuic::open_uni(alloc, t).expect(rt, "no memory");
    let quic = answer.expect(rt, "no stream");
    HeaderOut {
        quic,
        header,
        http: None,
    }
}

impl Subject for HeaderOut {
    fn ask(&mut self, rt: &impl Abort, alloc: Global, t: &mut Transport) -> String {
        let header = self.header;
        let continues = self.quic.continues(header).expect(rt, "no memory");
        let can_write = self.quic.can_write(t);
        assert!(rt; continues && can_write && !self.quic.is_spent());
        let answer = self.quic.upgrade(t, header).expect(rt, "no memory");
        keep(rt, alloc, &mut self.http, answer)
    }
}

/// This end's control stream, after its header.
pub fn local_control(rt: &impl Abort, alloc: Global, t: &mut Transport) -> StreamUniLocalH3 {
    let mut out = open_uni(rt, alloc, t, StreamHeader::new_control());
    rows(rt, alloc, t, &mut out, "> Ready(Ok(()))");
    let HeaderOut { http, .. } = out;
    http.expect(rt, "no header")
}

/// This end's next bidirectional stream.
fn open_bi(rt: &impl Abort, alloc: Global, t: &mut Transport) -> StreamBiLocalH3 {
    let answer = StreamBiLocalQuic::open_bi(t).expect(rt, "no memory");
    answer.expect(rt, "no stream").upgrade(alloc)
}

/// The signal of session 4 goes out.
fn signals(rt: &impl Abort, alloc: Global, t: &mut Transport, http: &mut StreamBiLocalH3) {
    let session = session(rt, 4);
    let continues = http.continues(session).expect(rt, "no memory");
    let can_write = http.can_write(t);
    assert!(rt; continues && can_write && !http.is_spent());
    let answer = http.upgrade(t, session).expect(rt, "no memory");
    let mut last: Option<StreamBiLocalWT> = None;
    keep(rt, alloc, &mut last, answer);
    assert!(rt; last.is_some());
}

/// The peer's first unidirectional stream.
fn accept_uni(rt: &impl Abort, t: &mut Transport) -> HeaderIn {
    let quic = StreamUniRemoteQuic::accept_uni(t).expect(rt, "no stream");
    HeaderIn { quic, http: None }
}

impl Subject for HeaderIn {
    fn ask(&mut self, rt: &impl Abort, alloc: Global, t: &mut Transport) -> String {
        let can_receive = t.can_receive(self.quic.id());
        assert!(rt; can_receive && !self.quic.is_spent());
        let answer = self.quic.upgrade(t).expect(rt, "no memory");
        let said = keep(rt, alloc, &mut self.http, answer);
        match &self.http {
            Some(http) => debugged(rt, alloc, &http.kind()),
            None => said,
        }
    }
}

/// The peer's first unidirectional stream, after the header that comes in these lines.
pub fn after_header(
    rt: &impl Abort,
    alloc: Global,
    t: &mut Transport,
    text: &str,
) -> StreamUniRemoteH3 {
    let mut header = accept_uni(rt, t);
    rows(rt, alloc, t, &mut header, text);
    let HeaderIn { http, .. } = header;
    http.expect(rt, "no header")
}

impl Subject for StreamUniRemoteH3 {
    fn ask(&mut self, rt: &impl Abort, alloc: Global, t: &mut Transport) -> String {
        let half = self.stream_mut().id();
        let can_receive = t.can_receive(half);
        assert!(rt; can_receive);
        let answer = self.read_frame(t).expect(rt, "no memory");
        debugged(rt, alloc, &answer)
    }
}

/// The peer's first bidirectional stream.
pub fn request(rt: &impl Abort, alloc: Global, t: &mut Transport) -> StreamBiRemoteH3 {
    let quic = StreamBiRemoteQuic::accept_bi(t).expect(rt, "no stream");
    quic.upgrade(alloc)
}

impl Subject for StreamBiRemoteH3 {
    fn ask(&mut self, rt: &impl Abort, alloc: Global, t: &mut Transport) -> String {
        let can_receive = t.can_receive(self.id());
        assert!(rt; can_receive);
        let answer = self.read_frame(t).expect(rt, "no memory");
        debugged(rt, alloc, &answer)
    }
}

/// The stream of a session whose request is this stream's.
pub fn into_session(rt: &impl Abort, alloc: Global, stream: StreamBiRemoteH3) -> StreamSession {
    let request = SessionRequest::new(alloc, "h", "/").expect(rt, "no memory");
    let id = stream.id().into_u64();
    assert!(rt; id % 4 == 0);
    stream.into_session(request)
}

impl Subject for StreamSession {
    fn ask(&mut self, rt: &impl Abort, alloc: Global, t: &mut Transport) -> String {
        let can_receive = t.can_receive(self.id());
        assert!(rt; can_receive);
        let answer = self.read_frame(t).expect(rt, "no memory");
        debugged(rt, alloc, &answer)
    }
}

fn writes(rt: &impl Abort, alloc: Global, t: &mut Transport, s: &mut StreamSession, text: &str) {
    let frame = Frame::new_data(alloc, b"a").expect(rt, "no memory");
    let continues = s.continues(&frame).expect(rt, "no memory");
    let can_write = s.can_write(t);
    assert!(rt; continues && can_write);
    let answer = s.write_frame(t, &frame).expect(rt, "no memory");
    says(rt, alloc, &answer, text);
}

fn finishes(rt: &impl Abort, alloc: Global, t: &mut Transport, s: &mut StreamSession, text: &str) {
    let can_send = t.can_send(s.id());
    assert!(rt; can_send);
    let answer = s.finish(t).expect(rt, "no memory");
    says(rt, alloc, &answer, text);
}

fn resets(rt: &impl Abort, alloc: Global, t: &mut Transport, s: &mut StreamSession, text: &str) {
    let can_send = t.can_send(s.id());
    assert!(rt; can_send);
    let answer = s.reset(t, VarInt::from_u32(9)).expect(rt, "no memory");
    says(rt, alloc, &answer, text);
}

fn stops_request(
    rt: &impl Abort,
    alloc: Global,
    t: &mut Transport,
    s: &mut StreamBiRemoteH3,
    text: &str,
) {
    let can_receive = t.can_receive(s.id());
    assert!(rt; can_receive);
    let answer = s.stop(t, VarInt::from_u32(5)).expect(rt, "no memory");
    says(rt, alloc, &answer, text);
}

fn stops(rt: &impl Abort, alloc: Global, t: &mut Transport, s: &mut StreamSession, text: &str) {
    let can_receive = t.can_receive(s.id());
    assert!(rt; can_receive);
    let answer = s.stop(t, VarInt::from_u32(6)).expect(rt, "no memory");
    says(rt, alloc, &answer, text);
}

/// The peer's first unidirectional stream reads its header.
fn header(rt: &impl Abort, alloc: Global, text: &str) -> Transport {
    let mut t = server(rt, alloc, "connected 2 2 9 1200\npeer_uni");
    let mut header = accept_uni(rt, &mut t);
    rows(rt, alloc, &mut t, &mut header, text);
    t
}

/// The peer's next streams, one of each kind.
#[derive(Drop)]
struct Accepting;

fn next_uni(t: &mut Transport) -> Option<u64> {
    let quic = StreamUniRemoteQuic::accept_uni(t)?;
    Some(quic.id().into_u64())
}

fn next_bi(t: &mut Transport) -> Option<u64> {
    let quic = StreamBiRemoteQuic::accept_bi(t)?;
    Some(quic.id().into_u64())
}

impl Subject for Accepting {
    fn ask(&mut self, rt: &impl Abort, alloc: Global, t: &mut Transport) -> String {
        let uni = next_uni(t);
        let bi = next_bi(t);
        match format!(in alloc; "{uni:?} {bi:?}") {
            Ok(text) => text,
            Err(_) => panic!(rt; "no memory"),
        }
    }
}

#[test]
fn streams_are_accepted_by_their_ids_each_once(rt: HostRuntime) {
    let alloc = rt.alloc();
    let mut t = server(&rt, alloc, "connected 2 2 9 1200");
    let text = "> None None\n\
        peer_uni\n\
        peer_bi\n\
        peer_uni\n\
        > Some(2) Some(0)\n\
        > Some(6) None\n\
        > None None\n\
        peer_bi\n\
        loss reset\n\
        > None Some(4)\n\
        > None None";
    rows(&rt, alloc, &mut t, &mut Accepting, text);
}

#[test]
fn a_header_goes_out_as_credit_comes(rt: HostRuntime) {
    let alloc = rt.alloc();
    let mut t = server(&rt, alloc, "connected 2 2 2 1200");
    let header = StreamHeader::new_webtransport(session(&rt, 0));
    let mut out = open_uni(&rt, alloc, &mut t, header);
    let text = "> Pending\n\
        done ; opened 3 ; send 3 4054\n\
        > Pending\n\
        max_data 3 3\n\
        > Ready(Ok(()))\n\
        done ; send 3 00";
    rows(&rt, alloc, &mut t, &mut out, text);
}

#[test]
fn a_signal_goes_out(rt: HostRuntime) {
    let alloc = rt.alloc();
    let mut t = server(&rt, alloc, "connected 2 2 9 1200");
    let mut http = open_bi(&rt, alloc, &mut t);
    signals(&rt, alloc, &mut t, &mut http);
    acts(&rt, alloc, &mut t, "done ; opened 1 ; send 1 404104");
}

#[test]
fn a_header_is_read_up_to_its_last_byte(rt: HostRuntime) {
    let text = "bytes 2 40\n> Pending\n\
        bytes 2 54\n> Pending\n\
        bytes 2 046869\n> WebTransport";
    let t = header(&rt, rt.alloc(), text);
    assert_eq!(rt; unread(&t, 2), 2);
}

#[test]
fn headers_that_are_at_fault_or_end(rt: HostRuntime) {
    let cases = [
        "bytes 2 01\n> Ready(Err(H3(StreamCreation)))",
        "bytes 2 405401\n> Ready(Err(H3(Id)))",
        "bytes 2 21\n> Exercise(VarInt { value: 33 })",
        "bytes 2 40\n> Pending",
        "end 2\n> Ready(Err(IO(ImmediateFin)))",
        "bytes 2 40\nend 2\n> Ready(Err(IO(UnexpectedFin)))",
        "bytes 2 40\nreset 2 1\n> Ready(Err(IO(Reset)))",
        "bytes 2 40\nloss reset\n> Ready(Err(IO(NotConnected)))",
    ];
    for text in cases {
        header(&rt, rt.alloc(), text);
    }
}

#[test]
fn frames_of_a_request_come_in_pieces(rt: HostRuntime) {
    let alloc = rt.alloc();
    let mut t = server(&rt, alloc, "connected 2 2 9 1200\npeer_bi");
    let mut request = request(&rt, alloc, &mut t);
    // an exercise frame of three bytes, HEADERS of two, DATA of none
    let text = "bytes 0 21\n> Pending\n\
        bytes 0 03\n> Pending\n\
        bytes 0 01\n> Pending\n\
        bytes 0 02\n> Pending\n\
        bytes 0 03\n> Pending\n\
        bytes 0 01\n> Pending\n\
        bytes 0 02\n> Pending\n\
        bytes 0 07\n> Pending\n\
        bytes 0 08000004\n\
        > Ready(Ok(Frame { kind: Headers, payload: [7, 8], session: None }))\n\
        > Ready(Ok(Frame { kind: Data, payload: [], session: None }))\n\
        > Pending\n\
        end 0\n\
        > Ready(Err(IO(UnexpectedFin)))";
    rows(&rt, alloc, &mut t, &mut request, text);
}

#[test]
fn a_signal_of_a_request_and_one_at_fault(rt: HostRuntime) {
    let alloc = rt.alloc();
    let mut t = server(&rt, alloc, "connected 2 2 9 1200\npeer_bi");
    let mut request = request(&rt, alloc, &mut t);
    let text = "bytes 0 40410840410100\n\
        > Ready(Ok(Frame { kind: WebTransport, payload: [], \
        session: Some(SessionId { id: StreamId { id: VarInt { value: 8 } } }) }))\n\
        > Ready(Err(H3(Id)))\n\
        > Ready(Err(H3(Id)))";
    rows(&rt, alloc, &mut t, &mut request, text);
    assert_eq!(rt; unread(&t, 0), 1);
}

#[test]
fn a_control_stream_gives_exercise_frames(rt: HostRuntime) {
    let alloc = rt.alloc();
    let mut t = server(&rt, alloc, "connected 2 2 9 1200\npeer_uni");
    let head = "bytes 2 00210201\n> Control";
    let mut http = after_header(&rt, alloc, &mut t, head);
    let text = "> Pending\n\
        bytes 2 020400005001\n\
        > Ready(Ok(Frame { kind: Exercise(VarInt { value: 33 }), payload: [], session: None }))\n\
        > Ready(Ok(Frame { kind: Settings, payload: [], session: None }))\n\
        > Ready(Err(H3(ExcessiveLoad)))";
    rows(&rt, alloc, &mut t, &mut http, text);
}

#[test]
fn a_session_reads_writes_and_ends(rt: HostRuntime) {
    let alloc = rt.alloc();
    let mut t = server(&rt, alloc, "connected 2 2 9 1200\npeer_bi");
    let request = request(&rt, alloc, &mut t);
    let mut session = into_session(&rt, alloc, request);
    let read = "bytes 0 0001\n\
        > Pending\n\
        bytes 0 09\n\
        > Ready(Ok(Frame { kind: Data, payload: [9], session: None }))";
    rows(&rt, alloc, &mut t, &mut session, read);
    writes(&rt, alloc, &mut t, &mut session, "Ready(Ok(()))");
    finishes(&rt, alloc, &mut t, &mut session, "Pending");
    let ended = "done ; send 0 000161 ; finish 0\n\
        acked 0\n\
        end 0\n\
        > Ready(Err(IO(ImmediateFin)))";
    rows(&rt, alloc, &mut t, &mut session, ended);
    finishes(&rt, alloc, &mut t, &mut session, "Ready(())");
    resets(&rt, alloc, &mut t, &mut session, "Err(ClosedStream)");
}

#[test]
fn a_signal_that_waits_is_a_fault_of_a_session(rt: HostRuntime) {
    let alloc = rt.alloc();
    let mut t = server(&rt, alloc, "connected 2 2 9 1200\npeer_bi");
    let mut request = request(&rt, alloc, &mut t);
    rows(&rt, alloc, &mut t, &mut request, "bytes 0 4041\n> Pending");
    let mut session = into_session(&rt, alloc, request);
    let fault = "> Ready(Err(H3(FrameUnexpected)))";
    rows(&rt, alloc, &mut t, &mut session, fault);
    resets(&rt, alloc, &mut t, &mut session, "Ok(())");
}

#[test]
fn a_second_stop_is_refused(rt: HostRuntime) {
    let alloc = rt.alloc();
    let mut t = server(&rt, alloc, "connected 2 2 9 1200\npeer_bi");
    let mut request = request(&rt, alloc, &mut t);
    stops_request(&rt, alloc, &mut t, &mut request, "Ok(())");
    stops_request(&rt, alloc, &mut t, &mut request, "Err(AlreadyStop)");
    let mut session = into_session(&rt, alloc, request);
    stops(&rt, alloc, &mut t, &mut session, "Err(AlreadyStop)");
    acts(&rt, alloc, &mut t, "done ; stop 0 5");
}

#[test]
fn a_second_stop_of_a_session_is_refused(rt: HostRuntime) {
    let alloc = rt.alloc();
    let mut t = server(&rt, alloc, "connected 2 2 9 1200\npeer_bi");
    let request = request(&rt, alloc, &mut t);
    let mut session = into_session(&rt, alloc, request);
    stops(&rt, alloc, &mut t, &mut session, "Ok(())");
    stops(&rt, alloc, &mut t, &mut session, "Err(AlreadyStop)");
    acts(&rt, alloc, &mut t, "done ; stop 0 6");
}
