//! The kinds of turns, in the order of their numbers.
ghost use Rattle.std.specs.Prelude.{◌≡◌, slice_get};
ghost use Rattle.wt_abi.specs.Kinds.{call_kinds, event_kinds};

/// The kinds of events of the transport, in the order of `Turn`; a kind's number is its place.
#[derive(Clone, Copy)]
pub enum EventKind {
    /// `Turn::Connected`.
    Connected,
    /// `Turn::PeerUni`.
    PeerUni,
    /// `Turn::PeerBi`.
    PeerBi,
    /// `Turn::Bytes`.
    Bytes,
    /// `Turn::End`.
    End,
    /// `Turn::Reset`.
    Reset,
    /// `Turn::Stop`.
    Stop,
    /// `Turn::Acked`.
    Acked,
    /// `Turn::Datagram`.
    Datagram,
    /// `Turn::MaxUni`.
    MaxUni,
    /// `Turn::MaxBi`.
    MaxBi,
    /// `Turn::MaxData`.
    MaxData,
    /// `Turn::DatagramLimit`.
    DatagramLimit,
    /// `Turn::Loss`.
    Loss,
}

/// The kinds of calls of the application, in the order of `Call`; a kind's number is its place.
#[derive(Clone, Copy)]
pub enum CallKind {
    /// `Call::Connect`.
    Connect,
    /// `Call::Incoming`.
    Incoming,
    /// `Call::Accept`.
    Accept,
    /// `Call::Forbidden`.
    Forbidden,
    /// `Call::NotFound`.
    NotFound,
    /// `Call::TooManyRequests`.
    TooManyRequests,
    /// `Call::Handshake`.
    Handshake,
    /// `Call::EndpointClose`.
    EndpointClose,
    /// `Call::AcceptUni`.
    AcceptUni,
    /// `Call::AcceptBi`.
    AcceptBi,
    /// `Call::ReceiveDatagram`.
    ReceiveDatagram,
    /// `Call::OpenUni`.
    OpenUni,
    /// `Call::OpenBi`.
    OpenBi,
    /// `Call::PollOpening`.
    PollOpening,
    /// `Call::SendDatagram`.
    SendDatagram,
    /// `Call::EndSession`.
    EndSession,
    /// `Call::MaxDatagramSize`.
    MaxDatagramSize,
    /// `Call::SessionId`.
    SessionId,
    /// `Call::Close`.
    Close,
    /// `Call::Closed`.
    Closed,
    /// `Call::Write`.
    Write,
    /// `Call::WriteAll`.
    WriteAll,
    /// `Call::Finish`.
    Finish,
    /// `Call::Stopped`.
    Stopped,
    /// `Call::Priority`.
    Priority,
    /// `Call::SetPriority`.
    SetPriority,
    /// `Call::ResetSend`.
    ResetSend,
    /// `Call::Read`.
    Read,
    /// `Call::ReadExact`.
    ReadExact,
    /// `Call::StopRecv`.
    StopRecv,
}

/// Every kind of event, at its number.
const EVENTS: [EventKind; 14] = [
    EventKind::Connected,
    EventKind::PeerUni,
    EventKind::PeerBi,
    EventKind::Bytes,
    EventKind::End,
    EventKind::Reset,
    EventKind::Stop,
    EventKind::Acked,
    EventKind::Datagram,
    EventKind::MaxUni,
    EventKind::MaxBi,
    EventKind::MaxData,
    EventKind::DatagramLimit,
    EventKind::Loss,
];

/// Every kind of call, at its number.
const CALLS: [CallKind; 30] = [
    CallKind::Connect,
    CallKind::Incoming,
    CallKind::Accept,
    CallKind::Forbidden,
    CallKind::NotFound,
    CallKind::TooManyRequests,
    CallKind::Handshake,
    CallKind::EndpointClose,
    CallKind::AcceptUni,
    CallKind::AcceptBi,
    CallKind::ReceiveDatagram,
    CallKind::OpenUni,
    CallKind::OpenBi,
    CallKind::PollOpening,
    CallKind::SendDatagram,
    CallKind::EndSession,
    CallKind::MaxDatagramSize,
    CallKind::SessionId,
    CallKind::Close,
    CallKind::Closed,
    CallKind::Write,
    CallKind::WriteAll,
    CallKind::Finish,
    CallKind::Stopped,
    CallKind::Priority,
    CallKind::SetPriority,
    CallKind::ResetSend,
    CallKind::Read,
    CallKind::ReadExact,
    CallKind::StopRecv,
];

/// The kind at this place.
fn kind_at<K: Copy>(kinds: &[K], number: usize) -> Option<K>
    ensures { result ≡ slice_get kinds.now number }
{
    kinds.get(number).copied()
}

impl EventKind {
    /// The kind of this number.
    pub fn from_number(number: usize) -> Option<EventKind>
        ensures { result ≡ slice_get event_kinds number }
    {
        kind_at(&EVENTS, number)
    }
}

impl CallKind {
    /// The kind of this number.
    pub fn from_number(number: usize) -> Option<CallKind>
        ensures { result ≡ slice_get call_kinds number }
    {
        kind_at(&CALLS, number)
    }
}
