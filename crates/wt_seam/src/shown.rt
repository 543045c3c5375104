//! What a run answers by what a stream shows.
ghost use Rattle.std.specs.Prelude.{◌≡◌};
ghost use Rattle.wt_seam.specs.Critical.{shown_by_end, shown_by_fault, shown_by_stop, shown_or_ended};

use crate::stream::StreamUniRemoteH3;
use wt_turn::driver_error::DriverError;
use wt_turn::poll::Poll;
use wt_wire::error::ErrorCode;
use wt_wire::ids::StreamId;
use wt_wire::side::StreamEnd;
use wt_wire::varint::VarInt;

/// What is shown, else whether the connection ended.
pub(crate) fn shown_or_ended(is_open: bool, shown: Option<DriverError>) -> Poll<DriverError>
    ensures { result ≡ shown_or_ended is_open shown }
{
    match shown {
        Some(error) => Poll::Ready(error),
        None if is_open => Poll::Pending,
        None => Poll::Ready(DriverError::NotConnected),
    }
}

/// What an end of a critical stream shows.
pub(crate) fn shown_by_end(end: StreamEnd) -> Option<DriverError>
    ensures { result ≡ shown_by_end end }
{
    match end {
        StreamEnd::Running => None,
        // Critical streams may not be closed while the connection goes on (RFC 9114, section 6.2.1; RFC 9204,
        // section 4.2).
        StreamEnd::Fin | StreamEnd::Reset(_) => {
            Some(DriverError::Proto(ErrorCode::ClosedCriticalStream))
        }
    }
}

/// What a stop of a critical stream shows.
pub(crate) fn shown_by_stop(stop: Option<VarInt>) -> Option<DriverError>
    ensures { result ≡ shown_by_stop stop }
{
    stop.map(|_| DriverError::Proto(ErrorCode::ClosedCriticalStream))
}

/// What a fault of the peer's control stream shows.
pub(crate) fn shown_by_fault(fault: Option<ErrorCode>) -> Option<DriverError>
    ensures { result ≡ shown_by_fault fault }
{
    fault.map(DriverError::Proto)
}

/// The id of a stream.
pub(crate) fn id_of(stream: &mut StreamUniRemoteH3) -> StreamId
    ensures id { result ≡ stream.old.halves.id }
    ensures same { stream.new ≡ stream.old }
{
    stream.stream_mut().id()
}
