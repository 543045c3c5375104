//! What makes shared results and channels, and the conversions between QUIC's numbers and the protocol's, which are one type
//! here (RFC 9000, sections 2.1 and 16).
ghost use Rattle.std.specs.Prelude.{◌≡◌, ◌≤◌, IfOk, None};
ghost use Rattle.wt_driver.specs.BiChannel.{empty_channel};

use crate::bichannel::BiChannel;
use crate::shared_result::SharedResult;
use std::alloc::Global;
use wt_wire::error::OutOfMemory;
use wt_wire::ids::StreamId;
use wt_wire::varint::VarInt;

/// A result with one setter and one getter, which isn't set.
pub fn shared_result<T: Drop>() -> SharedResult<T>
    ensures value { result.value ≡ None }
    ensures setters { result.setters ≡ 1 }
    ensures getters { result.getters ≡ 1 }
{
    let mut shared = SharedResult::new();
    shared.subscribe();
    shared
}

/// A channel of this capacity each way, in which nothing was sent. It reserves the room for both
/// ways, and no later call takes memory.
///
/// # Errors
///
/// `OutOfMemory` where that room wasn't there.
pub fn bichannel<T: Drop>(alloc: Global, capacity: usize) -> Result<BiChannel<T>, OutOfMemory>
    requires { 1 ≤ capacity }
    ensures { IfOk result (λ channel. channel ≡ empty_channel capacity) }
{
    BiChannel::new(alloc, capacity)
}

/// QUIC's integer as the protocol's: the same.
pub fn varint_q2w(varint: VarInt) -> VarInt
    ensures { result ≡ varint }
{
    varint
}

/// The protocol's integer as QUIC's: the same.
pub fn varint_w2q(varint: VarInt) -> VarInt
    ensures { result ≡ varint }
{
    varint
}

/// QUIC's stream id as the protocol's: the same.
pub fn streamid_q2w(stream_id: StreamId) -> StreamId
    ensures { result ≡ stream_id }
{
    stream_id
}
