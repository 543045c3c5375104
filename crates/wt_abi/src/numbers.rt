//! What numbers of a head stand for.
ghost use Rattle.std.specs.Prelude.{◌≡◌, ◌^◌, nat_lt, if◌then◌else◌, Some, None};
ghost use Rattle.wt_abi.specs.Numbers.{address_of, code_of, fact_of, ipv4_of, session_id_of, session_of, stream_and_code, stream_of, varint_of};

use crate::head::{AddressHead, TurnHead};
use wt_turn::datagram_fact::DatagramFact;
use wt_wire::addr::Addr;
use wt_wire::ids::{SessionId, StreamId};
use wt_wire::varint::VarInt;

fn varint(number: u64) -> Option<VarInt>
    ensures { result ≡ varint_of number }
{
    VarInt::try_from_u64(number)
}

fn session_id(number: u64) -> Option<SessionId>
    ensures { result ≡ session_id_of number }
{
    SessionId::try_from_session_stream(StreamId::new(varint(number)?))
}

/// The stream.
pub fn read_stream(head: &TurnHead) -> Option<StreamId>
    ensures { result ≡ stream_of head.now }
{
    let id = varint(head.id)?;
    Some(StreamId::new(id))
}

/// The code.
pub fn read_code(head: &TurnHead) -> Option<VarInt>
    ensures { result ≡ code_of head.now }
{
    varint(head.number)
}

/// The stream and the code.
pub fn read_stream_and_code(head: &TurnHead) -> Option<(StreamId, VarInt)>
    ensures { result ≡ stream_and_code head.now }
{
    Some((read_stream(head)?, read_code(head)?))
}

/// The session that a call names.
pub fn read_session(head: &TurnHead) -> Option<Option<SessionId>>
    ensures { result ≡ session_of head.now }
{
    match head.choice {
        0 => Some(None),
        1 => {
            let session = session_id(head.session)?;
            Some(Some(session))
        }
        _ => None,
    }
}

/// What holds of datagrams.
pub fn read_fact(head: &TurnHead) -> Option<DatagramFact>
    ensures { result ≡ fact_of head.now }
{
    match head.choice {
        0 => Some(DatagramFact::Disabled),
        1 => Some(DatagramFact::Unsupported),
        2 => Some(DatagramFact::Limit(head.limit)),
        _ => None,
    }
}

fn ipv4(ip: u64, port: u16) -> Option<Addr>
    ensures { result ≡ ipv4_of ip port }
{
    if ip < 0x1_0000_0000 {
        Some(Addr::V4 {
            ip: ip as u32,
            port,
        })
    } else {
        None
    }
}

/// An address.
pub fn read_address(address: &AddressHead) -> Option<Addr>
    ensures { result ≡ address_of address.now }
{
    match address.version {
        4 => ipv4(address.low, address.port),
        6 => Some(Addr::V6 {
            ip: address.high as u128 * 0x1_0000_0000_0000_0000 + address.low as u128,
            port: address.port,
        }),
        _ => None,
    }
}
