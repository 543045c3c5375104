//! HTTP/3 datagrams (RFC 9297, section 2.1).
ghost use Rattle.std.specs.Prelude.{◌≡◌, ◌++◌, length, IfErr, OnOk, Ok};
ghost use Rattle.wt_message.specs.Datagram.{datagram_bytes, datagram_of};
ghost use Rattle.wt_wire.specs.Varint.{varint_at, varint_bytes};
ghost use Rattle.wt_wire.specs.declared.error.ErrorCode.TheVariants as errors;

use std::marker::Model;
use wt_wire::error::{ErrorCode, OutOfMemory};
use wt_wire::ids::QStreamId;
use wt_wire::varint::{read_varint, write_varint};

/// An HTTP/3 datagram (RFC 9297, section 2.1): the quarter of the id of the stream that it belongs
/// to, and a payload. Contracts see the pair of these.
#[derive(Debug, Drop)]
pub struct H3Datagram<'a> {
    qstream_id: QStreamId,
    payload: &'a [u8],
}

impl<'a> Model for H3Datagram<'a> {
    ghost use Rattle.std.specs.Prelude.{List, ℕ, ◌<◌, ◌^◌};

    ghost Value = { ℕ × List ℕ };

    ghost view = { λ d. (d.qstream_id, d.payload.now) };

    ghost invariant = { λ d. d.qstream_id < 2 ^ 60 };
}

impl<'a> H3Datagram<'a> {
    /// A datagram of the session with this quarter id.
    pub fn new(id: QStreamId, payload: &'a [u8]) -> H3Datagram<'a>
        ensures { result ≡ (id, payload.now) }
    {
        H3Datagram {
            qstream_id: id,
            payload,
        }
    }

    /// Reads a datagram. The error is `Datagram`, where the bytes end inside the quarter stream id or it is above 2^60 - 1.
    #[tactic(auto, unfolding(crate::specs::Datagram::datagram_of))]
    pub fn read(bytes: &'a [u8]) -> Result<H3Datagram<'a>, ErrorCode>
        ensures datagram { result ≡ datagram_of bytes.now }
        ensures error { IfErr result (λ e. e ≡ errors.Datagram) }
    {
        // A datagram that is too short, or names no stream that can be, is a fault of the whole connection
        // (RFC 9297, section 2.1).
        let Some((quarter, offset)) = read_varint(bytes) else {
            return Err(ErrorCode::Datagram);
        };
        match QStreamId::try_from_varint(quarter) {
            Some(id) => Ok(H3Datagram::new(id, &bytes[offset..])),
            None => Err(ErrorCode::Datagram),
        }
    }

    /// Appends the datagram's bytes.
    #[tactic(auto, using(crate::proofs::DatagramLaws::datagram_again))]
    pub fn write(&self, out: &mut Vec<u8>) -> Result<(), OutOfMemory>
        ensures bytes { OnOk result (out.new.items ≡ out.old.items ++ datagram_bytes self.now.0 self.now.1) }
        ensures again { OnOk result (datagram_of (datagram_bytes self.now.0 self.now.1) ≡ Ok self.now) }
    {
        write_varint(self.qstream_id.into_varint(), out)?;
        out.extend_from_slice(self.payload)?;
        Ok(())
    }

    /// How many bytes come before the payload.
    #[tactic(auto, unfolding(wt_wire::specs::Varint::varint_bytes))]
    pub fn header_size(id: QStreamId) -> usize
        ensures { result ≡ length (varint_bytes id) }
    {
        let quarter = id.into_varint().into_inner();
        // The shortest encoding of the quarter, as `write` has it.
        if quarter < 1 << 6 {
            return 1;
        }
        if quarter < 1 << 14 {
            return 2;
        }
        if quarter < 1 << 30 {
            return 4;
        }
        8
    }

    /// The quarter of the stream's id.
    pub fn qstream_id(&self) -> QStreamId
        ensures { result ≡ self.now.0 }
    {
        self.qstream_id
    }

    /// The payload.
    pub fn payload(&self) -> &'a [u8]
        ensures { result.now ≡ self.now.1 }
    {
        self.payload
    }
}
