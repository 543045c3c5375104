//! Heads: the numbers of a turn, of a reply and of an action. Texts and bytes stand beside them.

/// A socket address in numbers.
#[repr(C)]
#[derive(Clone, Copy)]
pub struct AddressHead {
    /// 4 or 6.
    pub version: u16,
    pub port: u16,
    /// The higher half of an address of IPv6.
    pub high: u64,
    /// An address of IPv4, or the lower half of one of IPv6.
    pub low: u64,
}

/// A turn's numbers. A turn looks at those that it has, and at no other.
#[repr(C)]
#[derive(Clone, Copy)]
pub struct TurnHead {
    /// Which event, or from `CALLS` on which call.
    pub kind: u32,
    /// Which fact of datagrams, loss or lookup; of a call on a session, whether it is named.
    pub choice: u32,
    /// Which outcome a connect has.
    pub outcome: u32,
    /// The priority to be set.
    pub priority: i32,
    /// The id of a stream.
    pub id: u64,
    /// The id of a session.
    pub session: u64,
    /// A code, a total, a size, or the credit of each stream.
    pub number: u64,
    /// How many unidirectional streams may be opened.
    pub uni: u64,
    /// How many bidirectional streams may be opened.
    pub bi: u64,
    /// The greatest datagram.
    pub limit: u64,
    /// How many header fields the bytes have.
    pub fields: u64,
    /// The address that a lookup found.
    pub found: AddressHead,
    /// The address that can't be reached.
    pub remote: AddressHead,
}

/// An answer's numbers: those of its reply, and how much there is to read; those that it hasn't are 0.
#[repr(C)]
#[derive(Clone, Copy)]
pub struct ReplyHead {
    /// Which reply.
    pub kind: u32,
    /// Which error, where it has no cause of its own; whether there is a size, or bytes.
    pub choice: u32,
    /// Which error of the connection, of the URL or of a read.
    pub cause: u32,
    /// Whether an error of the QUIC protocol has a code.
    pub has_code: u32,
    /// The priority that was asked for.
    pub priority: i32,
    /// An id, a count, a size or a code.
    pub number: u64,
    /// The address that can't be reached.
    pub address: AddressHead,
    /// How many bytes the reply has.
    pub length: u64,
    /// How many header fields it has.
    pub fields: u64,
    /// How many actions go out.
    pub actions: u64,
}

/// An action's numbers; those that it hasn't are 0.
#[repr(C)]
#[derive(Clone, Copy)]
pub struct ActionHead {
    /// Which action.
    pub kind: u32,
    /// The id of a stream.
    pub id: u64,
    /// A code.
    pub code: u64,
    /// The address to be dialed.
    pub address: AddressHead,
    /// How many bytes it has.
    pub length: u64,
}
