//! The structs of `dcsctp.h`, field for field: numbers and bools, with offsets into the bytes that
//! a call was passed in place of pointers.

/// Which checksum fields are accepted, and whether padding is checked.
#[repr(C)]
#[derive(Clone, Copy)]
pub struct DcsctpPolicy {
    /// Accepts every checksum field.
    pub any_checksum: bool,
    /// Accepts a field of zero as well (RFC 9653).
    pub zero_checksum: bool,
    /// Padding has to be complete and zero.
    pub strict_padding: bool,
}

/// The common header (RFC 9260 section 3.1).
#[repr(C)]
#[derive(Clone, Copy)]
pub struct DcsctpHeader {
    /// The sender's port.
    pub source_port: u16,
    /// The receiver's port.
    pub destination_port: u16,
    /// The initiate tag of the receiver.
    pub verification_tag: u32,
    /// Bytes 8 to 11, most significant byte first.
    pub checksum: u32,
}

/// A chunk (RFC 9260 section 3.2), as offsets into the packet's bytes.
#[repr(C)]
#[derive(Clone, Copy)]
pub struct DcsctpChunk {
    /// The kind of chunk.
    pub typ: u8,
    /// The flags, whose meaning depends on the type.
    pub flags: u8,
    /// The offset of the value.
    pub value_offset: usize,
    /// The size of the value in bytes, without padding.
    pub value_size: usize,
    /// The offset of the next chunk.
    pub next: usize,
}

/// A parameter (RFC 9260 section 3.2.1) or an error cause (section 3.3.10), as offsets into the
/// packet's bytes.
#[repr(C)]
#[derive(Clone, Copy)]
pub struct DcsctpParameter {
    /// The type of the parameter, or the code of the cause.
    pub typ: u16,
    /// The offset of the value.
    pub value_offset: usize,
    /// The size of the value in bytes, without padding.
    pub value_size: usize,
    /// The offset of the next one.
    pub next: usize,
}

/// The user data of DATA (RFC 9260 section 3.3.1) or I-DATA (RFC 8260 section 2.1). What the kind
/// does not carry is 0.
#[repr(C)]
#[derive(Clone, Copy)]
pub struct DcsctpData {
    /// The TSN.
    pub tsn: u32,
    /// The message id; 0 in DATA.
    pub mid: u32,
    /// The fragment sequence number; 0 in DATA, and at the beginning of a message.
    pub fsn: u32,
    /// The payload protocol id; 0 in I-DATA, but at the beginning of a message.
    pub ppid: u32,
    /// The stream id.
    pub stream: u16,
    /// The stream sequence number; 0 in I-DATA.
    pub ssn: u16,
    /// The U bit.
    pub is_unordered: bool,
    /// The B bit.
    pub is_beginning: bool,
    /// The E bit.
    pub is_end: bool,
    /// The I bit (RFC 7053).
    pub immediate_ack: bool,
    /// The offset of the payload.
    pub payload_offset: usize,
    /// The size of the payload in bytes.
    pub payload_size: usize,
}

/// The numbers of a SACK (RFC 9260 section 3.3.4).
#[repr(C)]
#[derive(Clone, Copy)]
pub struct DcsctpSack {
    /// The last TSN that was received in sequence.
    pub cumulative_tsn_ack: u32,
    /// The bytes that the receiver has room for.
    pub a_rwnd: u32,
    /// The number of gap ack blocks.
    pub block_count: usize,
    /// The number of duplicate TSNs.
    pub duplicate_count: usize,
}

/// The numbers of INIT (RFC 9260 section 3.3.2) or INIT ACK (section 3.3.3).
#[repr(C)]
#[derive(Clone, Copy)]
pub struct DcsctpInit {
    /// The tag that the peer has to send.
    pub initiate_tag: u32,
    /// The bytes that the sender has room for.
    pub a_rwnd: u32,
    /// The number of streams to the receiver.
    pub outbound_streams: u16,
    /// The most streams from the receiver.
    pub inbound_streams: u16,
    /// The TSN of the first DATA.
    pub initial_tsn: u32,
}

/// The numbers of FORWARD-TSN (RFC 3758 section 3.2) or I-FORWARD-TSN (RFC 8260 section 2.3.1).
#[repr(C)]
#[derive(Clone, Copy)]
pub struct DcsctpForwardTsn {
    /// The TSN up to which all is to be taken as received.
    pub new_cumulative_tsn: u32,
    /// The number of skipped streams.
    pub stream_count: usize,
}

/// A stream of FORWARD-TSN or I-FORWARD-TSN. What the kind does not carry is 0.
#[repr(C)]
#[derive(Clone, Copy)]
pub struct DcsctpSkippedStream {
    /// The stream id.
    pub stream: u16,
    /// The sequence number of the last message that is skipped; 0 in I-FORWARD-TSN.
    pub ssn: u16,
    /// The id of the last message that is skipped; 0 in FORWARD-TSN.
    pub mid: u32,
    /// Whether its unordered messages are skipped; false in FORWARD-TSN.
    pub is_unordered: bool,
}

/// A request or the response of RE-CONFIG (RFC 6525 section 4). What the kind does not carry is 0.
#[repr(C)]
#[derive(Clone, Copy)]
pub struct DcsctpReConfig {
    /// The type of the parameter: 13 to 18.
    pub typ: u16,
    /// The number of a request.
    pub request_number: u32,
    /// The number of the request that a response answers; in an Outgoing SSN Reset too.
    pub response_number: u32,
    /// The last TSN that the sender of an Outgoing SSN Reset assigned.
    pub last_tsn: u32,
    /// What became of the request that a response answers: 0 to 6.
    pub result: u32,
    /// Whether a response has the next two.
    pub has_next_tsns: bool,
    /// The TSN that the sender of the response uses next.
    pub sender_next_tsn: u32,
    /// The TSN that the receiver of the response has to use next.
    pub receiver_next_tsn: u32,
    /// The number of streams to be added.
    pub new_streams: u16,
    /// The number of streams of an Outgoing or Incoming SSN Reset; writing ignores it.
    pub stream_count: usize,
}

/// What a chunk, a parameter or an error cause holds that IANA's registry has and no struct of its
/// own: numbers, the octets of an address, and bytes whose form its type says. What the type does
/// not have is 0.
#[repr(C)]
#[derive(Clone, Copy)]
pub struct DcsctpRegistered {
    /// The first number of four bytes: the lowest TSN of ECNE and CWR, the cumulative TSN of
    /// NR-SACK, the sequence number of ASCONF and ASCONF ACK, the bandwidth of PKTDROP, the
    /// correlation id of an address request and of its answer, or the one number of the type.
    pub number: u32,
    /// The second one: the receiver window of NR-SACK, the bytes queued of PKTDROP.
    pub second_number: u32,
    /// The first number of two bytes: the shared key id of AUTH, the number of gap ack blocks of
    /// NR-SACK, the truncated length of PKTDROP, or the one number of the type.
    pub short_number: u16,
    /// The second one: the HMAC identifier of AUTH, the number of NR gap ack blocks of NR-SACK.
    pub second_short_number: u16,
    /// The third one: the number of duplicate TSNs of NR-SACK.
    pub third_short_number: u16,
    /// The flags of a chunk, as they came or are to be written; of all else 0.
    pub flags: u8,
    /// The offset of an address.
    pub address_offset: usize,
    /// The octets of the address: 4 or 16.
    pub address_size: usize,
    /// The offset of the bytes that end the value: a list, a text, an HMAC, a packet, padding.
    pub rest_offset: usize,
    /// How many bytes these are.
    pub rest_size: usize,
}

/// A chunk in a packet that was read: what `dcsctp_chunk_at` writes of it, and the numbers that the
/// call for its kind writes. What the kind does not carry is 0.
#[repr(C)]
#[derive(Clone, Copy)]
pub struct DcsctpRow {
    /// The chunk, as the calls for its kind and for its lists take it.
    pub chunk: DcsctpChunk,
    /// The offset of what follows the numbers in the value: the payload, the gap ack blocks and
    /// then the duplicate TSNs, the skipped streams, the parameters or the error causes.
    pub rest_offset: usize,
    /// Its size in bytes, up to the end of the value.
    pub rest_size: usize,
    /// The number of gap ack blocks of SACK; that of skipped streams of FORWARD-TSN, I-FORWARD-TSN.
    pub count: usize,
    /// The number of duplicate TSNs of SACK.
    pub duplicate_count: usize,
    /// The TSN of DATA, I-DATA; the cumulative one of SACK, SHUTDOWN, FORWARD-TSN, I-FORWARD-TSN;
    /// the initial one of INIT, INIT ACK.
    pub tsn: u32,
    /// The bytes that the sender has room for, of SACK, INIT, INIT ACK.
    pub a_rwnd: u32,
    /// The tag that the peer has to send, of INIT, INIT ACK.
    pub initiate_tag: u32,
    /// The message id of I-DATA.
    pub mid: u32,
    /// The fragment sequence number of I-DATA; 0 at the beginning of a message.
    pub fsn: u32,
    /// The payload protocol id of DATA, and of I-DATA at the beginning of a message.
    pub ppid: u32,
    /// The stream id of DATA, I-DATA.
    pub stream: u16,
    /// The stream sequence number of DATA.
    pub ssn: u16,
    /// The number of streams to the receiver, of INIT, INIT ACK.
    pub outbound_streams: u16,
    /// The most streams from the receiver, of INIT, INIT ACK.
    pub inbound_streams: u16,
    /// The U bit of DATA, I-DATA.
    pub is_unordered: bool,
    /// The B bit of DATA, I-DATA.
    pub is_beginning: bool,
    /// The E bit of DATA, I-DATA.
    pub is_end: bool,
    /// The I bit of DATA, I-DATA (RFC 7053).
    pub immediate_ack: bool,
}

/// A packet that was read, without its rows.
#[repr(C)]
#[derive(Clone, Copy)]
pub struct DcsctpPacket {
    /// The common header.
    pub header: DcsctpHeader,
    /// What the call returned: 0, or the code of the first fault.
    pub code: u32,
    /// The number of chunks; 0 where the bytes are no packet.
    pub chunk_count: usize,
    /// The offset of the first fault; the number of bytes where there is none.
    pub fault_offset: usize,
}

/// A packet that lies in a block of bytes beside others: where it is, and what was read of it.
#[repr(C)]
#[derive(Clone, Copy)]
pub struct DcsctpPlacedPacket {
    /// The offset of the packet in the block.
    pub offset: usize,
    /// The size of the packet in bytes.
    pub size: usize,
    /// The number that its checksum field has to be.
    pub word: u32,
    /// The index of its first row.
    pub first_row: usize,
    /// What was read, as of a packet alone: offsets are those in the packet, not in the block.
    pub packet: DcsctpPacket,
}

/// What a receiver knows of an association before it looks at a packet's tag.
#[repr(C)]
#[derive(Clone, Copy)]
pub struct DcsctpAssociation {
    /// The receiver's own tag: the Initiate Tag of the INIT or INIT ACK that it sent.
    pub own_tag: u32,
    /// The peer's tag: the Initiate Tag of the INIT or INIT ACK that it received.
    pub peer_tag: u32,
    /// Whether it has received one.
    pub has_peer_tag: bool,
    /// Whether the receiver is in the state COOKIE-WAIT or COOKIE-ECHOED.
    pub awaits_cookie: bool,
}

/// What is known of the association that a packet belongs to.
#[repr(C)]
#[derive(Clone, Copy)]
pub struct DcsctpKnown {
    /// Whether the end that the packet goes to sent INIT or INIT ACK without Zero Checksum
    /// Acceptable (RFC 9653 section 4).
    pub refuses_zero: bool,
    /// Whether an end sent DATA.
    pub has_data: bool,
    /// Whether an end sent I-DATA.
    pub has_i_data: bool,
}

/// What a State Cookie says (RFC 9260 section 5.1.3). *Local* is the end that seals and opens it.
#[repr(C)]
#[derive(Clone, Copy)]
pub struct DcsctpCookie {
    /// When it was created, in microseconds on the clock of the local end.
    pub created: u64,
    /// For how long it is good, in microseconds.
    pub lifespan: u64,
    /// The Initiate Tag of the INIT ACK.
    pub local_tag: u32,
    /// The Initiate Tag of the INIT.
    pub peer_tag: u32,
    /// The Local Tie-Tag (RFC 9260 section 5.2.2): 0 where the INIT came without an association.
    pub local_tie_tag: u32,
    /// The Peer's Tie-Tag (RFC 9260 section 5.2.2): 0 where the INIT came without an association.
    pub peer_tie_tag: u32,
    /// The Initial TSN of the INIT ACK.
    pub local_initial_tsn: u32,
    /// The Initial TSN of the INIT.
    pub peer_initial_tsn: u32,
    /// The port that the INIT was for.
    pub local_port: u16,
    /// The port that the INIT came from.
    pub peer_port: u16,
    /// How many streams the local end sends on.
    pub outbound_streams: u16,
    /// How many streams the peer sends on.
    pub inbound_streams: u16,
    /// The offset in the cookie of the caller's further bytes.
    pub extra_offset: usize,
    /// The size of the caller's further bytes.
    pub extra_size: usize,
}
