//! What RFC 9260 asks of whoever receives a packet, before the state of an association matters: the
//! answers of `dcsctp_receive`, as numbers.

ghost use Rattle.std.specs.Prelude.{◌≡◌, ◌≢◌, ◌↔◌, Some, None, length, if◌then◌else◌};
ghost use Rattle.dcsctp_buffer.specs.Buffer.{HasRoom, HoldsPacket};
ghost use Rattle.dcsctp_receive.specs.{Action.{action_to_chunk, action_to_parameter}, Initiation.{packet_fault, abort_of, abort_to}, OutOfTheBlue.{answer_to, reply_to}, VerificationTag.{verdict}};
ghost use Rattle.dcsctp_receive.specs.declared.{initiation.InitFault.{InitFault as FaultTree}, out_of_the_blue.Reply.{Reply as ReplyTree}};
ghost use Rattle.dcsctp_c.specs.Receive.{action_code, association_of, verdict_code, answer_code, reply_of, header_view, reply_code, fault_code, some_fault_code, fault_of, refusal_of};
ghost use Rattle.dcsctp_c.specs.Code.{bad_value_code};

use crate::codes::{BAD_VALUE, OK, write_code};
use crate::structs::{DcsctpAssociation, DcsctpHeader};
use dcsctp_receive::action::{Action, unrecognized_chunk, unrecognized_parameter};
use dcsctp_receive::initiation::{InitFault, Refusal, init_ack_fault, init_fault};
use dcsctp_receive::out_of_the_blue::{OutOfTheBlue, Reply, out_of_the_blue};
use dcsctp_receive::verification_tag::{Association, TagVerdict, verify_tag};
use dcsctp_wire::packet::sctp_packet::CommonHeader;

/// Stops: no further chunk or parameter is processed.
pub const ACTION_STOP: u32 = 0;

/// Stops, and reports the chunk or the parameter.
pub const ACTION_STOP_AND_REPORT: u32 = 1;

/// Skips the chunk or the parameter, and goes on.
pub const ACTION_SKIP: u32 = 2;

/// Skips the chunk or the parameter, reports it, and goes on.
pub const ACTION_SKIP_AND_REPORT: u32 = 3;

/// The tag is right.
pub const TAG_ACCEPT: u32 = 0;

/// The packet is for the procedures of RFC 9260 section 5.
pub const TAG_ESTABLISH: u32 = 1;

/// The packet is treated as out of the blue.
pub const TAG_OUT_OF_THE_BLUE: u32 = 2;

/// The packet is discarded.
pub const TAG_DISCARD: u32 = 3;

/// The packet is discarded.
pub const ANSWER_DISCARD: u32 = 0;

/// The INIT is processed.
pub const ANSWER_INIT: u32 = 1;

/// The COOKIE ECHO is processed.
pub const ANSWER_COOKIE_ECHO: u32 = 2;

/// A SHUTDOWN COMPLETE is sent back.
pub const ANSWER_SHUTDOWN_COMPLETE: u32 = 3;

/// An ABORT is sent back.
pub const ANSWER_ABORT: u32 = 4;

/// The INIT or INIT ACK has none of the faults.
pub const INIT_NO_FAULT: u32 = 0;

/// The packet doesn't hold the chunk alone.
pub const INIT_NOT_ALONE: u32 = 1;

/// The chunk has no room for its numbers.
pub const INIT_TOO_SHORT: u32 = 2;

/// The initiate tag is 0.
pub const INIT_TAG_ZERO: u32 = 3;

/// The window is smaller than 1,500 bytes.
pub const INIT_SMALL_WINDOW: u32 = 4;

/// There are no outbound streams.
pub const INIT_NO_OUTBOUND_STREAMS: u32 = 5;

/// There are no inbound streams.
pub const INIT_NO_INBOUND_STREAMS: u32 = 6;

/// An INIT ACK has no State Cookie.
pub const INIT_NO_STATE_COOKIE: u32 = 7;

/// The chunk has a Host Name Address.
pub const INIT_HOST_NAME_ADDRESS: u32 = 8;

/// The packet is discarded.
pub const REFUSAL_DISCARD: u32 = 0;

/// The packet is discarded, and an ABORT is sent.
pub const REFUSAL_ABORT: u32 = 1;

/// The TCB is destroyed, and an ABORT is sent.
pub const REFUSAL_DESTROY_AND_ABORT: u32 = 2;

/// Returns what is done with a chunk of this type where it isn't recognized (RFC 9260 section 3.2):
/// `ACTION_STOP`, `ACTION_STOP_AND_REPORT`, `ACTION_SKIP` or `ACTION_SKIP_AND_REPORT`.
#[unsafe(no_mangle)]
pub extern "C" fn dcsctp_unrecognized_chunk(typ: u8) -> u32
    ensures { result ≡ action_code (action_to_chunk typ) }
{
    action_code(unrecognized_chunk(typ))
}

/// Returns what is done with a parameter of this type where it isn't recognized (RFC 9260 section
/// 3.2.1), as `dcsctp_unrecognized_chunk` does of a chunk.
#[unsafe(no_mangle)]
pub extern "C" fn dcsctp_unrecognized_parameter(typ: u16) -> u32
    ensures { result ≡ action_code (action_to_parameter typ) }
{
    action_code(unrecognized_parameter(typ))
}

/// Returns what is done with a packet, by its Verification Tag, for this association (RFC 9260
/// sections 8.5 and 8.5.1): `TAG_ACCEPT`, `TAG_ESTABLISH`, `TAG_OUT_OF_THE_BLUE` or `TAG_DISCARD`.
/// Of its chunks the types and the T bit are looked at alone.
#[unsafe(no_mangle)]
pub extern "C" fn dcsctp_verify_tag(packet: &[u8], association: &DcsctpAssociation) -> u32
    ensures { result ≡ verdict_code (verdict (association_of association.now) packet.now) }
{
    match verify_tag(packet, &association_of(association)) {
        TagVerdict::Accept => TAG_ACCEPT,
        TagVerdict::Establish => TAG_ESTABLISH,
        TagVerdict::OutOfTheBlue => TAG_OUT_OF_THE_BLUE,
        TagVerdict::Discard => TAG_DISCARD,
    }
}

/// Returns what is done with a packet that belongs to no association (RFC 9260 section 8.4):
/// `ANSWER_DISCARD`, `ANSWER_INIT`, `ANSWER_COOKIE_ECHO`, `ANSWER_SHUTDOWN_COMPLETE` or
/// `ANSWER_ABORT`. `is_unicast` says whether it is to and from unicast addresses. The packet has to
/// be correctly formed, as that section begins: otherwise it may be answered.
#[unsafe(no_mangle)]
pub extern "C" fn dcsctp_out_of_the_blue(packet: &[u8], is_unicast: bool) -> u32
    ensures { result ≡ answer_code (answer_to is_unicast packet.now) }
{
    match out_of_the_blue(packet, is_unicast) {
        OutOfTheBlue::Discard => ANSWER_DISCARD,
        OutOfTheBlue::Init => ANSWER_INIT,
        OutOfTheBlue::CookieEcho => ANSWER_COOKIE_ECHO,
        OutOfTheBlue::Respond(Reply::ShutdownComplete) => ANSWER_SHUTDOWN_COMPLETE,
        OutOfTheBlue::Respond(Reply::Abort) => ANSWER_ABORT,
    }
}

/// Writes the reply that `dcsctp_out_of_the_blue` asks for to a packet with this header: a packet
/// of one chunk, `ANSWER_SHUTDOWN_COMPLETE` or `ANSWER_ABORT`, with the ports swapped, the tag
/// reflected and the T bit (RFC 9260 section 8.4), at the front of the buffer. Its checksum field
/// is zero, and the size is set to 16.
///
/// Returns 0; or changes nothing, and returns `BAD_VALUE` where the answer has no reply, else
/// `NO_ROOM` where the buffer has fewer than 16 bytes.
#[unsafe(no_mangle)]
pub extern "C" fn dcsctp_reply(
    packet: &mut [u8],
    size: &mut usize,
    header: &DcsctpHeader,
    answer: u32,
) -> u32
    ensures code { result ≡ reply_code (reply_of answer) (length packet.old) }
    ensures held { (r : ReplyTree) → result ≡ 0 → reply_of answer ≡ Some r
        → HoldsPacket packet.new size.new (reply_to (header_view header.now) r) }
    ensures declined { result ≢ 0 → (packet.new ≡ packet.old) × (size.new ≡ size.old) }
{
    let Some(reply) = reply_of(answer) else {
        return BAD_VALUE;
    };
    match reply.write(packet, size, &header_view(header)) {
        Ok(()) => OK,
        Err(error) => write_code(error),
    }
}

/// Returns what is wrong with a packet that carries an INIT (RFC 9260 sections 3.3.2 and 5.1), or
/// an INIT ACK (section 3.3.3) where `is_ack` is true: the first of the faults from
/// `INIT_NOT_ALONE` to `INIT_HOST_NAME_ADDRESS`; `INIT_NO_FAULT` if and only if it has none of
/// them. Of its parameters these two are looked for alone, up to the first whose length is
/// impossible. That length is no fault here, nor are bytes after the chunk that are no whole chunk.
#[unsafe(no_mangle)]
pub extern "C" fn dcsctp_init_fault(packet: &[u8], is_ack: bool) -> u32
    ensures { result ≡ some_fault_code (packet_fault (if is_ack then 2 else 1) packet.now) }
{
    let found = if is_ack {
        init_ack_fault(packet)
    } else {
        init_fault(packet)
    };
    match found {
        Some(fault) => fault_code(fault),
        None => INIT_NO_FAULT,
    }
}

/// Returns what is done with a packet whose INIT has this fault (RFC 9260 sections 3.3.2 and
/// 8.5.1), or its INIT ACK (sections 3.3.3 and 5.1) where `is_ack` is true, in the state
/// COOKIE-WAIT or in another one: `REFUSAL_DISCARD`, `REFUSAL_ABORT` or
/// `REFUSAL_DESTROY_AND_ABORT`. Of a number that is no fault's, `REFUSAL_DISCARD`.
#[unsafe(no_mangle)]
pub extern "C" fn dcsctp_init_refusal(fault: u32, is_ack: bool, in_cookie_wait: bool) -> u32
    ensures { result ≡ refusal_of is_ack in_cookie_wait (fault_of fault) }
{
    let Some(fault) = fault_of(fault) else {
        return REFUSAL_DISCARD;
    };
    let refusal = if is_ack {
        fault.refusal_of_init_ack(in_cookie_wait)
    } else {
        fault.refusal_of_init()
    };
    match refusal {
        Refusal::Discard => REFUSAL_DISCARD,
        Refusal::Abort => REFUSAL_ABORT,
        Refusal::DestroyAndAbort => REFUSAL_DESTROY_AND_ABORT,
    }
}

/// Writes the packet with the ABORT that says this fault, to the sender of the INIT or INIT ACK in
/// a packet with this header and with this initiate tag: at the front of the buffer, 28 bytes at
/// most. Its checksum field is zero. Its tag is the initiate tag; where this is 0, the packet's
/// own, with the T bit. Its cause is Missing Mandatory Parameter or Invalid Mandatory Parameter;
/// none of `INIT_NOT_ALONE` and `INIT_TOO_SHORT`, which RFC 9260 doesn't answer, nor of
/// `INIT_HOST_NAME_ADDRESS`.
///
/// Returns 0; or changes nothing, and returns `BAD_VALUE` for a number that is no fault's, else
/// `NO_ROOM`.
#[unsafe(no_mangle)]
pub extern "C" fn dcsctp_init_abort(
    packet: &mut [u8],
    size: &mut usize,
    header: &DcsctpHeader,
    initiate_tag: u32,
    fault: u32,
) -> u32
    ensures room { (f : FaultTree) → fault_of fault ≡ Some f
        → (result ≡ 0) ↔ HasRoom (length packet.old) 12 (abort_of f) }
    ensures held { (f : FaultTree) → result ≡ 0 → fault_of fault ≡ Some f
        → HoldsPacket packet.new size.new (abort_to (header_view header.now) initiate_tag f) }
    ensures other { fault_of fault ≡ None → result ≡ bad_value_code }
    ensures declined { result ≢ 0 → (packet.new ≡ packet.old) × (size.new ≡ size.old) }
{
    let Some(fault) = fault_of(fault) else {
        return BAD_VALUE;
    };
    match fault.write_abort(packet, size, &header_view(header), initiate_tag) {
        Ok(()) => OK,
        Err(error) => write_code(error),
    }
}

// ---- helpers

/// Returns the code of an action.
fn action_code(action: Action) -> u32
    ensures { result ≡ action_code action }
{
    match action {
        Action::Stop => ACTION_STOP,
        Action::StopAndReport => ACTION_STOP_AND_REPORT,
        Action::Skip => ACTION_SKIP,
        Action::SkipAndReport => ACTION_SKIP_AND_REPORT,
    }
}

/// Returns what the struct says of an association.
fn association_of(association: &DcsctpAssociation) -> Association
    ensures { result ≡ association_of association.now }
{
    Association {
        own: association.own_tag,
        peer: if association.has_peer_tag {
            Some(association.peer_tag)
        } else {
            None
        },
        awaits_cookie: association.awaits_cookie,
    }
}

/// Returns the reply of an answer that has one.
fn reply_of(answer: u32) -> Option<Reply>
    ensures { result ≡ reply_of answer }
{
    match answer {
        ANSWER_SHUTDOWN_COMPLETE => Some(Reply::ShutdownComplete),
        ANSWER_ABORT => Some(Reply::Abort),
        _ => None,
    }
}

/// Returns the code of a fault.
fn fault_code(fault: InitFault) -> u32
    ensures { result ≡ fault_code fault }
{
    match fault {
        InitFault::NotAlone => INIT_NOT_ALONE,
        InitFault::TooShort => INIT_TOO_SHORT,
        InitFault::InitiateTagZero => INIT_TAG_ZERO,
        InitFault::SmallWindow => INIT_SMALL_WINDOW,
        InitFault::NoOutboundStreams => INIT_NO_OUTBOUND_STREAMS,
        InitFault::NoInboundStreams => INIT_NO_INBOUND_STREAMS,
        InitFault::NoStateCookie => INIT_NO_STATE_COOKIE,
        InitFault::HostNameAddress => INIT_HOST_NAME_ADDRESS,
    }
}

/// Returns the fault of a code.
fn fault_of(code: u32) -> Option<InitFault>
    ensures { result ≡ fault_of code }
{
    match code {
        INIT_NOT_ALONE => Some(InitFault::NotAlone),
        INIT_TOO_SHORT => Some(InitFault::TooShort),
        INIT_TAG_ZERO => Some(InitFault::InitiateTagZero),
        INIT_SMALL_WINDOW => Some(InitFault::SmallWindow),
        INIT_NO_OUTBOUND_STREAMS => Some(InitFault::NoOutboundStreams),
        INIT_NO_INBOUND_STREAMS => Some(InitFault::NoInboundStreams),
        INIT_NO_STATE_COOKIE => Some(InitFault::NoStateCookie),
        INIT_HOST_NAME_ADDRESS => Some(InitFault::HostNameAddress),
        _ => None,
    }
}

/// Returns the header that the struct has.
fn header_view(header: &DcsctpHeader) -> CommonHeader
    ensures { result ≡ header_view header.now }
{
    CommonHeader {
        source_port: header.source_port,
        destination_port: header.destination_port,
        verification_tag: header.verification_tag,
        checksum: header.checksum,
    }
}
