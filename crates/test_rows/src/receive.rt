//! What RFC 9260 asks of whoever receives a packet, before an association's state matters.

use crate::answer::{Answer, Digits, first, from, front, short_at, word_at};
use crate::made;
use dcsctp_buffer::error::WriteError;
use dcsctp_buffer::init::BorrowedInit;
use dcsctp_buffer::{add, begin};
use dcsctp_receive::action::{Action, unrecognized_chunk, unrecognized_parameter};
use dcsctp_receive::initiation::{InitFault, Refusal, init_ack_fault, init_fault};
use dcsctp_receive::out_of_the_blue::{OutOfTheBlue, out_of_the_blue};
use dcsctp_receive::restart::{add_new_addresses, adds_addresses};
use dcsctp_receive::unrecognized::{
    add_unrecognized_chunks, add_unrecognized_parameters, add_unrecognized_parameters_error,
};
use dcsctp_receive::verification_tag::{Association, verify_tag};
use dcsctp_wire::packet::chunk::RawChunk;
use dcsctp_wire::packet::sctp_packet::{COMMON_HEADER_SIZE, CommonHeader};
use dcsctp_wire::types::Tsn;

/// The bytes of a buffer that has room for each packet that is written here.
const ROOM: usize = 32;

/// The bytes of a buffer that has room for each packet to which something is added here.
const LARGE_ROOM: usize = 160;

/// The most types that a row says are known.
const MOST_KNOWN: usize = 8;

/// The offset of the Initiate Tag in a packet that begins with INIT or INIT ACK.
const INITIATE_TAG: usize = 16;

/// An INIT ACK without parameters.
const INIT_ACK: BorrowedInit = BorrowedInit {
    is_ack: true,
    initiate_tag: 1,
    a_rwnd: 1500,
    nbr_outbound_streams: 1,
    nbr_inbound_streams: 1,
    initial_tsn: Tsn(1),
};

/// An ABORT without a cause.
const ABORT: RawChunk<'static> = RawChunk {
    typ: 6,
    flags: 0,
    value: &[],
};

fn write_action(action: Action, out: &mut Answer) {
    let (skips, reports) = (action.skips(), action.reports());
    write!(out, "{:?}", (action, skips, reports))
}

/// Writes the verdict of the own tag, the peer's (0 where it isn't known), two bytes that are 1 in
/// COOKIE-WAIT and COOKIE-ECHOED, and the packet.
fn write_tag(bytes: &[u8], out: &mut Answer) {
    let peer = word_at(bytes, 4);
    let association = Association {
        own: word_at(bytes, 0),
        peer: if peer == 0 { None } else { Some(peer) },
        awaits_cookie: short_at(bytes, 8) == 1,
    };
    write!(out, "{:?}", verify_tag(from(bytes, 10), &association))
}

/// Writes a packet, and how it is answered where it is out of the blue.
fn write_packet(packet: &[u8], out: &mut Answer) {
    let answer = out_of_the_blue(packet, true);
    write!(out, "; {} is answered by {answer:?}", Digits(packet))
}

/// Writes the answer to a packet, after a byte that is 1 where it is to and from unicast addresses;
/// and the reply, after it wasn't written into a buffer that is a byte shorter.
fn write_out_of_the_blue(bytes: &[u8], out: &mut Answer) {
    let packet = from(bytes, 1);
    let answer = out_of_the_blue(packet, first(bytes) == 1);
    write!(out, "{answer:?}");
    let (OutOfTheBlue::Respond(reply), Some(header)) = (answer, CommonHeader::from_bytes(packet))
    else {
        return;
    };
    let (mut short, mut buffer) = ([0xee; 15], [0xee; ROOM]);
    let (mut none, mut size) = (0, 0);
    let is_declined = reply.write(&mut short, &mut none, &header).is_err() && short == [0xee; 15];
    if is_declined && none == 0 && reply.write(&mut buffer, &mut size, &header).is_ok() {
        write_packet(front(&buffer, size), out)
    }
}

/// Writes the fault of an INIT, or of an INIT ACK in COOKIE-WAIT or not; what is done with the
/// packet, and the ABORT if one is sent.
fn write_fault(
    fault: Option<InitFault>,
    in_cookie_wait: Option<bool>,
    packet: &[u8],
    out: &mut Answer,
) {
    let Some(fault) = fault else {
        return out.say("no fault");
    };
    let refusal = match in_cookie_wait {
        Some(in_cookie_wait) => fault.refusal_of_init_ack(in_cookie_wait),
        None => fault.refusal_of_init(),
    };
    write!(out, "{fault:?}; {refusal:?}");
    let (mut buffer, mut size) = ([0xee; ROOM], 0);
    let tag = word_at(packet, INITIATE_TAG);
    if let Some(header) = CommonHeader::from_bytes(packet) {
        let written = fault.write_abort(&mut buffer, &mut size, &header, tag);
        if written.is_ok() && !matches!(refusal, Refusal::Discard) {
            write_packet(front(&buffer, size), out)
        }
    }
}

/// What is added to a packet.
#[derive(Clone, Copy)]
enum Addition<'a> {
    /// To an INIT ACK, the parameters of an INIT, of which these types are known.
    Parameters(&'a [u8], &'a [u16]),
    /// An ERROR with parameters, of which these types are known.
    ParametersError(&'a [u8], &'a [u16]),
    /// An ERROR with the chunks of a packet, of which these types are known.
    Chunks(&'a [u8], &'a [u8]),
    /// To an ABORT, the addresses in parameters but for those in others.
    Addresses(&'a [u8], &'a [u8]),
}

impl Addition<'_> {
    /// Adds it.
    fn add(self, buffer: &mut [u8], size: &mut usize) -> Result<Option<usize>, WriteError> {
        match self {
            Addition::Parameters(list, known) => add_unrecognized_parameters(
                buffer,
                size,
                COMMON_HEADER_SIZE,
                list,
                known,
            ),
            Addition::ParametersError(list, known) => add_unrecognized_parameters_error(
                buffer, size, list, known,
            ),
            Addition::Chunks(packet, known) => add_unrecognized_chunks(buffer, size, packet, known),
            Addition::Addresses(list, known) => {
                add_new_addresses(buffer, size, COMMON_HEADER_SIZE, list, known)?;
                Ok(None)
            }
        }
    }

    /// Returns a buffer whose first bytes are a packet that was begun, with the chunk to which it
    /// is added; and its size.
    fn begun(self) -> ([u8; LARGE_ROOM], usize) {
        let (mut buffer, mut size) = ([0xee; LARGE_ROOM], 0);
        if begin(&mut buffer, &mut size, 5000, 5001, 1).is_err() {
            return (buffer, size);
        }
        let _added = match self {
            Addition::Parameters(_, _) => add(&mut buffer, &mut size, &INIT_ACK),
            Addition::Addresses(_, _) => add(&mut buffer, &mut size, &ABORT),
            _ => Ok(()),
        };
        (buffer, size)
    }
}

/// Writes what is added, and where processing stops: by the least buffer that has room for it,
/// where each smaller one stays as it was.
fn write_addition(addition: Addition<'_>, out: &mut Answer) {
    for room in 0..LARGE_ROOM {
        let (mut buffer, start) = addition.begun();
        let (before, mut size) = (buffer, start);
        let (output, _) = buffer.split_at_mut(room);
        let Ok(stop) = addition.add(output, &mut size) else {
            if buffer != before || size != start {
                return out.say("changed, and failed");
            }
            continue;
        };
        if start > COMMON_HEADER_SIZE {
            write!(out, "{} in ", Digits(front(from(&buffer, 14), 2)));
        }
        let added = Digits(from(front(&buffer, size), start));
        write!(out, "{room} bytes: {added}, stops ");
        return match stop {
            Some(at) => write!(out, "at {at}"),
            None => out.say("nowhere"),
        };
    }
    out.say("no room")
}

/// Writes what is added for parameters. The bytes are how many types are known, these types, and
/// the parameters.
fn write_unrecognized_parameters(bytes: &[u8], is_error: bool, out: &mut Answer) {
    let count = first(bytes) as usize;
    let mut known = [0; MOST_KNOWN];
    for (i, typ) in known.iter_mut().enumerate() {
        *typ = short_at(bytes, 1 + 2 * i);
    }
    let known = known.get(..count).unwrap_or(&[]);
    let list = from(bytes, 1 + 2 * count);
    let addition = if is_error {
        Addition::ParametersError(list, known)
    } else {
        Addition::Parameters(list, known)
    };
    write_addition(addition, out)
}

/// Writes what is added for the chunks of a packet; or whether an INIT adds addresses, and the
/// cause that lists them. The bytes are how many bytes the known types or addresses take, these,
/// and the packet or the INIT's parameters.
fn write_others(bytes: &[u8], is_init: bool, out: &mut Answer) {
    let count = first(bytes) as usize;
    let (known, list) = (front(from(bytes, 1), count), from(bytes, 1 + count));
    if !is_init {
        write_addition(Addition::Chunks(list, known), out)
    } else if adds_addresses(list, known) {
        write_addition(Addition::Addresses(list, known), out)
    } else {
        out.say("none")
    }
}

/// Writes the answer, if the call is one of this module; else the next one does. Before an INIT ACK
/// there are two bytes that are 1 in COOKIE-WAIT.
pub fn write_answer(call: &str, bytes: &[u8], other: &[u8], out: &mut Answer) {
    match call {
        "unrecognized-chunk" => write_action(unrecognized_chunk(first(bytes)), out),
        "unrecognized-parameter" => write_action(unrecognized_parameter(short_at(bytes, 0)), out),
        "unrecognized-parameters" => write_unrecognized_parameters(bytes, false, out),
        "unrecognized-parameters-error" => write_unrecognized_parameters(bytes, true, out),
        "unrecognized-chunks" => write_others(bytes, false, out),
        "new-addresses" => write_others(bytes, true, out),
        "tag" => write_tag(bytes, out),
        "out-of-the-blue" => write_out_of_the_blue(bytes, out),
        "init-fault" => write_fault(init_fault(bytes), None, bytes, out),
        "init-ack-fault" => {
            let (in_cookie_wait, packet) = (short_at(bytes, 0) == 1, from(bytes, 2));
            write_fault(init_ack_fault(packet), Some(in_cookie_wait), packet, out)
        }
        _ => made::write_answer(call, bytes, other, out),
    }
}
