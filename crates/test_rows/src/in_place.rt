//! Packets and chunks that are read where they lie, beside those that are built.

use crate::answer::Answer;
use crate::kept;
use crate::packets::{ANY, packet_of};
use dcsctp_borrowed::canonical::{canonical_size, write_canonical};
use dcsctp_borrowed::checked_chunks::CheckedChunk;
use dcsctp_borrowed::cookie_echo::cookie;
use dcsctp_borrowed::forward_tsn_ref::ForwardTsnRef;
use dcsctp_borrowed::heartbeat_info::heartbeat_info;
use dcsctp_borrowed::meaning::means_same;
use dcsctp_borrowed::packet_ref::SctpPacketRef;
use dcsctp_borrowed::raw_causes::RawCauses;
use dcsctp_borrowed::raw_parameters::RawParameters;
use dcsctp_borrowed::sack_ref::SackRef;
use dcsctp_borrowed::user_data::UserData;
use dcsctp_wire::packet::chunk::{Chunk, RawChunk};
use dcsctp_wire::packet::chunk_validators::validate_sack;
use dcsctp_wire::packet::data::Data;
use dcsctp_wire::packet::error_causes::ErrorCause;
use dcsctp_wire::packet::parameter::{Parameter, RawParameter};
use dcsctp_wire::packet::sack_chunk::GapAckBlock;
use dcsctp_wire::packet::sctp_packet::{ChecksumPolicy, SctpPacket};
use dcsctp_wire::packet::{ChunkParseError, SkippedStream};
use dcsctp_wire::types::Tsn;
use std::fmt::Debug;

/// Returns the canonical packet of the packet that the bytes are, written of it in place over bytes
/// `ee`; nothing if it isn't read or doesn't fit.
pub fn canonical_in_place(bytes: &[u8], out: &mut Answer) -> Vec<u8> {
    if let Ok(packet) = SctpPacketRef::from_bytes(bytes, 0, &ANY) {
        let mut output = out.filled(canonical_size(&packet).unwrap_or(0));
        if write_canonical(&packet, &mut output).is_ok() {
            return output;
        }
    }
    Vec::new(out.alloc)
}

/// Returns whether both are packets that mean the same where they lie, or neither is a packet.
pub fn mean_alike(bytes: &[u8], other: &[u8]) -> bool {
    match (
        SctpPacketRef::from_bytes(bytes, 0, &ANY),
        SctpPacketRef::from_bytes(other, 0, &ANY),
    ) {
        (Ok(packet), Ok(other)) => means_same(&packet, &other),
        (Err(_), Err(_)) => true,
        _ => false,
    }
}

// ---- the parts of a chunk, where they lie: `fields` are the last ones of the chunk that is built
// of it, and `more` is what that one doesn't print

/// Writes the numbers of a SACK and its lists; whether it is valid, and the lists by their places.
fn write_sack(sack: &SackRef, fields: &mut Answer, more: &mut Answer) {
    let (tsn, a_rwnd) = (sack.cumulative_tsn_ack(), sack.a_rwnd());
    let blocks: Vec<GapAckBlock> = fields.list(sack.gap_ack_blocks().collect(fields.alloc));
    let duplicates: Vec<Tsn> = fields.list(sack.duplicate_tsns().collect(fields.alloc));
    write!(fields, "cumulative_tsn_ack: {tsn}, a_rwnd: {a_rwnd}, ");
    write!(
        fields,
        "gap_ack_blocks: {blocks:?}, duplicate_tsns: {duplicates:?}"
    );
    write!(more, "; {}", sack.validate());
    for i in 0..sack.gap_ack_block_count() {
        let block = sack.gap_ack_block(i);
        write!(more, " {} {}", block.start, block.end);
    }
    for i in 0..sack.duplicate_tsn_count() {
        write!(more, " {}", sack.duplicate_tsn(i));
    }
}

/// Writes the number of a FORWARD-TSN or an I-FORWARD-TSN and its streams; and these by their
/// places.
fn write_forward(forward: &ForwardTsnRef, fields: &mut Answer, more: &mut Answer) {
    let tsn = forward.new_cumulative_tsn();
    let streams: Vec<SkippedStream> = fields.list(forward.skipped_streams().collect(fields.alloc));
    write!(
        fields,
        "new_cumulative_tsn: {tsn}, skipped_streams: {streams:?}"
    );
    for i in 0..forward.skipped_stream_count() {
        write!(more, "; {:?}", forward.skipped_stream(i));
    }
}

/// Writes what is built, or the fault, after a mark.
fn write_built<T: Debug + Drop>(mark: &str, answer: Result<T, ChunkParseError>, out: &mut Answer) {
    match answer {
        Ok(value) => write!(out, "{mark}{value:?}"),
        Err(fault) => write!(out, "{mark}{fault:?}"),
    }
}

/// Writes what is built of a parameter, if it has this info: one if it is a Heartbeat Info, else
/// none.
fn write_parameter(raw: RawParameter, info: Option<&[u8]>, out: &mut Answer) {
    let parameter = Parameter::try_from(out.alloc, raw);
    let has_info = match &parameter {
        Ok(Parameter::HeartbeatInfo(p)) => info == Some(p.info.as_slice()),
        _ => info.is_none(),
    };
    out.unless(has_info, "another info ");
    write_built("", parameter, out)
}

/// Writes what is built of each list that a reader finds; and the type of each item, its bytes, and
/// its heartbeat info.
fn write_lists(raw: &RawChunk, fields: &mut Answer, more: &mut Answer) {
    if let Some(raws) = RawParameters::from_raw(raw) {
        fields.say("parameters: [");
        for (i, raw) in raws.enumerate() {
            let info = heartbeat_info(&raw);
            write!(more, "; {} {:?} {info:?}", raw.typ, raw.value);
            fields.unless(i == 0, ", ");
            write_parameter(raw, info, fields);
        }
        fields.say("]");
    }
    if let Some(raws) = RawCauses::from_raw(raw) {
        fields.say("error_causes: [");
        for (i, raw) in raws.enumerate() {
            write!(more, "; {} {:?}", raw.typ, raw.value);
            fields.unless(i == 0, ", ");
            write_built("", ErrorCause::try_from(more.alloc, raw), fields);
        }
        fields.say("]");
    }
}

/// Writes each part that a reader finds: a chunk has one, if any.
fn write_part(raw: &RawChunk, fields: &mut Answer, more: &mut Answer) {
    if let Some(data) = UserData::from_raw(raw) {
        write!(more, "; {data:?}");
    }
    if let Some(sack) = SackRef::from_raw(raw) {
        write_sack(&sack, fields, more);
    }
    if let Some(forward) = ForwardTsnRef::from_raw(raw) {
        write_forward(&forward, fields, more);
    }
    if let Some(cookie) = cookie(raw) {
        write!(fields, "cookie: {cookie:?}");
    }
    write_lists(raw, fields, more)
}

// ---- beside the chunk that is built

/// Returns the user data of a chunk that was built.
fn lent_of(tsn: Tsn, data: &Data, immediate_ack: bool) -> Option<UserData<'_>> {
    Some(UserData {
        tsn,
        stream_key: data.stream_key,
        ssn: data.ssn,
        mid: data.mid,
        fsn: data.fsn,
        ppid: data.ppid,
        payload: &data.payload,
        is_beginning: data.is_beginning,
        is_end: data.is_end,
        immediate_ack,
    })
}

/// Writes the user data of a chunk that was built, and whether it is a SACK that is valid.
fn write_facts(chunk: &Chunk, out: &mut Answer) {
    let (data, valid) = match chunk {
        Chunk::Data(c) => (lent_of(c.tsn, &c.user_data, c.immediate_ack), None),
        Chunk::IData(c) => (lent_of(c.tsn, &c.user_data, c.immediate_ack), None),
        Chunk::Sack(c) => (None, Some(validate_sack(c))),
        _ => (None, None),
    };
    write!(out, "{data:?} {valid:?}")
}

/// Returns whether none of the chunk's fields is lent but user data.
fn is_plain(chunk: &Chunk) -> bool {
    match chunk {
        Chunk::Unknown(_) | Chunk::Data(_) | Chunk::IData(_) | Chunk::Shutdown(_) => true,
        Chunk::ShutdownAck(_) | Chunk::CookieAck(_) | Chunk::ShutdownComplete(_) => true,
        _ => false,
    }
}

/// Returns whether the chunk's part is the same where it lies and in the chunk that is built of it,
/// which has these fields last.
fn has_same_part(raw: &RawChunk, other: RawChunk, out: &mut Answer) -> bool {
    let Ok(chunk) = Chunk::try_from(out.alloc, other) else {
        return false;
    };
    let (mut fields, mut facts) = (out.another(), out.another());
    write_part(raw, &mut fields, &mut facts);
    let (mut lent, mut built) = (out.another(), out.another());
    let valid = SackRef::from_raw(raw).map(|sack| sack.validate());
    write!(lent, "{:?} {valid:?}", UserData::from_raw(raw));
    write_facts(&chunk, &mut built);
    let is_so = lent.text == built.text;
    let is_lent = !fields.text.is_empty();
    fields.say(" })");
    write!(built, "{chunk:?}");
    let has_fields = is_lent && built.text.ends_with(fields.text.as_str());
    is_so && (has_fields || !is_lent && is_plain(&chunk))
}

// ---- whole packets

/// Writes all that the packet holds, once it is built; or its fault.
fn write_built_packet(bytes: &[u8], policy: &ChecksumPolicy, out: &mut Answer) {
    match SctpPacket::from_bytes(out.alloc, bytes, 0, policy) {
        Ok(packet) => {
            write!(out, "{:?}", packet.common_header);
            for chunk in packet.chunks.iter() {
                write!(out, " {chunk:?}");
            }
        }
        Err(error) => write!(out, "{error:?}"),
    }
}

/// Writes each chunk of a packet in its bytes, once it is built.
fn write_lent_packet(bytes: &[u8], policy: &ChecksumPolicy, out: &mut Answer) {
    match SctpPacketRef::from_bytes(bytes, 0, policy) {
        Ok(packet) => {
            write!(out, "{:?}", packet.common_header);
            for raw in packet.chunks {
                write_built(" ", Chunk::try_from(out.alloc, raw), out);
            }
        }
        Err(error) => write!(out, "{error:?}"),
    }
}

/// Writes that both readings of the packet differ, if they hold other things or have other faults.
fn write_lent_otherwise(
    bytes: &[u8],
    other: &[u8],
    policy: &ChecksumPolicy,
    words: &str,
    out: &mut Answer,
) {
    let (mut built, mut lent) = (out.another(), out.another());
    write_built_packet(bytes, policy, &mut built);
    write_lent_packet(other, policy, &mut lent);
    out.unless(built.text == lent.text, words)
}

/// Returns whether a chunk that is known to mean one gives the same as if it is read as any chunk.
fn is_known_so(known: &CheckedChunk, raw: &RawChunk, out: &mut Answer) -> bool {
    let (mut one, mut any) = (out.another(), out.another());
    write!(
        one,
        "{:?}",
        (
            known.as_user_data(),
            known.as_sack(),
            known.as_forward_tsn(),
            known.as_parameters(),
            known.as_causes(),
            known.as_cookie(),
        )
    );
    write!(
        any,
        "{:?}",
        (
            UserData::from_raw(raw),
            SackRef::from_raw(raw),
            ForwardTsnRef::from_raw(raw),
            RawParameters::from_raw(raw),
            RawCauses::from_raw(raw),
            cookie(raw),
        )
    );
    known.chunk_type() == raw.typ && one.text == any.text
}

/// Writes whether a chunk of a packet gives something else if it is known to mean one than if it is
/// read as any; and whether its part is another if it was built.
fn write_unlike(bytes: &[u8], other: &[u8], out: &mut Answer) {
    let (mut is_known, mut is_built) = (true, true);
    if let (Ok(packet), Ok(others)) = (
        SctpPacketRef::from_bytes(bytes, 0, &ANY),
        SctpPacketRef::from_bytes(other, 0, &ANY),
    ) {
        let mut others = others.chunks;
        for chunk in packet.chunks.checked() {
            if let Some(raw) = others.next() {
                let is_so = is_known_so(&chunk, &raw, out);
                is_known = is_known && is_so;
                let is_so = has_same_part(&chunk.into_raw(), raw, out);
                is_built = is_built && is_so;
            }
        }
        is_known = is_known && others.next().is_none();
    }
    out.unless(is_known, "; a checked chunk is read otherwise");
    out.unless(is_built, "; a part is read otherwise where it lies")
}

/// Writes where a packet is another one where it lies, and where its chunks are.
pub fn write_otherwise(bytes: &[u8], other: &[u8], out: &mut Answer) {
    let words = "; where it lies it is read otherwise";
    write_lent_otherwise(bytes, other, &ANY, words, out);
    let words = "; strictly it is read otherwise where it lies";
    write_lent_otherwise(bytes, other, &ANY.strict(), words, out);
    write_unlike(bytes, other, out)
}

/// Writes the part of the chunk at the front.
fn write_in_place(bytes: &[u8], out: &mut Answer) {
    let Ok((raw, _)) = RawChunk::from_bytes(bytes) else {
        return out.say("no chunk");
    };
    let (mut fields, mut more) = (out.another(), out.another());
    write_part(&raw, &mut fields, &mut more);
    out.unless(!fields.text.is_empty() || !more.text.is_empty(), "none");
    out.add(&fields);
    out.add(&more)
}

/// Writes the answer, if the call is one of this module; else the next one does.
pub fn write_answer(call: &str, bytes: &[u8], other: &[u8], out: &mut Answer) {
    if call != "in-place" {
        return kept::write_answer(call, bytes, other, out);
    }
    write_in_place(bytes, out);
    let (bytes, other) = (packet_of(bytes, out), packet_of(other, out));
    write_otherwise(&bytes, &other, out)
}
