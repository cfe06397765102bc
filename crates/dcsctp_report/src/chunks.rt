//! What a chunk holds.

use crate::causes::Causes;
use crate::channel::walk_channel;
use crate::fields::{Block, Fields, Flag, Form, HEADER_SIZE, Number, walk_numbers};
use crate::held::walk_held;
use crate::lists::walk_list;
use crate::names::Level;
use crate::parameters::Parameters;
use crate::registered::held_in_chunk;
use crate::registry::payload_protocol;
use dcsctp_borrowed::forward_tsn_ref::ForwardTsnRef;
use dcsctp_borrowed::part::{Item, Part};
use dcsctp_borrowed::user_data::UserData;
use dcsctp_registry::chunk_layouts::{
    NR_SACK, NR_SACK_BLOCKS_OFFSET, NR_SACK_DUPLICATES_OFFSET, NR_SACK_LISTS_OFFSET,
    NR_SACK_NR_BLOCKS_OFFSET,
};
use dcsctp_tlv::fields::Field;
use dcsctp_types::api::PpId;
use dcsctp_wire::packet::chunk::RawChunk;
use dcsctp_wire::packet::data_chunk::{self, DataNumbers};
use dcsctp_wire::packet::forward_tsn_chunk::{self, ForwardTsnNumbers, SsnStreamField};
use dcsctp_wire::packet::idata_chunk::{self, IDataNumbers};
use dcsctp_wire::packet::iforward_tsn_chunk::{self, MidStreamField};
use dcsctp_wire::packet::init_chunk::{self, InitNumbers};
use dcsctp_wire::packet::sack_chunk::{self, SackNumbers};
use dcsctp_wire::packet::{
    abort_chunk, cookie_ack_chunk, error_chunk, heartbeat_ack_chunk, heartbeat_request_chunk,
    init_ack_chunk, re_config_chunk, read_u16_be, shutdown_ack_chunk, shutdown_chunk,
    shutdown_complete_chunk,
};

/// Bytes of a gap ack block, and of a duplicate TSN.
const SACK_ENTRY_SIZE: usize = 4;

/// Hands over each chunk of a packet's list, as far as there are chunks.
pub fn walk_chunks<F: Fields>(list: Part<'_>, fields: &mut F) {
    fields.begin_list("chunks", list.item().is_none());
    for chunk in list.items() {
        walk_chunk(&chunk, fields);
    }
    fields.end_list()
}

/// Hands over a chunk.
pub fn walk_chunk<F: Fields>(chunk: &Item<'_>, fields: &mut F) {
    fields.begin(Level::Chunk, chunk);
    if !walk_meaning(chunk, fields) {
        fields.value(Level::Chunk, chunk);
    }
    fields.end(Level::Chunk)
}

/// Hands over what a chunk means; returns false, and hands over nothing, where it isn't known to
/// hold anything but its bytes.
fn walk_meaning<F: Fields>(chunk: &Item<'_>, fields: &mut F) -> bool {
    let value = chunk.value;
    let size = value.bytes.len();
    match chunk.first {
        data_chunk::CHUNK_TYPE | idata_chunk::CHUNK_TYPE => return walk_data(chunk, fields),
        init_chunk::CHUNK_TYPE | init_ack_chunk::CHUNK_TYPE if size >= InitNumbers::SIZE => {
            walk_init(chunk, fields);
            walk_list::<Parameters, F>(value.after(InitNumbers::SIZE), fields);
        }
        sack_chunk::CHUNK_TYPE => return walk_sack(chunk, fields),
        heartbeat_request_chunk::CHUNK_TYPE
        | heartbeat_ack_chunk::CHUNK_TYPE
        | re_config_chunk::CHUNK_TYPE => walk_list::<Parameters, F>(value, fields),
        abort_chunk::CHUNK_TYPE => {
            fields.flag(&tag_reflected(chunk));
            walk_list::<Causes, F>(value, fields);
        }
        error_chunk::CHUNK_TYPE => walk_list::<Causes, F>(value, fields),
        shutdown_chunk::CHUNK_TYPE if value.is_whole() && size == 4 => {
            fields.number(&Number::read(": cumulative tsn ", "cumulative_tsn_ack", chunk, 4, 4));
        }
        shutdown_ack_chunk::CHUNK_TYPE | cookie_ack_chunk::CHUNK_TYPE if value.size == 0 => {}
        shutdown_complete_chunk::CHUNK_TYPE if value.size == 0 => {
            fields.flag(&tag_reflected(chunk));
        }
        NR_SACK => return walk_nr_sack(chunk, fields),
        forward_tsn_chunk::CHUNK_TYPE | iforward_tsn_chunk::CHUNK_TYPE if value.is_whole() => {
            return walk_forward_tsn(chunk, fields);
        }
        typ => {
            let Some(held) = held_in_chunk(typ) else {
                return false;
            };
            return walk_held::<Parameters, Causes, F>(&held, chunk, fields);
        }
    }
    true
}

/// Returns the T bit of a chunk.
fn tag_reflected(chunk: &Item<'_>) -> Flag {
    Flag {
        words: (", tag reflected", ""),
        key: "tag_reflected",
        otherwise: "",
        offset: 1,
        is_set: chunk.second % 2 == 1,
    }
}

/// Hands over the numbers of an INIT or an INIT ACK.
fn walk_init<F: Fields>(chunk: &Item<'_>, fields: &mut F) {
    let (outbound, inbound) = (
        InitNumbers::NBR_OUTBOUND_STREAMS,
        InitNumbers::NBR_INBOUND_STREAMS,
    );
    let tag = Number::at(
        ": tag ",
        "initiate_tag",
        chunk,
        InitNumbers::INITIATE_TAG,
        4,
    );
    fields.number(&tag.in_form(Form::Hexadecimal));
    fields.number(&Number::at(", a_rwnd ", "a_rwnd", chunk, InitNumbers::A_RWND, 4));
    fields.number(&Number::at(
        ", outbound streams ",
        "outbound_streams",
        chunk,
        outbound,
        2,
    ));
    fields.number(&Number::at(", inbound streams ", "inbound_streams", chunk, inbound, 2));
    fields.number(&Number::at(
        ", initial tsn ",
        "initial_tsn",
        chunk,
        InitNumbers::INITIAL_TSN,
        4,
    ))
}

/// Hands over a SACK, as far as its lists were captured, as `walk_meaning` does.
fn walk_sack<F: Fields>(chunk: &Item<'_>, fields: &mut F) -> bool {
    let bytes = chunk.value.bytes;
    if bytes.len() < SackNumbers::SIZE {
        return false;
    }
    let numbers = SackNumbers::read(bytes);
    if chunk.value.size != numbers.value_size() {
        return false;
    }
    let cumulative = SackNumbers::CUMULATIVE_TSN_ACK;
    fields.number(&Number::at(
        ": cumulative tsn ",
        "cumulative_tsn_ack",
        chunk,
        cumulative,
        4,
    ));
    fields.number(&Number::at(", a_rwnd ", "a_rwnd", chunk, SackNumbers::A_RWND, 4));
    let captured = (bytes.len() - SackNumbers::SIZE) / SACK_ENTRY_SIZE;
    let blocks = numbers.gap_ack_block_count as usize;
    let blocks_captured = blocks.min(captured);
    let first = Number::at("\n  block ", "start", chunk, SackNumbers::SIZE, 2);
    let tsn = numbers.cumulative_tsn_ack.0;
    walk_blocks("blocks", blocks_captured, first, tsn, chunk, fields);
    let first_duplicate = Number::at(
        "\n  duplicate tsn ",
        "tsn",
        chunk,
        SackNumbers::SIZE + SACK_ENTRY_SIZE * blocks,
        4,
    );
    walk_numbers(
        "duplicates",
        captured - blocks_captured,
        first_duplicate,
        chunk,
        fields,
    );
    true
}

/// Hands over an NR-SACK (draft-tuexen-tsvwg-sctp-multipath), as `walk_sack` does.
fn walk_nr_sack<F: Fields>(chunk: &Item<'_>, fields: &mut F) -> bool {
    let bytes = chunk.value.bytes;
    if bytes.len() < NR_SACK_LISTS_OFFSET {
        return false;
    }
    let blocks = read_u16_be(&bytes[NR_SACK_BLOCKS_OFFSET..]) as usize;
    let nr_blocks = read_u16_be(&bytes[NR_SACK_NR_BLOCKS_OFFSET..]) as usize;
    let duplicates = read_u16_be(&bytes[NR_SACK_DUPLICATES_OFFSET..]) as usize;
    let entries = blocks + nr_blocks + duplicates;
    if chunk.value.size != NR_SACK_LISTS_OFFSET + SACK_ENTRY_SIZE * entries {
        return false;
    }
    let cumulative = Number::at(": cumulative tsn ", "cumulative_tsn_ack", chunk, 0, 4);
    let tsn = cumulative.value;
    fields.number(&cumulative);
    fields.number(&Number::at(", a_rwnd ", "a_rwnd", chunk, 4, 4));
    let captured = (bytes.len() - NR_SACK_LISTS_OFFSET) / SACK_ENTRY_SIZE;
    let first = Number::at("\n  block ", "start", chunk, NR_SACK_LISTS_OFFSET, 2);
    walk_blocks("blocks", blocks.min(captured), first, tsn, chunk, fields);
    let captured = captured.saturating_sub(blocks);
    let place = NR_SACK_LISTS_OFFSET + SACK_ENTRY_SIZE * blocks;
    let first = Number::at("\n  nr block ", "start", chunk, place, 2);
    let count = nr_blocks.min(captured);
    walk_blocks("nr_blocks", count, first, tsn, chunk, fields);
    let captured = captured.saturating_sub(nr_blocks);
    let place = place + SACK_ENTRY_SIZE * nr_blocks;
    let first = Number::at("\n  duplicate tsn ", "tsn", chunk, place, 4);
    walk_numbers("duplicates", captured, first, chunk, fields);
    true
}

/// Hands over the gap ack blocks of a SACK or an NR-SACK; the start of the first is given.
fn walk_blocks<F: Fields>(
    key: &'static str,
    count: usize,
    first: Number,
    cumulative_tsn: u32,
    chunk: &Item<'_>,
    fields: &mut F,
) {
    fields.begin_list(key, count == 0);
    let mut start = first;
    for _ in 0..count {
        let end = start.next(chunk);
        fields.block(&Block {
            words: start.words,
            offset: start.offset,
            start: start.value,
            end: end.value,
            cumulative_tsn,
        });
        start = end.next(chunk);
    }
    fields.end_list()
}

/// Hands over a FORWARD-TSN or an I-FORWARD-TSN, as `walk_meaning` does.
fn walk_forward_tsn<F: Fields>(chunk: &Item<'_>, fields: &mut F) -> bool {
    let (typ, flags, value) = (chunk.first, chunk.second, chunk.value.bytes);
    let Some(forward) = ForwardTsnRef::from_raw(&RawChunk { typ, flags, value }) else {
        return false;
    };
    let words = ": new cumulative tsn ";
    let place = ForwardTsnNumbers::NEW_CUMULATIVE_TSN;
    fields.number(&Number::at(words, "new_cumulative_tsn", chunk, place, 4));
    let count = forward.skipped_stream_count();
    let size = if typ == forward_tsn_chunk::CHUNK_TYPE {
        SsnStreamField::SIZE
    } else {
        MidStreamField::SIZE
    };
    fields.begin_list("streams", count == 0);
    let mut offset = HEADER_SIZE + ForwardTsnNumbers::SIZE;
    for _ in 0..count {
        walk_stream(offset, size, chunk, fields);
        offset = offset.saturating_add(size);
    }
    fields.end_list();
    true
}

/// Hands over a skipped stream, whose size says whether it is one of FORWARD-TSN or of
/// I-FORWARD-TSN.
fn walk_stream<F: Fields>(offset: usize, size: usize, chunk: &Item<'_>, fields: &mut F) {
    fields.begin_entry(offset, size);
    fields.number(&Number::read("\n  stream ", "stream", chunk, offset, 2));
    if size == SsnStreamField::SIZE {
        let offset = offset.saturating_add(2);
        fields.number(&Number::read(", ssn ", "ssn", chunk, offset, 2));
    } else {
        let bits = Number::read("", "", chunk, offset.saturating_add(3), 1);
        fields.flag(&order_flag(bits.value % 2 == 1, bits.offset));
        let offset = offset.saturating_add(4);
        fields.number(&Number::read(", mid ", "mid", chunk, offset, 4));
    }
    fields.end_entry()
}

/// Hands over a DATA or an I-DATA, as `walk_meaning` does.
fn walk_data<F: Fields>(chunk: &Item<'_>, fields: &mut F) -> bool {
    let (typ, flags, value) = (chunk.first, chunk.second, chunk.value.bytes);
    let Some(data) = UserData::from_raw(&RawChunk { typ, flags, value }) else {
        return false;
    };
    // (both kinds have these two at the same places)
    fields.number(&Number::at(": tsn ", "tsn", chunk, DataNumbers::TSN, 4));
    fields.number(&Number::at(", stream ", "stream", chunk, DataNumbers::STREAM_ID, 2));
    let size = if typ == data_chunk::CHUNK_TYPE {
        fields.number(&Number::at(", ssn ", "ssn", chunk, DataNumbers::SSN, 2));
        walk_ppid(DataNumbers::PPID, chunk, fields);
        DataNumbers::SIZE
    } else {
        fields.number(&Number::at(", mid ", "mid", chunk, IDataNumbers::MID, 4));
        if data.is_beginning {
            walk_ppid(IDataNumbers::PPID_OR_FSN, chunk, fields);
        } else {
            fields.number(&Number::at(", fsn ", "fsn", chunk, IDataNumbers::PPID_OR_FSN, 4));
        }
        IDataNumbers::SIZE
    };
    walk_bits(&data, fields);
    let offset = HEADER_SIZE + size;
    let payload = chunk.value.after(size);
    let is_message = data.is_beginning && data.is_end && payload.is_whole();
    fields.payload(
        payload,
        offset,
        is_message && data.ppid == PpId::WEBRTC_STRING,
    );
    if is_message && data.ppid == PpId::WEBRTC_DCEP {
        walk_channel(offset, payload.bytes, chunk, fields);
    }
    true
}

/// Hands over a payload protocol identifier, which is at a place in the value.
fn walk_ppid<F: Fields>(place: usize, chunk: &Item<'_>, fields: &mut F) {
    let ppid = Number::at(", ppid ", "ppid", chunk, place, 4);
    fields.named(&ppid, payload_protocol(ppid.value))
}

/// Hands over the bits of a chunk with user data.
fn walk_bits<F: Fields>(data: &UserData<'_>, fields: &mut F) {
    fields.flag(&order_flag(data.stream_key.is_unordered(), 1));
    fields.flag(&set_flag(", beginning", "beginning", data.is_beginning));
    fields.flag(&set_flag(", end", "end", data.is_end));
    fields.flag(&set_flag(", immediate", "immediate", data.immediate_ack))
}

/// Returns a bit of a chunk's flags; of one that isn't set nothing is said.
pub fn set_flag(words: &'static str, key: &'static str, is_set: bool) -> Flag {
    Flag {
        words: (words, ""),
        key,
        otherwise: "",
        offset: 1,
        is_set,
    }
}

/// Returns the U bit, in a byte at an offset.
fn order_flag(is_set: bool, offset: usize) -> Flag {
    Flag {
        words: (", unordered", ", ordered"),
        key: "unordered",
        otherwise: "ordered",
        offset,
        is_set,
    }
}
