//! The largest chunks that can be written, of 65,535 bytes; and streams of the other kind.

use crate::tests::help::size_of;
use dcsctp_wire::api::StreamId;
use dcsctp_wire::packet::abort_chunk::AbortChunk;
use dcsctp_wire::packet::chunk::Chunk;
use dcsctp_wire::packet::cookie_ack_chunk::CookieAckChunk;
use dcsctp_wire::packet::error_causes::ErrorCause;
use dcsctp_wire::packet::error_chunk::{self, ErrorChunk};
use dcsctp_wire::packet::forward_tsn_chunk::ForwardTsnChunk;
use dcsctp_wire::packet::heartbeat_ack_chunk::{self, HeartbeatAckChunk};
use dcsctp_wire::packet::heartbeat_info_parameter::HeartbeatInfoParameter;
use dcsctp_wire::packet::heartbeat_request_chunk::HeartbeatRequestChunk;
use dcsctp_wire::packet::iforward_tsn_chunk::IForwardTsnChunk;
use dcsctp_wire::packet::init_ack_chunk::InitAckChunk;
use dcsctp_wire::packet::init_chunk::InitChunk;
use dcsctp_wire::packet::parameter::Parameter;
use dcsctp_wire::packet::re_config_chunk::ReConfigChunk;
use dcsctp_wire::packet::unrecognized_chunk_error_cause::UnrecognizedChunkErrorCause;
use dcsctp_wire::packet::{SerializableTlv, SkippedStream, data_chunk, idata_chunk};
use dcsctp_wire::types::{Mid, Ssn, StreamKey, Tsn};
use std::alloc::{AllocError, Global};
use std::test::Fail;

/// Parameters with as many bytes each.
fn infos(alloc: Global, sizes: &[usize]) -> Result<Vec<Parameter>, AllocError> {
    let mut list = Vec::new(alloc);
    for size in sizes {
        let info = vec![in alloc; 1; *size]?;
        list.push(Parameter::HeartbeatInfo(HeartbeatInfoParameter { info }))?;
    }
    Ok(list)
}

/// Returns error causes of these sizes.
fn causes(alloc: Global, sizes: &[usize]) -> Result<Vec<ErrorCause>, AllocError> {
    let mut list = Vec::new(alloc);
    for size in sizes {
        let chunk = vec![in alloc; 1; *size]?;
        list.push(ErrorCause::UnrecognizedChunk(UnrecognizedChunkErrorCause { chunk }))?;
    }
    Ok(list)
}

/// Returns INIT or INIT ACK.
fn init_with(typ: u8, parameters: Vec<Parameter>) -> Chunk {
    let (initiate_tag, a_rwnd, initial_tsn) = (1, 2, Tsn(5));
    let (nbr_outbound_streams, nbr_inbound_streams) = (3, 4);
    if typ == 1 {
        Chunk::Init(InitChunk {
            initiate_tag,
            a_rwnd,
            nbr_outbound_streams,
            nbr_inbound_streams,
            initial_tsn,
            parameters,
        })
    } else {
        Chunk::InitAck(InitAckChunk {
            initiate_tag,
            a_rwnd,
            nbr_outbound_streams,
            nbr_inbound_streams,
            initial_tsn,
            parameters,
        })
    }
}

/// Returns the size that a chunk of this type is written in with items of these sizes; `None` if it
/// can't be written.
fn size_with(alloc: Global, typ: u8, sizes: &[usize]) -> Result<Option<usize>, AllocError> {
    let parameters = infos(alloc, sizes)?;
    Ok(size_of(match typ {
        4 => Chunk::HeartbeatRequest(HeartbeatRequestChunk { parameters }),
        5 => Chunk::HeartbeatAck(HeartbeatAckChunk { parameters }),
        130 => Chunk::ReConfig(ReConfigChunk { parameters }),
        _ => init_with(typ, parameters),
    }))
}

/// Returns the size that an ABORT or an ERROR is written in with causes of these sizes; `None` if
/// it can't be written.
fn size_with_causes(alloc: Global, typ: u8, sizes: &[usize]) -> Result<Option<usize>, AllocError> {
    let error_causes = causes(alloc, sizes)?;
    let tag_reflected = true;
    Ok(size_of(if typ == 6 {
        Chunk::Abort(AbortChunk {
            tag_reflected,
            error_causes,
        })
    } else {
        Chunk::Error(ErrorChunk { error_causes })
    }))
}

#[test]
fn of_chunks(rt: HostRuntime) -> Result<(), Fail> {
    let alloc = rt.alloc();
    // both headers come to 8 bytes, or to 24 with the numbers; an item that is a byte longer could
    // be written by itself, and the longest of the three couldn't
    for (typ, most) in [(4, 65527), (5, 65527), (130, 65527), (1, 65511), (2, 65511)] {
        for (size, wanted) in [(most, Some(65535)), (most + 1, None), (65532, None)] {
            assert!(rt; size_with(alloc, typ, &[size])? == wanted, "{typ} {size}");
        }
    }
    for typ in [6, 9] {
        for (size, wanted) in [(65527, Some(65535)), (65528, None), (65532, None)] {
            assert!(rt;
                size_with_causes(alloc, typ, &[size])? == wanted,
                "{typ} {size}"
            );
        }
    }
    // padding between two items counts, and after the last it doesn't: the first takes 8 bytes
    for (size, wanted) in [
        (1, Some(17)),
        (65519, Some(65535)),
        (65520, None),
        (65532, None),
    ] {
        assert!(rt; size_with(alloc, 4, &[1, size])? == wanted, "{size}");
    }
    Ok(())
}

const BY_SSN: SkippedStream = SkippedStream::ForwardTsn(StreamId(3), Ssn(4));

const BY_MID: SkippedStream = SkippedStream::IForwardTsn(StreamKey::Unordered(StreamId(3)), Mid(4));

/// Streams that are skipped, each by a message id or by a sequence number.
fn skipped(alloc: Global, by_mid: &[bool]) -> Result<Vec<SkippedStream>, AllocError> {
    let mut streams = Vec::new(alloc);
    for by_mid in by_mid {
        streams.push(if *by_mid { BY_MID } else { BY_SSN })?;
    }
    Ok(streams)
}

/// Returns how many bytes FORWARD-TSN and I-FORWARD-TSN have that skip these streams, or nothing if
/// it can't be written.
fn sizes_with(alloc: Global, by_mid: &[bool]) -> Result<[Option<usize>; 2], AllocError> {
    let forward = size_of(ForwardTsnChunk {
        new_cumulative_tsn: Tsn(4294967295),
        skipped_streams: skipped(alloc, by_mid)?,
    });
    let iforward = size_of(IForwardTsnChunk {
        new_cumulative_tsn: Tsn(4294967295),
        skipped_streams: skipped(alloc, by_mid)?,
    });
    Ok([forward, iforward])
}

// Each kind of chunk has a place for one kind of stream alone.
#[test]
fn of_streams(rt: HostRuntime) -> Result<(), Fail> {
    assert!(rt; sizes_with(rt.alloc(), &[false])? == [Some(12), None]);
    assert!(rt; sizes_with(rt.alloc(), &[true])? == [None, Some(16)]);
    // one of each, with either first
    assert!(rt; sizes_with(rt.alloc(), &[false, true])? == [None, None]);
    assert!(rt; sizes_with(rt.alloc(), &[true, false])? == [None, None]);
    Ok(())
}

#[test]
fn of_headers(rt: HostRuntime) {
    assert!(rt; data_chunk::HEADER_SIZE == 16 && idata_chunk::HEADER_SIZE == 20);
    assert!(rt; error_chunk::HEADER_SIZE == 4 && heartbeat_ack_chunk::HEADER_SIZE == 4);
    assert!(rt; CookieAckChunk.value_size() == 0 && CookieAckChunk.serialized_size() == 4);
}
