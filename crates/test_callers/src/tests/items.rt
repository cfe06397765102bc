//! Parameters and error causes that no bytes are: their sizes, and lists of a test's own.

ghost use Rattle.std.specs.Int.{w32, to_be_bytes};
ghost use Rattle.dcsctp_tlv.specs.UnknownParameter as unknown;

use crate::tests::help::size_of;
use dcsctp_tlv::frame::put_parameter;
use dcsctp_tlv::widths::are_bytes;
use dcsctp_wire::api::StreamId;
use dcsctp_wire::packet::SerializableTlv;
use dcsctp_wire::packet::missing_mandatory_parameter_error_cause::MissingMandatoryParameterErrorCause;
use dcsctp_wire::packet::outgoing_ssn_reset_request_parameter::OutgoingSsnResetRequestParameter;
use dcsctp_wire::packet::parameter::{
    Parameter, parameters_encodable, parameters_serialize_to, parameters_serialized_size,
};
use dcsctp_wire::packet::reconfiguration_response_parameter::{
    ReconfigurationResponseParameter, ReconfigurationResponseResult,
};
use dcsctp_wire::packet::state_cookie_parameter::StateCookieParameter;
use dcsctp_wire::packet::unknown_parameter::UnknownParameter;
use dcsctp_wire::types::Tsn;
use std::alloc::{AllocError, Global};
use std::test::Fail;

/// Returns whether a list of two cookies of these sizes can be written.
fn are_cookies_encodable(alloc: Global, sizes: [usize; 2]) -> Result<bool, AllocError> {
    let mut list = Vec::new(alloc);
    for size in sizes {
        let cookie = vec![in alloc; 1; size]?;
        list.push(StateCookieParameter { cookie })?;
    }
    Ok(parameters_encodable(&list))
}

/// Returns whether a list of two parameters without a kind, of these sizes, can be written.
fn are_unknown_encodable(alloc: Global, sizes: [usize; 2]) -> Result<bool, AllocError> {
    let mut list = Vec::new(alloc);
    for size in sizes {
        list.push(UnknownParameter::new(99, vec![in alloc; 1; size]?))?;
    }
    Ok(parameters_encodable(&list))
}

/// Returns how many bytes a request has that names `count` streams, or nothing if it can't be
/// written.
fn request_size(alloc: Global, count: usize) -> Result<Option<usize>, AllocError> {
    Ok(size_of(OutgoingSsnResetRequestParameter {
        request_seq_nbr: 1,
        response_seq_nbr: 2,
        sender_last_assigned_tsn: Tsn(3),
        streams: vec![in alloc; StreamId(4); count]?,
    }))
}

/// Returns how many bytes a cause has that names `count` types, or nothing if it can't be written.
fn missing_size(alloc: Global, count: usize) -> Result<Option<usize>, AllocError> {
    let types = vec![in alloc; 7; count]?;
    Ok(size_of(MissingMandatoryParameterErrorCause::new(types)))
}

#[test]
fn sizes(rt: HostRuntime) -> Result<(), Fail> {
    let alloc = rt.alloc();
    // two in 65,536 bytes, and in 65,535
    let (most, fewer) = ([32764, 32764], [32764, 32763]);
    assert!(rt; !are_cookies_encodable(alloc, most)? && are_cookies_encodable(alloc, fewer)?);
    assert!(rt; !are_unknown_encodable(alloc, most)? && are_unknown_encodable(alloc, fewer)?);
    // the most that can be named, and one more
    assert!(rt; request_size(alloc, 32759)? == Some(65534) && request_size(alloc, 32760)? == None);
    assert!(rt; missing_size(alloc, 32763)? == Some(65534) && missing_size(alloc, 32764)? == None);
    Ok(())
}

/// Returns whether a cause that names two types equals its copy, and whether it equals one that
/// names none.
fn are_equal(alloc: Global) -> Result<(bool, bool), AllocError> {
    let types = Vec::from_slice(alloc, &[7, 13])?;
    let cause = MissingMandatoryParameterErrorCause::new(types);
    let copy = cause.clone()?;
    let other = MissingMandatoryParameterErrorCause::new(Vec::new(alloc));
    Ok((cause == copy, cause == other))
}

#[test]
fn equal(rt: HostRuntime) -> Result<(), Fail> {
    assert!(rt; are_equal(rt.alloc())? == (true, false));
    Ok(())
}

/// A parameter of type 66, whose value is a number.
#[derive(Drop)]
struct Number(u32);

impl SerializableTlv for Number {
    /// An unknown parameter of that type is written alike.
    ghost format = { λ n. unknown.format (record { typ = 66; value = to_be_bytes w32 n.0 }) };

    fn serialize_to(&self, output: &mut [u8]) {
        put_parameter(66, &self.0.to_be_bytes(), output);
    }

    fn encoded_size(&self) -> Option<usize> {
        Some(8)
    }

    fn has_widths(&self) {
        are_bytes(&self.0.to_be_bytes());
    }
}

/// Returns whether a list is written as these bytes: as many as its size says, and as the writer
/// does.
fn is_written<T: SerializableTlv>(
    alloc: Global,
    list: &[T],
    wanted: &[u8],
) -> Result<bool, AllocError> {
    if !parameters_encodable(list) {
        return Ok(false);
    }
    let mut output = vec![in alloc; 0xee; parameters_serialized_size(list)]?;
    let size = parameters_serialize_to(list, &mut output);
    Ok(size == wanted.len() && output.as_slice() == wanted)
}

/// Returns whether a list of one item is written as these bytes.
fn is_one_written<T: SerializableTlv + Drop>(
    alloc: Global,
    item: T,
    wanted: &[u8],
) -> Result<bool, AllocError> {
    let mut list = Vec::new(alloc);
    list.push(item)?;
    is_written(alloc, &list, wanted)
}

// Lists of one kind, of any, and of a type that is no parameter.
#[test]
fn lists(rt: HostRuntime) -> Result<(), Fail> {
    let alloc = rt.alloc();
    assert!(rt; is_written::<Parameter>(alloc, &[], &[])?);
    assert!(rt; is_one_written(alloc, Number(31337), &[0, 0x42, 0, 8, 0, 0, 0x7a, 0x69])?);
    // one next TSN alone isn't written
    let response = ReconfigurationResponseParameter {
        response_seq_nbr: 1,
        result: ReconfigurationResponseResult::SuccessPerformed,
        sender_next_tsn: Some(Tsn(2)),
        receiver_next_tsn: None,
    };
    assert!(rt; is_one_written(alloc, response, &[0, 16, 0, 12, 0, 0, 0, 1, 0, 0, 0, 1])?);
    Ok(())
}
