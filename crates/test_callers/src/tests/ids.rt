//! Numbers, ids, keys, times, messages and settings: arithmetic, order, equality, hashes and texts.

use dcsctp_wire::api::{
    LifecycleId, Message, PpId, SocketTime, StreamId,
    ZERO_CHECKSUM_ALTERNATE_ERROR_DETECTION_METHOD_LOWER_LAYER_DTLS as DTLS,
    ZERO_CHECKSUM_ALTERNATE_ERROR_DETECTION_METHOD_NONE as NONE,
    ZeroChecksumAlternateErrorDetectionMethod,
};
use dcsctp_wire::packet::SkippedStream;
use dcsctp_wire::types::StreamKey::{Ordered, Unordered};
use dcsctp_wire::types::{Fsn, Mid, OutgoingMessageId, Ssn, StreamKey, Tsn};
use std::alloc::{AllocError, Global};
use std::fmt::{Debug, Display};
use std::hash::{DefaultHasher, Hash, Hasher};
use std::test::Fail;
use std::time::Duration;

#[test]
fn arithmetic_wraps(rt: HostRuntime) {
    assert!(rt; Ssn(65_535) + 1 == Ssn(0) && Ssn(0) - 1 == Ssn(65_535));
    assert!(rt; Ssn(65_535).add_to(2) == Ssn(1) && Fsn(u32::MAX).add_to(2) == Fsn(1));
    assert!(rt; Tsn(u32::MAX) + 1 == Tsn(0) && Fsn(u32::MAX) + 1 == Fsn(0));
    assert!(rt; Mid(u32::MAX) + 1 == Mid(0) && Mid(0) - 1 == Mid(u32::MAX));
    let mut tsn = Tsn(u32::MAX);
    tsn += 3;
    assert!(rt; tsn == Tsn(2));
    tsn -= 4;
    assert!(rt; tsn == Tsn(u32::MAX - 1));
    let mut id = OutgoingMessageId(u32::MAX);
    id += 1;
    assert!(rt; id == OutgoingMessageId(0));
    id = OutgoingMessageId(u32::MAX);
    id += 2;
    assert!(rt; id == OutgoingMessageId(1));
}

#[test]
fn times_saturate(rt: HostRuntime) {
    let (start, end) = (SocketTime::zero(), SocketTime::infinite_future());
    let second = Duration::from_secs(1);
    assert!(rt; start - second == start && end + second == end && end - start == Duration::MAX);
    let (sooner, later) = (start + second * 5, start + second * 7);
    assert!(rt; sooner - later == Duration::ZERO && later - sooner == second * 2);
    assert!(rt; start < sooner && sooner < later && later < end);
}

#[test]
fn ids_and_keys(rt: HostRuntime) {
    let id = LifecycleId::from(7);
    assert!(rt; LifecycleId::new(0).is_none() && LifecycleId::new(7) == Some(id));
    assert!(rt; id.value() == 7);
    let (ordered, unordered) = (Ordered(StreamId(65_535)), Unordered(StreamId(0)));
    assert!(rt; StreamKey::new(false, StreamId(65_535)) == ordered);
    assert!(rt; StreamKey::new(true, StreamId(0)) == unordered);
    assert!(rt; ordered < unordered && Ordered(StreamId(1)) < ordered);
    assert!(rt; ordered.is_ordered() && !ordered.is_unordered());
    assert!(rt; unordered.is_unordered() && !unordered.is_ordered());
    assert!(rt; ordered.id() == StreamId(65_535) && unordered.id() == StreamId(0));
    let skipped = SkippedStream::ForwardTsn(StreamId(1), Ssn(2));
    assert!(rt; skipped == SkippedStream::ForwardTsn(StreamId(1), Ssn(2)));
    assert!(rt; skipped != SkippedStream::IForwardTsn(Unordered(StreamId(3)), Mid(4)));
    assert!(rt; skipped != SkippedStream::IForwardTsn(Unordered(StreamId(1)), Mid(2)));
}

/// Returns whether a message on stream 3 is so shown.
fn is_message(alloc: Global, ppid: PpId, payload: &[u8], wanted: &str) -> Result<bool, AllocError> {
    let message = Message::new(StreamId(3), ppid, Vec::from_slice(alloc, payload)?);
    Ok(format!(in alloc; "{message:?}")?.as_str() == wanted)
}

#[test]
fn messages(rt: HostRuntime) -> Result<(), Fail> {
    let wanted = "Message { stream_id: 3, ppid: 53, payload: [1, 2] }";
    assert!(rt; is_message(rt.alloc(), PpId(53), &[1, 2], wanted)?);
    let wanted = "Message { stream_id: 3, ppid: 51, payload: [104, 105] }";
    assert!(rt; is_message(rt.alloc(), PpId::WEBRTC_STRING, b"hi", wanted)?);
    Ok(())
}

#[test]
fn numbers_of_names(rt: HostRuntime) {
    assert!(rt; NONE.0 == 0 && DTLS.0 == 1);
    assert!(rt; ZeroChecksumAlternateErrorDetectionMethod::from(1) == DTLS);
    assert!(rt; PpId::WEBRTC_DCEP == PpId(50) && PpId::WEBRTC_STRING == PpId(51));
    assert!(rt; PpId::WEBRTC_BINARY == PpId(53));
}

// ---- traits, through their bounds

fn hash_of<T: Hash>(value: &T) -> u64 {
    let mut state = DefaultHasher::new();
    value.hash(&mut state);
    state.finish()
}

/// Returns whether two values are equal and hash equally, and another differs.
fn agree<T: Eq + Hash + Copy>(a: T, same: T, other: T) -> bool {
    a == same && hash_of(&a) == hash_of(&same) && a != other
}

/// Returns whether `a` comes before `b`, and not the other way round.
fn precedes<T: Ord + Copy>(a: T, b: T) -> bool {
    a < b && !(b < a) && a <= a
}

/// Returns whether numbers that are converted print so, plainly and for a developer, and those of 1
/// and 2 differ.
fn are_printed<N: From<u8> + Copy, T: From<N> + Eq + Hash + Copy + Debug + Display>(
    alloc: Global,
    numbers: &[N],
    wanted: &str,
) -> Result<bool, AllocError> {
    let (one, same, two) = (
        T::from(N::from(1)),
        T::from(N::from(1)),
        T::from(N::from(2)),
    );
    let mut text = String::new(alloc);
    for number in numbers {
        let id = T::from(*number);
        write!(text, "{id} {id:?} ")?;
    }
    Ok(agree(one, same, two) && text.as_str() == wanted)
}

#[test]
fn numbers(rt: HostRuntime) -> Result<(), Fail> {
    let alloc = rt.alloc();
    assert!(rt; are_printed::<u16, Ssn>(alloc, &[65_535], "65535 65535 ")?);
    assert!(rt; are_printed::<u16, StreamId>(alloc, &[300, 345], "300 300 345 345 ")?);
    assert!(rt; are_printed::<u32, Mid>(alloc, &[70_000, 0], "70000 70000 0 0 ")?);
    assert!(rt; are_printed::<u32, Fsn>(alloc, &[5, 10], "5 5 10 10 ")?);
    assert!(rt; are_printed::<u32, Tsn>(alloc, &[u32::MAX], "4294967295 4294967295 ")?);
    assert!(rt; are_printed::<u32, OutgoingMessageId>(alloc, &[8, 12], "8 8 12 12 ")?);
    assert!(rt; are_printed::<u32, PpId>(alloc, &[53], "53 53 ")?);
    let last = LifecycleId::from(u64::MAX);
    let text = format!(in alloc; "{last} {last:?}")?;
    assert!(rt; text.as_str() == "18446744073709551615 18446744073709551615");
    Ok(())
}

#[test]
fn orders(rt: HostRuntime) {
    let (ordered, unordered) = (Ordered(StreamId(1)), Unordered(StreamId(1)));
    assert!(rt; agree(ordered, StreamKey::new(false, StreamId(1)), unordered));
    assert!(rt; precedes(StreamId(1), StreamId(2)) && precedes(PpId(51), PpId(53)));
    let (one, two) = (LifecycleId::from(1), LifecycleId::from(2));
    assert!(rt; agree(one, LifecycleId::from(1), two) && precedes(one, two));
    assert!(rt; precedes(ordered, unordered) && precedes(unordered, Unordered(StreamId(2))));
    assert!(rt; precedes(SocketTime::zero(), SocketTime::infinite_future()));
}
