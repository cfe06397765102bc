//! Laws of serial numbers, as contracts of functions that do nothing.

ghost use Rattle.std.specs.{Prelude.{◌≡◌, ℕ, ◌/◌, ◌<◌, ◌↔◌}, Ordering.{nat_cmp}};
ghost use Rattle.dcsctp_types.specs.{Equality.{TellsSame, IsItself}, Serial.{wrapped_sum, wrapped_difference, IsGreater}};

use crate::api::{
    LifecycleId, PpId, SocketTime, StreamId,
    ZERO_CHECKSUM_ALTERNATE_ERROR_DETECTION_METHOD_LOWER_LAYER_DTLS as DTLS,
    ZERO_CHECKSUM_ALTERNATE_ERROR_DETECTION_METHOD_NONE as NONE,
    ZeroChecksumAlternateErrorDetectionMethod,
};
use crate::types::{Fsn, Mid, OutgoingMessageId, SerialNumber, Ssn, StreamKey, Tsn};
use std::cmp::Ordering;
use std::time::Duration;

#[tactic(auto, using(crate::proofs::SerialOrder::ordered_in_window, crate::proofs::SerialOrder::greater_one_way))]
/// Proves the order of serial numbers, seen from a base: of two numbers that are after the base by
/// less than half of the space, the greater one is further after it (RFC 1982 section 3.2).
///
/// Without such a base the order isn't transitive. But no number is greater than itself, no two are
/// greater than each other, and at a difference of half of the space neither is greater.
pub fn window<S: SerialNumber>()
    // x and y are i and j places after the base
    ensures window { (base x y : S) (i j : ℕ) → i < S.space / 2 → j < S.space / 2
        → S.position x ≡ wrapped_sum S.space (S.position base) i
        → S.position y ≡ wrapped_sum S.space (S.position base) j
        → (IsGreater S.space (S.position x) (S.position y) ↔ (j < i)) }
    ensures irreflexive { (x : S) → ¬ IsGreater S.space (S.position x) (S.position x) }
    ensures asymmetric { (x y : S) → IsGreater S.space (S.position x) (S.position y)
        → ¬ IsGreater S.space (S.position y) (S.position x) }
    ensures half { (x y : S)
        → wrapped_difference S.space (S.position x) (S.position y) ≡ S.space / 2
        → (¬ IsGreater S.space (S.position x) (S.position y))
        × (¬ IsGreater S.space (S.position y) (S.position x)) }
{}

/// Proves the orders of ids, keys and times: stream ids, payload protocol ids and lifecycle ids are
/// ordered by their numbers, times by their durations; every ordered key is less than every
/// unordered one, and keys of one kind are ordered by their stream ids.
pub fn orders()
    ensures stream_ids { (a b : StreamId) → ⟦<StreamId as Ord>⟧.cmp a b ≡ nat_cmp a.0 b.0 }
    ensures ppids { (a b : PpId) → ⟦<PpId as Ord>⟧.cmp a b ≡ nat_cmp a.0 b.0 }
    ensures ordered_keys { (a b : StreamId)
        → ⟦<StreamKey as Ord>⟧.cmp (StreamKey.Ordered a) (StreamKey.Ordered b) ≡ nat_cmp a.0 b.0 }
    ensures unordered_keys { (a b : StreamId)
        → ⟦<StreamKey as Ord>⟧.cmp (StreamKey.Unordered a)
        (StreamKey.Unordered b) ≡ nat_cmp a.0 b.0 }
    ensures kinds_of_keys { (a b : StreamId)
        → ⟦<StreamKey as Ord>⟧.cmp (StreamKey.Ordered a) (StreamKey.Unordered b) ≡ Ordering.Less }
    ensures lifecycle_ids { (a b : LifecycleId) → ⟦<LifecycleId as Ord>⟧.cmp a b ≡ nat_cmp a b }
    ensures times { (a b : SocketTime)
        → ⟦<SocketTime as Ord>⟧.cmp a b ≡ ⟦<Duration as Ord>⟧.cmp a b }
{}

/// Proves that two values are equal if and only if they are the same: serial numbers, keys, ids,
/// times and methods.
pub fn equality()
    ensures tsns { TellsSame ⟦<Tsn as PartialEq>⟧.eq }
    ensures ssns { TellsSame ⟦<Ssn as PartialEq>⟧.eq }
    ensures mids { TellsSame ⟦<Mid as PartialEq>⟧.eq }
    ensures fsns { TellsSame ⟦<Fsn as PartialEq>⟧.eq }
    ensures message_ids { TellsSame ⟦<OutgoingMessageId as PartialEq>⟧.eq }
    ensures stream_keys { TellsSame ⟦<StreamKey as PartialEq>⟧.eq }
    ensures stream_ids { TellsSame ⟦<StreamId as PartialEq>⟧.eq }
    ensures ppids { TellsSame ⟦<PpId as PartialEq>⟧.eq }
    ensures lifecycle_ids { TellsSame ⟦<LifecycleId as PartialEq>⟧.eq }
    ensures times { TellsSame ⟦<SocketTime as PartialEq>⟧.eq }
    ensures methods { TellsSame ⟦<ZeroChecksumAlternateErrorDetectionMethod as PartialEq>⟧.eq }
{}

/// Proves that a clone is the value itself: of serial numbers, keys, ids, times and methods.
pub fn clones()
    ensures tsns { IsItself ⟦<Tsn as Clone>⟧.is_clone }
    ensures ssns { IsItself ⟦<Ssn as Clone>⟧.is_clone }
    ensures mids { IsItself ⟦<Mid as Clone>⟧.is_clone }
    ensures fsns { IsItself ⟦<Fsn as Clone>⟧.is_clone }
    ensures message_ids { IsItself ⟦<OutgoingMessageId as Clone>⟧.is_clone }
    ensures stream_keys { IsItself ⟦<StreamKey as Clone>⟧.is_clone }
    ensures stream_ids { IsItself ⟦<StreamId as Clone>⟧.is_clone }
    ensures ppids { IsItself ⟦<PpId as Clone>⟧.is_clone }
    ensures lifecycle_ids { IsItself ⟦<LifecycleId as Clone>⟧.is_clone }
    ensures times { IsItself ⟦<SocketTime as Clone>⟧.is_clone }
    ensures methods { IsItself ⟦<ZeroChecksumAlternateErrorDetectionMethod as Clone>⟧.is_clone }
{}

/// Proves that the methods of error detection have these numbers.
pub fn methods()
    ensures none { NONE.0 ≡ 0 }
    ensures dtls { DTLS.0 ≡ 1 }
{}

/// Proves that the payload protocol identifiers of WebRTC data channels have these numbers (RFC
/// 8831 section 8).
pub fn webrtc_ppids()
    ensures dcep { PpId.WEBRTC_DCEP.0 ≡ 50 }
    ensures string { PpId.WEBRTC_STRING.0 ≡ 51 }
    ensures binary_partial { PpId.WEBRTC_BINARY_PARTIAL.0 ≡ 52 }
    ensures binary { PpId.WEBRTC_BINARY.0 ≡ 53 }
    ensures string_partial { PpId.WEBRTC_STRING_PARTIAL.0 ≡ 54 }
    ensures string_empty { PpId.WEBRTC_STRING_EMPTY.0 ≡ 56 }
    ensures binary_empty { PpId.WEBRTC_BINARY_EMPTY.0 ≡ 57 }
{}
