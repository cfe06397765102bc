//! A packet that owns its bytes, for whoever keeps packets: retransmission queues, captures, tests.

ghost use Rattle.std.specs.Prelude.{◌≡◌, ◌≤◌, ℕ, Ok, IfOk, IsOk, OnOk, OnErr, IsErrOf, length, vec_capacity};
ghost use Rattle.dcsctp_tlv.specs.{Reading.{Exactly}, declared.error.ChunkParseError.TheVariants.{OutOfMemory}};
ghost use Rattle.dcsctp_wire.specs.{Packet.{PacketTree, Answer, IsPacket, packet_reading, packet_checking}, declared.packet.sctp_packet.ChecksumPolicy.{ChecksumPolicy}, declared.packet.sctp_packet.PacketParseError.TheVariants.{FailedParseChunk}};
ghost use Rattle.dcsctp_borrowed.specs.PacketRef.{reference, RefersTo};
ghost use Rattle.dcsctp_borrowed.specs.PacketBuf.{HoldsPacket, Kept};

use crate::packet_ref::SctpPacketRef;
use dcsctp_tlv::copy::copied;
use dcsctp_wire::packet::sctp_packet::{ChecksumPolicy, PacketParseError, SctpPacket};
use std::alloc::{AllocError, Global};
use std::marker::Model;

/// A packet that owns its bytes (RFC 9260 section 3).
///
/// A contract sees its bytes, and how many bytes its memory has room for. The bytes are known to be
/// a packet, so `as_ref` tests nothing.
#[derive(Drop)]
pub struct PacketBuf {
    bytes: Vec<u8>,
}

impl Model for PacketBuf {
    ghost use Rattle.std.specs.Prelude.{vec_capacity};
    ghost use Rattle.dcsctp_borrowed.specs.PacketBuf.{OwnedBytes, HoldsPacket};

    ghost Value = { OwnedBytes };

    ghost view = { λ p. record { bytes = p.bytes.items; reserved = vec_capacity p.bytes } };

    ghost invariant = { λ p. HoldsPacket p.bytes.items };
}

impl PacketBuf {
    /// Checks a packet as `SctpPacketRef::from_bytes` does, and takes its bytes over. Does not
    /// allocate.
    ///
    /// Returns the fault that `SctpPacketRef::from_bytes` returns, and drops the bytes then: to
    /// keep them, call `SctpPacket::check` first.
    pub fn of_vec(
        bytes: Vec<u8>,
        checksum: u32,
        policy: &ChecksumPolicy,
    ) -> Result<PacketBuf, PacketParseError>
        ensures answer { Exactly packet_checking (λ kept. kept.bytes)
            (Kept bytes.items checksum policy.now) result }
        ensures reserved { IfOk result (λ kept. kept.reserved ≡ vec_capacity bytes) }
        ensures memory { ¬ IsErrOf result (FailedParseChunk OutOfMemory) }
    {
        match check(&bytes, checksum, policy) {
            Ok(()) => Ok(PacketBuf { bytes }),
            Err(error) => Err(error),
        }
    }

    /// Checks a packet as `SctpPacketRef::from_bytes` does, and copies its bytes into memory with
    /// room for them alone.
    ///
    /// Returns the fault that `SctpPacketRef::from_bytes` returns. Only where there is none, memory
    /// is taken, and `FailedParseChunk` with `OutOfMemory` is returned where it runs out.
    pub fn from_slice(
        alloc: Global,
        bytes: &[u8],
        checksum: u32,
        policy: &ChecksumPolicy,
    ) -> Result<PacketBuf, PacketParseError>
        ensures answer { Exactly packet_reading (λ kept. kept.bytes)
            (Kept bytes.now checksum policy.now) result }
        ensures reserved { IfOk result (λ kept. kept.reserved ≡ length bytes.now) }
        ensures memory { IsErrOf result (FailedParseChunk OutOfMemory)
            → IsPacket bytes.now checksum policy.now }
    {
        match check(bytes, checksum, policy) {
            Ok(()) => Ok(PacketBuf {
                bytes: copied(alloc, bytes)?,
            }),
            Err(error) => Err(error),
        }
    }

    /// Checks a packet as `SctpPacketRef::from_bytes` does, and copies its bytes over those that
    /// are held. The memory is kept: no more is taken where the packet has room in it.
    ///
    /// Returns the fault that `SctpPacketRef::from_bytes` returns; where there is none, and memory
    /// runs out, `FailedParseChunk` with `OutOfMemory`. After an error the packet that was held is
    /// held still, in the same memory.
    pub fn refill(
        &mut self,
        bytes: &[u8],
        checksum: u32,
        policy: &ChecksumPolicy,
    ) -> Result<(), PacketParseError>
        ensures answer { Exactly packet_reading (λ _. bytes.now)
            (Kept bytes.now checksum policy.now) result }
        ensures bytes { OnOk result (self.new.bytes ≡ bytes.now) }
        ensures memory { IsErrOf result (FailedParseChunk OutOfMemory)
            → IsPacket bytes.now checksum policy.now }
        ensures room { length bytes.now ≤ self.old.reserved
            → ¬ IsErrOf result (FailedParseChunk OutOfMemory) }
        ensures reserved { self.old.reserved ≤ self.new.reserved }
        ensures refused { OnErr result (self.new ≡ self.old) }
    {
        match check(bytes, checksum, policy) {
            Ok(()) => Ok(replace(&mut self.bytes, bytes)?),
            Err(error) => Err(error),
        }
    }

    /// Returns the packet in these bytes: what `SctpPacketRef::from_bytes` returns, without a
    /// test. The time doesn't depend on the packet.
    pub fn as_ref(&self) -> SctpPacketRef<'_>
        ensures parts { result ≡ reference self.now.bytes }
        ensures refers { (word : ℕ) (policy : ChecksumPolicy) (p : PacketTree)
            → Answer self.now.bytes word policy (Ok p) → RefersTo result p }
        ensures held { HoldsPacket self.now.bytes }
    {
        SctpPacketRef::of_packet(&self.bytes)
    }

    /// Returns the bytes.
    pub fn as_bytes(&self) -> &[u8]
        ensures bytes { result.now ≡ self.now.bytes }
        ensures held { HoldsPacket result.now }
    {
        &self.bytes
    }

    /// Returns the bytes in the memory that holds them.
    pub fn into_vec(self) -> Vec<u8>
        ensures bytes { result.items ≡ self.bytes }
        ensures reserved { vec_capacity result ≡ self.reserved }
        ensures held { HoldsPacket result.items }
    {
        self.bytes
    }
}

/// Checks a packet. The contract says what is then known of its bytes.
#[inline(always)]
fn check(bytes: &[u8], checksum: u32, policy: &ChecksumPolicy) -> Result<(), PacketParseError>
    ensures answer { Exactly packet_checking (λ _. bytes.now)
        (Kept bytes.now checksum policy.now) result }
    ensures held { IfOk result (λ _. HoldsPacket bytes.now) }
{
    match SctpPacket::check(bytes, checksum, policy) {
        Ok(_) => Ok(()),
        Err(error) => Err(error),
    }
}

/// Copies bytes over those that are held, in the same memory where they have room there. A refusal
/// changes nothing.
fn replace(held: &mut Vec<u8>, bytes: &[u8]) -> Result<(), AllocError>
    ensures bytes { OnOk result (held.new.items ≡ bytes.now) }
    ensures room { length bytes.now ≤ vec_capacity held.old → IsOk result }
    ensures reserved { vec_capacity held.old ≤ vec_capacity held.new }
    ensures items { OnErr result (held.new.items ≡ held.old.items) }
    ensures refused { OnErr result (vec_capacity held.new ≡ vec_capacity held.old) }
{
    held.reserve_exact(bytes.len().saturating_sub(held.len()))?;
    held.clear();
    held.extend_from_slice(bytes).unwrap();
    Ok(())
}
