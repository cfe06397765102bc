//! How the values of chunks are laid out that have no kind. registry/make.py writes this file:
//! registry/sctp.txt is edited in its place.

ghost use Rattle.std.specs.Prelude.{◌≡◌};
ghost use Rattle.dcsctp_registry.specs.{ChunkLayouts.{chunk_rows}, Registered.{layout_in}};

use crate::layout::{AddressForm, Layout, Rest};

/// The type of ECNE (RFC 4960 appendix A).
pub const ECNE: u8 = 12;

/// The index of the lowest TSN of ECNE among its numbers of four bytes.
pub const ECNE_LOWEST_TSN: usize = 0;

/// The type of CWR (RFC 4960 appendix A).
pub const CWR: u8 = 13;

/// The index of the lowest TSN of CWR among its numbers of four bytes.
pub const CWR_LOWEST_TSN: usize = 0;

/// The type of AUTH (RFC 4895 section 5.1).
pub const AUTH: u8 = 15;

/// The index of the key of AUTH among its numbers of two bytes.
pub const AUTH_KEY: usize = 0;

/// The index of the HMAC identifier of AUTH among its numbers of two bytes.
pub const AUTH_HMAC_IDENTIFIER: usize = 1;

/// The type of NR-SACK (draft-tuexen-tsvwg-sctp-multipath).
pub const NR_SACK: u8 = 16;

/// The index of the cumulative TSN ack of NR-SACK among its numbers of four bytes.
pub const NR_SACK_CUMULATIVE_TSN_ACK: usize = 0;

/// The index of the a_rwnd of NR-SACK among its numbers of four bytes.
pub const NR_SACK_A_RWND: usize = 1;

/// The index of the count of blocks of NR-SACK among its numbers of two bytes.
pub const NR_SACK_BLOCKS: usize = 0;

/// The offset of the count of blocks in the value of NR-SACK.
pub const NR_SACK_BLOCKS_OFFSET: usize = 8;

/// The index of the count of NR blocks of NR-SACK among its numbers of two bytes.
pub const NR_SACK_NR_BLOCKS: usize = 1;

/// The offset of the count of NR blocks in the value of NR-SACK.
pub const NR_SACK_NR_BLOCKS_OFFSET: usize = 10;

/// The index of the count of duplicates of NR-SACK among its numbers of two bytes.
pub const NR_SACK_DUPLICATES: usize = 2;

/// The offset of the count of duplicates in the value of NR-SACK.
pub const NR_SACK_DUPLICATES_OFFSET: usize = 12;

/// The offset of the lists in the value of NR-SACK.
pub const NR_SACK_LISTS_OFFSET: usize = 16;

/// The type of ASCONF ACK (RFC 5061 section 4.1.2).
pub const ASCONF_ACK: u8 = 128;

/// The index of the sequence number of ASCONF ACK among its numbers of four bytes.
pub const ASCONF_ACK_SEQUENCE_NUMBER: usize = 0;

/// The type of PKTDROP (draft-stewart-sctp-pktdrprep).
pub const PKTDROP: u8 = 129;

/// The index of the bandwidth of PKTDROP among its numbers of four bytes.
pub const PKTDROP_BANDWIDTH: usize = 0;

/// The index of the queued of PKTDROP among its numbers of four bytes.
pub const PKTDROP_QUEUED: usize = 1;

/// The index of the size of PKTDROP among its numbers of two bytes.
pub const PKTDROP_SIZE: usize = 0;

/// The type of PAD (RFC 4820 section 3).
pub const PAD: u8 = 132;

/// The type of ASCONF (RFC 5061 section 4.1.1).
pub const ASCONF: u8 = 193;

/// The index of the sequence number of ASCONF among its numbers of four bytes.
pub const ASCONF_SEQUENCE_NUMBER: usize = 0;

/// Returns how the value of a chunk of this type
/// is laid out; `None` if and only if it isn't one of these.
#[tactic(auto, unfolding(crate::specs::ChunkLayouts::chunk_rows))]
pub fn chunk_layout(typ: u8) -> Option<Layout>
    ensures { result ≡ layout_in chunk_rows typ }
{
    let (numbers, short_numbers, reserved, address, rest) = match typ {
        ECNE => (1, 0, 0, AddressForm::Nothing, Rest::Nothing),
        CWR => (1, 0, 0, AddressForm::Nothing, Rest::Nothing),
        AUTH => (0, 2, 0, AddressForm::Nothing, Rest::Bytes),
        NR_SACK => (2, 3, 2, AddressForm::Nothing, Rest::Lists),
        ASCONF_ACK => (1, 0, 0, AddressForm::Nothing, Rest::Items),
        PKTDROP => (2, 1, 2, AddressForm::Nothing, Rest::Bytes),
        PAD => (0, 0, 0, AddressForm::Nothing, Rest::Bytes),
        ASCONF => (1, 0, 0, AddressForm::Parameter, Rest::Items),
        _ => return None,
    };
    Some(Layout {
        numbers,
        short_numbers,
        reserved,
        address,
        rest,
    })
}
