//! SACKs that are cleaned.

use crate::answer::{Answer, Change, from, front};
use crate::in_place;
use crate::values::image_of;
use dcsctp_wire::packet::chunk_validators::{clean_blocks, clean_sack, validate_sack};
use dcsctp_wire::packet::sack_chunk::{GapAckBlock, SackChunk};
use dcsctp_wire::types::Tsn;

/// Blocks of four bytes each.
fn blocks_of(bytes: &[u8], out: &mut Answer) -> Vec<GapAckBlock> {
    let mut blocks = Vec::new(out.alloc);
    for block in bytes.chunks(4) {
        if let [a, b, c, d] = block {
            let start = u16::from_be_bytes([*a, *b]);
            let block = GapAckBlock::new(start, u16::from_be_bytes([*c, *d]));
            out.push(&mut blocks, block);
        }
    }
    blocks
}

/// Returns a SACK of TSN 7 with these blocks, and one duplicate.
fn sack_of(gap_ack_blocks: Vec<GapAckBlock>, out: &mut Answer) -> SackChunk {
    let mut duplicate_tsns = Vec::new(out.alloc);
    out.push(&mut duplicate_tsns, Tsn(3));
    SackChunk {
        cumulative_tsn_ack: Tsn(7),
        a_rwnd: 9,
        gap_ack_blocks,
        duplicate_tsns,
    }
}

/// Writes an arrow and the blocks of the SACK, where these aren't the bytes.
fn write_blocks(bytes: &[u8], sack: &SackChunk, out: &mut Answer) {
    let image = image_of(sack, out);
    let end = image.len().saturating_sub(4);
    write!(out, "{}", Change(bytes, from(front(&image, end), 16)))
}

/// Writes whether the blocks are valid in a SACK, whether they are once it is cleaned, and its
/// blocks then; and where they are cleaned otherwise by themselves.
fn write_sack(bytes: &[u8], other: &[u8], out: &mut Answer) {
    let blocks = blocks_of(bytes, out);
    let sack = sack_of(blocks, out);
    let before = validate_sack(&sack);
    let cleaned = clean_sack(sack);
    let after = validate_sack(&cleaned);
    let (mut inside, mut alone) = (out.another(), out.another());
    write_blocks(bytes, &cleaned, &mut inside);
    let mut blocks = blocks_of(other, out);
    clean_blocks(&mut blocks);
    let sack = sack_of(blocks, out);
    write_blocks(other, &sack, &mut alone);
    write!(out, "{before}, {after}");
    out.add(&inside);
    let is_so = inside.text == alone.text;
    out.add_unless(is_so, "; by themselves", &alone)
}

/// Writes the answer, if the call is one of this module; else the next one does.
pub fn write_answer(call: &str, bytes: &[u8], other: &[u8], out: &mut Answer) {
    match call {
        "sack" => write_sack(bytes, other, out),
        _ => in_place::write_answer(call, bytes, other, out),
    }
}
