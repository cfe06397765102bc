//! Headers, the numbers in them, and the bits of a chunk's flags.

use dcsctp_chunk::flags::{four_flags, is_set, one_flag};
use dcsctp_wire::packet::chunk::write_chunk_header;
use dcsctp_wire::packet::parameter::write_parameter_header;
use dcsctp_wire::packet::{
    PARAMETER_HEADER_SIZE, TLV_HEADER_SIZE, read_u16_be, read_u32_be, read_u64_be, write_u16_be,
    write_u32_be, write_u64_be,
};

/// Numbers of 2, 4 and 8 bytes, each written over nine bytes of zeros.
fn bytes_of(short: u16, word: u32, long: u64) -> [[u8; 9]; 3] {
    let mut outputs = [[0; 9]; 3];
    write_u16_be(&mut outputs[0], short);
    write_u32_be(&mut outputs[1], word);
    write_u64_be(&mut outputs[2], long);
    outputs
}

#[test]
fn numbers(rt: HostRuntime) {
    let bytes = [1, 2, 3, 4, 5, 6, 7, 8, 9];
    assert!(rt; read_u16_be(&bytes) == 0x0102 && read_u32_be(&bytes) == 0x01020304);
    assert!(rt; read_u64_be(&bytes) == 0x0102030405060708);
    // the bytes after the number stay
    let rising = [
        [1, 2, 0, 0, 0, 0, 0, 0, 0],
        [1, 2, 3, 4, 0, 0, 0, 0, 0],
        [1, 2, 3, 4, 5, 6, 7, 8, 0],
    ];
    assert!(rt; bytes_of(0x0102, 0x01020304, 0x0102030405060708) == rising);
    let others = [
        [0xca, 0xfe, 0, 0, 0, 0, 0, 0, 0],
        [0xde, 0xad, 0xbe, 0xef, 0, 0, 0, 0, 0],
        [0xde, 0xad, 0xbe, 0xef, 0xba, 0xad, 0xf0, 0x0d, 0],
    ];
    assert!(rt; bytes_of(0xcafe, 0xdeadbeef, 0xdeadbeefbaadf00d) == others);
}

#[test]
fn flags(rt: HostRuntime) {
    assert!(rt; one_flag(true) == 1 && four_flags(false, true, false, true) == 0b1010);
    assert!(rt; is_set(0b1000_0000, 7) && !is_set(0b0111_1111, 7));
}

// The bytes after the lent part stay.
#[test]
fn headers(rt: HostRuntime) {
    assert!(rt; TLV_HEADER_SIZE == 4 && PARAMETER_HEADER_SIZE == 4);
    let (mut chunk, mut parameter) = ([0xee; 8], [0xee; 8]);
    write_chunk_header(73, 1, 3, &mut chunk).fill(9);
    write_parameter_header(0x8008, 3, &mut parameter).fill(9);
    assert!(rt; chunk == [73, 1, 0, 7, 9, 9, 9, 0xee]);
    assert!(rt; parameter == [0x80, 8, 0, 7, 9, 9, 9, 0xee]);
    let (mut chunk, mut parameter) = ([0xee; 12], [0xee; 20]);
    write_chunk_header(13, 7, 6, &mut chunk).copy_from_slice(&[1, 2, 3, 4, 5, 6]);
    write_parameter_header(13, 14, &mut parameter).copy_from_slice(&[7; 14]);
    assert!(rt; chunk == [13, 7, 0, 10, 1, 2, 3, 4, 5, 6, 0xee, 0xee]);
    assert!(rt;
        parameter
            == *b"\0\x0d\0\x12\x07\x07\x07\x07\x07\x07\x07\x07\x07\x07\x07\x07\x07\x07\xee\xee"
    );
}
