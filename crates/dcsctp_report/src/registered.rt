//! What the values hold that the library keeps as bytes. registry/make.py writes this file:
//! registry/sctp.txt is edited in its place.

use crate::fields::Form;
use crate::held::{Held, HeldFlag, HeldNumber, Rest};
use crate::names::NamedBy;

/// Returns what the value of a chunk of this type holds; `None` of a type that isn't kept as bytes,
/// and of one that holds nothing else.
pub fn held_in_chunk(typ: u8) -> Option<Held> {
    match typ {
        12 | 13 => Some(Held {
            size: 4,
            numbers: &[HeldNumber {
                words: ": lowest tsn ",
                key: "lowest_tsn",
                place: 0,
                size: 4,
                form: Form::Decimal,
                by: None,
            }],
            flags: &[],
            rest: Rest::Nothing,
        }),
        15 => Some(Held {
            size: 4,
            numbers: &[
                HeldNumber {
                    words: ": shared key ",
                    key: "shared_key",
                    place: 0,
                    size: 2,
                    form: Form::Decimal,
                    by: None,
                },
                HeldNumber {
                    words: ", hmac identifier ",
                    key: "hmac_identifier",
                    place: 2,
                    size: 2,
                    form: Form::Decimal,
                    by: Some(NamedBy::Hmac),
                },
            ],
            flags: &[],
            rest: Rest::Bytes {
                words: "\n  hmac: ",
                key: "hmac",
            },
        }),
        128 | 193 => Some(Held {
            size: 4,
            numbers: &[HeldNumber {
                words: ": sequence number ",
                key: "sequence_number",
                place: 0,
                size: 4,
                form: Form::Decimal,
                by: None,
            }],
            flags: &[],
            rest: Rest::Parameters,
        }),
        129 => Some(Held {
            size: 12,
            numbers: &[
                HeldNumber {
                    words: ": bandwidth ",
                    key: "bandwidth",
                    place: 0,
                    size: 4,
                    form: Form::Decimal,
                    by: None,
                },
                HeldNumber {
                    words: ", queued ",
                    key: "queued",
                    place: 4,
                    size: 4,
                    form: Form::Decimal,
                    by: None,
                },
                HeldNumber {
                    words: ", truncated length ",
                    key: "truncated_length",
                    place: 8,
                    size: 2,
                    form: Form::Decimal,
                    by: None,
                },
            ],
            flags: &[
                HeldFlag {
                    words: ", from a middlebox",
                    key: "middlebox",
                    bit: 0x01,
                },
                HeldFlag {
                    words: ", bad checksum",
                    key: "bad_checksum",
                    bit: 0x02,
                },
                HeldFlag {
                    words: ", truncated",
                    key: "truncated",
                    bit: 0x04,
                },
            ],
            rest: Rest::Bytes {
                words: "\n  packet: ",
                key: "packet",
            },
        }),
        _ => None,
    }
}

/// Returns what the value of a parameter holds, as `held_in_chunk` does.
pub fn held_in_parameter(typ: u16) -> Option<Held> {
    match typ {
        0x0005 => Some(Held {
            size: 0,
            numbers: &[],
            flags: &[],
            rest: Rest::Address(4),
        }),
        0x0006 => Some(Held {
            size: 0,
            numbers: &[],
            flags: &[],
            rest: Rest::Address(16),
        }),
        0x0008 => Some(Held {
            size: 0,
            numbers: &[],
            flags: &[],
            rest: Rest::Parameters,
        }),
        0x0009 => Some(Held {
            size: 4,
            numbers: &[HeldNumber {
                words: ": increment ",
                key: "increment",
                place: 0,
                size: 4,
                form: Form::Milliseconds,
                by: None,
            }],
            flags: &[],
            rest: Rest::Nothing,
        }),
        0x000b => Some(Held {
            size: 0,
            numbers: &[],
            flags: &[],
            rest: Rest::Text,
        }),
        0x000c => Some(Held {
            size: 0,
            numbers: &[],
            flags: &[],
            rest: Rest::Names {
                key: "address_types",
                entry: "type",
                size: 2,
                by: NamedBy::Address,
            },
        }),
        0x8000 => Some(Held {
            size: 0,
            numbers: &[],
            flags: &[],
            rest: Rest::Nothing,
        }),
        0x8003 => Some(Held {
            size: 0,
            numbers: &[],
            flags: &[],
            rest: Rest::Names {
                key: "chunk_types",
                entry: "type",
                size: 1,
                by: NamedBy::Chunk,
            },
        }),
        0x8004 => Some(Held {
            size: 0,
            numbers: &[],
            flags: &[],
            rest: Rest::Names {
                key: "hmacs",
                entry: "identifier",
                size: 2,
                by: NamedBy::Hmac,
            },
        }),
        0xc001 | 0xc002 | 0xc004 => Some(Held {
            size: 4,
            numbers: &[HeldNumber {
                words: ": correlation id ",
                key: "correlation_id",
                place: 0,
                size: 4,
                form: Form::Decimal,
                by: None,
            }],
            flags: &[],
            rest: Rest::Parameters,
        }),
        0xc003 => Some(Held {
            size: 4,
            numbers: &[HeldNumber {
                words: ": correlation id ",
                key: "correlation_id",
                place: 0,
                size: 4,
                form: Form::Decimal,
                by: None,
            }],
            flags: &[],
            rest: Rest::Causes,
        }),
        0xc005 => Some(Held {
            size: 4,
            numbers: &[HeldNumber {
                words: ": correlation id ",
                key: "correlation_id",
                place: 0,
                size: 4,
                form: Form::Decimal,
                by: None,
            }],
            flags: &[],
            rest: Rest::Nothing,
        }),
        0xc006 => Some(Held {
            size: 4,
            numbers: &[HeldNumber {
                words: ": ",
                key: "indication",
                place: 0,
                size: 4,
                form: Form::Hexadecimal,
                by: None,
            }],
            flags: &[],
            rest: Rest::Nothing,
        }),
        _ => None,
    }
}

/// Returns what the value of an error cause holds, as `held_in_chunk` does.
pub fn held_in_cause(code: u16) -> Option<Held> {
    match code {
        0x0001 => Some(Held {
            size: 4,
            numbers: &[HeldNumber {
                words: ": stream ",
                key: "stream",
                place: 0,
                size: 2,
                form: Form::Decimal,
                by: None,
            }],
            flags: &[],
            rest: Rest::Nothing,
        }),
        0x0003 => Some(Held {
            size: 4,
            numbers: &[HeldNumber {
                words: ": staleness ",
                key: "staleness",
                place: 0,
                size: 4,
                form: Form::Microseconds,
                by: None,
            }],
            flags: &[],
            rest: Rest::Nothing,
        }),
        0x0004 | 0x0007 | 0x00a3 => Some(Held {
            size: 0,
            numbers: &[],
            flags: &[],
            rest: Rest::Nothing,
        }),
        0x0005 | 0x0008 | 0x000b | 0x00a0 | 0x00a1 | 0x00a2 | 0x00a4 => Some(Held {
            size: 0,
            numbers: &[],
            flags: &[],
            rest: Rest::Parameters,
        }),
        0x0105 => Some(Held {
            size: 2,
            numbers: &[HeldNumber {
                words: ": hmac identifier ",
                key: "hmac_identifier",
                place: 0,
                size: 2,
                form: Form::Decimal,
                by: Some(NamedBy::Hmac),
            }],
            flags: &[],
            rest: Rest::Nothing,
        }),
        _ => None,
    }
}
