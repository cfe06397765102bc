//! Capture files in the pcap format (draft-ietf-opsawg-pcap).

ghost use Rattle.std.specs.Prelude.{◌≡◌, ◌≤◌, ◌++◌, ℕ, List, length, take, drop};
ghost use Rattle.std.specs.Int.{w16, w32, w64};
ghost use Rattle.dump_capture.specs.Number.{number_in};
ghost use Rattle.dump_capture.specs.Pcap.{magic_format, input_kind, file_header, record_header, record_bytes, record_of, Fits};

/// The size of a file header in bytes.
pub const FILE_HEADER_SIZE: usize = 24;

/// The size of a record header in bytes.
pub const RECORD_HEADER_SIZE: usize = 16;

/// The byte order of the numbers in a file, which is that of the machine that wrote it.
#[derive(Clone, Copy, Debug)]
pub enum ByteOrder {
    /// Most significant byte first.
    BigEndian,
    /// Least significant byte first.
    LittleEndian,
}

/// The unit of a record's fraction of a second.
#[derive(Clone, Copy, Debug)]
pub enum Resolution {
    /// Magic a1b2c3d4.
    Microseconds,
    /// Magic a1b23c4d.
    Nanoseconds,
}

/// What the magic of a file says.
#[derive(Clone, Copy, Debug)]
pub struct PcapFormat {
    /// The byte order of all numbers in headers.
    pub order: ByteOrder,
    /// The unit of fractions.
    pub resolution: Resolution,
}

/// A kind of input, known by its first four bytes.
#[derive(Clone, Copy, Debug)]
pub enum InputKind {
    /// A pcap file.
    Pcap(PcapFormat),
    /// A pcapng file.
    Pcapng,
    /// Anything else, fewer than four bytes too.
    Text,
}

/// The header of a pcap file.
#[derive(Clone, Copy, Debug)]
pub struct FileHeader {
    /// What the magic says.
    pub format: PcapFormat,
    /// The major version, 2 of files that this crate describes.
    pub major_version: u16,
    /// The minor version, 4 of such files.
    pub minor_version: u16,
    /// The largest captured length in bytes; 0 of some programs that set no limit.
    pub snapshot_length: u32,
    /// The link type of every frame; see `crate::frame`.
    pub link_type: u16,
}

/// The header of a record.
#[derive(Clone, Copy, Debug)]
pub struct RecordHeader {
    /// Seconds since 1970-01-01 00:00:00 UTC.
    pub seconds: u32,
    /// The fraction of a second, in the file's unit.
    pub fraction: u32,
    /// The number of bytes of the frame that follow this header.
    pub captured_length: u32,
    /// The number of bytes that the frame had on the link.
    pub original_length: u32,
}

/// Returns the kind of an input that begins with these bytes. Four bytes suffice.
pub fn input_kind(bytes: &[u8]) -> InputKind
    ensures { result ≡ input_kind bytes.now }
{
    if let Some(format) = magic_format(bytes) {
        return InputKind::Pcap(format);
    }
    if bytes.starts_with(&[0x0a, 0x0d, 0x0d, 0x0a]) {
        InputKind::Pcapng
    } else {
        InputKind::Text
    }
}

/// Reads the file header from the first 24 bytes; nothing if they begin with another magic.
pub fn read_file_header(bytes: &[u8]) -> Option<FileHeader>
    requires { FILE_HEADER_SIZE ≤ length bytes.now }
    ensures { result ≡ file_header bytes.now }
{
    let format = magic_format(bytes)?;
    let order = format.order;
    Some(FileHeader {
        format,
        major_version: read_u16(order, &bytes[4..]),
        minor_version: read_u16(order, &bytes[6..]),
        snapshot_length: read_u32(order, &bytes[16..]),
        link_type: (read_u32(order, &bytes[20..]) & 0xFFFF) as u16,
    })
}

/// Reads the record header from the first 16 bytes.
///
/// With as many bytes after it as `captured_length` says it is a record (`laws::next_record`).
pub fn read_record_header(order: ByteOrder, bytes: &[u8]) -> RecordHeader
    requires { RECORD_HEADER_SIZE ≤ length bytes.now }
    ensures value { result ≡ record_header order bytes.now }
    ensures begins { (frame : List ℕ) → length frame ≡ result.captured_length
        → record_bytes order (record_of result frame) ≡ take 16 bytes.now ++ frame }
    ensures fits { (frame : List ℕ) → length frame ≡ result.captured_length
        → Fits (record_of result frame) }
{
    RecordHeader {
        seconds: read_u32(order, bytes),
        fraction: read_u32(order, &bytes[4..]),
        captured_length: read_u32(order, &bytes[8..]),
        original_length: read_u32(order, &bytes[12..]),
    }
}

/// Returns the format whose magic is at the front.
fn magic_format(bytes: &[u8]) -> Option<PcapFormat>
    ensures { result ≡ magic_format bytes.now }
{
    let (order, resolution) = if bytes.starts_with(&[0xa1, 0xb2, 0xc3, 0xd4]) {
        (ByteOrder::BigEndian, Resolution::Microseconds)
    } else if bytes.starts_with(&[0xd4, 0xc3, 0xb2, 0xa1]) {
        (ByteOrder::LittleEndian, Resolution::Microseconds)
    } else if bytes.starts_with(&[0xa1, 0xb2, 0x3c, 0x4d]) {
        (ByteOrder::BigEndian, Resolution::Nanoseconds)
    } else if bytes.starts_with(&[0x4d, 0x3c, 0xb2, 0xa1]) {
        (ByteOrder::LittleEndian, Resolution::Nanoseconds)
    } else {
        return None;
    };
    Some(PcapFormat { order, resolution })
}

/// Reads the number of the first two bytes.
pub(crate) fn read_u16(order: ByteOrder, bytes: &[u8]) -> u16
    requires { 2 ≤ length bytes.now }
    ensures { result ≡ number_in order w16 bytes.now }
{
    let field = [bytes[0], bytes[1]];
    match order {
        ByteOrder::BigEndian => u16::from_be_bytes(field),
        ByteOrder::LittleEndian => u16::from_le_bytes(field),
    }
}

/// Reads the number of the first four bytes.
pub(crate) fn read_u32(order: ByteOrder, bytes: &[u8]) -> u32
    requires { 4 ≤ length bytes.now }
    ensures { result ≡ number_in order w32 bytes.now }
{
    let field = [bytes[0], bytes[1], bytes[2], bytes[3]];
    match order {
        ByteOrder::BigEndian => u32::from_be_bytes(field),
        ByteOrder::LittleEndian => u32::from_le_bytes(field),
    }
}

/// Reads the number of the first eight bytes.
pub(crate) fn read_u64(order: ByteOrder, bytes: &[u8]) -> u64
    requires { 8 ≤ length bytes.now }
    ensures { result ≡ number_in order w64 bytes.now }
{
    let field = [
        bytes[0], bytes[1], bytes[2], bytes[3], bytes[4], bytes[5], bytes[6], bytes[7],
    ];
    match order {
        ByteOrder::BigEndian => u64::from_be_bytes(field),
        ByteOrder::LittleEndian => u64::from_le_bytes(field),
    }
}
