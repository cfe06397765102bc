//! Rules that the RFCs give for packets beyond their grammar.

ghost use Rattle.std.specs.Prelude.{◌≡◌, ◌==◌, not};
ghost use Rattle.dcsctp_borrowed.specs.Part.{Part as ThePart, AreItems, part_of};
ghost use Rattle.dcsctp_receive.specs.Chunks.{chunk_part, items_of};
ghost use Rattle.dcsctp_chunk.specs.Flags.{is_set};
ghost use Rattle.dcsctp_receive.specs.Rule.{AreBroken, breaks, is_broken_by, is_bundled, lacks_checksum, mixes_user_data};

use crate::chunk_test::{ChunkTest, some, some_after};
use crate::chunk_type::{ABORT, COOKIE_ECHO, DATA, I_DATA, INIT};
use crate::fields::{has_port, is_u32};
use crate::items::after_auth;
use dcsctp_borrowed::part::Part;

/// A rule for packets. A packet that keeps to the grammar may break it.
#[derive(Clone, Copy, Debug, PartialEq, Eq)]
pub enum Rule {
    /// No port is 0 (RFC 9260 section 3.1).
    PortZero,
    /// INIT, INIT ACK and SHUTDOWN COMPLETE are alone in a packet (RFC 9260 section 6.10).
    InitAlone,
    /// A packet with INIT has the verification tag 0 (RFC 9260 section 8.5.1).
    InitTag,
    /// A packet whose verification tag is 0 has INIT alone (RFC 9260 section 8.5.1).
    TagZero,
    /// The Initiate Tag of INIT and INIT ACK isn't 0 (RFC 9260 sections 3.3.2 and 3.3.3).
    InitiateTagZero,
    /// INIT and INIT ACK have an outbound and an inbound stream (RFC 9260 sections 3.3.2 and
    /// 3.3.3).
    NoStreams,
    /// INIT and INIT ACK advertise a window of 1,500 bytes or more (RFC 9260 sections 3.3.2 and
    /// 6).
    SmallWindow,
    /// INIT ACK has a State Cookie (RFC 9260 section 3.3.3).
    InitAckCookie,
    /// HEARTBEAT has its Heartbeat Info (RFC 9260 section 3.3.5).
    HeartbeatInfo,
    /// DATA and I-DATA have user data (RFC 9260 section 3.3.1, RFC 8260 section 2.1).
    NoUserData,
    /// An association has DATA or I-DATA, not both (RFC 8260 section 2.2.1).
    DataBesideIdata,
    /// Each gap ack block ends where it starts or later, and a TSN is missing before it (RFC 9260
    /// section 3.3.4). So does each NR gap ack block, whose list is looked at by itself.
    GapBlocks,
    /// Flags that are reserved aren't set (RFC 9260 section 3.2).
    ReservedBits,
    /// A packet with INIT, COOKIE ECHO or ASCONF, an answer to a packet out of the blue, and a
    /// packet to an end that didn't announce Zero Checksum Acceptable have their CRC32c (RFC 9653
    /// section 5.2).
    ZeroChecksum,
    /// No chunk comes before COOKIE ECHO (RFC 9260 section 5.1), but for one AUTH (RFC 4895 section
    /// 6.3).
    CookieEchoFirst,
    /// Control chunks come before DATA and I-DATA (RFC 9260 section 6.10): all chunks but these and
    /// PAD (RFC 4820), which any packet may have.
    ControlFirst,
    /// No chunk comes after ABORT (RFC 9260 section 3.3.7).
    AfterAbort,
    /// DATA and I-DATA aren't in a packet with ABORT (RFC 9260 section 3.3.7).
    DataWithAbort,
}

/// What is known of the association that a packet belongs to, this packet included.
#[derive(Clone, Copy, Debug, PartialEq, Eq)]
pub struct Known {
    /// Whether the end that the packet goes to announced Zero Checksum Acceptable (RFC 9653 section
    /// 4), if its INIT or INIT ACK was seen.
    pub accepts_zero: Option<bool>,
    /// Whether an end sent DATA.
    pub has_data: bool,
    /// Whether an end sent I-DATA.
    pub has_idata: bool,
}

impl Known {
    /// Nothing is known.
    pub const NOTHING: Known = Known {
        accepts_zero: None,
        has_data: false,
        has_idata: false,
    };
}

impl Rule {
    /// All rules.
    pub const ALL: [Rule; 18] = [
        Rule::PortZero,
        Rule::InitAlone,
        Rule::InitTag,
        Rule::TagZero,
        Rule::InitiateTagZero,
        Rule::NoStreams,
        Rule::SmallWindow,
        Rule::InitAckCookie,
        Rule::HeartbeatInfo,
        Rule::NoUserData,
        Rule::DataBesideIdata,
        Rule::GapBlocks,
        Rule::ReservedBits,
        Rule::ZeroChecksum,
        Rule::CookieEchoFirst,
        Rule::ControlFirst,
        Rule::AfterAbort,
        Rule::DataWithAbort,
    ];

    /// Returns its name: words with hyphens.
    pub fn name(self) -> &'static str {
        match self {
            Rule::PortZero => "port-zero",
            Rule::InitAlone => "init-alone",
            Rule::InitTag => "init-tag",
            Rule::TagZero => "tag-zero",
            Rule::InitiateTagZero => "initiate-tag-zero",
            Rule::NoStreams => "no-streams",
            Rule::SmallWindow => "small-window",
            Rule::InitAckCookie => "init-ack-cookie",
            Rule::HeartbeatInfo => "heartbeat-info",
            Rule::NoUserData => "no-user-data",
            Rule::DataBesideIdata => "data-beside-idata",
            Rule::GapBlocks => "gap-blocks",
            Rule::ReservedBits => "reserved-bits",
            Rule::ZeroChecksum => "zero-checksum",
            Rule::CookieEchoFirst => "cookie-echo-first",
            Rule::ControlFirst => "control-first",
            Rule::AfterAbort => "after-abort",
            Rule::DataWithAbort => "data-with-abort",
        }
    }

    /// Returns what breaks it, in a sentence without a full stop.
    pub fn sentence(self) -> &'static str {
        match self {
            Rule::PortZero => "a port is 0",
            Rule::InitAlone => "INIT, INIT ACK or SHUTDOWN COMPLETE isn't alone",
            Rule::InitTag => "INIT has a verification tag other than 0",
            Rule::TagZero => "the verification tag is 0 with a chunk other than INIT",
            Rule::InitiateTagZero => "the Initiate Tag is 0",
            Rule::NoStreams => "the number of outbound or inbound streams is 0",
            Rule::SmallWindow => "INIT or INIT ACK advertises a window below 1,500 bytes",
            Rule::InitAckCookie => "INIT ACK has no State Cookie",
            Rule::HeartbeatInfo => "HEARTBEAT has no Heartbeat Info",
            Rule::NoUserData => "DATA or I-DATA has no user data",
            Rule::DataBesideIdata => "an association has both DATA and I-DATA",
            Rule::GapBlocks => "gap ack blocks are empty, out of order or not isolated",
            Rule::ReservedBits => "reserved flags are set",
            Rule::ZeroChecksum => "the checksum is 0 where a CRC32c is required",
            Rule::CookieEchoFirst => "COOKIE ECHO isn't the first chunk",
            Rule::ControlFirst => "a control chunk comes after user data",
            Rule::AfterAbort => "a chunk comes after ABORT",
            Rule::DataWithAbort => "user data is bundled with ABORT",
        }
    }

    /// Returns the word with which it is given: `MUST`, `MUST NOT` or `SHOULD` (RFC 2119).
    pub fn requirement(self) -> &'static str {
        match self {
            Rule::InitTag
            | Rule::TagZero
            | Rule::InitAckCookie
            | Rule::HeartbeatInfo
            | Rule::NoUserData
            | Rule::ZeroChecksum
            | Rule::CookieEchoFirst
            | Rule::ControlFirst
            | Rule::AfterAbort => "MUST",
            Rule::PortZero
            | Rule::InitAlone
            | Rule::InitiateTagZero
            | Rule::NoStreams
            | Rule::SmallWindow
            | Rule::DataBesideIdata
            | Rule::DataWithAbort => "MUST NOT",
            Rule::GapBlocks | Rule::ReservedBits => "SHOULD",
        }
    }

    /// Returns where it is given.
    pub fn section(self) -> &'static str {
        match self {
            Rule::PortZero => "RFC 9260 section 3.1",
            Rule::InitAlone | Rule::ControlFirst => "RFC 9260 section 6.10",
            Rule::InitTag | Rule::TagZero => "RFC 9260 section 8.5.1",
            Rule::InitiateTagZero | Rule::NoStreams => "RFC 9260 sections 3.3.2 and 3.3.3",
            Rule::SmallWindow => "RFC 9260 sections 3.3.2 and 6",
            Rule::InitAckCookie => "RFC 9260 section 3.3.3",
            Rule::HeartbeatInfo => "RFC 9260 section 3.3.5",
            Rule::NoUserData => "RFC 9260 section 3.3.1",
            Rule::DataBesideIdata => "RFC 8260 section 2.2.1",
            Rule::GapBlocks => "RFC 9260 section 3.3.4",
            Rule::ReservedBits => "RFC 9260 section 3.2",
            Rule::ZeroChecksum => "RFC 9653 section 5.2",
            Rule::CookieEchoFirst => "RFC 9260 section 5.1",
            Rule::AfterAbort | Rule::DataWithAbort => "RFC 9260 section 3.3.7",
        }
    }

    /// Returns whether a packet of `size` bytes, of which these were captured, breaks it, as far as
    /// its chunks can be read. `word` is what its checksum field has to be.
    pub fn is_broken(self, bytes: &[u8], size: usize, word: u32, known: Known) -> bool
        ensures looks { let packet : ThePart = record { bytes = bytes.now; size = size } in
            AreItems (chunk_part packet) (items_of (chunk_part packet)) }
        ensures broken { let packet : ThePart = record { bytes = bytes.now; size = size } in
            result ≡ breaks self packet word known (items_of (chunk_part packet)) }
    {
        self.is_broken_by(Part::packet(bytes, size), word, known)
    }

    /// Returns whether a packet breaks it.
    fn is_broken_by(self, packet: Part<'_>, word: u32, known: Known) -> bool
        ensures { let p = part_of packet.entry in
            result ≡ breaks self p word known (items_of (chunk_part p)) }
    {
        let chunks = packet.after(12);
        let has_tag_0 = is_u32(packet.after(4), 0);
        let abort = ChunkTest::Type(ABORT);
        match self {
            Rule::PortZero => has_port(packet, 0),
            Rule::InitAlone => is_bundled(chunks),
            Rule::InitTag => some(chunks, ChunkTest::Type(INIT)) && !has_tag_0,
            Rule::TagZero => has_tag_0 && some(chunks, ChunkTest::OtherThan(INIT)),
            Rule::InitiateTagZero => some(chunks, ChunkTest::NoInitiateTag),
            Rule::NoStreams => some(chunks, ChunkTest::NoStreams),
            Rule::SmallWindow => some(chunks, ChunkTest::SmallWindow),
            Rule::InitAckCookie => some(chunks, ChunkTest::NoCookie),
            Rule::HeartbeatInfo => some(chunks, ChunkTest::NoHeartbeatInfo),
            Rule::NoUserData => some(chunks, ChunkTest::NoUserData),
            Rule::DataBesideIdata => mixes_user_data(chunks, known),
            Rule::GapBlocks => some(chunks, ChunkTest::WrongBlocks),
            Rule::ReservedBits => some(chunks, ChunkTest::ReservedFlag),
            Rule::ZeroChecksum => lacks_checksum(packet, word, known),
            Rule::CookieEchoFirst => {
                some_after(
                    after_auth(chunks),
                    ChunkTest::Any,
                    ChunkTest::Type(COOKIE_ECHO),
                )
            }
            Rule::ControlFirst => some_after(chunks, ChunkTest::UserData, ChunkTest::Control),
            Rule::AfterAbort => some_after(chunks, abort, ChunkTest::Any),
            Rule::DataWithAbort => some(chunks, abort) && some(chunks, ChunkTest::UserData),
        }
    }
}

/// How many rules there are.
pub const RULES: usize = Rule::ALL.len();

/// The rules that a packet breaks.
#[derive(Clone, Copy, Debug, PartialEq, Eq)]
pub struct BrokenRules {
    /// The bit i, counted from the lowest, is set if and only if `Rule::ALL[i]` is broken.
    pub bits: u32,
}

impl BrokenRules {
    /// No rule is broken.
    pub const NONE: BrokenRules = BrokenRules { bits: 0 };

    /// Returns the rules that a packet of `size` bytes breaks, of which these were captured, as far
    /// as its chunks can be read. `word` is what its checksum field has to be.
    pub fn of(bytes: &[u8], size: usize, word: u32, known: Known) -> BrokenRules
        ensures { AreBroken (record { bytes = bytes.now; size = size }) word known result.bits }
    {
        let mut bits: u32 = 0;
        for i in 0..RULES {
            if breaks_rule(Rule::ALL[i], bytes, size, word, known) {
                bits |= 1 << i as u32;
            }
        }
        BrokenRules { bits }
    }

    /// Returns whether a rule is broken.
    pub fn is_some(self) -> bool
        ensures { result ≡ not (self.bits == 0) }
    {
        self.bits != 0
    }

    /// Returns whether the rule `Rule::ALL[index]` is broken; false for an index that is none.
    pub fn has(self, index: usize) -> bool
        ensures { result ≡ is_set self.bits index }
    {
        let bits = self.bits;
        index < 32 && (bits >> index as u32) & 1 == 1
    }
}

/// Returns whether a packet breaks a rule.
#[tactic(auto, unfolding(crate::specs::Rule::is_broken_by))]
fn breaks_rule(rule: Rule, bytes: &[u8], size: usize, word: u32, known: Known) -> bool
    ensures { let packet : ThePart = record { bytes = bytes.now; size = size } in
        result ≡ is_broken_by packet word known rule }
{
    rule.is_broken(bytes, size, word, known)
}

/// Returns whether there are INIT, INIT ACK or SHUTDOWN COMPLETE, and another chunk.
fn is_bundled(chunks: Part<'_>) -> bool
    ensures { result ≡ is_bundled (items_of (part_of chunks.entry)) }
{
    some(chunks, ChunkTest::StandsAlone) && some_after(chunks, ChunkTest::Any, ChunkTest::Any)
}

/// Returns whether the checksum field is 0 where a CRC32c is required that isn't 0.
fn lacks_checksum(packet: Part<'_>, word: u32, known: Known) -> bool
    ensures { let p = part_of packet.entry in
        result ≡ lacks_checksum p word known (items_of (chunk_part p)) }
{
    packet.bytes.len() >= packet.size
        && is_u32(packet.after(8), 0)
        && word != 0
        && (known.accepts_zero == Some(false) || some(packet.after(12), ChunkTest::NeedsChecksum))
}

/// Returns whether there is DATA, and here or in the association I-DATA; or the other way round.
fn mixes_user_data(chunks: Part<'_>, known: Known) -> bool
    ensures { result ≡ mixes_user_data known (items_of (part_of chunks.entry)) }
{
    let has_data = some(chunks, ChunkTest::Type(DATA));
    let has_idata = some(chunks, ChunkTest::Type(I_DATA));
    has_data && (known.has_idata || has_idata) || has_idata && (known.has_data || has_data)
}
