//! What the arguments ask for.

ghost use Rattle.std.specs.Prelude.{◌≡◌};
ghost use Rattle.dump_command.specs.Counts.{policy_of};

pub mod arguments;
pub mod auth_key;
pub mod bound;
pub mod name;

use crate::options::name::Name;
use dcsctp_wire::packet::sctp_packet::ChecksumPolicy;
use dump_capture::frame::UDP_PORT;
use dump_input::FormatOption;
use dump_packet::{Filter, PairKey, VALUES, asks_nothing};

/// Returns the sentence of the first row whose option was given without what it needs.
macro_rules! first_without_effect {
    ($($is_given:expr, $has_effect:expr => $sentence:expr;)*) => {
        $(
            if $is_given && !($has_effect) {
                return Some($sentence);
            }
        )*
        None
    };
}

/// The form of what is printed.
#[derive(Clone, Copy)]
pub enum OutputForm {
    /// A block of lines a packet.
    Blocks,
    /// A line a packet.
    Brief,
    /// A JSON object a line.
    Json,
    /// A pcapng file.
    Pcapng,
}

/// The form of times.
#[derive(Clone, Copy)]
pub enum TimeOption {
    /// As the capture says them: seconds since 1970, or a log's time of day.
    Captured,
    /// A date and a time of day in UTC (ISO 8601).
    Iso,
    /// A time of day in UTC.
    Utc,
    /// Seconds since the first packet.
    Relative,
    /// Seconds since the packet before.
    Delta,
}

/// What is printed, and how.
#[derive(Clone, Copy)]
pub struct Options {
    /// The form of packets.
    pub output: OutputForm,
    /// Refused packets alone.
    pub faults: bool,
    /// Counts alone.
    pub summary: bool,
    /// Padding that isn't zero is refused.
    pub strict: bool,
    /// All bytes of values.
    pub payload: bool,
    /// Where each field of a JSON object lies.
    pub places: bool,
    /// The rules that accepted packets break.
    pub check: bool,
    /// The associations.
    pub associations: bool,
    /// The paths of each association.
    pub paths: bool,
    /// The user messages.
    pub messages: bool,
    /// The user messages are written to files too.
    pub message_files: bool,
    /// The channels.
    pub channels: bool,
    /// The form of times.
    pub time: TimeOption,
    /// How many associations are kept.
    pub keep: usize,
    /// The key under which AUTH is judged.
    pub auth_key: Option<PairKey>,
    /// Which packets are printed.
    pub filter: Filter,
    /// The labels of the channels whose packets are printed.
    pub labels: [Option<Name>; VALUES],
    /// The names of the transports, in a log, whose packets are printed.
    pub transports: [Option<Name>; VALUES],
    /// The filter was asked for: what has no packet isn't printed.
    pub is_filtered: bool,
    /// The UDP port that carries SCTP.
    pub udp_port: u16,
    /// The form of the inputs.
    pub form: FormatOption,
}

impl Options {
    /// What is asked for without an option.
    pub const DEFAULT: Options = Options {
        output: OutputForm::Blocks,
        faults: false,
        summary: false,
        strict: false,
        payload: false,
        places: false,
        check: false,
        associations: false,
        paths: false,
        messages: false,
        message_files: false,
        channels: false,
        time: TimeOption::Captured,
        keep: 10_000,
        auth_key: None,
        filter: Filter::ALL,
        labels: [None; VALUES],
        transports: [None; VALUES],
        is_filtered: false,
        udp_port: UDP_PORT,
        form: FormatOption::Detected,
    };

    /// Returns the policy that accepts any checksum, and any padding unless `--strict` is given.
    pub fn policy(&self) -> ChecksumPolicy
        ensures { result ≡ policy_of self.now }
    {
        ChecksumPolicy {
            strict_padding: self.strict,
            ..ChecksumPolicy::ANY_CHECKSUM
        }
    }

    /// Returns why an option that was given has no effect, if one has none.
    pub fn ineffective_option(&self) -> Option<&'static str> {
        let prints = self.prints_packets();
        let replaces = self.associations || self.follows_messages();
        let shows_blocks = prints && self.output == OutputForm::Blocks;
        first_without_effect! {
            self.places, prints && self.output == OutputForm::Json =>
                "--places needs --json, and packets";
            self.message_files, self.messages => "--write-messages needs --messages";
            self.auth_key.is_some(), prints || self.associations || self.summary =>
                "--auth-key needs packets, --associations or --summary";
            self.payload, shows_blocks || self.shows_messages_payload() =>
                "--payload needs blocks of packets, or --messages without --brief";
            self.output == OutputForm::Pcapng, !self.says_more() =>
                "an option that says more than --pcapng writes has no effect beside it";
            true, !self.filter.is_empty() => "no packet is from --from on and up to --to";
            self.filter.inverts, self.asks_for_values() =>
                "--not needs an option that says which packets it leaves out";
            self.keep != Options::DEFAULT.keep, self.tracks_associations() =>
                "--keep needs --associations, --messages, --channels, --check, --auth-key or \
                 --label";
            self.output == OutputForm::Brief, !self.summary =>
                "--brief has no effect beside --summary";
            self.faults, prints => "--faults needs packets, which aren't printed";
            self.time == TimeOption::Delta, prints || !replaces =>
                "--time delta needs packets, which aren't printed";
            self.is_filtered, prints || replaces =>
                "a filter has no effect beside --summary: all packets are counted";
            self.time != TimeOption::Captured, prints || replaces =>
                "--time has no effect beside --summary";
        }
    }

    /// Returns whether the filter asks for more than a part of the capture.
    fn asks_for_values(&self) -> bool {
        !(self.filter.is_free() && asks_nothing(&self.labels) && asks_nothing(&self.transports))
    }

    /// Returns whether more is asked for than the packets themselves.
    fn says_more(&self) -> bool {
        self.summary
            || self.associations
            || self.follows_messages()
            || self.auth_key.is_some()
            || self.check && !self.faults
            || self.time != TimeOption::Captured
    }

    /// Returns whether it has to be known of which association a packet is.
    pub fn tracks_associations(&self) -> bool {
        let follows = self.associations || self.follows_messages();
        follows || self.check || self.auth_key.is_some() || !asks_nothing(&self.labels)
    }

    /// Returns whether it has to be known what becomes of user messages.
    pub fn follows_messages(&self) -> bool {
        self.messages || self.channels
    }

    /// Returns whether the user data of messages is printed.
    pub fn shows_messages_payload(&self) -> bool {
        self.messages && self.payload && self.output != OutputForm::Brief
    }

    /// Returns whether the user data of messages is kept until they are over.
    pub fn keeps_messages_payload(&self) -> bool {
        self.shows_messages_payload() || self.message_files
    }

    /// Returns whether packets are printed: not where associations, messages, channels or counts
    /// alone are.
    pub fn prints_packets(&self) -> bool {
        let replaces = self.associations || self.follows_messages();
        !(self.summary || replaces && self.output == OutputForm::Blocks)
    }

    /// Returns whether what has no packet is printed.
    pub fn prints_skipped(&self) -> bool {
        self.prints_packets() && !self.faults && !self.is_filtered
    }

    /// Returns whether packets of a log alone are asked for.
    pub fn needs_log(&self) -> bool {
        !asks_nothing(&self.filter.directions) || !asks_nothing(&self.transports)
    }

    /// Returns whether a transport is one of those that are asked for, if any are.
    pub fn has_transport(&self, transport: &[u8]) -> bool {
        asks_nothing(&self.transports) || is_one_of(&self.transports, transport)
    }

    /// Returns whether a label is one of those that are asked for.
    pub fn has_label(&self, label: &[u8]) -> bool {
        is_one_of(&self.labels, label)
    }
}

/// Returns whether a text is one of the names.
fn is_one_of(names: &[Option<Name>; VALUES], text: &[u8]) -> bool {
    names.iter().any(|asked| match asked {
        Some(name) => name.is(text),
        None => false,
    })
}
