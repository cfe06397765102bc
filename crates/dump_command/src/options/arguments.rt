//! Reads the arguments.

ghost use Rattle.std.specs.Prelude.{◌≤◌, IfSome};

use crate::failure::Failure;
use crate::options::auth_key::auth_key_of;
use crate::options::bound::time_bound_of;
use crate::options::name::Name;
use crate::options::{Options, OutputForm, TimeOption};
use dcsctp_report::registry::chunk_name;
use dump_capture::line::Direction;
use dump_input::FormatOption;
use dump_packet::{Bound, Filter, Host, VALUES};
use std::alloc::Global;
use std::net::IpAddr;

/// What `--version` prints.
pub const VERSION: &str = "sctp_dump 0.1.0\n";

/// What `--help` prints.
pub const HELP: &str = "\
usage: sctp_dump [OPTION ..] [FILE ..] | --help | --version
Prints the SCTP packets of captures: pcap and pcapng files, packets in hexadecimal, logs of WebRTC,
and dumps by tcpdump -x, xxd, hexdump -C and Wireshark. Without a FILE, or where it is -, it reads
standard input. An option that would have no effect is refused.

Reports (associations, messages and channels in place of packets, but beside --brief and --json):
  --associations    a block an association
  --paths           the associations with their paths: what went from one address to another
  --messages        a line a user message, as it is acknowledged or abandoned: why it took so long
  --write-messages FOLDER  with --messages also a file of each message's user data in this folder
  --channels        a line a channel, or a stream and payload protocol, with its messages' delays
  --summary         counts alone, of all packets
  --check           the rules of the RFCs that packets break which weren't refused
  --auth-key KEY    whether AUTH is right under this key, as 0badc0de, or 7:0badc0de of key 7, or ''
  --keep NUMBER     the most associations that are kept at a time; 10000 if not given

Form:
  --brief           a line a packet, blanks only between its fields
  --json            a JSON object a line, not with --brief
  --places          in JSON also the offset and size of each field
  --pcapng          a pcapng file of these packets alone, as Wireshark reads it
  --payload         all bytes of values, not the first 16 (64 of a text); of --messages too
  --time FORM       iso, utc, relative (to the first packet) or delta (to the one before)

Which packets are printed: those that pass each option; of several values, as --port 1,2, by one:
  --port PORT       of either end
  --tag TAG         with this verification tag, as 0x0da73798 or a number
  --host ADDRESS    to or from this IP address
  --source ADDRESS, --destination ADDRESS  from this IP address, to this one
  --chunk TYPE      with a chunk of this type, as SACK, HEARTBEAT_ACK or 3
  --stream NUMBER   with user data of this stream
  --tsn TSN         with user data of this TSN, as 106 or 0x6a
  --ppid NUMBER     with user data of this payload protocol
  --label NAME      with user data of the stream of a channel with this label
  --transport NAME  of this transport of a log, as DcSctpTransport0
  --direction WAY   of a log: incoming or outgoing
  --wrong           whose checksum is wrong
  --not             which the options above leave out
  --from BOUND      from this packet on: a number, 2026-01-02T03:04:05.6Z in UTC, or seconds as +1.5
  --to BOUND        up to this packet
  --faults          that were refused

How inputs are read:
  --strict          refuse padding that isn't zero, or is missing
  --udp-port PORT   the UDP port that carries SCTP; 9899 if not given
  --format FORM     pcap, pcapng or text, in place of what the first bytes say
Link types: 0 and 108 (loopback), 1 (Ethernet), 9 and 50 (PPP), 12, 14 and 101 (raw IP), 113 and 276
(Linux cooked), 228 (IPv4), 229 (IPv6), 239 (NFLOG), 248 (SCTP).
Status: 0 if no packet was refused, 1 if some were, 2 if an input couldn't be read to its end or has
no packet, or a write failed, 3 if none was refused, but --check found a broken rule.
";

/// The name of standard input, which is read where no file is named.
pub const STANDARD_INPUT: &str = "-";

/// What the program is to do.
#[derive(Clone, Copy)]
pub enum Action {
    /// Print packets.
    Dump,
    /// Print the options.
    Help,
    /// Print the version.
    Version,
}

/// What the arguments ask for.
#[derive(Drop)]
pub struct Request<'a> {
    /// What the program is to do.
    pub action: Action,
    /// What is printed, and how.
    pub options: Options,
    /// The files, at least one; `-` is standard input.
    pub files: Vec<&'a str>,
    /// The folder of the files that messages are written to.
    pub folder: Option<&'a str>,
}

/// Returns what the arguments ask for.
pub fn request_of(alloc: Global, words: &[String]) -> Result<Request<'_>, Failure> {
    let mut request = Request {
        action: Action::Dump,
        options: Options::DEFAULT,
        files: Vec::new(alloc),
        folder: None,
    };
    let mut is_value = false;
    let mut only_files = false;
    for i in 0..words.len() {
        let word = words[i].as_str();
        if is_value {
            is_value = false;
        } else if only_files || !is_option(word) {
            request.files.push(word)?;
        } else if word == "--" {
            only_files = true;
        } else {
            let next = match words.get(i + 1) {
                Some(next) => next.as_str(),
                None => "",
            };
            is_value = request.take(word, next)?;
        }
    }
    if request.files.is_empty() {
        request.files.push(STANDARD_INPUT)?;
    }
    match request.options.ineffective_option() {
        Some(usage) if request.action == Action::Dump => Err(Failure::Usage(usage)),
        _ => Ok(request),
    }
}

/// Returns whether a word isn't the name of a file.
fn is_option(word: &str) -> bool {
    word.starts_with('-') && word.len() > 1
}

impl<'a> Request<'a> {
    /// Takes an option, and returns whether the next word is its value. The value may be in the
    /// same word, after `=`.
    fn take(&mut self, word: &'a str, next: &'a str) -> Result<bool, Failure> {
        if self.take_flag(word)? {
            return Ok(false);
        }
        let (name, value, is_next) = match word.split_once('=') {
            Some((name, value)) => (name, value, false),
            None => (word, next, true),
        };
        if name != "--write-messages" {
            self.options.take_value(name, value)?;
        } else if value.is_empty() {
            return Err(Failure::Usage("--write-messages takes a folder"));
        } else {
            self.options.message_files = true;
            self.folder = Some(value);
        }
        Ok(is_next)
    }

    /// Takes an option without a value; returns false if it isn't one.
    fn take_flag(&mut self, word: &str) -> Result<bool, Failure> {
        let options = &mut self.options;
        match word {
            "--brief" => options.take_output(OutputForm::Brief)?,
            "--json" => options.take_output(OutputForm::Json)?,
            "--pcapng" => options.take_output(OutputForm::Pcapng)?,
            "--places" => options.places = true,
            "--payload" => options.payload = true,
            "--associations" => options.associations = true,
            "--paths" => {
                options.associations = true;
                options.paths = true;
            }
            "--messages" => options.messages = true,
            "--channels" => options.channels = true,
            "--check" => options.check = true,
            "--summary" => options.summary = true,
            "--faults" => options.faults = true,
            "--wrong" => {
                options.filter.wrong = true;
                options.is_filtered = true;
            }
            "--not" => {
                options.filter.inverts = true;
                options.is_filtered = true;
            }
            "--strict" => options.strict = true,
            "--help" | "-h" => self.action = Action::Help,
            "--version" | "-V" => self.action = Action::Version,
            _ => return Ok(false),
        }
        Ok(true)
    }
}

impl Options {
    /// Takes a form of output, if no other one was asked for.
    fn take_output(&mut self, form: OutputForm) -> Result<(), Failure> {
        if self.output != OutputForm::Blocks && self.output != form {
            return Err(Failure::Usage("--brief, --json and --pcapng are forms: give one"));
        }
        self.output = form;
        Ok(())
    }

    /// Takes an option with its value.
    fn take_value(&mut self, name: &str, value: &str) -> Result<(), Failure> {
        let usage = Failure::Usage(usage_of(name));
        match name {
            "--time" => self.time = time_of(value).ok_or(usage)?,
            "--format" => self.form = form_of(value).ok_or(usage)?,
            "--auth-key" => self.auth_key = Some(auth_key_of(value).ok_or(usage)?),
            "--udp-port" => self.udp_port = u16_of(value, 1).ok_or(usage)?,
            "--keep" => self.keep = keep_of(value).ok_or(usage)?,
            _ => {
                self.is_filtered = true;
                self.take_filter(name, value, usage)?;
            }
        }
        Ok(())
    }

    /// Takes an option of the filter with its values, which commas separate. A name may hold
    /// commas.
    fn take_filter(&mut self, name: &str, values: &str, usage: Failure) -> Result<(), Failure> {
        match name {
            "--from" => self.filter.from = bound_of(values).ok_or(usage)?,
            "--to" => self.filter.to = bound_of(values).ok_or(usage)?,
            "--label" => add(&mut self.labels, Name::new(values.as_bytes()), usage)?,
            "--transport" => add(&mut self.transports, Name::new(values.as_bytes()), usage)?,
            _ => {
                for value in values.split(",") {
                    add_to_filter(&mut self.filter, name, value, usage)?;
                }
            }
        }
        Ok(())
    }
}

/// Asks for a value of an option of the filter.
fn add_to_filter(
    filter: &mut Filter,
    name: &str,
    value: &str,
    usage: Failure,
) -> Result<(), Failure> {
    match name {
        "--port" => add(&mut filter.ports, u16_of(value, 0), usage),
        "--tag" => add(&mut filter.tags, u32_of(value), usage),
        "--host" => add(&mut filter.hosts, host_of(value), usage),
        "--source" => add(&mut filter.sources, host_of(value), usage),
        "--destination" => add(&mut filter.destinations, host_of(value), usage),
        "--chunk" => add(&mut filter.chunks, type_of(value), usage),
        "--stream" => add(&mut filter.streams, u16_of(value, 0), usage),
        "--tsn" => add(&mut filter.tsns, u32_of(value), usage),
        "--ppid" => add(&mut filter.ppids, u32_of(value), usage),
        "--direction" => add(&mut filter.directions, direction_of(value), usage),
        _ => Err(usage),
    }
}

/// Asks for a value, if it could be read, beside those that are asked for, if there is room.
fn add<T: Copy>(
    asked: &mut [Option<T>; VALUES],
    value: Option<T>,
    usage: Failure,
) -> Result<(), Failure> {
    if value.is_none() {
        return Err(usage);
    }
    for i in 0..VALUES {
        if asked[i].is_none() {
            asked[i] = value;
            return Ok(());
        }
    }
    Err(Failure::Usage("an option of a filter takes up to 16 values"))
}

/// Writes what an option takes that names a packet.
macro_rules! takes_a_bound {
    ($option:literal) => {
        concat!(
            $option,
            " takes a packet's number, a time as 2026-01-02T03:04:05.6Z, or seconds as +1.5"
        )
    };
}

/// Returns what is said where an option isn't known, or its value can't be read.
fn usage_of(name: &str) -> &'static str {
    match name {
        "--time" => "--time takes iso, utc, relative or delta",
        "--format" => "--format takes pcap, pcapng or text",
        "--auth-key" =>
            "--auth-key takes a key of up to 128 bytes in hexadecimal, as 0badc0de or 7:0badc0de",
        "--udp-port" => "--udp-port takes a number from 1 to 65535",
        "--keep" => "--keep takes a number from 1 to 1000000",
        "--from" => takes_a_bound!("--from"),
        "--to" => takes_a_bound!("--to"),
        "--label" => "--label takes a text of up to 64 bytes",
        "--transport" => "--transport takes a name of up to 64 bytes",
        "--port" => "--port takes a number up to 65535",
        "--tag" => "--tag takes a number of four bytes, as 0x0da73798",
        "--host" => "--host takes an IPv4 or IPv6 address",
        "--source" => "--source takes an IPv4 or IPv6 address",
        "--destination" => "--destination takes an IPv4 or IPv6 address",
        "--chunk" =>
            "--chunk takes a chunk's name, as SACK or HEARTBEAT_ACK, or a number up to 255",
        "--stream" => "--stream takes a number up to 65535",
        "--tsn" => "--tsn takes a number of four bytes",
        "--ppid" => "--ppid takes a number of four bytes",
        "--direction" => "--direction takes incoming or outgoing",
        _ => "unknown option (try --help)",
    }
}

/// Returns the number that is written so, in decimal or, after `0x`, in hexadecimal, if it is
/// within these bounds.
fn number_of(text: &str, least: u64, most: u64) -> Option<u64>
    ensures { IfSome result (λ n. (least ≤ n) × (n ≤ most)) }
{
    let parsed = match text.strip_prefix("0x") {
        Some(digits) => u64::from_str_radix(digits, 16),
        None => text.parse::<u64>(),
    };
    match parsed {
        Ok(number) if least <= number && number <= most => Some(number),
        _ => None,
    }
}

/// Returns a number of two bytes.
fn u16_of(text: &str, least: u64) -> Option<u16> {
    Some(number_of(text, least, 0xffff)? as u16)
}

/// Returns a number of four bytes.
fn u32_of(text: &str) -> Option<u32> {
    Some(number_of(text, 0, 0xffff_ffff)? as u32)
}

/// Returns how many associations are kept.
fn keep_of(text: &str) -> Option<usize> {
    Some(number_of(text, 1, 1_000_000)? as usize)
}

/// Returns the bound of a packet's number or a time.
fn bound_of(text: &str) -> Option<Bound> {
    match time_bound_of(text) {
        None if !text.starts_with('+') => Some(Bound::Number(number_of(text, 1, u64::MAX)?)),
        bound => bound,
    }
}

/// Returns the form of an input of this name.
fn form_of(name: &str) -> Option<FormatOption> {
    match name {
        "pcap" => Some(FormatOption::Pcap),
        "pcapng" => Some(FormatOption::Pcapng),
        "text" => Some(FormatOption::Text),
        _ => None,
    }
}

/// Returns the form of times of this name.
fn time_of(name: &str) -> Option<TimeOption> {
    match name {
        "iso" => Some(TimeOption::Iso),
        "utc" => Some(TimeOption::Utc),
        "relative" => Some(TimeOption::Relative),
        "delta" => Some(TimeOption::Delta),
        _ => None,
    }
}

/// Returns the host of an IP address.
fn host_of(text: &str) -> Option<Host> {
    match text.parse::<IpAddr>() {
        Ok(IpAddr::V4(address)) => Some(Host::V4(address.octets())),
        Ok(IpAddr::V6(address)) => Some(Host::V6(address.octets())),
        Err(_) => None,
    }
}

/// Returns the way of this name.
fn direction_of(name: &str) -> Option<Direction> {
    match name {
        "incoming" => Some(Direction::Incoming),
        "outgoing" => Some(Direction::Outgoing),
        _ => None,
    }
}

/// Returns the chunk type of a name, in any case, with a blank, `-` or `_` between its words, or of
/// a number.
fn type_of(text: &str) -> Option<u8> {
    for typ in 0..=255 {
        if let Some(known) = chunk_name(typ as u32)
            && is_same_name(known.as_bytes(), text.as_bytes())
        {
            return Some(typ);
        }
    }
    Some(number_of(text, 0, 0xff)? as u8)
}

/// Returns whether these are the same name.
fn is_same_name(known: &[u8], name: &[u8]) -> bool {
    known.len() == name.len()
        && known
            .iter()
            .zip(name.iter())
            .all(|(known, byte)| folded(*known) == folded(*byte))
}

/// Returns a byte of a name as it is compared.
fn folded(byte: u8) -> u8 {
    match byte {
        b'-' | b'_' => b' ',
        _ => byte.to_ascii_lowercase(),
    }
}
