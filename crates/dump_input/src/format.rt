//! The form of an input, as it is asked for.

/// The form of an input.
#[derive(Clone, Copy)]
pub enum FormatOption {
    /// What its first bytes say.
    Detected,
    /// A pcap file.
    Pcap,
    /// A pcapng file.
    Pcapng,
    /// Lines of text.
    Text,
}
