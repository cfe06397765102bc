//! The names of types and codes, and the least lengths. registry/make.py writes this file:
//! registry/sctp.txt is edited in its place.

// IANA, "SCTP Parameters", "Chunk Types", and 16 and 129 of drafts.
/// Returns the name of a chunk type, in the words of its standard; `None` of a type that has none
/// here.
pub fn chunk_name(typ: u32) -> Option<&'static str> {
    match typ {
        0 => Some("DATA"),
        1 => Some("INIT"),
        2 => Some("INIT ACK"),
        3 => Some("SACK"),
        4 => Some("HEARTBEAT"),
        5 => Some("HEARTBEAT ACK"),
        6 => Some("ABORT"),
        7 => Some("SHUTDOWN"),
        8 => Some("SHUTDOWN ACK"),
        9 => Some("ERROR"),
        10 => Some("COOKIE ECHO"),
        11 => Some("COOKIE ACK"),
        12 => Some("ECNE"),
        13 => Some("CWR"),
        14 => Some("SHUTDOWN COMPLETE"),
        15 => Some("AUTH"),
        16 => Some("NR-SACK"),
        64 => Some("I-DATA"),
        128 => Some("ASCONF ACK"),
        129 => Some("PKTDROP"),
        130 => Some("RE-CONFIG"),
        132 => Some("PAD"),
        192 => Some("FORWARD-TSN"),
        193 => Some("ASCONF"),
        194 => Some("I-FORWARD-TSN"),
        _ => None,
    }
}

// IANA, "SCTP Parameters", "Chunk Parameter Types".
/// Returns the name of a parameter.
pub fn parameter_name(typ: u16) -> Option<&'static str> {
    match typ {
        0x0001 => Some("Heartbeat Info"),
        0x0005 => Some("IPv4 Address"),
        0x0006 => Some("IPv6 Address"),
        0x0007 => Some("State Cookie"),
        0x0008 => Some("Unrecognized Parameter"),
        0x0009 => Some("Cookie Preservative"),
        0x000b => Some("Host Name Address"),
        0x000c => Some("Supported Address Types"),
        0x000d => Some("Outgoing SSN Reset Request"),
        0x000e => Some("Incoming SSN Reset Request"),
        0x000f => Some("SSN/TSN Reset Request"),
        0x0010 => Some("Re-configuration Response"),
        0x0011 => Some("Add Outgoing Streams Request"),
        0x0012 => Some("Add Incoming Streams Request"),
        0x8000 => Some("ECN Capable"),
        0x8001 => Some("Zero Checksum Acceptable"),
        0x8002 => Some("Random"),
        0x8003 => Some("Chunk List"),
        0x8004 => Some("Requested HMAC Algorithm"),
        0x8005 => Some("Padding"),
        0x8008 => Some("Supported Extensions"),
        0xc000 => Some("Forward-TSN-Supported"),
        0xc001 => Some("Add IP Address"),
        0xc002 => Some("Delete IP Address"),
        0xc003 => Some("Error Cause Indication"),
        0xc004 => Some("Set Primary Address"),
        0xc005 => Some("Success Indication"),
        0xc006 => Some("Adaptation Layer Indication"),
        _ => None,
    }
}

// IANA, "SCTP Parameters", "Error Cause Codes".
/// Returns the name of an error cause.
pub fn cause_name(code: u16) -> Option<&'static str> {
    match code {
        0x0001 => Some("Invalid Stream Identifier"),
        0x0002 => Some("Missing Mandatory Parameter"),
        0x0003 => Some("Stale Cookie"),
        0x0004 => Some("Out of Resource"),
        0x0005 => Some("Unresolvable Address"),
        0x0006 => Some("Unrecognized Chunk Type"),
        0x0007 => Some("Invalid Mandatory Parameter"),
        0x0008 => Some("Unrecognized Parameters"),
        0x0009 => Some("No User Data"),
        0x000a => Some("Cookie Received While Shutting Down"),
        0x000b => Some("Restart of an Association with New Addresses"),
        0x000c => Some("User-Initiated Abort"),
        0x000d => Some("Protocol Violation"),
        0x00a0 => Some("Request to Delete Last Remaining IP Address"),
        0x00a1 => Some("Operation Refused Due to Resource Shortage"),
        0x00a2 => Some("Request to Delete Source IP Address"),
        0x00a3 => Some("Association Aborted due to illegal ASCONF-ACK"),
        0x00a4 => Some("Request refused - no authorization"),
        0x0105 => Some("Unsupported HMAC Identifier"),
        _ => None,
    }
}

// IANA, "SCTP Parameters", "SCTP Payload Protocol Identifiers", where Wireshark's table agrees; in
// their short forms.
/// Returns the name of a payload protocol identifier.
pub fn payload_protocol(ppid: u32) -> Option<&'static str> {
    match ppid {
        1 => Some("IUA"),
        2 => Some("M2UA"),
        3 => Some("M3UA"),
        4 => Some("SUA"),
        5 => Some("M2PA"),
        6 => Some("V5UA"),
        7 => Some("H.248"),
        8 => Some("BICC/Q.2150.3"),
        9 => Some("TALI"),
        10 => Some("DUA"),
        11 => Some("ASAP"),
        12 => Some("ENRP"),
        13 => Some("H.323"),
        14 => Some("Q.IPC/Q.2150.3"),
        15 => Some("SIMCO"),
        16 => Some("DDP Segment Chunk"),
        17 => Some("DDP Stream Session Control"),
        18 => Some("S1AP"),
        19 => Some("RUA"),
        20 => Some("HNBAP"),
        21 => Some("ForCES-HP"),
        22 => Some("ForCES-MP"),
        23 => Some("ForCES-LP"),
        24 => Some("SBc-AP"),
        25 => Some("NBAP"),
        27 => Some("X2AP"),
        28 => Some("IRCP"),
        29 => Some("LCS-AP"),
        30 => Some("MPICH2"),
        31 => Some("SABP"),
        32 => Some("Fractal Generator Protocol"),
        33 => Some("Ping Pong Protocol"),
        34 => Some("CalcApp Protocol"),
        35 => Some("Scripting Service Protocol"),
        36 => Some("NetPerfMeter Control"),
        37 => Some("NetPerfMeter Data"),
        38 => Some("Echo"),
        39 => Some("Discard"),
        40 => Some("Daytime"),
        41 => Some("Character Generator"),
        42 => Some("RNA"),
        43 => Some("M2AP"),
        44 => Some("M3AP"),
        45 => Some("SSH"),
        46 => Some("Diameter"),
        47 => Some("Diameter over DTLS"),
        48 => Some("R14P"),
        49 => Some("GDT"),
        50 => Some("WebRTC DCEP"),
        51 => Some("WebRTC String"),
        52 => Some("WebRTC Binary Partial"),
        53 => Some("WebRTC Binary"),
        54 => Some("WebRTC String Partial"),
        55 => Some("PUA"),
        56 => Some("WebRTC String Empty"),
        57 => Some("WebRTC Binary Empty"),
        58 => Some("XwAP"),
        59 => Some("Xw Control Plane"),
        60 => Some("NGAP"),
        61 => Some("XnAP"),
        62 => Some("F1AP"),
        64 => Some("E1AP"),
        65 => Some("ELE2 Lawful Interception"),
        66 => Some("NGAP over DTLS"),
        67 => Some("XnAP over DTLS"),
        68 => Some("F1AP over DTLS"),
        69 => Some("E1AP over DTLS"),
        70 => Some("E2-CP"),
        71 => Some("E2-UP"),
        72 => Some("E2-DU"),
        73 => Some("W1AP"),
        _ => None,
    }
}

// RFC 8832 section 5.1.
/// Returns what a type of data channel says of its messages.
pub fn channel_type_name(typ: u32) -> Option<&'static str> {
    match typ {
        0x00 => Some("reliable ordered"),
        0x01 => Some("partial reliable rexmit ordered"),
        0x02 => Some("partial reliable timed ordered"),
        0x80 => Some("reliable unordered"),
        0x81 => Some("partial reliable rexmit unordered"),
        0x82 => Some("partial reliable timed unordered"),
        _ => None,
    }
}

// RFC 9260 section 3.3.2.1.
/// Returns the name of a type of address.
pub fn address_name(typ: u32) -> Option<&'static str> {
    match typ {
        5 => Some("IPv4"),
        6 => Some("IPv6"),
        11 => Some("Host Name"),
        _ => None,
    }
}

// RFC 4895 section 3.3.
/// Returns the name of an HMAC by its identifier.
pub fn hmac_name(identifier: u32) -> Option<&'static str> {
    match identifier {
        1 => Some("SHA-1"),
        3 => Some("SHA-256"),
        _ => None,
    }
}

// RFC 6525 section 4.4.
/// Returns the name of a result of a RE-CONFIG request.
pub fn result_name(code: u32) -> Option<&'static str> {
    match code {
        0 => Some("Success - Nothing to do"),
        1 => Some("Success - Performed"),
        2 => Some("Denied"),
        3 => Some("Error - Wrong SSN"),
        4 => Some("Error - Request already in progress"),
        5 => Some("Error - Bad Sequence Number"),
        6 => Some("In progress"),
        _ => None,
    }
}

/// Returns the section that defines a chunk type; `None` of a type that has no name here.
pub fn chunk_section(typ: u8) -> Option<&'static str> {
    match typ {
        0 => Some("RFC 9260 section 3.3.1"),
        1 => Some("RFC 9260 section 3.3.2"),
        2 => Some("RFC 9260 section 3.3.3"),
        3 => Some("RFC 9260 section 3.3.4"),
        4 => Some("RFC 9260 section 3.3.5"),
        5 => Some("RFC 9260 section 3.3.6"),
        6 => Some("RFC 9260 section 3.3.7"),
        7 => Some("RFC 9260 section 3.3.8"),
        8 => Some("RFC 9260 section 3.3.9"),
        9 => Some("RFC 9260 section 3.3.10"),
        10 => Some("RFC 9260 section 3.3.11"),
        11 => Some("RFC 9260 section 3.3.12"),
        12 | 13 => Some("RFC 4960 appendix A"),
        14 => Some("RFC 9260 section 3.3.13"),
        15 => Some("RFC 4895 section 5.1"),
        16 => Some("draft-tuexen-tsvwg-sctp-multipath"),
        64 => Some("RFC 8260 section 2.1"),
        128 => Some("RFC 5061 section 4.1.2"),
        129 => Some("draft-stewart-sctp-pktdrprep"),
        130 => Some("RFC 6525 section 3.1"),
        132 => Some("RFC 4820 section 3"),
        192 => Some("RFC 3758 section 3.2"),
        193 => Some("RFC 5061 section 4.1.1"),
        194 => Some("RFC 8260 section 2.3.1"),
        _ => None,
    }
}

/// Returns the section that defines a parameter.
pub fn parameter_section(typ: u16) -> Option<&'static str> {
    match typ {
        0x0001 => Some("RFC 9260 section 3.3.5"),
        0x0005 => Some("RFC 9260 section 3.3.2.1.1"),
        0x0006 => Some("RFC 9260 section 3.3.2.1.2"),
        0x0007 => Some("RFC 9260 section 3.3.3.1.1"),
        0x0008 => Some("RFC 9260 section 3.3.3.1.2"),
        0x0009 => Some("RFC 9260 section 3.3.2.1.3"),
        0x000b => Some("RFC 9260 section 3.3.2.1.4"),
        0x000c => Some("RFC 9260 section 3.3.2.1.5"),
        0x000d => Some("RFC 6525 section 4.1"),
        0x000e => Some("RFC 6525 section 4.2"),
        0x000f => Some("RFC 6525 section 4.3"),
        0x0010 => Some("RFC 6525 section 4.4"),
        0x0011 => Some("RFC 6525 section 4.5"),
        0x0012 => Some("RFC 6525 section 4.6"),
        0x8000 => Some("RFC 4960 appendix A"),
        0x8001 => Some("RFC 9653 section 4"),
        0x8002 => Some("RFC 4895 section 3.1"),
        0x8003 => Some("RFC 4895 section 3.2"),
        0x8004 => Some("RFC 4895 section 3.3"),
        0x8005 => Some("RFC 4820 section 4"),
        0x8008 => Some("RFC 5061 section 4.2.7"),
        0xc000 => Some("RFC 3758 section 3.1"),
        0xc001 => Some("RFC 5061 section 4.2.1"),
        0xc002 => Some("RFC 5061 section 4.2.2"),
        0xc003 => Some("RFC 5061 section 4.2.3"),
        0xc004 => Some("RFC 5061 section 4.2.4"),
        0xc005 => Some("RFC 5061 section 4.2.5"),
        0xc006 => Some("RFC 5061 section 4.2.6"),
        _ => None,
    }
}

/// Returns the section that defines an error cause.
pub fn cause_section(code: u16) -> Option<&'static str> {
    match code {
        0x0001 => Some("RFC 9260 section 3.3.10.1"),
        0x0002 => Some("RFC 9260 section 3.3.10.2"),
        0x0003 => Some("RFC 9260 section 3.3.10.3"),
        0x0004 => Some("RFC 9260 section 3.3.10.4"),
        0x0005 => Some("RFC 9260 section 3.3.10.5"),
        0x0006 => Some("RFC 9260 section 3.3.10.6"),
        0x0007 => Some("RFC 9260 section 3.3.10.7"),
        0x0008 => Some("RFC 9260 section 3.3.10.8"),
        0x0009 => Some("RFC 9260 section 3.3.10.9"),
        0x000a => Some("RFC 9260 section 3.3.10.10"),
        0x000b => Some("RFC 9260 section 3.3.10.11"),
        0x000c => Some("RFC 9260 section 3.3.10.12"),
        0x000d => Some("RFC 9260 section 3.3.10.13"),
        0x00a0 => Some("RFC 5061 section 4.3.1"),
        0x00a1 => Some("RFC 5061 section 4.3.2"),
        0x00a2 => Some("RFC 5061 section 4.3.3"),
        0x00a3 => Some("RFC 5061 section 4.3.4"),
        0x00a4 => Some("RFC 5061 section 4.3.5"),
        0x0105 => Some("RFC 4895 section 4.1"),
        _ => None,
    }
}

/// Returns the least length of a chunk of this type, with its header, and the step by which it can
/// be longer: 0, where it can't, and where its bytes say by how much. A type that isn't listed has
/// the header's length, and 0.
pub fn least_chunk(typ: u8) -> (usize, u8) {
    match typ {
        0 => (16, 1),
        1 | 2 | 64 => (20, 1),
        3 => (16, 0),
        7 => (8, 0),
        9 => (8, 1),
        10 => (5, 1),
        192 => (8, 4),
        194 => (8, 8),
        _ => (4, 0),
    }
}

/// Returns the least length and the step of a parameter of this type, as `least_chunk` does.
pub fn least_parameter(typ: u16) -> (usize, u8) {
    match typ {
        0x000d => (16, 2),
        0x000e => (8, 2),
        0x000f | 0x8001 => (8, 0),
        0x0010 => (12, 8),
        0x0011 | 0x0012 => (12, 0),
        _ => (4, 0),
    }
}

/// Returns the least length and the step of an error cause of this code, as `least_chunk` does.
pub fn least_cause(code: u16) -> (usize, u8) {
    match code {
        0x0002 | 0x0009 => (8, 0),
        _ => (4, 0),
    }
}
