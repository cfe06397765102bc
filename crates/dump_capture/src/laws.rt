//! What holds of the definitions alone, as contracts of functions that do nothing.

ghost use Rattle.std.specs.Prelude.{◌≡◌, ◌<◌, ◌+◌, ◌^◌, ◌++◌, ℕ, List, [], ◌∷◌, true, Option, Some, None, Ok, Err, length, take, slice_index};
ghost use Rattle.dump_capture.specs.Decoding.{Reads};
ghost use Rattle.dump_capture.specs.Frame.{packet_in, is_known_link, in_frame, past_header, may_carry_sctp};
ghost use Rattle.dump_capture.specs.IpFragment.{Fragment, fragment_in};
ghost use Rattle.dump_capture.specs.Reassembly.{ip_header, carried_by};
ghost use Rattle.dump_capture.specs.declared.frame.NoPacket.TheVariants.{Fragment as IsFragment};
ghost use Rattle.dump_capture.specs.Sent.{Ipv4Fields, ipv4_packet, ipv6_packet};
ghost use Rattle.dump_capture.specs.declared.frame.Addresses.TheVariants.{V4, V6};
ghost use Rattle.dump_capture.specs.declared.pcap.ByteOrder.{ByteOrder};
ghost use Rattle.dump_capture.specs.Pcap.{Record, Fits, file_header, record_bytes, BeginsWithRecord, AreRecords};
ghost use Rattle.dump_capture.specs.PcapEvents.{Item, End, events_from};
ghost use Rattle.dump_capture.specs.declared.pcap.FileHeader.{FileHeader};
ghost use Rattle.dump_capture.specs.PcapngEvents as pcapng;
ghost use Rattle.dump_capture.specs.PcapngEvents.{State};
ghost use Rattle.dump_capture.specs.Event.{Event};
ghost use Rattle.dump_capture.specs.declared.decoder.Fault.{Fault};
ghost use Rattle.dump_capture.specs.declared.pcap_decoder.PcapDecoder.{PcapDecoder};
ghost use Rattle.dump_capture.specs.declared.pcap_decoder.PcapDecoder.TheVariants.{FileHeader as AtHeader};

/// Proves that the bytes after a file header are one list of records, and what is cut off after
/// them.
pub fn one_reading()
    ensures some { (order : ByteOrder) (bytes : List ℕ) → ((k : ℕ) → slice_index bytes k < 256)
        → (records : List Record) × (cut : List ℕ) × AreRecords order bytes records cut }
    ensures one { (order : ByteOrder) (bytes cut left : List ℕ) (records others : List Record)
        → AreRecords order bytes records cut → AreRecords order bytes others left
        → (records ≡ others) × (cut ≡ left) }
{}

/// Proves that a record that comes before records is the first of them.
pub fn next_record()
    ensures { (order : ByteOrder) (r : Record) (bytes cut : List ℕ) (records : List Record)
        → Fits r → AreRecords order bytes records cut
        → AreRecords order (record_bytes order r ++ bytes) (r ∷ records) cut }
{}

/// Proves that bytes that don't begin with a whole record are no records, and all of them are cut
/// off. At the end of a whole file there are no such bytes.
pub fn no_record()
    ensures { (order : ByteOrder) (bytes : List ℕ)
        → (BeginsWithRecord order bytes → ⊥) → AreRecords order bytes [] bytes }
{}

/// Proves that a pcap file of a link type that is known has the events of its records, in order.
pub fn pcap_events()
    ensures { (header : FileHeader) (front bytes cut : List ℕ) (records : List Record)
        → length front ≡ 24 → file_header front ≡ Some header
        → is_known_link header.link_type ≡ true
        → AreRecords header.format.order bytes records cut
        → Reads Item End AtHeader (front ++ bytes)
        (events_from header 1 records cut) None }
{}

/// Proves that any bytes are read, as some events and as a fault or none.
pub fn some_file()
    ensures pcap { (bytes : List ℕ) → ((k : ℕ) → slice_index bytes k < 256)
        → (events : List Event) × (fault : Option Fault)
        × Reads Item End AtHeader bytes events fault }
    ensures pcapng { (s : State) (bytes : List ℕ) → (events : List Event) × (fault : Option Fault)
        × Reads pcapng.Item pcapng.End s bytes events fault }
{}

/// Proves that bytes are read as one list of events at most, and with one fault at most.
pub fn one_file()
    ensures pcap { (s : PcapDecoder) (bytes : List ℕ) (events others : List Event)
        (fault other : Option Fault)
        → Reads Item End s bytes events fault → Reads Item End s bytes others other
        → (events ≡ others) × (fault ≡ other) }
    ensures pcapng { (s : State) (bytes : List ℕ) (events others : List Event)
        (fault other : Option Fault)
        → Reads pcapng.Item pcapng.End s bytes events fault
        → Reads pcapng.Item pcapng.End s bytes others other
        → (events ≡ others) × (fault ≡ other) }
{}

/// Proves that an SCTP packet that an IPv4 packet without options carries is found, without what
/// follows it in the frame, whatever the header's other fields are. If the frame was cut off, it is
/// found as far as it was captured.
pub fn sent_ipv4()
    ensures { (f : Ipv4Fields) (source destination bytes : List ℕ) (port original size : ℕ)
        → length source ≡ 4 → length destination ≡ 4 → 20 + size < 2 ^ 16
        → packet_in port 101 original (ipv4_packet f size source destination bytes)
        ≡ Ok (record {
          addresses = Some (V4 source destination);
          udp_ports = None;
          length = size;
          bytes = take size bytes;
        }) }
{}

/// Proves that an SCTP packet that an IPv6 packet without extension headers carries is found,
/// without what follows it in the frame, and as far as it was captured.
pub fn sent_ipv6()
    ensures { (source destination bytes : List ℕ) (hop_limit port original size : ℕ)
        → length source ≡ 16 → length destination ≡ 16 → size < 2 ^ 16
        → packet_in port 101 original (ipv6_packet hop_limit size source destination bytes)
        ≡ Ok (record {
          addresses = Some (V6 source destination);
          udp_ports = None;
          length = size;
          bytes = take size bytes;
        }) }
{}

/// Proves that `packet_in` returns `Fragment` for each frame in which a fragment is found.
pub fn fragment_is_no_packet()
    ensures { (port link original_length : ℕ) (frame : List ℕ) (f : Fragment)
        → fragment_in port link original_length frame ≡ Some f
        → packet_in port link original_length frame ≡ Err IsFragment }
{}

/// Proves that the header of a packet that is put together is read in a frame of link type 101 as
/// one of its addresses, with what it carries after it, whatever the checksum is.
pub fn joined_packet()
    ensures ipv4 { (source destination bytes : List ℕ) (protocol checksum original : ℕ)
        → length source ≡ 4 → length destination ≡ 4 → 20 + length bytes < 2 ^ 16
        → may_carry_sctp protocol ≡ true
        → past_header (in_frame 101 original
        (ip_header (V4 source destination) protocol (length bytes) checksum ++ bytes))
        ≡ Ok (carried_by (V4 source destination) protocol bytes) }
    ensures ipv6 { (source destination bytes : List ℕ) (protocol checksum original : ℕ)
        → length source ≡ 16 → length destination ≡ 16 → length bytes < 2 ^ 16
        → past_header (in_frame 101 original
        (ip_header (V6 source destination) protocol (length bytes) checksum ++ bytes))
        ≡ Ok (carried_by (V6 source destination) protocol bytes) }
{}
