//! Finds the events of pcap files.

ghost use Rattle.std.specs.Prelude.{◌≡◌, ◌≤◌, ℕ, List, [], length};
ghost use Rattle.dump_capture.specs.Number.{one_more};
ghost use Rattle.dump_capture.specs.Event.{Event, Hands};
ghost use Rattle.dump_capture.specs.Decoding.{Finds};
ghost use Rattle.dump_capture.specs.PcapEvents.{Item, End};
ghost use Rattle.dump_capture.specs.declared.pcap_decoder.PcapDecoder.{PcapDecoder};

use crate::decoder::{Decoder, Extent, Fault, MOST_KEPT, Next};
use crate::event::{Part, Seen, Sink, Skipped, Time};
use crate::frame::is_known_link;
use crate::pcap::{
    FILE_HEADER_SIZE, FileHeader, InputKind, RECORD_HEADER_SIZE, input_kind, read_file_header,
    read_record_header,
};

/// Finds the events of a pcap file. It says what comes next: it begins before the file header.
#[derive(Clone, Copy)]
pub enum PcapDecoder {
    /// The file header.
    FileHeader,
    /// A record, or the end.
    Record {
        /// The header of the file.
        header: FileHeader,
        /// The number of the record, from 1.
        number: u64,
    },
}

impl Decoder for PcapDecoder {
    ghost State = { PcapDecoder };

    ghost state = { λ d. d };

    ghost Item = { Item };

    ghost End = { End };

    fn next<S: Sink>(&mut self, held: &[u8], at_end: bool, sink: &mut S) -> Next {
        match *self {
            PcapDecoder::FileHeader => self.take_header(held, at_end),
            PcapDecoder::Record { header, number } => {
                self.take_record(header, number, held, at_end, sink)
            }
        }
    }
}

impl PcapDecoder {
    /// Takes the file header.
    fn take_header(&mut self, held: &[u8], at_end: bool) -> Next
        requires { self.old ≡ PcapDecoder.FileHeader }
        ensures { Finds Item End PcapDecoder.FileHeader held.now at_end [] self.new result }
    {
        if held.len() < FILE_HEADER_SIZE {
            if !at_end {
                return Next::More;
            }
            return match input_kind(held) {
                InputKind::Pcap(_) => Next::Fault(Fault::ShortHeader),
                _ => Next::Fault(Fault::NotCapture),
            };
        }
        let Some(header) = read_file_header(held) else {
            return Next::Fault(Fault::NotCapture);
        };
        if !is_known_link(header.link_type) {
            return Next::Fault(Fault::LinkType(header.link_type));
        }
        *self = PcapDecoder::Record { header, number: 1 };
        Next::Item(FILE_HEADER_SIZE)
    }

    /// Takes a record.
    fn take_record<S: Sink>(
        &mut self,
        header: FileHeader,
        number: u64,
        held: &[u8],
        at_end: bool,
        sink: &mut S,
    ) -> Next
        requires { self.old ≡ PcapDecoder.Record header number }
        ensures { (events : List Event) × Hands S.handed sink.old sink.new events
            × Finds Item End (PcapDecoder.Record header number) held.now at_end events self.new
            result }
    {
        if held.len() < RECORD_HEADER_SIZE {
            if !at_end {
                return Next::More;
            }
            if !held.is_empty() {
                sink.skipped(Part::Record, number, Skipped::EndsIn);
            }
            return Next::End;
        }
        let record = read_record_header(header.format.order, held);
        let captured = record.captured_length as usize;
        let size = RECORD_HEADER_SIZE + captured;
        let next = PcapDecoder::Record {
            header,
            number: number.saturating_add(1),
        };
        if captured > MOST_KEPT {
            sink.skipped(Part::Record, number, Skipped::TooLong);
            *self = next;
            if held.len() < size {
                return Next::Long(Extent::Bytes(size));
            }
            return Next::Item(size);
        }
        if held.len() < size {
            if !at_end {
                return Next::More;
            }
            sink.skipped(Part::Record, number, Skipped::EndsIn);
            return Next::End;
        }
        let seen = Seen {
            number,
            time: Time::Stamp {
                seconds: record.seconds,
                fraction: record.fraction,
                resolution: header.format.resolution,
            },
            part: Part::Record,
            place: number,
        };
        let frame = &held[RECORD_HEADER_SIZE..size];
        sink.frame(&seen, header.link_type, record.original_length, frame);
        *self = next;
        Next::Item(size)
    }
}
