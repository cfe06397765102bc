//! Which decoder reads an input.

ghost use Rattle.std.specs.Prelude.{◌≡◌, [], true, None, IfOk, IfErr, IfSome, OnOk, IsErrOf};
ghost use Rattle.dump_io.specs.Watched.{device_of};
ghost use Rattle.dump_io.specs.Window.{held, left};
ghost use Rattle.std.specs.Io.KnownBytes.{Keeps};
ghost use Rattle.dump_capture.specs.Event.{Hands};
ghost use Rattle.dump_input.specs.Handed.{IsNoFault, FailsWith};
ghost use Rattle.dump_input.specs.Inputs.{is_compressed, format_of, HandsInput, StopsInput};
ghost use Rattle.dump_input.specs.declared.stop.Stop.{Stop};

use crate::engine::read_capture;
use crate::format::FormatOption;
use crate::printer::Printer;
use crate::stop::Stop;
use crate::stream::read_more;
use dump_capture::pcap::{InputKind, input_kind};
use dump_capture::pcap_decoder::PcapDecoder;
use dump_capture::pcapng_decoder::PcapngDecoder;
use dump_capture::text::TextDecoder;
use dump_io::watched::Watched;
use dump_io::window::Window;
use std::alloc::Global;
use std::io::Read;

/// What an input is.
#[derive(Clone, Copy)]
pub enum InputFormat {
    /// A pcap file.
    Pcap,
    /// A pcapng file.
    Pcapng,
    /// Lines of text.
    Text,
    /// Something that gzip, xz, zstd or bzip2 compressed.
    Compressed,
}

/// Hands the events of an input to the printer. What the window held before is dropped.
///
/// Returns the first of these: what the decoder can't read, a failed read, a failure of the
/// printer, or of memory. A printer that fails in its last call isn't asked.
pub fn read_input<R: Read, P: Printer>(
    alloc: Global,
    form: FormatOption,
    window: &mut Window,
    input: &mut Watched<R>,
    printer: &mut P,
) -> Result<(), Stop>
    ensures whole { OnOk result (HandsInput form P.handed (R.remaining (device_of input.old))
        printer.old printer.new None) }
    ensures stopped { IfErr result (StopsInput form P.handed (R.remaining (device_of input.old))
        printer.old printer.new) }
    ensures failed_read { FailsWith Stop.Read result input.old input.new }
    ensures failed_printer { IsErrOf result Stop.Printer → P.failed printer.new ≡ true }
{
    window.clear();
    let format = find_format(form, window, input, printer)?;
    match format {
        InputFormat::Pcap => read_capture(&mut PcapDecoder::FileHeader, window, input, printer),
        InputFormat::Pcapng => {
            let mut decoder = PcapngDecoder::new(alloc)?;
            read_capture(&mut decoder, window, input, printer)
        }
        InputFormat::Text => {
            let mut decoder = TextDecoder::new(alloc)?;
            read_capture(&mut decoder, window, input, printer)
        }
        InputFormat::Compressed => Err(Stop::Compressed),
    }
}

/// Reads the first bytes of an input, and returns what it is.
fn find_format<R: Read, P: Printer>(
    form: FormatOption,
    window: &mut Window,
    input: &mut Watched<R>,
    printer: &mut P,
) -> Result<InputFormat, Stop>
    requires { held window.old ≡ [] }
    ensures format { IfOk result (λ found.
        IfSome (left window.new (R.remaining (device_of input.new)))
        (λ l. found ≡ format_of form l)) }
    ensures stream { Keeps (R.remaining (device_of input.old))
        (left window.new (R.remaining (device_of input.new))) }
    ensures handed { Hands P.handed printer.old printer.new [] }
    ensures failed_read { FailsWith Stop.Read result input.old input.new }
    ensures failed_printer { IsErrOf result Stop.Printer → P.failed printer.new ≡ true }
    ensures no_fault { IfErr result IsNoFault }
{
    while window.len() < 4 {
        if read_more(window, input, printer)? == 0 {
            return Ok(format_of(form, window.held()));
        }
    }
    Ok(format_of(form, window.held()))
}

/// Returns what an input is that begins with these bytes.
fn format_of(form: FormatOption, bytes: &[u8]) -> InputFormat
    ensures { result ≡ format_of form bytes.now }
{
    match form {
        FormatOption::Pcap => InputFormat::Pcap,
        FormatOption::Pcapng => InputFormat::Pcapng,
        FormatOption::Text => InputFormat::Text,
        FormatOption::Detected => {
            if is_compressed(bytes) {
                return InputFormat::Compressed;
            }
            match input_kind(bytes) {
                InputKind::Pcap(_) => InputFormat::Pcap,
                InputKind::Pcapng => InputFormat::Pcapng,
                InputKind::Text => InputFormat::Text,
            }
        }
    }
}

/// Returns whether the first bytes say that an input is compressed.
fn is_compressed(bytes: &[u8]) -> bool
    ensures { result ≡ is_compressed bytes.now }
{
    bytes.starts_with(&[0x1f, 0x8b])
        || bytes.starts_with(&[0xfd, 0x37, 0x7a, 0x58])
        || bytes.starts_with(&[0x28, 0xb5, 0x2f, 0xfd])
        || bytes.starts_with(b"BZh")
}
