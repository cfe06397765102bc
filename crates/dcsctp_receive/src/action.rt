//! What is done with a chunk or a parameter of a type that the endpoint doesn't recognize.

ghost use Rattle.std.specs.Prelude.{◌≡◌};
ghost use Rattle.dcsctp_receive.specs.Action.{action_of, action_to_chunk, action_to_parameter, skips, reports};

/// What an endpoint does with a chunk or a parameter whose type it doesn't recognize, by the two
/// highest-order bits of the type (RFC 9260 sections 3.2 and 3.2.1, tables 2 and 3).
#[derive(Clone, Copy, Debug)]
pub enum Action {
    /// Bits 00: stops, and processes no further chunk of the packet, or no further parameter of
    /// the chunk.
    Stop,
    /// Bits 01: stops as well, and reports the chunk or the parameter.
    StopAndReport,
    /// Bits 10: skips the chunk or the parameter, and continues with the next.
    Skip,
    /// Bits 11: skips as well, and reports the chunk or the parameter.
    SkipAndReport,
}

impl Action {
    /// Returns whether processing continues with the next chunk or parameter.
    pub fn skips(self) -> bool
        ensures { result ≡ skips self }
    {
        match self {
            Action::Stop | Action::StopAndReport => false,
            Action::Skip | Action::SkipAndReport => true,
        }
    }

    /// Returns whether the chunk or the parameter is reported: a chunk in an ERROR, by the cause
    /// Unrecognized Chunk Type; a parameter as RFC 9260 section 3.2.2 says.
    pub fn reports(self) -> bool
        ensures { result ≡ reports self }
    {
        match self {
            Action::Stop | Action::Skip => false,
            Action::StopAndReport | Action::SkipAndReport => true,
        }
    }
}

/// Returns what is done with a chunk of this type, where it isn't recognized (RFC 9260 section
/// 3.2).
pub fn unrecognized_chunk(typ: u8) -> Action
    ensures { result ≡ action_to_chunk typ }
{
    action_of(typ >> 6)
}

/// Returns what is done with a parameter of this type, where it isn't recognized (RFC 9260 section
/// 3.2.1).
pub fn unrecognized_parameter(typ: u16) -> Action
    ensures { result ≡ action_to_parameter typ }
{
    action_of((typ >> 14) as u8)
}

/// Returns the action that two bits say.
fn action_of(bits: u8) -> Action
    ensures { result ≡ action_of bits }
{
    match bits {
        0 => Action::Stop,
        1 => Action::StopAndReport,
        2 => Action::Skip,
        _ => Action::SkipAndReport,
    }
}
