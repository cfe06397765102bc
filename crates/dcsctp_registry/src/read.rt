//! Chunks, parameters and error causes of types that have no kind of their own, read by their
//! layouts.

ghost use Rattle.std.specs.{Prelude.{◌≡◌}, Option.{option_and_then}};
ghost use Rattle.dcsctp_tlv.specs.Parameter.{ParameterTree, row as parameter_row};
ghost use Rattle.dcsctp_cause.specs.Cause.{CauseTree, row as cause_row};
ghost use Rattle.dcsctp_wire.specs.Chunk.{ChunkTree};
ghost use Rattle.dcsctp_borrowed.specs.RawChunks.{RawMeans};
ghost use Rattle.dcsctp_registry.specs.{CauseLayouts.{cause_rows}, ChunkLayouts.{chunk_rows}, Layout.{read}, ParameterLayouts.{parameter_rows}, Registered.{read_in, registered_chunk, registered_parameter, registered_cause}};

use crate::cause_layouts::cause_layout;
use crate::chunk_layouts::chunk_layout;
use crate::layout::Layout;
use crate::parameter_layouts::parameter_layout;
use crate::registered::Registered;
use dcsctp_tlv::parameter::RawParameter;
use dcsctp_wire::packet::chunk::RawChunk;

/// Reads a chunk whose type has a name in IANA's registry or a draft and no kind, without a copy;
/// reserved bytes are ignored. `None` if and only if its type isn't one of these, or its value isn't
/// laid out as its type's: of another size, or with a list that is broken.
///
/// Of a chunk of a packet this is what the bytes hold that `SctpPacket::from_bytes` keeps, and
/// `None` where it names the chunk.
#[inline(always)]
pub fn read_chunk<'a>(raw: &RawChunk<'a>) -> Option<Registered<'a>>
    ensures read { result ≡ read_in chunk_rows raw.now.typ raw.now.value.now }
    ensures kept { (tree : ChunkTree) → RawMeans raw.now tree → result ≡ registered_chunk tree }
{
    read_by(chunk_layout(raw.typ), raw.value)
}

/// Reads a parameter whose type has a name in IANA's registry and no kind, as `read_chunk` does.
#[inline(always)]
pub fn read_parameter<'a>(raw: &RawParameter<'a>) -> Option<Registered<'a>>
    ensures read { result ≡ read_in parameter_rows raw.now.typ raw.now.value.now }
    ensures kept { (tree : ParameterTree) → (parameter_row raw.now.typ).means raw.now.value.now tree
        → result ≡ registered_parameter tree }
{
    read_by(parameter_layout(raw.typ), raw.value)
}

/// Reads an error cause whose code has a name in IANA's registry and no kind, as `read_chunk` does.
#[inline(always)]
pub fn read_cause<'a>(raw: &RawParameter<'a>) -> Option<Registered<'a>>
    ensures read { result ≡ read_in cause_rows raw.now.typ raw.now.value.now }
    ensures kept { (tree : CauseTree) → (cause_row raw.now.typ).means raw.now.value.now tree
        → result ≡ registered_cause tree }
{
    read_by(cause_layout(raw.typ), raw.value)
}

/// Reads a value by a layout, if there is one.
#[inline(always)]
fn read_by<'a>(layout: Option<Layout>, value: &'a [u8]) -> Option<Registered<'a>>
    ensures { result ≡ option_and_then (λ l. read l value.now) layout }
{
    match layout {
        Some(layout) => Registered::read(layout, value),
        None => None,
    }
}
