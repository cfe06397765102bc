//! Kinds of items: what is done by kind, with an arm for each line of a list of kinds; and reading
//! a kind by itself, a check that does not allocate, and a build that tests nothing again.

ghost use Rattle.std.specs.Prelude.{◌≤◌, ◌+◌, ◌*◌, ℕ, Bool, List, length, IsOk, IfOk, IfErr, IsErrOf};
ghost use Rattle.dcsctp_tlv.specs.{Decided.{LawfulRow}, Frame.{lenient}, Kinds.{own_row}, Level.{HasMeaning}, Table.{IsEmptyList}, Reading.{Answers, Exactly, reading, locating, RowAnswer, Counted, Unplaced}};
ghost use Rattle.dcsctp_tlv.specs.Kinds as kinds;

use crate::error::{ChunkParseError, LocatedFault};
use std::alloc::{AllocError, Global};

/// Matches an enum of kinds, and evaluates the same expression in each arm: one for each line of
/// its lists of kinds, and `Unknown`'s.
#[macro_export]
macro_rules! each_arms {
    (
        [$of:ident, $item:expr, $kind:ident => $does:expr]
        $({ $($typ:path, $variant:ident, $type:path $(, $field:ident)?;)* })*
    ) => {
        match $item {
            $($($of::$variant($kind) => $does,)*)*
            $of::Unknown($kind) => $does,
        }
    };
}

/// Checks a value as its kind does, for each kind without a list of items; any value of another
/// type passes.
#[macro_export]
macro_rules! check_arms {
    (
        [$typ:expr, $value:expr]
        { $($fixed:path, $fixed_variant:ident, $fixed_type:path;)* }
        { $($copied:path, $copied_variant:ident, $copied_type:path;)* }
        $({ $($kept:path, $kept_variant:ident, $kept_type:ident, $field:ident;)* })?
    ) => {
        match $typ {
            $($fixed => <$fixed_type>::check($value),)*
            $($copied => <$copied_type>::check($value),)*
            $($($kept => Ok(()),)*)?
            _ => Ok(()),
        }
    };
}

/// Builds what the value of a parameter or an error cause means, and does something with it.
#[macro_export]
macro_rules! build_arms {
    (
        [$of:ident, $typ:expr, $alloc:expr, $value:expr, $item:ident => $does:expr]
        { $($fixed:path, $fixed_variant:ident, $fixed_type:path;)* }
        { $($copied:path, $copied_variant:ident, $copied_type:path;)* }
        { $($kept:path, $kept_variant:ident, $kept_type:ident, $field:ident;)* }
    ) => {
        match $typ {
            $($fixed => {
                let $item = $of::$fixed_variant(<$fixed_type>::build($value));
                $does
            })*
            $($copied => {
                let $item = $of::$copied_variant(<$copied_type>::build($alloc, $value)?);
                $does
            })*
            typ => {
                // one copy for all kinds that keep their value, so that each item costs one result
                let bytes = copied($alloc, $value)?;
                match typ {
                    $($kept => {
                        let $item = $of::$kept_variant($kept_type { $field: bytes });
                        $does
                    })*
                    _ => {
                        let $item = $of::Unknown(UnknownParameter { typ, value: bytes });
                        $does
                    }
                }
            }
        }
    };
}

/// A kind of chunk with a list, whose value is checked, and then built.
pub trait Kind: Sized + Drop {
    /// What the tables say of it.
    ghost kind: { kinds.Kind };

    /// Each value has one answer.
    ghost lawful: { (strict : Bool) (flags : ℕ) → LawfulRow (own_row strict flags kind.reader) };

    /// What it means, without where it lies in memory.
    ghost view: { Self → kind.Tree };

    /// Its memory has room for what it holds, and no more.
    ghost is_tight: { Self → Type 0 };

    /// It has the fields of the value under the flags, and an empty list.
    ghost begun: { ℕ → List ℕ → Self → Type 0 };

    /// Counts the parts of what the value means, each of which has four bytes of its own; or
    /// returns its fault, with the offset from the item's first byte. Does not allocate.
    fn check(flags: u8, value: &[u8], strict: bool) -> Result<usize, LocatedFault>
        ensures found { Answers locating (λ n. n)
            (Counted kind.parts (RowAnswer (own_row strict flags kind.reader) value.now)) result }
        ensures few { IfOk result (λ n. 4 * n ≤ 4 + length value.now) }
        ensures within { IfErr result (λ found. found.offset ≤ 4 + length value.now) };

    /// Builds the chunk with the fields of the value, and an empty list. Does not allocate.
    fn begin(alloc: Global, flags: u8, value: &[u8]) -> Self
        requires { HasMeaning (own_row lenient flags kind.reader) value.now }
        ensures { begun flags value.now result };

    /// Fills the list. Does not allocate where it stays empty.
    fn fill(&mut self, alloc: Global, flags: u8, value: &[u8]) -> Result<(), AllocError>
        requires value { HasMeaning (own_row lenient flags kind.reader) value.now }
        requires begun { begun flags value.now self.old }
        ensures meant { IfOk result
            (λ _. (own_row lenient flags kind.reader).means value.now (view self.new)) }
        ensures heap { IsEmptyList kind.content value.now → IsOk result }
        ensures tight { IfOk result (λ _. is_tight self.new) };

    /// Builds the chunk that the value means.
    fn build(alloc: Global, flags: u8, value: &[u8]) -> Result<Self, AllocError>
        requires { HasMeaning (own_row lenient flags kind.reader) value.now }
        ensures meant { IfOk result
            (λ c. (own_row lenient flags kind.reader).means value.now (view c)) }
        ensures heap { IsEmptyList kind.content value.now → IsOk result }
        ensures tight { IfOk result is_tight }
    {
        let mut item = Self::begin(alloc, flags, value);
        item.fill(alloc, flags, value)?;
        Ok(item)
    }

    /// Checks the value, and builds what it means.
    fn read(alloc: Global, flags: u8, value: &[u8]) -> Result<Self, ChunkParseError>
        ensures answer { Exactly reading view
            (Unplaced (RowAnswer (own_row lenient flags kind.reader) value.now)) result }
        ensures memory { IsErrOf result ChunkParseError.OutOfMemory
            → HasMeaning (own_row lenient flags kind.reader) value.now
            × ¬ IsEmptyList kind.content value.now }
        ensures tight { IfOk result is_tight }
    {
        Self::check(flags, value, false)?;
        Ok(Self::build(alloc, flags, value)?)
    }
}
