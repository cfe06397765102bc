//! The names of transports, which distinguish the associations of a log.

ghost use Rattle.std.specs.Prelude.{◌≡◌, ◌<◌, ◌⊎◌, length, take, All, Any, IfSome, IfNone};
ghost use Rattle.dump_associations.specs.Transports.{IsPrintable, AreUnnamed, AreOther};

use std::alloc::{AllocError, Global};
use std::collections::HashMap;
use std::str;

/// The size of the longest name that is kept.
const LONGEST: usize = 64;

/// How many names are kept.
const MOST_NAMES: usize = 1_024;

/// The transport of an association, as a log names it.
#[derive(Clone, Copy)]
pub enum Transport {
    /// It has no name.
    Unnamed,
    /// It has this one.
    Named(TransportName),
    /// It has one that isn't kept, since it is longer than 64 bytes, isn't printable ASCII, or
    /// since there were 1,024 others.
    Other,
}

/// The name of a transport: at most 64 bytes of printable ASCII.
#[derive(Clone, Copy, PartialEq, Eq, Hash)]
pub struct TransportName {
    bytes: [u8; LONGEST],
    size: usize,
}

impl TransportName {
    /// Returns a name; `None` if it has more than 64 bytes, or others than printable ASCII.
    fn of(name: &[u8]) -> Option<TransportName>
        ensures some { IfSome result (λ kept. (take kept.size kept.bytes ≡ name.now)
            × All IsPrintable name.now) }
        ensures none { IfNone result ((64 < length name.now)
            ⊎ Any (λ byte. ¬ (IsPrintable byte)) name.now) }
    {
        let mut bytes = [0; LONGEST];
        if name.len() > LONGEST {
            return None;
        }
        for (i, byte) in name.iter().enumerate() {
            if !(0x20..0x7f).contains(byte) {
                return None;
            }
            bytes[i] = *byte;
        }
        Some(TransportName {
            bytes,
            size: name.len(),
        })
    }

    /// Returns the name.
    pub fn as_str(&self) -> &str {
        match str::from_utf8(&self.bytes[..self.size.min(LONGEST)]) {
            Ok(name) => name,
            Err(_) => "",
        }
    }
}

/// Which transport it is: of those without a name, of those whose names aren't kept, or of one
/// name.
#[derive(Clone, Copy, PartialEq, Eq, Hash)]
pub enum TransportKey {
    /// Any without a name.
    Unnamed,
    /// Any whose name isn't kept.
    Other,
    /// The one with the name of this number.
    Named(usize),
}

/// The names that were seen, up to 1,024 of them.
#[derive(Drop)]
pub struct TransportNames {
    numbers: HashMap<TransportName, usize>,
    count: usize,
}

impl TransportNames {
    /// Returns a table without names.
    pub fn new(alloc: Global) -> TransportNames {
        TransportNames {
            numbers: HashMap::new(alloc),
            count: 0,
        }
    }

    /// Returns the transport of a name, and which one it is: a new one gets the next number.
    pub fn find(&self, name: &[u8]) -> (Transport, TransportKey)
        ensures unnamed { length name.now ≡ 0 → AreUnnamed result }
        ensures other { (64 < length name.now) ⊎ Any (λ byte. ¬ (IsPrintable byte)) name.now
            → AreOther result }
    {
        if name.is_empty() {
            return (Transport::Unnamed, TransportKey::Unnamed);
        }
        let Some(kept) = TransportName::of(name) else {
            return (Transport::Other, TransportKey::Other);
        };
        if let Some(number) = self.numbers.get(&kept) {
            return (Transport::Named(kept), TransportKey::Named(*number));
        }
        if self.count < MOST_NAMES {
            return (Transport::Named(kept), TransportKey::Named(self.count));
        }
        (Transport::Other, TransportKey::Other)
    }

    /// Keeps a name under the number that `find` gave it.
    pub fn keep(&mut self, transport: Transport, key: TransportKey) -> Result<(), AllocError> {
        match (transport, key) {
            (Transport::Named(name), TransportKey::Named(number)) if number == self.count => {
                self.numbers.insert(name, number)?;
                self.count = self.count.saturating_add(1);
                Ok(())
            }
            _ => Ok(()),
        }
    }
}
