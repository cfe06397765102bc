//! The paths of associations, where they are asked for.

ghost use Rattle.std.specs.Prelude.{◌≡◌, ◌≢◌, ◌+◌, ◌-◌, ◌<◌, ◌^◌, ℕ, IfOk, OnOk, IsSome};
ghost use Rattle.dump_associations.specs.PathTables.{paths_of, packets_in};

use crate::associations::membership::Membership;
use crate::paths::Paths;
use dump_packet::SeenPacket;
use std::alloc::{AllocError, Global};
use std::collections::HashMap;

/// The paths of associations, by their numbers.
///
/// An association that leaves its table is to be taken from here too: then there are at most as
/// many as the table keeps.
#[derive(Drop)]
pub struct PathTable {
    alloc: Global,
    by_number: HashMap<u64, Paths>,
}

impl PathTable {
    /// Returns a table without associations.
    pub fn new(alloc: Global) -> PathTable {
        PathTable {
            alloc,
            by_number: HashMap::new(alloc),
        }
    }

    /// Counts a packet of an association on its path.
    pub fn see(&mut self, member: Membership, packet: &SeenPacket<'_>) -> Result<(), AllocError>
        ensures counted { packets_in (paths_of self.old member.association) < 2 ^ 64 - 1
            → IfOk result (λ _. packets_in (paths_of self.new member.association)
            ≡ packets_in (paths_of self.old member.association) + 1) }
        ensures others { (k : ℕ) → k ≢ member.association
            → paths_of self.new k ≡ paths_of self.old k }
    {
        self.begin(member.association)?;
        match self.by_number.get_mut(&member.association) {
            Some(paths) => paths.see(member.sender, packet),
            None => Ok(()),
        }
    }

    /// Begins an association, if it is new.
    fn begin(&mut self, number: u64) -> Result<(), AllocError>
        ensures begun { OnOk result (IsSome (paths_of self.new number)) }
        ensures same { packets_in (paths_of self.new number)
            ≡ packets_in (paths_of self.old number) }
        ensures others { (k : ℕ) → k ≢ number → paths_of self.new k ≡ paths_of self.old k }
    {
        if self.by_number.get(&number).is_none() {
            self.by_number.insert(number, Paths::new(self.alloc))?;
        }
        Ok(())
    }

    /// Takes the paths of the association with this number, if one of its packets was seen.
    pub fn take(&mut self, number: u64) -> Option<Paths>
        ensures { result ≡ paths_of self.old number }
    {
        self.by_number.remove(&number)
    }
}
