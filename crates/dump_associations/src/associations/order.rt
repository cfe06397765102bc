//! In which order associations leave a full table.

ghost use Rattle.std.specs.Prelude.{◌≡◌, ◌-◌, ◌^◌, ◌∷◌, [], IfOk, OnOk, nat_eq};
ghost use Rattle.std.specs.Map.{remove_entry};
ghost use Rattle.dump_associations.specs.Order.{first_of};

use lru::LruCache;
use std::alloc::{AllocError, Global};

/// The slots of a table: those whose associations live, and those whose ended.
#[derive(Drop)]
pub struct Order {
    living: LruCache<usize, ()>,
    ended: LruCache<usize, ()>,
    ghost unbounded: { (living.cap ≡ 2 ^ 64 - 1) × (ended.cap ≡ 2 ^ 64 - 1) },
}

impl Order {
    /// Returns the order of no slot.
    pub fn new(alloc: Global) -> Result<Order, AllocError>
        ensures { IfOk result (λ order. (order.living.entries ≡ []) × (order.ended.entries ≡ [])) }
    {
        Ok(Order {
            living: LruCache::unbounded(alloc)?,
            ended: LruCache::unbounded(alloc)?,
        })
    }

    /// Notes that the association of a slot lives, and isn't silent.
    pub fn touch(&mut self, slot: usize) -> Result<(), AllocError>
        ensures living { OnOk result (self.new.living.entries
            ≡ (slot, tt) ∷ remove_entry (nat_eq slot) self.old.living.entries) }
        ensures ended { OnOk result (self.new.ended.entries
            ≡ remove_entry (nat_eq slot) self.old.ended.entries) }
    {
        to_front(&mut self.living, slot)?;
        self.ended.pop(&slot);
        Ok(())
    }

    /// Notes that the association of a slot ended.
    pub fn end(&mut self, slot: usize) -> Result<(), AllocError>
        ensures living { OnOk result (self.new.living.entries
            ≡ remove_entry (nat_eq slot) self.old.living.entries) }
        ensures ended { OnOk result (self.new.ended.entries
            ≡ (slot, tt) ∷ remove_entry (nat_eq slot) self.old.ended.entries) }
    {
        to_front(&mut self.ended, slot)?;
        self.living.pop(&slot);
        Ok(())
    }

    /// Returns the slot that leaves first: the one that ended first, or else the one that was
    /// silent longest.
    pub fn first(&self) -> Option<usize>
        ensures { result ≡ first_of self.now.living.entries self.now.ended.entries }
    {
        let (slot, _) = self.ended.peek_lru().or(self.living.peek_lru())?;
        Some(*slot)
    }
}

/// Puts a slot in front of a list, wherever it was before.
fn to_front(list: &mut LruCache<usize, ()>, slot: usize) -> Result<(), AllocError>
    requires { list.now.cap ≡ 2 ^ 64 - 1 }
    ensures entries { OnOk result (list.new.entries
        ≡ (slot, tt) ∷ remove_entry (nat_eq slot) list.old.entries) }
    ensures cap { list.new.cap ≡ list.old.cap }
{
    let length = list.len();
    prove!(length < usize::MAX);
    match list.put(slot, ()) {
        Ok(_) => Ok(()),
        Err(_) => Err(AllocError),
    }
}
