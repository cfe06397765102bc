//! What is remembered of associations that left.

use crate::associations::key::FlowKey;
use std::alloc::{AllocError, Global};
use std::collections::HashSet;

/// The flows of associations that left, the last ones of them.
#[derive(Drop)]
pub struct Evicted {
    keys: HashSet<FlowKey>,
    // the same, in a ring
    ring: Vec<FlowKey>,
    // where the next one goes, once the ring is full
    next: usize,
    most: usize,
}

impl Evicted {
    /// Returns none; at most `most` will be remembered.
    pub fn new(alloc: Global, most: usize) -> Evicted {
        Evicted {
            keys: HashSet::new(alloc),
            ring: Vec::new(alloc),
            next: 0,
            most,
        }
    }

    /// Returns whether a flow is remembered.
    pub fn has(&self, key: FlowKey) -> bool {
        self.keys.contains(&key)
    }

    /// Remembers a flow, in place of the oldest one if there are too many.
    pub fn add(&mut self, key: FlowKey) -> Result<(), AllocError> {
        if self.has(key) {
            return Ok(());
        }
        if self.ring.len() < self.most {
            self.ring.push(key)?;
        } else if let Some(oldest) = self.ring.get_mut(self.next) {
            let left = *oldest;
            *oldest = key;
            let _ = self.keys.remove(&left);
            self.next = (self.next + 1) % self.ring.len();
        }
        self.keys.insert(key)?;
        Ok(())
    }
}
