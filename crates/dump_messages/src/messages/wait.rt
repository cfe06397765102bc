//! For what a message waits at its receiver: what comes before it in its stream.

use crate::messages::fragment::{Fragment, MessageKey};
use dump_packet::is_after;

/// For what a message waited.
#[derive(Clone, Copy)]
pub struct Wait {
    /// The TSN.
    pub tsn: u32,
    /// If that wasn't seen yet, the number of the message in the stream of which some was missing.
    pub unseen: Option<u32>,
}

/// What comes next in a stream.
#[derive(Clone, Copy)]
struct Due {
    // the message's number
    number: u32,
    // the fragment's place in it; `None` at its beginning
    place: Option<u32>,
}

impl Due {
    /// Returns what comes after a fragment.
    fn after(fragment: &Fragment) -> Due {
        if fragment.is_end || fragment.is_over {
            Due {
                number: fragment.key.next(),
                place: None,
            }
        } else {
            Due {
                number: fragment.key.number,
                place: Some(fragment.place.wrapping_add(1)),
            }
        }
    }

    /// Returns whether this is it.
    fn is(&self, fragment: &Fragment) -> bool {
        let is_next = match self.place {
            Some(place) => !fragment.is_beginning && fragment.place == place,
            None => fragment.is_beginning,
        };
        is_next && fragment.key.number == self.number
    }
}

/// A search for what a message waits for that wasn't seen yet, over the fragments up to its own.
#[derive(Drop)]
pub struct WaitSearch {
    key: MessageKey,
    // the TSN that comes next
    next: u32,
    // the first one that wasn't seen, since the last fragment of the stream
    hole: Option<u32>,
    // what comes next in the stream, if that is known
    due: Option<Due>,
}

impl WaitSearch {
    /// Returns a search that begins at a TSN, at which the message of this number comes next in the
    /// stream, if that is known.
    pub fn new(key: MessageKey, tsn: u32, number: Option<u32>) -> WaitSearch {
        WaitSearch {
            key,
            next: tsn,
            hole: None,
            due: match number {
                Some(number) => {
                    Some(Due {
                        number,
                        place: None,
                    })
                }
                None => None,
            },
        }
    }

    /// Goes on to the next fragment that was seen. Returns for what the message waits, if something
    /// before this fragment is missing in its stream, and a TSN there.
    pub fn step(&mut self, fragment: &Fragment) -> Option<Wait> {
        if is_after(fragment.tsn, self.next) && self.hole.is_none() {
            self.hole = Some(self.next);
        }
        if !is_after(self.next, fragment.tsn) {
            self.next = fragment.tsn.wrapping_add(1);
        }
        if !fragment.key.is_of_stream(&self.key) {
            return None;
        }
        let (hole, due) = (self.hole, self.due);
        self.hole = None;
        self.due = Some(Due::after(fragment));
        let (tsn, due) = (hole?, due?);
        if due.is(fragment) || due.number == self.key.number {
            return None;
        }
        Some(Wait {
            tsn,
            unseen: Some(due.number),
        })
    }
}
