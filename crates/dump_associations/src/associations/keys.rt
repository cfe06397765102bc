//! Which association has which key.

ghost use Rattle.std.specs.Prelude.{◌≡◌};
ghost use Rattle.std.specs.HashMap.{get};
ghost use Rattle.dump_associations.specs.Attribution.{IsKnownBySender};
ghost use Rattle.dump_associations.specs.Routes.{flow_of};
ghost use Rattle.dump_associations.specs.contracts.associations.key.FlowKeyPartialEq.TheImpl as flow_key_eq;
ghost use Rattle.dump_packet.specs.declared.side.Side.TheVariants.{First};

use crate::associations::association::Association;
use crate::associations::evicted::Evicted;
use crate::associations::key::{Arrival, FlowKey, Route};
use dump_packet::Side;
use std::alloc::{AllocError, Global};
use std::collections::HashMap;

/// Whose packets they are: of the association in a slot of the table, and from which end.
#[derive(Clone, Copy)]
pub struct Flow {
    /// The slot.
    pub slot: usize,
    /// The end.
    pub sender: Side,
}

/// The keys of the associations of a table.
#[derive(Drop)]
pub struct Keys {
    flows: HashMap<FlowKey, Flow>,
    // the latest association of each route
    routes: HashMap<Route, usize>,
    // the latest one that began midway, by the ports of its second end's packets, with tag 0
    midway: HashMap<FlowKey, usize>,
    evicted: Evicted,
}

impl Keys {
    /// Returns the keys of no association; of associations that leave, at most `most_evicted` are
    /// remembered.
    pub fn new(alloc: Global, most_evicted: usize) -> Keys {
        Keys {
            flows: HashMap::new(alloc),
            routes: HashMap::new(alloc),
            midway: HashMap::new(alloc),
            evicted: Evicted::new(alloc, most_evicted),
        }
    }

    /// Returns whose packet it is by its tag: of the latest association with it.
    pub fn find(&self, arrival: &Arrival<'_, '_>) -> Option<Flow>
        ensures { ¬ (IsKnownBySender arrival.now) → result
            ≡ get ((flow_key_eq.ghosts).eq) self.now.flows
            (flow_of arrival.now.route First arrival.now.tag) }
    {
        let (chooser, tag) = arrival.chosen()?;
        let flow = self.flows.get(&arrival.route.flow(chooser.other(), tag))?;
        let sender = match chooser {
            Side::First => flow.sender.other(),
            Side::Second => flow.sender,
        };
        Some(Flow {
            slot: flow.slot,
            sender,
        })
    }

    /// Returns whether a packet is of an association that left, by its tag.
    pub fn is_gone(&self, arrival: &Arrival<'_, '_>) -> bool {
        match arrival.chosen() {
            Some((chooser, tag)) => self.evicted.has(arrival.route.flow(chooser.other(), tag)),
            None => false,
        }
    }

    /// Returns the latest association in which this end sends on a route.
    pub fn on_route(&self, route: Route, sender: Side) -> Option<Flow> {
        let first = match sender {
            Side::First => route,
            Side::Second => route.back(),
        };
        let slot = *self.routes.get(&first)?;
        Some(Flow { slot, sender })
    }

    /// Returns the latest association on a route, in either direction.
    pub fn latest(&self, route: Route) -> Option<Flow> {
        let there = self.on_route(route, Side::First);
        there.or(self.on_route(route, Side::Second))
    }

    /// Returns the latest association that began midway between the ports of a route, and whose
    /// second end sends on it.
    pub fn midway(&self, route: Route) -> Option<Flow> {
        let slot = *self.midway.get(&route.flow(Side::First, 0))?;
        let sender = Side::Second;
        Some(Flow { slot, sender })
    }

    /// Notes that an association begins on a route.
    pub fn add_route(
        &mut self,
        route: Route,
        slot: usize,
        is_midway: bool,
    ) -> Result<(), AllocError> {
        let _ = self.routes.remove(&route.back());
        self.routes.insert(route, slot)?;
        if is_midway {
            self.midway.insert(route.flow(Side::Second, 0), slot)?;
        }
        Ok(())
    }

    /// Notes that an end sends packets with this tag.
    pub fn add_flow(&mut self, route: Route, flow: Flow, tag: u32) -> Result<(), AllocError> {
        self.flows.insert(route.flow(flow.sender, tag), flow)?;
        Ok(())
    }

    /// Forgets that an end sends packets with this tag. Returns their key, if they were known.
    pub fn forget_flow(&mut self, route: Route, flow: Flow, tag: u32) -> Option<FlowKey> {
        let key = route.flow(flow.sender, tag);
        let known = self.flows.get(&key)?;
        if known.slot != flow.slot {
            return None;
        }
        let _ = self.flows.remove(&key);
        Some(key)
    }

    /// Forgets the association in a slot, and remembers that it is gone.
    pub fn forget(&mut self, slot: usize, association: &Association) -> Result<(), AllocError> {
        let route = association.route;
        if self.routes.get(&route) == Some(&slot) {
            let _ = self.routes.remove(&route);
        }
        let ports = route.flow(Side::Second, 0);
        if self.midway.get(&ports) == Some(&slot) {
            let _ = self.midway.remove(&ports);
        }
        for sender in [Side::First, Side::Second] {
            let receiver = association.end(sender.other());
            for tag in [receiver.tag, receiver.other_tag] {
                if let Some(tag) = tag {
                    if let Some(key) = self.forget_flow(route, Flow { slot, sender }, tag) {
                        self.evicted.add(key)?;
                    }
                }
            }
        }
        Ok(())
    }
}
