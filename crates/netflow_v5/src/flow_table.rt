//! Flows in the order of their first packets, and for each class its newest one.
ghost use Rattle.std.specs.Prelude.{◌≡◌, ◌+◌, ◌≤◌, ◌<◌, ◌^◌, ◌++◌, [], ◌∷◌, length, map, OnOk, IfOk, IfSome};
ghost use Rattle.spec_netflow.specs.Flows.{has_room, joined, with_packet};
ghost use Rattle.netflow_v5.specs.Views.{class_view, flow_view};
ghost use Rattle.netflow_v5.specs.Newest.{newest, IsTable};
ghost use Rattle.netflow_v5.specs.Joined.{IsOpen};

use crate::class::FlowClass;
use crate::flow::Flow;
use indexmap::IndexMap;
use spec_netflow::FlowRecord;
use std::alloc::{AllocError, Global};
use std::marker::Model;

/// The newest flow of each class, by its index.
type Newest = IndexMap<FlowClass, usize>;

/// Flows to which packets are added, one after the other. Contracts see it as the list of its flows.
#[derive(Drop)]
pub(crate) struct FlowTable {
    flows: Vec<Flow>,
    newest: Newest,
}

impl Model for FlowTable {
    ghost use Rattle.std.specs.Prelude.{List, map};
    ghost use Rattle.spec_netflow.specs.Flows.{Flow};
    ghost use Rattle.netflow_v5.specs.Views.{flow_view};
    ghost use Rattle.netflow_v5.specs.Newest.{IsTable};

    ghost Value = { List Flow };

    ghost view = { λ t. map flow_view t.flows.items };

    ghost invariant = { λ t. IsTable t.flows.items t.newest };
}

// Tells of one more packet in a flow.
fn join(flow: &mut FlowRecord, packet: &FlowRecord)
    requires packets { flow.old.packets + packet.now.packets < 2 ^ 32 }
    requires octets { flow.old.octets + packet.now.octets < 2 ^ 32 }
    ensures { flow.new ≡ joined flow.old packet.now }
{
    flow.packets += packet.packets;
    flow.octets += packet.octets;
    flow.last = packet.last;
    flow.flags |= packet.flags;
}

// Whether a flow has room for the octets of a packet.
fn has_room(flow: &Flow, packet: &Flow) -> bool
    ensures { result ≡ has_room (flow_view flow.now) (flow_view packet.now) }
{
    u64::from(flow.told.octets) + u64::from(packet.told.octets) <= u64::from(u32::MAX)
}

// The index of the newest flow of a class.
fn newest_of(flows: &[Flow], index: &Newest, class: &FlowClass) -> Option<usize>
    requires { IsTable flows.now index.now }
    ensures newest { result ≡ newest (class_view class.now) (map flow_view flows.now) }
    ensures within { IfSome result (λ at. at < length flows.now) }
{
    index.get(class).copied()
}

// The index of the flow that takes a packet: the newest of its class, if that has room.
fn open_flow(flows: &[Flow], newest: &Newest, packet: &Flow) -> Option<usize>
    requires { IsTable flows.now newest.now }
    ensures { IsOpen flows.now packet.now result }
{
    match newest_of(flows, newest, &packet.class) {
        Some(at) if has_room(&flows[at], packet) => Some(at),
        _ => None,
    }
}

// Begins a flow.
fn begin(flows: &mut Vec<Flow>, newest: &mut Newest, flow: Flow) -> Result<(), AllocError>
    requires table { IsTable flows.old.items newest.old }
    requires few { flow.told.packets ≤ flow.told.octets }
    ensures table { IsTable flows.new.items newest.new }
    ensures begun { OnOk result (flows.new.items ≡ flows.old.items ++ flow ∷ []) }
{
    newest.reserve(1)?;
    flows.push(flow)?;
    let Ok(_) = newest.insert(flow.class, flows.len() - 1) else {
        unreachable!()
    };
    Ok(())
}

// What is told of flows.
fn records_of(alloc: Global, flows: &[Flow]) -> Result<Vec<FlowRecord>, AllocError>
    ensures { IfOk result (λ v. v.items ≡ map (λ f. f.told) flows.now) }
{
    let mut records = Vec::with_capacity(alloc, flows.len())?;
    'flows: for flow in flows {
        records.push(flow.told)?;
    }
    Ok(records)
}

impl FlowTable {
    pub(crate) fn new(alloc: Global) -> FlowTable
        ensures { result ≡ [] }
    {
        FlowTable {
            flows: Vec::new(alloc),
            newest: IndexMap::new(alloc),
        }
    }

    /// Adds a packet, as a flow of it alone. It takes memory for a new flow; there may be none.
    pub(crate) fn add(&mut self, packet: Flow) -> Result<(), AllocError>
        requires { packet.told.packets ≤ packet.told.octets }
        ensures { OnOk result (self.new ≡ with_packet self.old (flow_view packet)) }
    {
        match open_flow(&self.flows, &self.newest, &packet) {
            Some(at) => {
                join(&mut self.flows[at].told, &packet.told);
                Ok(())
            }
            None => begin(&mut self.flows, &mut self.newest, packet),
        }
    }

    /// What is told of the flows.
    pub(crate) fn records(&self, alloc: Global) -> Result<Vec<FlowRecord>, AllocError>
        ensures { IfOk result (λ v. v.items ≡ map (λ f. f.told) self.now) }
    {
        records_of(alloc, &self.flows)
    }
}
