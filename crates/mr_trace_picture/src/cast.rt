//! Who takes part in the events that are drawn. Of a long run most others are over before these or only wait, and would be lanes with
//! nothing in them.
use mr_ids::AppAttempt;
use mr_packet::{Address, Packet};
use mr_trace::mr_world::World;
use mr_world_events::Event;
use std::alloc::AllocError;

/// The one whom an event befalls joins the cast, if it is a master or a container. The world is that before the event.
pub fn join_actor(cast: &mut Vec<Address>, world: &World, event: &Event) -> Result<(), AllocError> {
    match event {
        Event::Start { generation: k, .. }
        | Event::Crash { generation: k, .. }
        | Event::Duty { generation: k, .. }
        | Event::LaunchOn { generation: k, .. }
        | Event::Expire { generation: k, .. } => push_master(cast, *k),
        Event::NodeRestart { .. } => Ok(()),
        Event::ContainerStep { container: c, .. }
        | Event::Computed { container: c, .. }
        | Event::Die { container: c } => push_new(cast, &Address::Container(*c)),
        Event::Deliver { packet: i } => match world.bag().get(*i as usize) {
            Some(envelope) => push_new(cast, &envelope.to),
            None => Ok(()),
        },
    }
}

/// So do those to whom the packets from this place of the bag on go, and the containers that these launch.
pub fn join_addressees(
    cast: &mut Vec<Address>,
    world: &World,
    first: usize,
) -> Result<(), AllocError> {
    for envelope in world.bag().get(first..).unwrap_or(&[]) {
        push_new(cast, &envelope.to)?;
        if let Packet::Launch { container, .. } = &envelope.body {
            push_new(cast, &Address::Container(*container))?;
        }
    }
    Ok(())
}

fn push_master(cast: &mut Vec<Address>, k: u32) -> Result<(), AllocError> {
    match AppAttempt::new(k) {
        Some(app) => push_new(cast, &Address::Master(app)),
        None => Ok(()),
    }
}

fn push_new(cast: &mut Vec<Address>, who: &Address) -> Result<(), AllocError> {
    if !cast.contains(who) {
        cast.push(*who)?;
    }
    Ok(())
}
