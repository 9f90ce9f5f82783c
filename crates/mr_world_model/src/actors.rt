//! What ties containers and nodes to the machines of mr_container and mr_node, and what each event leaves of both stores: these functions do nothing.
//! `specs/Actors` says what a machine stands for, `specs/Stored` what stores do.
ghost use Rattle.mr_world_model.specs.Containers.{ContainersAgree};
ghost use Rattle.mr_world_model.specs.Nodes.{NodesAgree};
ghost use Rattle.mr_world_model.specs.Places.{PlacesAreNodes};
ghost use Rattle.mr_world_model.specs.Actors.{AnswersAreHeard, BeginsOnce, ContainersSay, PastsAreWished};
ghost use Rattle.mr_world_model.specs.Stored.{StoresGoOn};
ghost use Rattle.mr_world_model.specs.Addressed.{PacketsFindTheirNodes};
ghost use Rattle.mr_world_model.specs.Acts.{ContainersAct, MapsAct, MastersAct, NodesAct};

/// What is read off a container's past is what mr_container reads of it. It is its wish, the blocks that it fetched,
/// what it computed, its call and who makes it, its packet, and whether it is over.
pub fn containers_agree()
    ensures { ContainersAgree }
{}

/// What is read off a node's past is what mr_node reads of it. It is its incarnation, the containers that it knows, the
/// blocks on its shelf, and what a packet makes it add and start.
pub fn nodes_agree()
    ensures { NodesAgree }
{}

/// A machine that stands for its container's past in a run has the wish, the call, the caller and the packet of the
/// definitions. The limits have to bound the bytes that are handed in.
pub fn containers_say()
    ensures { ContainersSay }
{}

/// In every run bytes were handed in only where they were wished.
pub fn pasts_are_wished()
    ensures { PastsAreWished }
{}

/// A container that lives was launched, in its node's present incarnation; one that a delivery starts does not live and has done nothing.
pub fn begins_once()
    ensures { BeginsOnce }
{}

/// In every run a container was launched on one of the cluster's nodes.
pub fn places_are_nodes()
    ensures { PlacesAreNodes }
{}

/// What a container hears of its call is what the namespace answered, or a fault.
pub fn answers_are_heard()
    ensures { AnswersAreHeard }
{}

/// Both stores go on as the world's: what a start, a crash, a master's call and a container's leave, what the container hears, and that no other event
/// changes them.
pub fn stores_go_on()
    ensures { StoresGoOn }
{}

/// No event of a master, and no packet to one, changes a machine of a container or a node.
pub fn masters_act()
    ensures { MastersAct }
{}

/// A container's step changes its own machine, ends it if it is then over, and adds its packet and its end.
pub fn containers_act()
    ensures { ContainersAct }
{}

/// The bytes of a map are handed in to its container, and lie on its node's shelf.
pub fn maps_act()
    ensures { MapsAct }
{}

/// What a packet to a node, a restart and a death change, and the packets that they add.
pub fn nodes_act()
    ensures { NodesAct }
{}

/// In every run a packet to a node goes to one of the cluster's nodes.
pub fn packets_find_their_nodes()
    ensures { PacketsFindTheirNodes }
{}
