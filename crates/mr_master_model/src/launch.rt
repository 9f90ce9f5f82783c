//! What an attempt was launched as: its container, the node, and the node's incarnation that its master knew then.
use mr_packet::ContainerId;

/// What an attempt was launched as.
#[derive(Clone, Copy, Debug, PartialEq, Eq)]
pub struct Launch {
    pub container: ContainerId,
    /// The node, from 0.
    pub node: u32,
    /// The node's incarnation that its master knew then, from 1.
    pub incarnation: u32,
}
