// The wire's two building blocks: the checksum of a core command, and the frame that carries it.
#![tactic(auto)]

pub mod checksum;
pub mod frame;
