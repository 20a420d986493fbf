// The packer: seals one packet and writes the whole frame around it, over any packet cipher.
#![tactic(auto)]

mod pack;
mod packet;

pub use pack::{pack_data, pack_key};
pub use packet::{DataPacket, KeyPacket};
