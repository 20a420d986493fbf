// An example update for demonstrations: three packets of firmware, packed with CCM, the calls that send a frame, and those that send a mass erase.
#![tactic(auto)]

mod sending;
mod update;

pub use sending::{push_erase, push_frame};
pub use update::{COUNT, Frame, pack_part};
