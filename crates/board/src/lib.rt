// The receiving core: a board over any memory and any packet cipher, its four calls, and runs of calls. Its parts are the receiver, the
// guard over the work buffer, the reader over opened contents, and the packet path: a sealed packet is opened, judged and stored, each
// state used up by the next.
#![tactic(auto)]

mod answer;
mod board;
mod boot;
mod calls;
mod contents;
mod data;
mod device;
mod fresh;
mod key;
mod receiver;
mod reply;
mod run;
mod sealed;
mod work;

pub use answer::{Answer, ByteAnswer};
pub use board::Board;
