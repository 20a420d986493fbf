// The bench's listing: its lines read as events, a row printed for each answer, and a whole listing replayed on a board.
#![tactic(auto)]

mod lines;
mod replay;
mod rows;
mod stream;
mod waiting;

pub use lines::read_line;
pub use rows::{Detail, write_row};
pub use stream::replay_listing;
