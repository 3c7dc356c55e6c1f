// The streams of the operating system: reads that say whether they failed, bytes that wait until they are written, and what is told of a
// failure.
#![tactic(auto)]

mod input;
mod output;

pub use input::{Got, read, read_full, read_records};
pub use output::{Waiting, put, put_number, tell, tell_failure, tell_number, with_room, written};
