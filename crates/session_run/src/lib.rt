//! Sessions of WebGL 1.0 calls: the run of a whole session from bytes to bytes over a context, and the replay of a stream. The
//! contract in one sentence: the replies are the page machine's, one for each call, and the commands sent replay on the
//! driver's machine without a fault to exactly the page's draws, clears and builds.
#![tactic(auto)]

mod applying;
mod kinds;
mod line;
mod pieces;
mod records;
mod replay;
mod replay_end;
mod session;
mod tally;

pub use replay::replay_session;
pub use session::run_session;
