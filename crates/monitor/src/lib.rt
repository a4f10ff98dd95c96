// The monitor of one box: a session is fed event by event. After each event it holds exactly the states, waiting counts and loss runs
// that the published model allows.
#![tactic(auto)]

mod event;
pub mod feed;
mod sweep;
