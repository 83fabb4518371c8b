//! One exchange with a provider child: a request goes out as one frame, and one frame comes back.
#![tactic(auto)]

mod wire;

pub use wire::exchange;
