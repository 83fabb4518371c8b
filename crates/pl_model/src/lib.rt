//! The definitions over a run's history that the engine's contracts cite. They stand in `specs/`, one file a
//! subject; docs/MODEL.md tells them in words.
#![tactic(auto)]

mod decided;
mod errand;
mod fixed;
mod heard;
mod mode;
mod work;

pub use decided::Decided;
pub use errand::{Closed, Errand, Opened};
pub use fixed::Fixed;
pub use heard::{Fate, Heard};
pub use mode::Mode;
pub use pl_decide;
pub use pl_events;
pub use pl_options;
pub use pl_path;
pub use pl_refresh;
pub use pl_sound;
pub use pl_state;
pub use work::Work;
