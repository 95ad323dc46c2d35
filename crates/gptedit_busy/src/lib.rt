//! Opens and locks an image, identifies its block device, and finds its uses.
//!
//! Only memory safety and termination are proved of the search in `/proc` and `/sys`.
#![tactic(auto)]

pub mod device;
pub mod finding;
mod holders;
mod kernel;
mod loops;
mod mounts;
mod node;
pub mod opening;
mod target;

pub use device::Device;
pub use finding::find_users;
pub use opening::{Holder, Lock, OpenError, Opened, open};
