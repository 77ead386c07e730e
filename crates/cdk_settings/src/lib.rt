//! Settings: the first one that holds a marker's beginning, and a context with settings laid over it.
#![tactic(auto)]

mod fault;
mod laid;
mod marked;

pub use fault::fault_of;
pub use laid::lay_settings;
pub use marked::first_setting_finding;
