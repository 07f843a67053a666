//! The configuration of a run: which TOML documents are one, what it says, and the first fault of the
//! others.
#![tactic(auto)]

mod addresses;
mod broken;
mod config;
mod config_laws;
mod fault;
mod fault_line;
mod key;
mod key_class;
mod key_faults;
mod making;
mod name_faults;
mod reading;
mod tables;
mod values;

pub use broken::broken_at;
pub use config::Config;
pub use config_laws::{configs_are_right, numbers_are_right};
pub use fault::{ConfigFault, Product};
pub use fault_line::push_line;
pub use reading::read;
