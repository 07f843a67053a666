//! The commands over scripts: what they read and print, the tracks of a script's targets, and their wires on a shelf.
#![tactic(auto)]

mod in_turn;
mod loading;
mod printing;
mod replaying;
mod scripts;
mod shelving;
mod visiting;

pub use in_turn::{Over, Wanted, print_in_turn};
pub use loading::end_load;
pub use printing::{end_replay, print_run};
pub use replaying::Cut;
pub use scripts::whole_script;
pub use visiting::{ScriptRun, give_up, new_tracks, run_end};
