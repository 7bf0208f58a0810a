// The import of a whole capture.
#![tactic(auto)]

mod answer;
mod capture;
mod importing;
mod laying;
mod scanning;

pub use answer::Imported;
pub use importing::import_capture;
