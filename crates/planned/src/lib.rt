// Rules 3 and 4 of document 01, the planned stage.
#![tactic(auto)]

mod planned;

pub use planned::start;
