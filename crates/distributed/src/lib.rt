// Rule 6 of document 01, the distributed form.
#![tactic(auto)]

mod distributed;

pub use distributed::serve_rounds;
