// Rule 5 over whole target columns held as words (document 02, item 8): it answers what the plain rule of `central` does.
#![tactic(auto)]

mod planes;
mod serving;
mod transpose;

pub use serving::serve_columns;
