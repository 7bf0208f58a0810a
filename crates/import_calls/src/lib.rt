// The C form: the import of a capture. import_calls_c gives it to C.
#![tactic(auto)]

mod import_call;

pub use import_call::bellacush_import;
