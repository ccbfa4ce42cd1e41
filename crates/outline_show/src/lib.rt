//! What is printed of documents and changes: a view, a value, and the line of a change. Stands on `doc_store` for views,
//! on `op_grammar` for values and heads, and on `cbor_det` for quoted texts and hexadecimal digits.
#![tactic(auto)]

mod log;
mod show;
mod value;

pub use log::log_line;
pub use show::show_text;
pub use value::push_value;

#[cfg(test)]
mod tests;
