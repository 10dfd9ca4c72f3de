//! The words of a command line, and what they ask for.
#![tactic(auto)]

mod argument;
mod arguments;
mod cause;
mod cell;
mod fault;
pub mod laws;
mod name;
mod number;
mod option_name;
mod parse;
mod range;
mod region;
mod request;
mod task;
mod word;
mod words;

pub use argument::is_plain;
pub use cause::WordsCause;
pub use fault::WordsFault;
pub use option_name::OptionName;
pub use range::NumberRange;
pub use request::Request;
pub use task::Task;
pub use word::Word;
pub use words::{cause_of, read_words};
