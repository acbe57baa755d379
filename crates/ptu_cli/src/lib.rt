//! The top call of the program, and with it the words of its commands and its edge to files and streams.
#![tactic(auto)]

mod edge;
mod top;
mod words;

pub use edge::{FileInputs, StreamSink};
pub use file_work::write_counts;
pub use report_work::DEMO_PLAN;
pub use top::{exit_of, program, ptu_main, tell, words_behind_name};
pub use words::{Command, read_words};
