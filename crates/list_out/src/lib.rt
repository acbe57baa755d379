//! What headers with their tags and bodies, events, and single values are printed as, line by line.
#![tactic(auto)]

mod backwards;
mod body;
mod event;
mod head;
mod line;
mod preamble;

pub use backwards::{LINE_SIZE, write_newline, write_number, write_text, write_wide};
pub use body::BodyText;
pub use event::{LINES, LINES_SIZE, event_line, format_block, format_event};
pub use head::header_line;
pub use line::{put_announced, put_bits, put_count, put_line, put_time};
pub use preamble::preamble_lines;
