//! An input of JSON lines: read in rounds of whole lines, cut into pieces that end with lines,
//! split into lines, and read as records.
#![tactic(auto)]

mod bytes;
mod columns;
mod cuts;
mod demand;
mod fault;
mod input;
mod laws;
mod line_buffer;
mod pieces;
mod record_reader;
mod rounds;
mod source;
mod spare;
mod split;
mod tokens;
mod tree;
mod utf8;

pub use cuts::cut;
pub use demand::Demand;
pub use fault::ReadFault;
pub use laws::{clip_law, front_law};
pub use pieces::Piece;
pub use record_reader::{RecordReader, read_record};
pub use rounds::{Round, Rounds};
pub use semantics::{LineFault, LineRefusal};
pub use split::{Lines, lines_of};
pub use tree::read_by_tree;
pub use utf8::{CheckedLines, Line, checked_lines_of};
