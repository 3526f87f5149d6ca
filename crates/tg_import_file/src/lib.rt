//! Files of a folder as DAGs, one after another.
#![tactic(auto)]

mod fault;
mod pieces;
mod writer;

pub use fault::FileFault;
pub use pieces::MAX_FILE_LEN;
pub use writer::FileWriter;
