#![tactic(auto)]

mod doing;
mod fault;
mod file;
mod line;
mod reader;
mod session;
mod whole;
mod writer;

pub use self::fault::{CallFault, Fault, LatencyFault, Placed};
pub use self::file::{FileFault, FileKind};
pub use self::session::{Line, Session, ShortLine};
pub use self::whole::{Filled, Full, format_stands, run_file};
