//! Runs of command files: what a script writes, and how it comes to be written.
//!
//! What a script writes is a definition, its text (`specs/Text`). It goes by the session, which
//! commands change and questions leave (crate `engines`). The rows of a read are the query,
//! computed from scratch on the accepted changes at or before its time. The definition of the text
//! mentions no workers, differences, batches or boards.
//!
//! [`run_script`] and [`plain_script`] write exactly that text, or a beginning of it followed by a
//! fault. If the fault is a number that is too large, the text of all earlier lines has been
//! written whole (`specs/Ends`). Both rest on two parts besides the engines:
//!
//! - The loop over the lines (`run`, `line`) talks to an `Engine`, which carries out commands and
//!   stands for a session. A command either changes an input or asks about a view. Before a
//!   question, the loop lets the engine catch up, and the workers of a crew run ahead.
//! - Printed text (`printer`) is collected in an `OutputBuffer` of crate `output` and goes in large
//!   pieces to an [`Out`], whose contract says which bytes it took.
#![tactic(auto)]

mod fault;
mod line;
mod plain;
mod printer;
mod reads;
mod run;
mod watch;

pub use crews::a_crew_can_stand;
pub use engines::{
    bounds_exist, large_numbers_have_large_bounds, the_bag_of_entries, the_changes_of_a_view,
    the_frontier_of_a_view, the_oracle_engine_can_stand,
};
pub use fault::RunFault;
pub use output::{MemoryOut, Out, OutFault, put_all};
pub use plain::{plain_script, plain_script_watched};
pub use reads::{Rows, TwoReads, read_twice};
pub use run::{run_script, run_script_watched};
pub use watch::{Unwatched, Watch};
