//! Reports on a manifest or a compiled catalog: its catalog, its graph, what its resources do, the verdict on them, the arrows that
//! they lack, and whether another manifest or compiled catalog does the same.
#![tactic(auto)]

mod apart;
mod bytes;
mod catalogs;
mod comparisons;
mod compiling;
mod entries;
mod explanations;
mod graphs;
mod laws;
mod modelling;
mod programs;
mod question;
mod repairs;
mod replays;
mod sides;
mod stages;
mod terms;
mod verdicts;

pub use catalogs::catalog_report;
pub use comparisons::comparison_on;
pub use graphs::graph_report;
pub use laws::reports_exclude_refusals;
pub use question::Question;
pub use sides::{Side, Untold};
pub use stages::report_on;
