//! The bounds of a log as difference constraints between the zero moment, which is node 0, its rows, of
//! which row e is node e + 1, and behind them its clocks, whose numbers are their offsets; whether some true
//! times of the rows meet them all; and how far apart two rows then are at least and at most.
//!
//! Such constraints are the edges of a graph, and they can be met exactly where no closed walk has a
//! negative sum (Bellman, On a routing problem, 1958). Times and bounds are in the log's unit of time.
#![tactic(auto)]

mod beginning;
mod bound_list;
mod broken;
mod column;
mod consistency;
mod difference_table;
mod differences;
mod edges;
mod incoming;
mod latest;
mod lowering;
mod offsets;
mod row_edges;
mod rows;
mod steps;
mod system;
mod tightening;
mod times;

pub use bound_list::bounds;
pub use broken::first_broken;
pub use consistency::{Consistency, settle, settle_by};
pub use differences::Tight;
pub use edges::{edge_of, node_count};
pub use row_edges::EdgeTable;
pub use steps::{bound_of, step_of};
pub use system::{BoundSystem, system_of};
pub use tightening::{TightFault, tight, tight_by};
pub use times::times_of;
