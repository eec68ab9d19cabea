//! Cells of a table, propagation rules with their instances, and questions.
#![tactic(auto)]

mod asks;
mod bounds;
mod cells;
#[cfg(test)]
mod instance_tests;
mod instances;
pub mod laws;
mod lines;
mod numbers;
mod rules;
mod sizes;
#[cfg(test)]
mod tests;

pub use asks::{Ask, Kind, Outside, Part, Question};
pub use bounds::{Bounds, MOST_CELLS, MOST_COLUMNS, MOST_COORDINATES};
pub use cells::Cell;
pub use instances::{Instance, Instances, conclude, fan, instances_of_parent};
pub use lines::{Line, Lines, Stage, lines_of_parent};
pub use mt_linear::Steps;
pub use numbers::plain_number;
pub use rules::{RULES, Rule, RuleSet};
pub use sizes::Sizes;
