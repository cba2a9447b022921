//! What a report says of a plan: on how many channels the notes are, what each port or zone needs, and the
//! pairs of the instant; and the lines of the faults of a source that gets no plan.
#![tactic(auto)]

mod channels;
mod faults;
mod laws;
mod line;
mod needs;
mod pairs;
#[cfg(test)]
mod tests;
mod zones;

pub use channels::push_channels;
pub use faults::{too_many_line, too_many_parts_line};
pub use laws::{fault_examples, plan_report_laws, report_examples};
pub use line::{Line, push_number};
pub use needs::push_need;
pub use zones::push_zones;
