//! Laws of a channel's state: it stays well formed, and the messages that bring a channel from one state to another do so. The
//! functions do nothing: their contracts are what is stated.
#![tactic(auto)]

mod count;
mod heard;
mod reach;
mod sent;
mod several;
mod single;
mod states;

pub use count::messages_are_few;
pub use heard::{a_receiver_follows, single_controllers_stroke};
pub use reach::bring_reaches;
pub use sent::messages_only_set;
pub use several::several_arrive;
pub use single::single_messages;
pub use states::states_stay_well_formed;
