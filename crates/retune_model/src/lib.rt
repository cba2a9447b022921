//! What it means that one file plays another in a scale: definitions alone, with their laws.
#![tactic(auto)]

mod channels;
mod comparing;
mod dump;
mod examples;
mod faults;
mod front;
mod order;
mod ports;
mod rests;
mod routes;

pub use channels::{fewest_channels, need_laws, pair_laws, run_laws};
pub use comparing::place_laws;
pub use dump::{dump_is_playable, live_is_playable};
pub use examples::{
    bend_examples, beyond_examples, dumpable_example, fault_examples, need_examples,
    octave_examples, output_examples, pair_examples, port_examples, rest_examples, scale_examples,
    target_examples,
};
pub use faults::{
    beyond_laws, drums_stand_apart, fault_laws, sound_sources, zone_entries_set_zones,
};
pub use front::{front_faults, front_laws, next_laws};
pub use order::{order_laws, pairs_in_order};
pub use ports::{port_laws, position_laws};
pub use rests::{
    elsewhere, held_laws, last_ends, part_alone, rests_are_runs, rests_as_written, without_rests,
};
pub use routes::{
    blocks_play_the_source, dump_plays_the_same, dump_plays_the_source, live_plays_the_same,
    live_plays_the_source, one_port_alone, playable_in_order, ports_apart,
};
