//! Pictures of a network and of what its requests came to, as SVG.
#![tactic(auto)]

mod bars;
mod drawing;
mod facts;
mod labels;
mod layers;
mod layout;
mod order;
mod whole;
mod words;

pub use bars::{
    delay_axis, draw_axis, draw_delays, draw_load, draw_request, put_lines, value_text,
};
pub use drawing::draw_network;
pub use facts::{
    Denial, FillFacts, Help, HopFacts, LevelFacts, LinkFacts, NetworkFacts, Outcome, PacketFacts,
    RequestFacts, ShareFacts, Terms,
};
pub use layers::layers_of;
pub use layout::Direction;
pub use order::rows_of;
pub use whole::{delays_picture, links_picture, network_picture};
pub use words::{Fullness, fill_word, fullest, fullness_of, load_word, per_mille};
