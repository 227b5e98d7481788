//! What feeds each pin of a circuit, by numbers.
#![tactic(auto)]

mod errors;
mod feeds;
mod laws;
mod outputs;
mod unnamed;

pub use errors::{FeedError, UnnamedFeed};
pub use feeds::{pin_feeds, same};
pub use laws::{
    connections_are_listed, feeds_are_named, feeds_tell_connections, unnamed_feed_is_refused,
};
pub use outputs::{part_with, parts_of_outputs};
