//! A live routing: an image over its graph whose arcs agree with a text and whose links are clean.
#![tactic(auto)]

mod error;
mod join;
mod live;

pub use error::LiveError;
pub use live::Live;
