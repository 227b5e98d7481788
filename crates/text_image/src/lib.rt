//! What a text configuration says over the graph of its device: the first line that names what isn't there, or the image
//! that its lines leave.
#![tactic(auto)]

mod errors;
mod faults;
mod image;
mod laws;
mod lines;
mod writes;

pub use errors::ImageError;
pub use faults::{LineError, TextFault};
pub use image::image_of;
pub use laws::{graph_of_device_stands, image_where_no_line_is_refused};
pub use lines::first_fault;
