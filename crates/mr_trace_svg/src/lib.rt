//! A run as a drawing, apart from how it came about: lanes, rows and arrows, and how they are written as SVG.
//!
//! # What is proved
//!
//! - **`Part::places`**: which places of a journal a picture of a part shows: those from its first event on, as many as it has rows, as far as the
//!   journal goes;
//! - `picture_of` fails by nothing but an allocation failure, and sums of its places saturate. What a picture shows is tested by example, and no clause tells it.
#![tactic(auto)]

mod arrows;
mod drawing;
mod layout;
mod notes;
mod part;
mod render;
mod signs;
mod svg;

pub use drawing::{
    Arrow, Begin, Delivery, Drawing, End, Lane, Rest, Row, Sending, Sign, Tone, container_lane,
    lane_of, master_lane,
};
pub use part::Part;
pub use render::picture_of;
