//! Fields of JSON objects, names and frames, each read with its first fault.
#![tactic(auto)]

mod accept;
mod digits;
mod document;
mod durations;
mod fields;
mod frame_texts;
mod frames;
mod identifier_texts;
mod known;
mod name;
mod optional;
mod reads_element;
mod script_fault;

pub use crate::accept::{Accept, accept_text};
pub use crate::document::{LIMIT, read_document};
pub use crate::durations::{duration, duration_of, optional_duration};
pub use crate::fields::{
    field, filled_list, list, list_of, natural, object_of, optional_list, optional_truth,
    some_list, text, text_of, truth, whole, whole_of,
};
pub use crate::frame_texts::frame_text;
pub use crate::frames::{frame_of, identifier_with};
pub use crate::identifier_texts::identifier_text;
pub use crate::known::known_fields;
pub use crate::name::{
    Named, formed_name, is_among, is_name, new_name, owned, place_named, place_of,
};
pub use crate::optional::{maybe_truth, optional_text, optional_whole};
pub use crate::reads_element::{ReadsElement, read_each};
pub use crate::script_fault::ScriptFault;
