// Code classes and headers as words. A class is named as the enum names it, with a dot before what it holds.
#![tactic(auto)]

mod classes;
mod headers;

pub use classes::{read_class, write_class};
pub use headers::{
    read_header, read_type, write_class_and_id, write_header, write_version_and_type,
};
