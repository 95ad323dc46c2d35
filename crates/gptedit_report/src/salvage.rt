//! Prints what remains of damaged tables: the best copy as a layout, and the rest as comments; or all of it as JSON.

mod advice;
mod layouts;
mod printing;
mod texts;
mod values;

pub use printing::print_salvaged;
pub use values::salvaged_json;
