//! Cases that `test_rows` cannot express: error texts, files, disks larger than memory, and comparisons with a second
//! implementation.

mod damage;
mod debug;
mod errors;
mod files;
mod slow_places;
