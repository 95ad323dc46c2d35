//! Values of one word each, for command lines and layouts: sizes, types, GUIDs, attributes, choices, targets.
//!
//! The error for a wrong word says what would be right.
#![tactic(auto)]

mod amount;
mod attribute_change;
mod attributes;
mod byte_count;
mod escapes;
mod extent;
mod field;
mod kinds;
mod likely;
mod measure;
mod names;
mod shell_word;
mod target;
mod units;
mod wrong;

pub use amount::{AmountText, SizeText, read_amount, read_sector, read_size};
pub use attribute_change::read_attribute_change;
pub use attributes::{
    AllSfdiskNames, AttributeName, AttributeNames, find_sfdisk_bit, read_attribute,
    read_attributes, sfdisk_name,
};
pub use byte_count::ByteCount;
pub use escapes::{Escaped, EscapedChar, EscapedCode, TomlText, is_hidden};
pub use extent::{read_extent, read_number};
pub use field::{FIELDS, Field, read_field};
pub use kinds::{read_choice, read_guid, read_type};
pub use likely::likely_name;
pub use measure::{read_length, read_measure, read_new_length, read_position};
pub use names::{UnitsText, is_long_name, read_units};
pub use shell_word::ShellWord;
pub use target::read_target;
pub use wrong::{Wrong, WrongText};
