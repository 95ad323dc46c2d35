//! Prints one partition of a table.

use crate::failure::{Failure, refuse, refuse_asked, refuse_error};
use crate::image::Image;
use crate::selecting::number_of;
use gptedit_core::{Refusal, Target};
use gptedit_report::{
    NoValueText, Partition, field_json, partition_json, print_field, print_partition,
};
use gptedit_values::Field;
use gptman::{Error, GPT};
use std::alloc::Global;
use std::io::Write;

/// Prints the fields of the partition that `target` names.
pub fn show_partition<W: Write>(
    out: &mut W,
    alloc: Global,
    image: &Image<'_>,
    table: &GPT,
    target: &Target<'_>,
    is_json: bool,
) -> Result<(), Failure> {
    let partition = find(alloc, image, table, target)?;
    if is_json {
        let text = partition_json(alloc, &partition)?;
        writeln!(out, "{text}")?;
    } else {
        print_partition(out, alloc, &partition)?;
    }
    Ok(())
}

/// Prints one field of the partition that `target` names. Refuses if it has no value.
pub fn show_field<W: Write>(
    out: &mut W,
    alloc: Global,
    image: &Image<'_>,
    table: &GPT,
    target: &Target<'_>,
    field: Field,
    is_json: bool,
) -> Result<(), Failure> {
    let partition = find(alloc, image, table, target)?;
    if !partition.has_value(field) {
        let text = NoValueText {
            partition,
            field,
            image: image.name,
        };
        return Err(refuse(alloc, image.name, &text));
    }
    if is_json {
        let text = field_json(alloc, &partition, field)?;
        writeln!(out, "{text}")?;
    } else {
        print_field(out, &partition, field)?;
    }
    Ok(())
}

// Returns the partition. Refuses if its entry does not exist or is unused.
fn find<'a>(
    alloc: Global,
    image: &Image<'_>,
    table: &'a GPT,
    target: &Target<'_>,
) -> Result<Partition<'a>, Failure> {
    let number = number_of(alloc, image.name, table, target)?;
    let sector_size = table.sector_size;
    match table.get(number) {
        Some(entry) if entry.is_used() => Ok(Partition {
            number,
            entry,
            sector_size,
        }),
        Some(_) => {
            let refusal = Refusal::IsUnused(number);
            Err(refuse_asked(alloc, image.name, Some(table), sector_size, &refusal))
        }
        None => {
            let error = Error::InvalidPartitionNumber(number);
            Err(refuse_error(alloc, image.name, &error))
        }
    }
}
