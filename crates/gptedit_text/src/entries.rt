//! The requests for entries, collected while a text is read.

use crate::StatedPlace;
use crate::error::{Fault, LayoutError, TextPlace};
use gptedit_core::{Amount, Asked, Extent, Mode, RequestedLayout};
use gptedit_values::is_long_name;
use gptman::PartitionName;
use std::alloc::Global;
use std::collections::BTreeSet;
use std::mem;

/// The requests that were read.
#[derive(Drop)]
pub struct Entries {
    asked: Vec<Asked>,
    places: Vec<StatedPlace>,
    numbers: BTreeSet<u32>,
    has_rest: bool,
}

impl Entries {
    /// Returns an empty collection.
    pub fn new(alloc: Global) -> Entries {
        Entries {
            asked: Vec::new(alloc),
            places: Vec::new(alloc),
            numbers: BTreeSet::new(alloc),
            has_rest: false,
        }
    }

    /// Takes the number, if any, for a request from this place in the text. Fails with `Taken` if another request has
    /// it.
    pub fn take_number(
        &mut self,
        place: TextPlace,
        number: Option<u32>,
    ) -> Result<(), LayoutError> {
        match number {
            Some(number) if !self.numbers.insert(number)? => {
                Err(place.fault("number", Fault::Taken(number)))
            }
            _ => Ok(()),
        }
    }

    /// Adds a request.
    pub fn add(&mut self, asked: Asked) -> Result<(), LayoutError> {
        self.asked.push(asked)?;
        Ok(())
    }

    /// Adds a request for a partition at this place.
    pub fn add_at(&mut self, asked: Asked, place: StatedPlace) -> Result<(), LayoutError> {
        self.places.push(place)?;
        self.add(asked)
    }

    /// Returns the places of the requests that were added with one.
    pub fn take_places(&mut self, alloc: Global) -> Vec<StatedPlace> {
        mem::replace(&mut self.places, Vec::new(alloc))
    }

    /// Fails with `SecondRest` if this is `rest` and an earlier request has it too.
    pub fn check_rest(
        &mut self,
        place: TextPlace,
        extent: Option<Extent>,
    ) -> Result<(), LayoutError> {
        if extent != Some(Extent::Rest) {
            return Ok(());
        }
        if self.has_rest {
            return Err(place.fault("size", Fault::SecondRest));
        }
        self.has_rest = true;
        Ok(())
    }

    /// Returns the layout. A table becomes it, and no entry may be moved or left out.
    pub fn into_layout(
        self,
        alloc: Global,
        disk_guid: Option<[u8; 16]>,
        align: Amount,
    ) -> RequestedLayout {
        RequestedLayout {
            mode: Mode::Become { replace: false },
            disk_guid,
            align,
            removed: Vec::new(alloc),
            asked: self.asked,
        }
    }
}

/// Reads the name of a partition from this place in the text. Fails with `LongName` if it has more than 36 UTF-16
/// units, and with `ZeroInName` if it contains a zero character, which would end it.
pub fn read_name(
    alloc: Global,
    place: TextPlace,
    text: &str,
) -> Result<PartitionName, LayoutError> {
    if text.contains('\0') {
        return Err(place.fault("name", Fault::ZeroInName));
    }
    if is_long_name(text) {
        return Err(place.fault("name", Fault::LongName));
    }
    PartitionName::new(alloc, text).map_err(|_| LayoutError::OutOfMemory)
}
