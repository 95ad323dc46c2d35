//! The values of a layout for the header of its table.

use gptedit_core::StatedShape;
use gptman::GPT;
use std::fmt;

/// The values of a layout for the header of its table. `None` means that the layout does not have the value.
#[derive(Clone, Copy)]
pub struct Header {
    /// The size of a sector in bytes.
    pub sector_size: Option<u64>,
    /// The number of entries.
    pub entries: Option<u32>,
    /// The first usable sector.
    pub first_usable: Option<u64>,
    /// The last usable sector.
    pub last_usable: Option<u64>,
}

/// The form of the text of a layout.
#[derive(Clone, Copy)]
pub enum Form {
    /// TOML.
    Toml,
    /// A script of `sfdisk`.
    Script,
    /// A backup of `sgdisk`.
    Backup,
}

/// A value of a header that differs from that of a table.
#[derive(Clone, Copy)]
pub struct OtherValue {
    /// The form of the text.
    pub form: Form,
    /// The key of the value.
    pub key: &'static str,
    /// The value in the layout.
    pub said: u64,
    /// The value in the table.
    pub is: u64,
    /// Whether `--replace` sets the value.
    pub is_settable: bool,
}

impl Header {
    /// Returns a header without values.
    pub fn nothing() -> Header {
        Header {
            sector_size: None,
            entries: None,
            first_usable: None,
            last_usable: None,
        }
    }

    /// Returns the header with all values of the table.
    pub fn of(table: &GPT) -> Header {
        Header {
            sector_size: Some(table.sector_size),
            entries: Some(table.header.number_of_partition_entries),
            first_usable: Some(table.header.first_usable_lba),
            last_usable: Some(table.header.last_usable_lba),
        }
    }

    /// Fails if the table has another value than this header. The error has the key of the value in this form of
    /// text. With `is_settable` its message says that `--replace` sets the value.
    pub fn check(&self, form: Form, table: &GPT, is_settable: bool) -> Result<(), OtherValue> {
        self.check_sector_size(form, table)?;
        let [_, entries, first_usable, last_usable] = form.keys();
        let header = &table.header;
        let said = self.entries.map(|count| u64::from(count));
        let count = u64::from(header.number_of_partition_entries);
        let values = [
            (first_usable, self.first_usable, header.first_usable_lba),
            (last_usable, self.last_usable, header.last_usable_lba),
            (entries, said, count),
        ];
        for (key, said, is) in values {
            form.expect(key, said, is, is_settable)?;
        }
        Ok(())
    }

    /// Fails if the table has another sector size than this header.
    pub fn check_sector_size(&self, form: Form, table: &GPT) -> Result<(), OtherValue> {
        let [key, ..] = form.keys();
        form.expect(key, self.sector_size, table.sector_size, false)
    }

    /// Reports whether the usable sectors end before they begin. There may be none.
    pub fn ends_early(&self) -> bool {
        match (self.first_usable, self.last_usable) {
            (Some(first), Some(last)) => last < first.saturating_sub(1),
            _ => false,
        }
    }

    /// Returns the number of entries and the usable sectors.
    pub fn shape(&self) -> StatedShape {
        StatedShape {
            entries: self.entries,
            first_usable: self.first_usable,
            last_usable: self.last_usable,
        }
    }
}

impl Form {
    fn expect(
        self,
        key: &'static str,
        said: Option<u64>,
        is: u64,
        is_settable: bool,
    ) -> Result<(), OtherValue> {
        match said {
            Some(said) if said != is => Err(OtherValue {
                form: self,
                key,
                said,
                is,
                is_settable,
            }),
            _ => Ok(()),
        }
    }

    // Returns the keys of the sector size, the number of entries, and the first and the last usable sector.
    fn keys(self) -> [&'static str; 4] {
        match self {
            Form::Toml | Form::Backup => ["sector-size", "entries", "first-usable", "last-usable"],
            Form::Script => ["sector-size", "table-length", "first-lba", "last-lba"],
        }
    }
}

/// Prints both values, and what to do.
impl fmt::Display for OtherValue {
    fn fmt<W: fmt::Write>(&self, f: &mut fmt::Formatter<W>) -> fmt::Result {
        let OtherValue { key, said, is, .. } = *self;
        let text = match self.form {
            Form::Backup => "backup",
            Form::Toml | Form::Script => "layout",
        };
        writeln!(f, "{key} is {said} in the {text}, but {is} on the disk")?;
        if self.form == Form::Backup {
            return f.write_str(if self.is_settable {
                "--replace sets it"
            } else {
                "it is the backup of a disk with sectors of another size"
            });
        }
        write!(f, "remove {key} from the layout to keep that of the disk")?;
        if self.is_settable {
            f.write_str(", or use --replace to set it")?;
        } else if key == "sector-size" {
            f.write_str("; values in sectors then mean other bytes")?;
        }
        Ok(())
    }
}
