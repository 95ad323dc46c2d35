//! Parses the words of a command line, without a disk.
//!
//! Words that are not a command are `None`, whatever is wrong with them.

ghost use Rattle.std.specs.Prelude.{◌≡◌, IfSome, Some};
ghost use Rattle.gptimg_core.specs.Asks.{writes, AskFor};
ghost use Rattle.gptimg_core.specs.Spelling.{spell, texts_of, IsAllowed};
ghost use Rattle.gptimg_core.specs.Words.{addition_in, change_in, named_change_in, named_command_in, without_words};
ghost use Rattle.gptimg_core.specs.Words.{check_in, free_in, mbr_in, new_in, remove_in, show_in};
ghost use Rattle.gptimg_core.specs.Words.{IsSized, IsSizedAddition, IsSizedChange};
ghost use Rattle.gptimg_core.specs.declared.words.Command.{Command};

use crate::words::values::{
    parse_choice, parse_entry_number, parse_guid, parse_kind, parse_sector_size, parse_size,
    parse_type,
};
use std::marker::Model;

mod values;

/// A command. Sector sizes are in bytes, and above 0; without one, the size is found.
#[derive(Drop)]
pub enum Command<'a> {
    /// Writes a new table with this disk GUID.
    New {
        sector_size: u64,
        guid: [u8; 16],
    },
    /// Writes a protective MBR.
    Mbr {
        sector_size: u64,
        bootable: bool,
    },
    /// Checks both copies of the table.
    Check {
        sector_size: u64,
    },
    /// Prints the table on the disk.
    Show {
        sector_size: Option<u64>,
    },
    /// Prints the free ranges, each from its first multiple of `align` sectors.
    Free {
        sector_size: Option<u64>,
        align: u64,
    },
    /// Changes the table on the disk.
    Change {
        sector_size: Option<u64>,
        change: Change<'a>,
    },
}

impl Command<'_> {
    /// Reports whether the command writes to the disk. The others only read it.
    pub fn writes(&self) -> bool
        ensures { result ≡ writes self.now }
    {
        match self {
            Command::New { .. } | Command::Mbr { .. } | Command::Change { .. } => true,
            Command::Check { .. } | Command::Show { .. } | Command::Free { .. } => false,
        }
    }
}

/// A change of the table.
#[derive(Drop)]
pub enum Change<'a> {
    /// Adds a partition.
    Add(Addition<'a>),
    /// Removes the entry with this number.
    Remove(u32),
    /// Sorts the entries.
    Sort,
    /// Fits the table to the length of the disk.
    Grow,
}

/// A partition to be added. Its size and alignment are in sectors, and above 0.
#[derive(Drop)]
pub struct Addition<'a> {
    /// The number of its entry.
    pub number: u32,
    /// The type GUID, not all zeros.
    pub type_guid: [u8; 16],
    /// The unique GUID.
    pub unique_guid: [u8; 16],
    /// The number of sectors.
    pub size: u64,
    /// The choice among the free places.
    pub choice: Choice,
    /// The alignment: the first sector is a multiple of it.
    pub align: u64,
    /// The name.
    pub name: Word<'a>,
}

/// A word as it was given. Contracts see its bytes.
#[derive(Drop)]
pub struct Word<'a>(&'a str);

impl<'a> Model for Word<'a> {
    ghost use Rattle.std.specs.Prelude.{ℕ, List};

    ghost Value = { List ℕ };

    ghost view = { λ word. word.0.now };
}

impl Word<'_> {
    /// Returns the text of the word.
    pub fn as_str(&self) -> &str
        ensures { result.now ≡ self.now }
    {
        self.0
    }
}

/// The choice among the free places.
#[derive(Clone, Copy)]
pub enum Choice {
    /// The first.
    First,
    /// The last.
    Last,
    /// The start of the shortest free range that is large enough.
    Best,
}

/// Parses the words `SECTOR COMMAND ..`.
pub fn parse(words: &[String]) -> Option<Command<'_>>
    ensures sized { IfSome result IsSized }
    ensures spelled { IfSome result (λ command. AskFor words.now command) }
    ensures only { (command : Command) → AskFor words.now command → result ≡ Some command }
    ensures usual { (command : Command) → IsAllowed command → texts_of words.now ≡ spell command
        → result ≡ Some command }
{
    let [sector, name, arguments @ ..] = words else {
        return None;
    };
    parse_command(sector.as_str(), name.as_str(), arguments)
}

// Parses the command with this name, given the word for the sector size.
fn parse_command<'a>(sector: &str, name: &str, arguments: &'a [String]) -> Option<Command<'a>>
    ensures sized { IfSome result IsSized }
    ensures value { result ≡ named_command_in sector.now name.now (texts_of arguments.now) }
{
    match name {
        "new" => parse_new(sector, arguments),
        "mbr" => parse_mbr(sector, arguments),
        "check" => parse_check(sector, arguments),
        "show" => parse_show(sector, arguments),
        "free" => parse_free(sector, arguments),
        _ => parse_change(sector, name, arguments),
    }
}

// Parses `new GUID`.
fn parse_new<'a>(sector: &str, arguments: &'a [String]) -> Option<Command<'a>>
    ensures sized { IfSome result IsSized }
    ensures value { result ≡ new_in sector.now (texts_of arguments.now) }
{
    let [guid] = arguments else {
        return None;
    };
    Some(Command::New {
        sector_size: parse_size(sector)?,
        guid: parse_guid(guid.as_str())?,
    })
}

// Parses `mbr KIND`.
fn parse_mbr<'a>(sector: &str, arguments: &'a [String]) -> Option<Command<'a>>
    ensures sized { IfSome result IsSized }
    ensures value { result ≡ mbr_in sector.now (texts_of arguments.now) }
{
    let [kind] = arguments else {
        return None;
    };
    Some(Command::Mbr {
        sector_size: parse_size(sector)?,
        bootable: parse_kind(kind.as_str())?,
    })
}

// Parses `check`.
fn parse_check<'a>(sector: &str, arguments: &'a [String]) -> Option<Command<'a>>
    ensures sized { IfSome result IsSized }
    ensures value { result ≡ check_in sector.now (texts_of arguments.now) }
{
    if !arguments.is_empty() {
        return None;
    }
    Some(Command::Check {
        sector_size: parse_size(sector)?,
    })
}

// Parses `show`; the sector size may be `auto`.
fn parse_show<'a>(sector: &str, arguments: &'a [String]) -> Option<Command<'a>>
    ensures sized { IfSome result IsSized }
    ensures value { result ≡ show_in sector.now (texts_of arguments.now) }
{
    if !arguments.is_empty() {
        return None;
    }
    Some(Command::Show {
        sector_size: parse_sector_size(sector)?,
    })
}

// Parses `free ALIGN`; the sector size may be `auto`.
fn parse_free<'a>(sector: &str, arguments: &'a [String]) -> Option<Command<'a>>
    ensures sized { IfSome result IsSized }
    ensures value { result ≡ free_in sector.now (texts_of arguments.now) }
{
    let [align] = arguments else {
        return None;
    };
    Some(Command::Free {
        sector_size: parse_sector_size(sector)?,
        align: parse_size(align.as_str())?,
    })
}

// Parses a command that changes the table; the sector size may be `auto`.
fn parse_change<'a>(sector: &str, name: &str, arguments: &'a [String]) -> Option<Command<'a>>
    ensures sized { IfSome result IsSized }
    ensures value { result ≡ change_in sector.now name.now (texts_of arguments.now) }
{
    Some(Command::Change {
        sector_size: parse_sector_size(sector)?,
        change: parse_named_change(name, arguments)?,
    })
}

// Parses the change with this name.
fn parse_named_change<'a>(name: &str, arguments: &'a [String]) -> Option<Change<'a>>
    ensures sized { IfSome result IsSizedChange }
    ensures value { result ≡ named_change_in name.now (texts_of arguments.now) }
{
    match name {
        "add" => Some(Change::Add(parse_addition(arguments)?)),
        "remove" => parse_remove(arguments),
        "sort" => parse_without_words(Change::Sort, arguments),
        "grow" => parse_without_words(Change::Grow, arguments),
        _ => None,
    }
}

// Parses a change that takes no words.
fn parse_without_words<'a>(change: Change<'a>, arguments: &'a [String]) -> Option<Change<'a>>
    requires sized { IsSizedChange change }
    ensures sized { IfSome result IsSizedChange }
    ensures value { result ≡ without_words change.entry (texts_of arguments.now) }
{
    if arguments.is_empty() {
        Some(change)
    } else {
        None
    }
}

// Parses `NUMBER`.
fn parse_remove<'a>(arguments: &'a [String]) -> Option<Change<'a>>
    ensures sized { IfSome result IsSizedChange }
    ensures value { result ≡ remove_in (texts_of arguments.now) }
{
    let [number] = arguments else {
        return None;
    };
    Some(Change::Remove(parse_entry_number(number.as_str())?))
}

// Parses `NUMBER TYPE UNIQUE SIZE WHERE ALIGN NAME`.
fn parse_addition<'a>(arguments: &'a [String]) -> Option<Addition<'a>>
    ensures sized { IfSome result IsSizedAddition }
    ensures value { result ≡ addition_in (texts_of arguments.now) }
{
    let [number, type_guid, unique_guid, size, choice, align, name] = arguments else {
        return None;
    };
    Some(Addition {
        number: parse_entry_number(number.as_str())?,
        type_guid: parse_type(type_guid.as_str())?,
        unique_guid: parse_guid(unique_guid.as_str())?,
        size: parse_size(size.as_str())?,
        choice: parse_choice(choice.as_str())?,
        align: parse_size(align.as_str())?,
        name: Word(name.as_str()),
    })
}
