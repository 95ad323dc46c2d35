//! The reasons for which a nonzero byte may be overwritten.

ghost use Rattle.std.specs.Prelude.{◌≡◌, ◌↔◌, ◌≤◌, ◌<◌, ◌+◌, ◌-◌, ◌*◌, ◌/◌, ◌⊎◌, ℕ, All, IsTrue};
ghost use Rattle.gptedit_look.specs.Guard.{entries_size, last_of, GetsPlace, GivesBackup, GivesPrimary};
ghost use Rattle.gptedit_look.specs.Guard.{IsAllowed, IsContent, IsFooter, IsGiven, IsGoodIn, IsOfBackup};
ghost use Rattle.gptedit_look.specs.Guard.{IsOfCopy, IsOfOther, IsOfTable, IsOwn, IsOwnOf, IsRepair};
ghost use Rattle.gptedit_look.specs.Guard.{IsReplaced, IsSpanned, IsUnknown, IsUsable};
ghost use Rattle.gptedit_look.specs.declared.marks.Content.{Content};

use crate::bytes::{ENTRY_SIZE, HEADER_SIZE, is_in, start_after, start_of};
use crate::marks::Content;
use crate::raw::RawHeader;
use crate::seen::{Look, Purpose};
use gptman::copy::WholeCopy;
use gptman::{GPT, GPTHeader, Result};

// The assumed length in bytes of contents whose end is unknown.
const MARK_SIZE: u64 = 512;

/// Reports whether a write of the table `next` may overwrite this byte, whatever its value.
pub fn is_allowed(look: &Look, purpose: Purpose, next: &GPT, at: u64) -> bool
    ensures { IsTrue result ↔ IsAllowed look.now purpose next.now at }
{
    is_own(look, at) || is_given(look, purpose, at) || is_new(look, purpose, next, at)
}

/// Reports whether this byte belongs to a good copy, by that copy's header.
pub fn is_own(look: &Look, at: u64) -> bool
    ensures { IsTrue result ↔ IsOwn look.now at }
{
    is_own_of(&look.copies.primary, 1, look.sector_size, at)
        || is_own_of(&look.copies.backup, last_of(look), look.sector_size, at)
}

// Reports whether a copy is good, its header names this sector as its own, and this byte belongs to it.
fn is_own_of(copy: &Result<WholeCopy>, sector: u64, sector_size: u64, at: u64) -> bool
    ensures { IsTrue result ↔ IsOwnOf sector sector_size at copy.now }
{
    match copy {
        Ok(copy) => copy.header.primary_lba == sector && is_of_copy(&copy.header, sector_size, at),
        Err(_) => false,
    }
}

// Reports whether a copy is good and its header names this sector as its own.
fn is_good_in(copy: &Result<WholeCopy>, sector: u64) -> bool
    ensures { IsTrue result ↔ IsGoodIn sector copy.now }
{
    match copy {
        Ok(copy) => copy.header.primary_lba == sector,
        Err(_) => false,
    }
}

// Returns the last whole sector.
fn last_of(look: &Look) -> u64
    ensures { result ≡ last_of look.now }
{
    (look.size / look.sector_size).saturating_sub(1)
}

// Reports whether this byte is in the header or the entries of this copy.
fn is_of_copy(header: &GPTHeader, sector_size: u64, at: u64) -> bool
    ensures { IsTrue result ↔ IsOfCopy header.now sector_size at }
{
    is_in(start_of(header.primary_lba, sector_size), HEADER_SIZE, at)
        || is_in(
            start_of(header.partition_entry_lba, sector_size),
            entries_size(header),
            at,
        )
}

// Returns the size of the entries in bytes.
fn entries_size(header: &GPTHeader) -> u64
    ensures { result ≡ entries_size header.now }
{
    ENTRY_SIZE * u64::from(header.number_of_partition_entries)
}

// Reports whether this byte belongs to a broken copy, by the good copy's header, and may be overwritten.
fn is_given(look: &Look, purpose: Purpose, at: u64) -> bool
    ensures { IsTrue result ↔ IsGiven look.now purpose at }
{
    !is_good_in(&look.copies.backup, last_of(look)) && gives_backup(look, purpose, at)
        || !is_good_in(&look.copies.primary, 1) && gives_primary(look, purpose, at)
}

// Reports whether this byte belongs to the backup copy, by the good primary header, and may be replaced.
fn gives_backup(look: &Look, purpose: Purpose, at: u64) -> bool
    ensures { IsTrue result ↔ GivesBackup look.now purpose at look.now.copies.primary }
{
    match &look.copies.primary {
        Ok(copy) => {
            let header = &copy.header;
            header.primary_lba == 1
                && is_of_other(header, header.last_usable_lba, look.sector_size, at)
                && !is_usable(header, look.sector_size, at)
                && is_replaced(
                    look,
                    purpose,
                    header,
                    look.backup_header,
                    look.moved_header,
                    at,
                )
        }
        Err(_) => false,
    }
}

// Reports whether this byte belongs to the primary copy, by the good backup header, and may be replaced.
fn gives_primary(look: &Look, purpose: Purpose, at: u64) -> bool
    ensures { IsTrue result ↔ GivesPrimary look.now purpose at look.now.copies.backup }
{
    match &look.copies.backup {
        Ok(copy) => {
            let header = &copy.header;
            header.primary_lba == last_of(look)
                && is_of_other(header, 1, look.sector_size, at)
                && !is_usable(header, look.sector_size, at)
                && is_replaced(look, purpose, header, look.primary_header, None, at)
        }
        Err(_) => false,
    }
}

// Reports whether this byte belongs to the other copy, by this header. The other entries begin after sector `before`.
fn is_of_other(header: &GPTHeader, before: u64, sector_size: u64, at: u64) -> bool
    ensures { IsTrue result ↔ IsOfOther header.now before sector_size at }
{
    is_in(start_of(header.backup_lba, sector_size), HEADER_SIZE, at)
        || is_in(start_after(before, sector_size), entries_size(header), at)
}

// Reports whether this byte is in a usable sector.
fn is_usable(header: &GPTHeader, sector_size: u64, at: u64) -> bool
    ensures { IsTrue result ↔ IsUsable header.now sector_size at }
{
    let at = u128::from(at);
    start_of(header.first_usable_lba, sector_size) <= at
        && at < start_after(header.last_usable_lba, sector_size)
}

// Reports whether a header of this table is still at the place of the other copy, or this is a repair and nothing
// recognised contains this byte.
fn is_replaced(
    look: &Look,
    purpose: Purpose,
    header: &GPTHeader,
    there: Option<RawHeader>,
    moved: Option<RawHeader>,
    at: u64,
) -> bool
    ensures { IsTrue result ↔ IsReplaced look.now purpose header.now there moved at }
{
    is_of_table(header, look.sector_size, there)
        || is_of_table(header, look.sector_size, moved)
        || is_repair(purpose) && is_unknown(look, at)
}

// Reports whether this header is in the sector that `header` names for the other copy, and has its disk GUID.
fn is_of_table(header: &GPTHeader, sector_size: u64, there: Option<RawHeader>) -> bool
    ensures { IsTrue result ↔ IsOfTable header.now sector_size there }
{
    match there {
        Some(there) => {
            there.disk_guid == header.disk_guid
                && u128::from(there.at) == start_of(header.backup_lba, sector_size)
        }
        None => false,
    }
}

fn is_repair(purpose: Purpose) -> bool
    ensures { IsTrue result ↔ IsRepair purpose }
{
    matches!(purpose, Purpose::Repair)
}

// Reports whether a copy gets a new place here, and nothing recognised contains this byte.
fn is_new(look: &Look, purpose: Purpose, next: &GPT, at: u64) -> bool
    ensures { IsTrue result ↔ GetsPlace next.now at purpose × IsUnknown look.now at }
{
    gets_place(next, at, purpose) && is_unknown(look, at)
}

// Reports whether a copy gets a new place here.
fn gets_place(next: &GPT, at: u64, purpose: Purpose) -> bool
    ensures { IsTrue result ↔ GetsPlace next.now at purpose }
{
    match purpose {
        Purpose::New => true,
        Purpose::Fit => is_of_backup(next, at),
        Purpose::Edit | Purpose::Repair => false,
    }
}

/// Reports whether this byte belongs to the backup copy of a table with the stated layout.
pub fn is_of_backup(table: &GPT, at: u64) -> bool
    ensures { IsTrue result ↔ IsOfBackup table.now at }
{
    let header = &table.header;
    let sector = header.primary_lba.max(header.backup_lba);
    let entries = start_after(header.last_usable_lba, table.sector_size);
    is_in(start_of(sector, table.sector_size), HEADER_SIZE, at)
        || is_in(entries, entries_size(header), at)
}

/// Reports whether nothing recognised contains this byte.
pub fn is_unknown(look: &Look, at: u64) -> bool
    ensures { IsTrue result ↔ IsUnknown look.now at }
{
    has_no_content(look, &look.contents, at) && !is_in_footer(look, at)
}

// Reports whether this byte is in none of these contents.
fn has_no_content(look: &Look, contents: &[Content], at: u64) -> bool
    ensures { IsTrue result ↔ All (λ (content : Content). ¬ IsContent look.now at content) contents.now }
{
    contents
        .iter()
        .all(|content| !is_in_content(look, at, content))
}

/// Reports whether this byte is in the footer.
pub fn is_in_footer(look: &Look, at: u64) -> bool
    ensures { IsTrue result ↔ IsFooter at look.now.footer }
{
    match &look.footer {
        Some(footer) => is_spanned(footer, at),
        None => false,
    }
}

/// Reports whether this byte is in contents that do not begin in a good copy.
pub fn is_in_content(look: &Look, at: u64, content: &Content) -> bool
    ensures { IsTrue result ↔ IsContent look.now at content.now }
{
    is_spanned(content, at) && !is_own(look, content.start)
}

// Reports whether this byte is in these contents, or in their first 512 bytes if the end is unknown.
fn is_spanned(content: &Content, at: u64) -> bool
    ensures { IsTrue result ↔ IsSpanned content.now at }
{
    if at < content.start {
        return false;
    }
    match content.end {
        Some(end) => at < end,
        None => at - content.start < MARK_SIZE,
    }
}

/// Reports whether this byte belongs to a broken copy, by the good copy's header, outside the usable sectors.
pub fn is_of_broken(look: &Look, at: u64) -> bool {
    match (&look.copies.primary, &look.copies.backup) {
        (Ok(copy), Err(_)) => is_of_lost(&copy.header, copy.header.last_usable_lba, look, at),
        (Err(_), Ok(copy)) => is_of_lost(&copy.header, 1, look, at),
        _ => false,
    }
}

// Reports whether this byte belongs to the other copy, outside the usable sectors.
fn is_of_lost(header: &GPTHeader, before: u64, look: &Look, at: u64) -> bool {
    is_of_other(header, before, look.sector_size, at) && !is_usable(header, look.sector_size, at)
}

/// Reports whether this byte belongs to the new backup copy, and a low last usable sector separates its entries from
/// its header.
pub fn is_of_low_entries(next: &GPT, at: u64) -> bool {
    let header = &next.header;
    let entries = entries_size(header).div_ceil(next.sector_size.max(1));
    let other = header.primary_lba.max(header.backup_lba);
    let behind = header
        .last_usable_lba
        .saturating_add(1)
        .saturating_add(entries);
    is_of_backup(next, at) && behind < other
}

/// Reports whether entries elsewhere are the likely reason why this byte may not be overwritten: it is in sector 2 or
/// later, and the good primary copy has its entries in another sector, or the new backup copy contains the byte.
pub fn are_entries_elsewhere(look: &Look, next: &GPT, at: u64) -> bool {
    let is_moved = has_moved_entries(&look.copies.primary, 2);
    at >= look.sector_size.saturating_mul(2) && (is_moved || is_of_backup(next, at))
}

// Reports whether a good copy has its entries in another sector than this.
fn has_moved_entries(copy: &Result<WholeCopy>, sector: u64) -> bool {
    match copy {
        Ok(copy) => copy.header.partition_entry_lba != sector,
        Err(_) => false,
    }
}
