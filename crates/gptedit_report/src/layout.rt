//! Reports whether a table has the stated layout on its disk.

use gptman::GPT;

/// The layout of a table on its disk.
#[derive(Clone, Copy)]
pub(crate) enum LayoutState {
    /// The stated layout.
    Right,
    /// The stated layout of a shorter disk, which ends at this sector.
    Grown(u64),
    /// The disk ends before this sector, where a header should be.
    Cut(u64),
    /// Another layout.
    Other,
}

impl LayoutState {
    /// Returns the layout of a table on a disk of `size` bytes.
    pub(crate) fn of(table: &GPT, size: u64) -> LayoutState {
        if table.has_layout(size) {
            return LayoutState::Right;
        }
        let last = table.header.primary_lba.max(table.header.backup_lba);
        let Some(sectors) = size.checked_div(table.sector_size) else {
            return LayoutState::Other;
        };
        if sectors <= last {
            return LayoutState::Cut(last);
        }
        if has_layout_to(table, last) {
            return LayoutState::Grown(last);
        }
        LayoutState::Other
    }
}

/// Returns the length in bytes of a disk that ends with this sector.
pub(crate) fn length_to(last: u64, sector_size: u64) -> u64 {
    last.saturating_add(1).saturating_mul(sector_size)
}

// Reports whether the table has the stated layout on a disk that ends with this sector.
fn has_layout_to(table: &GPT, last: u64) -> bool {
    let Some(sectors) = last.checked_add(1) else {
        return false;
    };
    match sectors.checked_mul(table.sector_size) {
        Some(size) => table.has_layout(size),
        None => false,
    }
}
