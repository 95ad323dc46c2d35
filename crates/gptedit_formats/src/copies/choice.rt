//! The choice of the best copy, and of places to read without a header.

use crate::copies::arrays::ArraySpan;
use crate::copies::found::{CopyKind, FoundCopy, Spot};

/// Returns the index of the best copy. Copies with faults and without sensible entries come last; then fewer faults that
/// are not mended, fewer that are, a header, more sensible entries, and the order primary, backup, other decide.
pub fn find_best(copies: &[FoundCopy]) -> Option<usize> {
    let mut best: Option<(Rank, usize)> = None;
    for (index, copy) in copies.iter().enumerate() {
        if !copy.is_there() {
            continue;
        }
        let rank = rank_of(copy);
        match best {
            Some((least, _)) if least <= rank => (),
            _ => best = Some((rank, index)),
        }
    }
    best.map(|found| found.1)
}

// Lower is better.
type Rank = (bool, usize, usize, bool, usize, u8);

fn rank_of(copy: &FoundCopy) -> Rank {
    let sensible = copy.count_sensible();
    let is_suspect = sensible == 0 && !copy.faults.is_empty();
    let mended = copy.faults.iter().filter(|fault| fault.is_mended()).count();
    let place = match copy.spot.kind {
        CopyKind::Primary => 0,
        CopyKind::Backup => 1,
        CopyKind::Other => 2,
    };
    (
        is_suspect,
        copy.faults.len().saturating_sub(mended),
        mended,
        copy.header.is_none(),
        usize::MAX.saturating_sub(sensible),
        place,
    )
}

/// Drops copies with entries and no header, unless their sector size is that of the best copy: one array is at the usual
/// place for several sector sizes, shifted by some entries.
pub fn keep_one_size(copies: &mut Vec<FoundCopy>) {
    let best = find_best(copies).and_then(|index| copies.get(index));
    let Some(best) = best else {
        return;
    };
    let sector_size = best.spot.sector_size;
    copies.retain(|copy| {
        copy.header.is_some() || copy.entries.is_empty() || copy.spot.sector_size == sector_size
    });
}

/// Reports whether a header has this sector size, or there is no header.
pub fn may_be_size(copies: &[FoundCopy], sector_size: u64) -> bool {
    !copies.iter().any(|copy| copy.header.is_some())
        || copies.iter().any(|copy| copy.header.is_some() && copy.spot.sector_size == sector_size)
}

/// Returns the array to read without a header: with the length that a header has, or the usual one.
pub fn bare_span(copies: &[FoundCopy], spot: Spot) -> ArraySpan {
    for copy in copies {
        if let Some(header) = &copy.header {
            if copy.spot.sector_size == spot.sector_size {
                return ArraySpan::said_by(header).at_usual_place(spot);
            }
        }
    }
    ArraySpan::usual(spot)
}

/// Reports whether there is a header at this place, or a header has the entries from this sector.
pub fn is_known(copies: &[FoundCopy], spot: Spot, entries_lba: u64) -> bool {
    copies.iter().any(|copy| {
        copy.header.is_some()
            && copy.spot.sector_size == spot.sector_size
            && (copy.spot.lba == spot.lba || copy.entries_lba == Some(entries_lba))
    })
}
