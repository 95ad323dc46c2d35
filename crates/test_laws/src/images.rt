//! Runs `gptimg` with the words of a command.

ghost use Rattle.std.specs.Prelude.{◌≡◌, ◌<◌, false, Some, IfOk, OnOk};
ghost use Rattle.gptman.specs.Disk.{IsHonest, OnlyRead};
ghost use Rattle.gptimg_core.specs.Prints.{Runs};
ghost use Rattle.gptimg_core.specs.declared.words.Command.TheVariants.{Show};

use gptimg_core::{may_write, run, usual_words_spell, words_spell_one};
use gptman::{Disk, Result};
use std::alloc::Global;
use std::io::Write;

/// Prints the table on an image, as the command `show` does. Returns the exit status.
///
/// `Io` if `out` fails, and `OutOfMemory`.
pub fn show<D: Disk, W: Write>(
    alloc: Global,
    sector_size: u64,
    disk: &mut D,
    out: &mut W,
) -> Result<u8>
    requires { 0 < sector_size }

    // The words are those of `show`, so nothing is written.
    ensures shows { OnOk result (Runs (Show (Some sector_size)) result (D.state disk.old) (D.state disk.new)
        (W.contents out.old) (W.contents out.new)) }
    ensures reads { IsHonest (D.state disk.old) → OnlyRead (D.state disk.old) (D.state disk.new) }
{
    usual_words_spell();
    let words = [
        format!(in alloc; "{sector_size}")?,
        String::from_str(alloc, "show")?,
    ];
    run(alloc, &words, disk, out)
}

/// Reports whether an image must be opened for writing to print its table. It never must, since the words of `show` are
/// those of no other command.
///
/// `OutOfMemory` if the words cannot be allocated.
pub fn needs_writing(alloc: Global, sector_size: u64) -> Result<bool>
    requires { 0 < sector_size }
    ensures { IfOk result (λ needed. needed ≡ false) }
{
    usual_words_spell();
    words_spell_one();
    let words = [
        format!(in alloc; "{sector_size}")?,
        String::from_str(alloc, "show")?,
    ];
    Ok(may_write(&words))
}

#[cfg(test)]
mod tests {
    use super::*;
    use std::test::Fail;
    use test_fixtures::{calls, samples};

    #[test]
    fn a_table_is_shown(rt: HostRuntime) -> std::result::Result<(), Fail> {
        let image = samples::image_of_new(rt.alloc(), 0)?;
        let mut disk = calls::holding(rt.alloc(), &image)?;
        assert!(rt; !needs_writing(rt.alloc(), 512)?);
        let mut printed = Vec::new(rt.alloc());
        let status = show(rt.alloc(), 512, &mut disk, &mut printed)?;
        assert!(rt; status == 0);
        assert!(rt; printed.starts_with(b"sector 512 form primary "));
        Ok(())
    }
}
