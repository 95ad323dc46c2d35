//! Commands of `gptimg`, each on a disk of 100 sectors of 512 bytes with "Foo" in 34..43.

use crate::held::Held;
use crate::memory::Memory;
use crate::verdict::{Verdict, of_answer};
use gptimg_core::run;
use gptman::{Error, Result};
use test_fixtures::tables::{image_of, table_with};
use test_fixtures::words::split;

/// Makes the call of this name, or returns `None` if it is not one of these.
pub fn try_call(name: &str, memory: &mut Memory) -> Option<Result<Verdict>> {
    let (line, wanted) = command_of(name)?;
    Some(try_command(memory, line, wanted))
}

// Returns the command line of this name and its output, with `;` for each newline.
fn command_of(name: &str) -> Option<(&'static str, &'static str)> {
    for command in COMMANDS.lines() {
        let (known, rest) = command.split_once('|')?;
        if known == name {
            return rest.split_once('|');
        }
    }
    None
}

// A line for each command: its name, its words, and its output.
const COMMANDS: &str = "\
show|512 show|sector 512 form primary disk ffffffffffffffffffffffffffffffff usable 34..66 entries 128 align 1;\
1 0a0a0a0a0a0a0a0a0a0a0a0a0a0a0a0a 01010101010101010101010101010101 34..43 0000000000000000 Foo;
show_auto|auto show|sector 512 form primary disk ffffffffffffffffffffffffffffffff usable 34..66 entries 128 align 1;\
1 0a0a0a0a0a0a0a0a0a0a0a0a0a0a0a0a 01010101010101010101010101010101 34..43 0000000000000000 Foo;
free|512 free 10|50 17;
free_auto|auto free 10|50 17;
check|512 check|primary ok;backup ok;same yes;
new|512 new V|ok;
add_first|512 add 2 T V 5 first 4 Bar|2 44..48;
add_first_auto|auto add 2 T V 5 first 4 Bar|2 44..48;
add_last|512 add 2 T V 5 last 4 Bar|2 60..64;
add_last_auto|auto add 2 T V 5 last 4 Bar|2 60..64;
add_best|512 add 2 T V 5 best 4 Bar|2 44..48;
add_best_auto|auto add 2 T V 5 best 4 Bar|2 44..48;
remove|512 remove 1|ok;
remove_auto|auto remove 1|ok;
sort|512 sort|ok;
sort_auto|auto sort|ok;
grow|512 grow|ok;
grow_auto|auto grow|ok;
mbr_plain|512 mbr plain|ok;
mbr_bootable|512 mbr bootable|ok;
";

// Reports whether this text was printed, with a newline for each `;`.
fn is_printed(printed: &[u8], wanted: &str) -> bool {
    let mut left = wanted.bytes();
    for byte in printed {
        let told = if *byte == b'\n' { b';' } else { *byte };
        if left.next() != Some(told) {
            return false;
        }
    }
    left.next().is_none()
}

// The output buffer is large enough, so that no allocation for it can fail.
fn try_command(memory: &mut Memory, line: &str, wanted: &str) -> Result<Verdict> {
    let mut table = table_with(memory.alloc(), &[(1, "Foo", 34, 43)])?;
    let mut held = Held::new(memory.alloc(), image_of(memory.alloc(), &mut table)?)?;
    let words = split(memory.alloc(), line)?;
    let mut printed = Vec::with_capacity(memory.alloc(), 512)?;
    memory.begin();
    let status = run(memory.alloc(), &words, &mut held.disk, &mut printed);
    memory.end();
    let is_left = held.read(memory.alloc()).is_ok();
    Ok(of_command(status, &printed, wanted, &held, is_left))
}

// Returns the verdict on a command with this status and output. `is_left` says whether the disk holds a table.
fn of_command(
    status: Result<u8>,
    printed: &[u8],
    wanted: &str,
    held: &Held,
    is_left: bool,
) -> Verdict {
    let is_want = printed == b"fault: OutOfMemory\n".as_slice();
    let is_failure = printed == b"fault: Io\n".as_slice();
    match status {
        Ok(0) => of_answer(is_printed(printed, wanted) && is_left && !held.has_no_record()),
        Ok(1) if is_want => held.verdict(&Error::OutOfMemory, true, is_left),
        Ok(1) if is_failure && held.has_no_record() && is_left => Verdict::Refused,
        _ => Verdict::RefusedWrongly,
    }
}
