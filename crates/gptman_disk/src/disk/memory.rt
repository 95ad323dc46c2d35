//! A disk in memory, for simulated crashes.
//!
//! It records its writes and syncs. `stop` turns the record into one of the disks that a crash may leave. With a fuse,
//! all calls after the first few fail.

ghost use Rattle.std.specs.Prelude.{◌≡◌, ◌≤◌, ◌+◌, ◌<◌, ◌^◌, ◌⊎◌, ◌↔◌, [], ◌∷◌, true, false, length};
ghost use Rattle.std.specs.Prelude.{Some, None};
ghost use Rattle.std.specs.Prelude.{IfOk, IfErr, OnOk, OnErr, IsOk, IsErr, IsTrue};
ghost use Rattle.std.specs.List.{list_all};
ghost use Rattle.std.specs.IoError.{error_kind};
ghost use Rattle.std.specs.declared.io.ErrorKind.TheVariants.{OutOfMemory};
ghost use Rattle.gptman_disk.specs.Disk.{next_bytes, next_range, overlay, HasFailedAsOften};
ghost use Rattle.gptman_disk.specs.Disk.{HasFailedOnce, HasNext, IsCountedOnce};
ghost use Rattle.gptman_disk.specs.Disk.{HasOverwritten, Image, IsFresh, IsHonest};
ghost use Rattle.gptman_disk.specs.Disk.{CoverTheSame, Keeps, MayHaveWritten, Moves, PassesEnd, Reads};
ghost use Rattle.gptman_disk.specs.Disk.{ReadsOnAsBefore};
ghost use Rattle.gptman_disk.specs.Disk.{IsPositionedAt, StaysAt, Untouched, Writes};
ghost use Rattle.gptman_disk.specs.Memory.{after_call, event_fits, memory_sound, serves};
ghost use Rattle.gptman_disk.specs.Memory.{view_of, AddsPending};

use super::{Disk, count_failure, passes_end, past_end};
use crate::error::Result;
use std::alloc::Global;
use std::io;

/// What a crash leaves of one pending write.
#[derive(Clone, Copy, Debug, PartialEq, Eq)]
pub enum Fate {
    /// The bytes before the write.
    Old,
    /// The written bytes.
    New,
    /// This byte, over the whole range.
    Garbage(u8),
}

// A write: its first byte, its bytes, and whether the device carried it out.
#[derive(Drop)]
struct Written {
    at: u64,
    bytes: Vec<u8>,
    done: bool,
}

#[derive(Drop)]
enum Event {
    Write(Written),
    Sync,
}

/// A disk over bytes in memory. It is honest, and records each write and sync.
///
/// If a write or sync cannot allocate its record, it changes nothing and counts as a failure of the device.
#[derive(Drop)]
pub struct MemoryDisk {
    alloc: Global,
    start: Vec<u8>,
    bytes: Vec<u8>,
    position: u64,
    fuse: Option<u64>,
    failures: u64,
    events: Vec<Event>,
    ghost replays: { bytes.items ≡ view_of start.items events.items },
    ghost fits: { list_all (event_fits (length start.items)) events.items ≡ true },
    ghost size: { length bytes.items ≡ length start.items },
    ghost small: { length bytes.items < 2 ^ 64 },
}

impl MemoryDisk {
    ghost use Rattle.gptman_disk.specs.Fault.{fault_of, out_of_memory};
    ghost use Rattle.gptman_disk.specs.Fate.{bytes_left, calls_left, history_of, state_of};

    /// Returns a disk of these bytes, all of them synced, at position 0, without a fuse.
    ///
    /// # Errors
    ///
    /// `OutOfMemory` if the copy of the bytes cannot be allocated.
    pub fn new(alloc: Global, bytes: Vec<u8>) -> Result<MemoryDisk>
        ensures refused { IfErr result (λ e. fault_of e ≡ out_of_memory) }
        ensures value { IfOk result (λ disk. IsFresh bytes.items (state_of disk)) }
        ensures fuse { IfOk result (λ disk. calls_left disk ≡ None) }
    {
        Ok(MemoryDisk {
            alloc,
            start: bytes.to_vec(alloc)?,
            bytes,
            position: 0,
            fuse: None,
            failures: 0,
            events: Vec::new(alloc),
        })
    }

    /// Returns a disk as `new` does, except that only the first `calls` calls are served and all later ones fail.
    ///
    /// # Errors
    ///
    /// `OutOfMemory` if the copy of the bytes cannot be allocated.
    pub fn with_fuse(alloc: Global, bytes: Vec<u8>, calls: u64) -> Result<MemoryDisk>
        ensures refused { IfErr result (λ e. fault_of e ≡ out_of_memory) }
        ensures value { IfOk result (λ disk. IsFresh bytes.items (state_of disk)) }
        ensures fuse { IfOk result (λ disk. calls_left disk ≡ Some calls) }
    {
        let mut disk = MemoryDisk::new(alloc, bytes)?;
        disk.fuse = Some(calls);
        Ok(disk)
    }

    /// Returns the disk that a crash leaves, with all bytes synced, at position 0, without a fuse.
    ///
    /// It has the bytes of the last successful sync, or of the start, changed by the writes since then in their order,
    /// each with its fate. A write without a fate has `Old`, and surplus fates are ignored.
    ///
    /// # Errors
    ///
    /// `OutOfMemory` if the bytes cannot be allocated.
    pub fn stop(self, fates: &[Fate]) -> Result<MemoryDisk>
        ensures refused { IfErr result (λ e. fault_of e ≡ out_of_memory) }
        ensures image { IfOk result (λ disk. Image (state_of self) (state_of disk).view) }
        ensures value { IfOk result (λ disk. IsFresh (bytes_left fates.now (history_of self)) (state_of disk)) }
        ensures fuse { IfOk result (λ disk. calls_left disk ≡ None) }
    {
        let mut view = self.start.to_vec(self.alloc)?;
        let mut left = self.start.to_vec(self.alloc)?;
        let mut next = 0usize;
        for event in &self.events {
            match event {
                Event::Sync => {
                    left = view.to_vec(self.alloc)?;
                    next = 0;
                }
                Event::Write(written) => {
                    let fate = fates.get(next).copied().unwrap_or(Fate::Old);
                    next += 1;
                    written.leave(&mut left, fate);
                    if written.done {
                        overwrite(&mut view, written.at as usize, &written.bytes);
                    }
                }
            }
        }
        MemoryDisk::new(self.alloc, left)
    }

    /// Returns the bytes that a read returns, from the first to the last.
    pub fn bytes(&self) -> &[u8]
        ensures { result.now ≡ (state_of self.now).view }
    {
        &self.bytes
    }
}

impl Written {
    ghost use Rattle.gptman_disk.specs.Fate.{fate_step};

    // Applies a fate of this write to the bytes.
    fn leave(&self, bytes: &mut Vec<u8>, fate: Fate)
        requires { self.now.at + length self.now.bytes.items ≤ length bytes.old.items }
        ensures after { bytes.new.items ≡ fate_step fate bytes.old.items self.now.at self.now.bytes.items }
        ensures len { length bytes.new.items ≡ length bytes.old.items }
    {
        let at = self.at as usize;
        match fate {
            Fate::Old => {}
            Fate::New => overwrite(bytes, at, &self.bytes),
            Fate::Garbage(byte) => bytes[at..at + self.bytes.len()].fill(byte),
        }
    }
}

// Overwrites the bytes from `at`.
fn overwrite(bytes: &mut Vec<u8>, at: usize, over: &[u8])
    requires { at + length over.now ≤ length bytes.old.items }
    ensures after { bytes.new.items ≡ overlay bytes.old.items at over.now }
    ensures len { length bytes.new.items ≡ length bytes.old.items }
{
    bytes[at..at + over.len()].copy_from_slice(over);
}

// Counts a call, and reports whether the fuse serves it.
fn is_served(fuse: &mut Option<u64>) -> bool
    ensures answers { result ≡ serves fuse.old }
    ensures counts { fuse.new ≡ after_call fuse.old }
{
    match *fuse {
        None => true,
        Some(0) => false,
        Some(calls) => {
            *fuse = Some(calls - 1);
            true
        }
    }
}

// Counts a failure of the device, and returns its error.
fn fail(failures: &mut u64) -> io::Error
    ensures once { IsCountedOnce failures.old failures.new }
{
    count_failure(failures);
    io::Error::other("the device failed")
}

// Counts a failed allocation of a record as a failure, and returns its error.
fn lack_memory(failures: &mut u64) -> io::Error
    ensures once { IsCountedOnce failures.old failures.new }
    ensures kind { error_kind result ≡ OutOfMemory }
{
    count_failure(failures);
    io::Error::new(io::ErrorKind::OutOfMemory, "no memory for the record")
}

impl Disk for MemoryDisk {
    ghost use Rattle.gptman_disk.specs.Fate.{calls_left, history_of, state_of, CountsStops, CountsStopsOfWrite};
    ghost use Rattle.gptman_disk.specs.Fate.{HasNoMemory, HasSync, HasWrite};

    ghost state = { state_of };

    /// Seeks as the trait says. Fails only if the fuse does not serve the call; the position is then unchanged.
    fn seek_start(&mut self, at: u64) -> io::Result<u64>
        ensures reads { Reads (state_of self.old) (state_of self.new) }
        ensures answer { IfOk result (IsPositionedAt (state_of self.new) at) }
        ensures counts { OnOk result (HasFailedAsOften (state_of self.old) (state_of self.new)) }
        ensures once { OnErr result (HasFailedOnce (state_of self.old) (state_of self.new)) }
        ensures served { IsOk result ↔ IsTrue (serves (calls_left self.old)) }
        ensures kept { OnErr result (StaysAt (state_of self.old) (state_of self.new)) }
        ensures fuse { calls_left self.new ≡ after_call (calls_left self.old) }
    {
        if !is_served(&mut self.fuse) {
            return Err(fail(&mut self.failures));
        }
        self.position = at;
        Ok(at)
    }

    /// Seeks as the trait says. Fails only if the fuse does not serve the call; the position is then unchanged.
    fn seek_end(&mut self) -> io::Result<u64>
        ensures reads { Reads (state_of self.old) (state_of self.new) }
        ensures answer { IfOk result (IsPositionedAt (state_of self.new) (state_of self.old).size) }
        ensures counts { OnOk result (HasFailedAsOften (state_of self.old) (state_of self.new)) }
        ensures once { OnErr result (HasFailedOnce (state_of self.old) (state_of self.new)) }
        ensures served { IsOk result ↔ IsTrue (serves (calls_left self.old)) }
        ensures kept { OnErr result (StaysAt (state_of self.old) (state_of self.new)) }
        ensures fuse { calls_left self.new ≡ after_call (calls_left self.old) }
    {
        if !is_served(&mut self.fuse) {
            return Err(fail(&mut self.failures));
        }
        self.position = self.bytes.len() as u64;
        Ok(self.position)
    }

    /// Reads as the trait says. Fails only if the read passes the end, which is not counted as a failure, or if the
    /// fuse does not serve the call. Position and buffer are then unchanged.
    fn read_exact(&mut self, buf: &mut [u8]) -> io::Result<()>
        ensures reads { Reads (state_of self.old) (state_of self.new) }
        ensures within { OnOk result (HasNext (state_of self.old) (length buf.old)) }
        ensures counts { OnOk result (HasFailedAsOften (state_of self.old) (state_of self.new)) }
        ensures once { OnErr result (HasFailedOnce (state_of self.old) (state_of self.new)
            ⊎ PassesEnd (state_of self.old) (length buf.old)) }
        ensures past_end { PassesEnd (state_of self.old) (length buf.old) → IsErr result
            × HasFailedAsOften (state_of self.old) (state_of self.new) }
        ensures served { IsOk result ↔ (IsTrue (serves (calls_left self.old))
            × HasNext (state_of self.old) (length buf.old)) }
        ensures kept { OnErr result (StaysAt (state_of self.old) (state_of self.new) × (buf.new ≡ buf.old)) }
        ensures value { IsHonest (state_of self.old)
            → OnOk result (buf.new ≡ next_bytes (state_of self.old) (length buf.old)) }
        ensures moves { OnOk result (Moves (state_of self.old) (state_of self.new) (length buf.old)) }
        ensures fuse { calls_left self.new ≡ after_call (calls_left self.old) }
    {
        let served = is_served(&mut self.fuse);
        let size = self.bytes.len() as u64;
        let len = buf.len() as u64;
        if passes_end(size, self.position, len) {
            return Err(past_end());
        }
        if !served {
            return Err(fail(&mut self.failures));
        }
        let at = self.position as usize;
        buf.copy_from_slice(&self.bytes[at..at + buf.len()]);
        self.position += len;
        Ok(())
    }

    /// Writes as the trait says. If the fuse does not serve the call, the write fails and is pending, and a read
    /// returns the old bytes. If the record cannot be allocated, the write fails with an error of kind `OutOfMemory`
    /// and changes nothing.
    fn write_all(&mut self, buf: &[u8]) -> io::Result<()>
        requires { HasNext (state_of self.old) (length buf.now) }
        ensures keeps { Keeps (state_of self.old) (state_of self.new) }
        ensures counts { OnOk result (HasFailedAsOften (state_of self.old) (state_of self.new)) }
        ensures once { OnErr result (HasFailedOnce (state_of self.old) (state_of self.new)) }
        ensures served { OnOk result (IsTrue (serves (calls_left self.old))) }
        ensures moves { OnOk result (Moves (state_of self.old) (state_of self.new) (length buf.now)) }
        ensures wrote { Writes (next_range (state_of self.old) (length buf.now) ∷ [])
            (state_of self.old) (state_of self.new) }
        ensures contents { IsHonest (state_of self.old)
            → OnOk result (HasOverwritten buf.now (state_of self.old) (state_of self.new)) }
        ensures failed { IsHonest (state_of self.old)
            → OnErr result (MayHaveWritten (length buf.now) (state_of self.old) (state_of self.new)) }
        ensures pending { AddsPending (next_range (state_of self.old) (length buf.now))
            (state_of self.old) (state_of self.new)
            ⊎ (IsErr result × Untouched (state_of self.old) (state_of self.new)) }
        ensures recorded { OnOk result
            (HasWrite ((state_of self.old).position) buf.now true (history_of self.old) (history_of self.new)) }
        ensures refused { IfErr result (λ e. HasNoMemory e (history_of self.old) (history_of self.new)
            ⊎ (serves (calls_left self.old) ≡ false)
            × HasWrite ((state_of self.old).position) buf.now false (history_of self.old) (history_of self.new)) }
        ensures stops { CountsStopsOfWrite result
            (next_range (state_of self.old) (length buf.now))
            (history_of self.old) (history_of self.new) (state_of self.old) (state_of self.new) }
        ensures kept { OnErr result (ReadsOnAsBefore (state_of self.old) (state_of self.new)) }
        ensures fuse { calls_left self.new ≡ after_call (calls_left self.old) }
    {
        let done = is_served(&mut self.fuse);
        let Ok(bytes) = buf.to_vec(self.alloc) else {
            return Err(lack_memory(&mut self.failures));
        };
        let event = Event::Write(Written {
            at: self.position,
            bytes,
            done,
        });
        if self.events.push(event).is_err() {
            return Err(lack_memory(&mut self.failures));
        }
        if !done {
            return Err(fail(&mut self.failures));
        }
        let at = self.position as usize;
        overwrite(&mut self.bytes, at, buf);
        self.position += buf.len() as u64;
        Ok(())
    }

    /// Syncs as the trait says. Fails if the fuse does not serve the call, or, with an error of kind `OutOfMemory`, if
    /// the record cannot be allocated. Record and position are then unchanged.
    fn sync(&mut self) -> io::Result<()>
        ensures keeps { Keeps (state_of self.old) (state_of self.new) }
        ensures counts { OnOk result (HasFailedAsOften (state_of self.old) (state_of self.new)) }
        ensures once { OnErr result (HasFailedOnce (state_of self.old) (state_of self.new)) }
        ensures served { OnOk result (IsTrue (serves (calls_left self.old))) }
        ensures stays { OnOk result ((state_of self.new).position ≡ (state_of self.old).position) }
        ensures wrote { Writes [] (state_of self.old) (state_of self.new) }
        ensures view { IsHonest (state_of self.old) → (state_of self.new).view ≡ (state_of self.old).view }
        ensures synced { IsHonest (state_of self.old) → OnOk result ((state_of self.new).pending ≡ []) }
        ensures failed { IsHonest (state_of self.old)
            → OnErr result (CoverTheSame (state_of self.new).pending (state_of self.old).pending) }
        ensures pending { OnErr result ((state_of self.new).pending ≡ (state_of self.old).pending) }
        ensures recorded { OnOk result (HasSync (history_of self.old) (history_of self.new)) }
        ensures refused { IfErr result (λ e. HasNoMemory e (history_of self.old) (history_of self.new)
            ⊎ (serves (calls_left self.old) ≡ false) × (history_of self.new ≡ history_of self.old)) }
        ensures stops { CountsStops [] (history_of self.new) (state_of self.old) (state_of self.new) }
        ensures kept { OnErr result (StaysAt (state_of self.old) (state_of self.new)) }
        ensures fuse { calls_left self.new ≡ after_call (calls_left self.old) }
    {
        if !is_served(&mut self.fuse) {
            return Err(fail(&mut self.failures));
        }
        if self.events.push(Event::Sync).is_err() {
            return Err(lack_memory(&mut self.failures));
        }
        Ok(())
    }

    ghost bounded = { λ d. d.small };

    ghost sound = { λ d honest.
        memory_sound d.start.items d.bytes.items d.events.items d.position d.failures d.replays };
}
