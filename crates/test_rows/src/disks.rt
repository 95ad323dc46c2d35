//! Calls on disks.

use crate::answer::{Answer, Answered, Fault};
use crate::bench::{Bench, held, holding, taken};
use crate::row::{Row, byte_of};
use gptman::disk::faulty::FaultyDisk;
use gptman::{Disk, Error, Fate, GPT, MemoryDisk};
use std::alloc::Global;
use std::io;

/// disk D size= [fill=], or bytes=; copy D from=; fuse D from= calls=; fault D from= call=; stop D from= [fates=];
/// cut D from= size= [fill=]; poke D at= bytes=, or flip=
pub(crate) fn make(bench: &mut Bench, row: Row) -> Answered {
    let disk = made(bench, row)?;
    bench.keep_disk(row, disk)
}

fn made(bench: &mut Bench, row: Row) -> Result<FaultyDisk, Fault> {
    let alloc = bench.alloc;
    match row.call() {
        "disk" => holding(alloc, first_bytes(alloc, row)?),
        "poke" => {
            let bytes = held(&mut bench.disks, row.slot()?)?.bytes().to_vec(alloc)?;
            holding(alloc, poked(alloc, row, bytes)?)
        }
        "stop" => {
            let below = taken(&mut bench.disks, row.slot_of("from")?)?.into_inner();
            Ok(FaultyDisk::new(below.stop(fates(alloc, row)?.as_slice())?, None))
        }
        _ => {
            let bytes = bench.disk(row, "from")?.bytes().to_vec(alloc)?;
            copied(alloc, row, bytes)
        }
    }
}

fn first_bytes(alloc: Global, row: Row) -> Result<Vec<u8>, Fault> {
    if row.has("bytes") {
        return row.bytes(alloc, "bytes");
    }
    Ok(vec![in alloc; fill(row)?; row.length("size")?]?)
}

fn fill(row: Row) -> Result<u8, Fault> {
    if row.has("fill") {
        row.byte("fill")
    } else {
        Ok(0)
    }
}

fn copied(alloc: Global, row: Row, bytes: Vec<u8>) -> Result<FaultyDisk, Fault> {
    match row.call() {
        "copy" => holding(alloc, bytes),
        "fuse" => fused(alloc, bytes, row.number("calls")?),
        "fault" => faulty(alloc, bytes, row.number("call")?),
        _ => cut(alloc, bytes, row.length("size")?, fill(row)?),
    }
}

fn fused(alloc: Global, bytes: Vec<u8>, calls: u64) -> Result<FaultyDisk, Fault> {
    let below = MemoryDisk::with_fuse(alloc, bytes, calls)?;
    Ok(FaultyDisk::new(below, None))
}

fn faulty(alloc: Global, bytes: Vec<u8>, call: u64) -> Result<FaultyDisk, Fault> {
    let below = MemoryDisk::new(alloc, bytes)?;
    Ok(FaultyDisk::new(below, Some(call)))
}

fn cut(alloc: Global, bytes: Vec<u8>, size: usize, fill: u8) -> Result<FaultyDisk, Fault> {
    let mut bytes = bytes;
    bytes.resize(size, fill)?;
    holding(alloc, bytes)
}

// Overwrites bytes, or complements one.
fn poked(alloc: Global, row: Row, bytes: Vec<u8>) -> Result<Vec<u8>, Fault> {
    let mut bytes = bytes;
    let at = row.length("at")?;
    if row.has("flip") {
        let byte = bytes.get_mut(at).ok_or(Fault::Row)?;
        *byte = !*byte;
        return Ok(bytes);
    }
    for (index, byte) in row.bytes(alloc, "bytes")?.iter().enumerate() {
        *bytes.get_mut(at.saturating_add(index)).ok_or(Fault::Row)? = *byte;
    }
    Ok(bytes)
}

fn fates(alloc: Global, row: Row) -> Result<Vec<Fate>, Fault> {
    let mut fates = Vec::new(alloc);
    if !row.has("fates") {
        return Ok(fates);
    }
    for word in row.word("fates")?.split(',') {
        fates.push(fate_of(word)?)?;
    }
    Ok(fates)
}

// Parses `old`, `new`, or a byte of garbage.
fn fate_of(word: &str) -> Result<Fate, Fault> {
    match word {
        "old" => Ok(Fate::Old),
        "new" => Ok(Fate::New),
        _ => Ok(Fate::Garbage(byte_of(word).ok_or(Fault::Row)?)),
    }
}

/// bytes D at= length=; same D as=; calls D; goto D at=; end D; take D length=; lay D bytes=; sync D;
/// mbr D sector= [bootable=]
pub(crate) fn answer(bench: &mut Bench, row: Row) -> Answered {
    let alloc = bench.alloc;
    if row.call() == "same" {
        return same(bench, row);
    }
    let disk = held(&mut bench.disks, row.slot()?)?;
    match row.call() {
        "bytes" => bytes_at(alloc, disk, row),
        "calls" => Ok(Answer::Place(disk.calls_left())),
        "mbr" => mbr(disk, row),
        _ => Ok(called(alloc, disk, row)?),
    }
}

fn bytes_at(alloc: Global, disk: &FaultyDisk, row: Row) -> Answered {
    let (at, length) = (row.length("at")?, row.length("length")?);
    match disk.bytes().get(at..at.saturating_add(length)) {
        Some(bytes) => Ok(Answer::Bytes(bytes.to_vec(alloc)?)),
        None => Err(Fault::Row),
    }
}

// Reports whether two disks have the same bytes.
fn same(bench: &mut Bench, row: Row) -> Answered {
    let alloc = bench.alloc;
    let one = held(&mut bench.disks, row.slot()?)?.bytes().to_vec(alloc)?;
    let other = bench.disk(row, "as")?;
    Ok(Answer::Truth(one.as_slice() == other.bytes()))
}

// Makes a call of the trait `Disk`.
fn called<D: Disk>(alloc: Global, disk: &mut D, row: Row) -> Answered {
    match row.call() {
        "goto" => place_of(disk.seek_start(row.number("at")?)),
        "end" => place_of(disk.seek_end()),
        "take" => take(alloc, disk, row.length("length")?),
        "lay" => write_at(disk, row.number("at")?, &row.bytes(alloc, "bytes")?),
        _ => done(disk.sync()),
    }
}

fn place_of(called: io::Result<u64>) -> Answered {
    match called {
        Ok(at) => Ok(Answer::Number(at)),
        Err(error) => Err(Fault::Refused(Error::Io(error))),
    }
}

fn done(called: io::Result<()>) -> Answered {
    match called {
        Ok(()) => Ok(Answer::Done),
        Err(error) => Err(Fault::Refused(Error::Io(error))),
    }
}

fn take<D: Disk>(alloc: Global, disk: &mut D, length: usize) -> Answered {
    let mut bytes = vec![in alloc; 0; length]?;
    done(disk.read_exact(&mut bytes))?;
    Ok(Answer::Bytes(bytes))
}

/// Writes these bytes from byte `at` on.
pub(crate) fn write_at<D: Disk>(disk: &mut D, at: u64, bytes: &[u8]) -> Answered {
    let size = disk.seek_end().map_err(Error::Io)?;
    disk.seek_start(at).map_err(Error::Io)?;
    if at > size || size - at < bytes.len() as u64 {
        return Err(Fault::Requires);
    }
    done(disk.write_all(bytes))
}

fn mbr(disk: &mut FaultyDisk, row: Row) -> Answered {
    let sector_size = row.number("sector")?;
    if sector_size == 0 {
        return Err(Fault::Requires);
    }
    if row.has("bootable") {
        GPT::write_bootable_protective_mbr_into(disk, sector_size)?;
    } else {
        GPT::write_protective_mbr_into(disk, sector_size)?;
    }
    Ok(Answer::Done)
}
