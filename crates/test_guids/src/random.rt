//! Random bytes from a runtime and from a source of the test, each with given bytes.

ghost use Rattle.std.specs.Prelude.{◌≡◌, ◌<◌, ◌++◌, length};

use gptguid_core::{
    ByteSource, SystemSource, digits_of, from_digits, from_random, from_text, run, text_of,
};
use std::alloc::Global;
use std::io;
use std::io::Write;
use std::process::Abort;
use std::random::RandomSource;

const COUNTED: [u8; 16] = [0, 1, 2, 3, 4, 5, 6, 7, 8, 9, 10, 11, 12, 13, 14, 15];

// The line for the random GUID of these bytes: the first three groups reversed, version 4.
const DRAWN: &str = "030201000504074688090a0b0c0d0e0f\n";

// A source of the given bytes, which fails after the last one.
#[derive(Drop)]
struct Source<'b> {
    rest: &'b [u8],
}

impl<'b> ByteSource for Source<'b> {
    ghost gives = { λ old new bytes. old.rest.now ≡ bytes ++ new.rest.now };

    ghost fails = { λ old new wanted. length old.rest.now < wanted };

    fn fill_bytes(&mut self, buf: &mut [u8]) -> io::Result<()> {
        if self.rest.len() < buf.len() {
            buf[..self.rest.len()].copy_from_slice(self.rest);
            return Err(io::Error::from(io::ErrorKind::Other));
        }
        let (bytes, rest) = self.rest.split_at(buf.len());
        buf.copy_from_slice(bytes);
        self.rest = rest;
        Ok(())
    }
}

// A runtime with the given random bytes, which fails after the last one.
#[derive(Drop)]
struct Runtime<'b> {
    bytes: &'b [u8],
}

impl<'b> RandomSource for Runtime<'b> {
    fn fill_bytes(&self, buf: &mut [u8]) -> io::Result<()> {
        Source { rest: self.bytes }.fill_bytes(buf)
    }
}

// An output that fails.
#[derive(Drop)]
struct Full;

impl Write for Full {
    fn write(&mut self, _buf: &[u8]) -> io::Result<usize> {
        Err(io::Error::from(io::ErrorKind::Other))
    }

    fn flush(&mut self) -> io::Result<()> {
        Ok(())
    }
}

// Asserts that `random` returns this status and prints this line.
fn assert_draws<S: ByteSource>(
    rt: &impl Abort,
    alloc: Global,
    source: &mut S,
    status: u8,
    line: &str,
) {
    let word = String::from_str(alloc, "random").expect(rt, "there is memory");
    let mut out = Vec::new(alloc);
    let ended = run(&[word], source, &mut out);
    assert!(rt;
        ended.ok() == Some(status) && out.as_slice() == line.as_bytes(),
        "{line}"
    );
}

// There are 17 bytes, one more than is needed.
#[test]
fn the_next_sixteen_bytes_are_drawn(rt: HostRuntime) {
    let mut bytes = [16; 17];
    bytes[..16].copy_from_slice(&COUNTED);
    let mut source = Source { rest: &bytes };
    assert_draws(&rt, rt.alloc(), &mut source, 0, DRAWN);
    assert!(rt; source.rest == [16].as_slice());
    let runtime = Runtime { bytes: &COUNTED };
    assert_draws(&rt, rt.alloc(), &mut SystemSource::new(&runtime), 0, DRAWN);
}

#[test]
fn a_source_that_fails_at_any_byte_is_refused(rt: HostRuntime) {
    for length in 0..16 {
        let bytes = &COUNTED[..length];
        let mut source = Source { rest: bytes };
        assert_draws(&rt, rt.alloc(), &mut source, 1, "fault: Io\n");
        assert!(rt; source.rest == bytes);
        let runtime = Runtime { bytes };
        assert_draws(
            &rt,
            rt.alloc(),
            &mut SystemSource::new(&runtime),
            1,
            "fault: Io\n",
        );
    }
}

#[test]
fn each_call_gives_its_form(rt: HostRuntime) {
    let text = "03020100-0504-0706-0809-0A0B0C0D0E0F";
    let digits = "000102030405060708090a0b0c0d0e0f";
    assert!(rt; text_of(&COUNTED, &mut [0; 36]) == text);
    assert!(rt; digits_of(&COUNTED, &mut [0; 32]) == digits);
    assert!(rt; from_text(text) == Some(COUNTED) && from_text(digits).is_none());
    assert!(rt; from_digits(digits) == Some(COUNTED) && from_digits(text).is_none());
    let random = [3, 2, 1, 0, 5, 4, 7, 0x46, 0x88, 9, 10, 11, 12, 13, 14, 15];
    assert!(rt; from_random(COUNTED) == random);
}

#[test]
fn an_output_that_fails_is_an_error(rt: HostRuntime) {
    for line in ["efi", "list", "random", "none"].iter() {
        let word = String::from_str(rt.alloc(), line).expect(&rt, "there is memory");
        let mut source = Source { rest: &COUNTED };
        assert!(rt; run(&[word], &mut source, &mut Full).is_err(), "{line}");
    }
}
