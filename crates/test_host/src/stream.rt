//! Streams that give and take few bytes, fail, or never end.
use std::alloc::Global;
use std::io::{self, ErrorKind, Read, Write};

/// How a stream gives and takes: so many bytes a call at most, in so many calls, and then it fails or gives and takes nothing.
#[derive(Clone, Copy)]
pub struct Flow {
    pub piece: usize,
    pub calls: u64,
    pub fails: bool,
}

/// A stream, with what it has left to give and what it took.
#[derive(Drop)]
pub struct Stream<'a> {
    flow: Flow,
    rest: &'a [u8],
    /// Whether it goes on giving bytes when it has none left.
    is_endless: bool,
    pub taken: Vec<u8>,
    /// How often it was asked.
    pub asked: u64,
}

impl<'a> Stream<'a> {
    pub fn new(alloc: Global, flow: Flow, rest: &'a [u8]) -> Stream<'a> {
        Stream {
            flow,
            rest,
            is_endless: false,
            taken: Vec::new(alloc),
            asked: 0,
        }
    }

    /// One that gives so many bytes a call without an end.
    pub fn endless(alloc: Global, piece: usize) -> Stream<'static> {
        Stream {
            flow: Flow {
                piece,
                calls: u64::MAX,
                fails: true,
            },
            rest: &[],
            is_endless: true,
            taken: Vec::new(alloc),
            asked: 0,
        }
    }

    /// How many bytes the next call may give or take.
    fn next(&mut self) -> io::Result<usize> {
        let is_over = self.flow.calls <= self.asked;
        self.asked = self.asked.saturating_add(1);
        if is_over && self.flow.fails {
            return Err(io::Error::from(ErrorKind::Other));
        }
        Ok(if is_over { 0 } else { self.flow.piece })
    }
}

impl Read for Stream<'_> {
    fn read(&mut self, buf: &mut [u8]) -> io::Result<usize> {
        let room = self.next()?.min(buf.len());
        if self.is_endless {
            return Ok(room);
        }
        let count = room.min(self.rest.len());
        for (i, byte) in buf.iter_mut().enumerate() {
            if i < count {
                *byte = self.rest[i];
            }
        }
        self.rest = &self.rest[count..];
        Ok(count)
    }
}

impl Write for Stream<'_> {
    fn write(&mut self, buf: &[u8]) -> io::Result<usize> {
        let count = self.next()?.min(buf.len());
        self.taken.extend_from_slice(&buf[..count])?;
        Ok(count)
    }

    fn flush(&mut self) -> io::Result<()> {
        Ok(())
    }
}
