ghost use Rattle.std.specs.Prelude.{◌≡◌, ℕ, List, min, length};
ghost use Rattle.streams.specs.Sources.{Handed};

use crate::source::Source;
use std::marker::Model;

/// The caller's bytes.
#[derive(Drop)]
pub struct SliceSource<'a> {
    rest: &'a [u8],
}

/// It is seen as the bytes still to come.
impl<'a> Model for SliceSource<'a> {
    ghost Value = { List ℕ };

    ghost view = { λ s. s.rest.now };
}

impl<'a> SliceSource<'a> {
    /// A source of all of `bytes`.
    pub fn new(bytes: &'a [u8]) -> SliceSource<'a>
        ensures { result ≡ bytes.now }
    {
        SliceSource { rest: bytes }
    }
}

impl Source for SliceSource<'_> {
    ghost ahead = { λ s. s };

    // two facts of a line each: what is handed out, and how much
    /// Hands out as many bytes as fit.
    fn read(&mut self, buf: &mut [u8]) -> usize
        ensures hands { Handed self.old self.new buf.old buf.new result }
        ensures most { result ≡ min (length buf.old) (length self.old) }
    {
        // asked first, so that a read of one byte is a copy of one byte
        if self.rest.is_empty() {
            return 0;
        }
        let m = self.rest.len().min(buf.len());
        let (front, rest) = self.rest.split_at(m);
        buf[..m].copy_from_slice(front);
        self.rest = rest;
        m
    }
}
