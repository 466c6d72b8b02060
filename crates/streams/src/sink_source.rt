ghost use Rattle.std.specs.Prelude.{◌≡◌, min, length, drop};
ghost use Rattle.streams.specs.Sources.{Handed};

use crate::sink::Sink;
use crate::source::Source;

// its meaning is told of its fields, and by no model: a model would have to name the bound, and whoever names the type too
/// The bytes that a sink holds, from a place on.
#[derive(Drop)]
pub struct SinkSource<'a, S> {
    sink: &'a S,
    // a place, since a sink lends no slice of what it holds
    at: usize,
}

impl<'a, S: Sink> SinkSource<'a, S> {
    /// A source of what `sink` holds from `at` on.
    pub fn new(sink: &'a S, at: usize) -> SinkSource<'a, S>
        ensures { drop result.at (S.Sink.store result.sink.now).memory.held ≡ drop at (S.Sink.store sink.now).memory.held }
    {
        SinkSource { sink, at }
    }
}

impl<S: Sink> Source for SinkSource<'_, S> {
    ghost ahead = { λ s. drop s.at (S.Sink.store s.sink.now).memory.held };

    // two facts of a line each: what is handed out, and how much
    /// Hands out as many bytes as fit.
    fn read(&mut self, buf: &mut [u8]) -> usize
        ensures hands { Handed (drop self.old.at (S.Sink.store self.old.sink.now).memory.held) (drop self.new.at (S.Sink.store self.new.sink.now).memory.held) buf.old buf.new result }
        ensures most { result ≡ min (length buf.old) (length (drop self.old.at (S.Sink.store self.old.sink.now).memory.held)) }
    {
        let left = self.sink.count().saturating_sub(self.at);
        let m = left.min(buf.len());
        // by place: over `iter_mut().enumerate()` the proof did not close
        for i in 0..m {
            buf[i] = self.sink.byte_at(self.at + i).unwrap();
        }
        self.at += m;
        m
    }
}
