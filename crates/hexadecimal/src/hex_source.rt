ghost use Rattle.std.specs.Prelude.{◌≡◌, min, false, length};
ghost use Rattle.streams.specs.Sources.{Handed};
ghost use Rattle.hexadecimal.specs.Layers.{hex_ahead, hex_asked, Next};
ghost use Rattle.hexadecimal.specs.Laws.{SpellsLongestRun};

use crate::digits::pair_value;
use streams::exact::read_exact;
use streams::source::Source;

/// The bytes that the longest run of digit pairs at the front of the source below spells.
#[derive(Drop)]
pub struct HexSource<S> {
    below: S,
    // beside the source, and no enum of the two: the layer gives the source back whether it has ended or not, and its meaning needs both
    ended: bool,
}

impl<S: Source> HexSource<S> {
    /// A layer over `below`.
    pub fn new(below: S) -> HexSource<S>
        ensures holds { result.below ≡ below }
        ensures begins { result.ended ≡ false }
        ensures law { SpellsLongestRun }
    {
        HexSource {
            below,
            ended: false,
        }
    }

    /// Gives up the layer for the source below.
    pub fn into_below(self) -> S
        ensures { result ≡ self.below }
    {
        let HexSource { below, ended: _ } = self;
        below
    }

    /// The next byte, if the next two characters below are a digit pair; else the layer ends.
    fn next_byte(&mut self) -> Option<u8>
        ensures next { Next self.old.ended (S.Source.ahead self.old.below) self.new.ended (S.Source.ahead self.new.below) result }
        ensures takes { record { ended = self.new.ended; text = S.Source.ahead self.new.below } ≡ hex_asked 1 self.old.ended (S.Source.ahead self.old.below) }
    {
        if self.ended {
            return None;
        }
        let mut pair = [0u8; 2];
        let Ok(()) = read_exact(&mut self.below, &mut pair) else {
            self.ended = true;
            return None;
        };
        match pair_value(pair[0], pair[1]) {
            // a way for each: the proof of what was taken did not close where the ways are joined
            Some(b) => Some(b),
            None => {
                self.ended = true;
                None
            }
        }
    }
}

// its meaning is told of its fields, and by no model: a model would forget the source below
impl<S: Source> Source for HexSource<S> {
    ghost ahead = { λ s. hex_ahead s.ended (S.Source.ahead s.below) };

    // two facts of a line each: what is handed out, and how much
    /// Hands out as many bytes as fit.
    fn read(&mut self, buf: &mut [u8]) -> usize
        ensures hands { Handed (hex_ahead self.old.ended (S.Source.ahead self.old.below)) (hex_ahead self.new.ended (S.Source.ahead self.new.below)) buf.old buf.new result }
        ensures most { result ≡ min (length buf.old) (length (hex_ahead self.old.ended (S.Source.ahead self.old.below))) }
        ensures takes { record { ended = self.new.ended; text = S.Source.ahead self.new.below } ≡ hex_asked (length buf.old) self.old.ended (S.Source.ahead self.old.below) }
    {
        // by place, as a sink's source goes
        for i in 0..buf.len() {
            let Some(b) = self.next_byte() else {
                return i;
            };
            buf[i] = b;
        }
        buf.len()
    }
}
