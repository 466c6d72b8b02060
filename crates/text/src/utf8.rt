ghost use Rattle.std.specs.Prelude.{◌≡◌, Decides};
ghost use Rattle.ttlv.specs.Utf8.{Text};
ghost use Rattle.text.specs.Deciding.{stepped, second, after_second_byte, textual};
ghost use Rattle.text.specs.Deciding.{whole as whole_text, run as ran};

/// What was seen of a text so far.
#[derive(Clone, Copy, PartialEq, Eq, Debug)]
pub enum Utf8 {
    /// Nothing, or whole characters.
    Start,
    /// The first byte of a character of several.
    Second(u8),
    /// A character that lacks one byte.
    Tail1,
    /// A character that lacks two bytes.
    Tail2,
    /// Something that no text begins with.
    Bad,
}

/// Whether a byte may follow the first byte of a character: the range depends on the first.
fn may_follow(first: u8, byte: u8) -> bool
    ensures { result ≡ second first byte }
{
    match byte {
        // no overlong form
        0x80..=0x8F if first == 0xE0 || first == 0xF0 => false,
        0x90..=0x9F if first == 0xE0 => false,
        // nothing above 0x10FFFF
        0x90..=0xBF if first == 0xF4 => false,
        // no surrogate
        0xA0..=0xBF if first == 0xED => false,
        0x80..=0xBF => true,
        _ => false,
    }
}

/// What is still to come of a character after its second byte.
fn after_second(first: u8) -> Utf8
    ensures { result ≡ after_second_byte first }
{
    match first {
        0x00..=0xDF => Utf8::Start,
        0xE0..=0xEF => Utf8::Tail1,
        _ => Utf8::Tail2,
    }
}

impl Utf8 {
    /// Takes one byte more.
    pub fn step(self, byte: u8) -> Utf8
        ensures { result ≡ stepped self byte }
    {
        match self {
            Utf8::Start => match byte {
                0x00..=0x7F => Utf8::Start,
                0xC2..=0xF4 => Utf8::Second(byte),
                _ => Utf8::Bad,
            },
            Utf8::Second(first) if may_follow(first, byte) => after_second(first),
            Utf8::Tail1 => match byte {
                0x80..=0xBF => Utf8::Start,
                _ => Utf8::Bad,
            },
            Utf8::Tail2 => match byte {
                0x80..=0xBF => Utf8::Tail1,
                _ => Utf8::Bad,
            },
            _ => Utf8::Bad,
        }
    }

    /// Takes several bytes more.
    pub fn run(self, bytes: &[u8]) -> Utf8
        ensures { result ≡ ran self bytes.now }
    {
        bytes.iter().fold(self, |after, b| after.step(*b))
    }

    /// Whether all characters seen are whole.
    pub fn is_whole(self) -> bool
        ensures { result ≡ whole_text self }
    {
        self == Utf8::Start
    }
}

/// Whether `bytes` are text.
pub fn is_text(bytes: &[u8]) -> bool
    ensures answer { result ≡ textual bytes.now }
    ensures text { Decides result (Text bytes.now) }
{
    Utf8::Start.run(bytes).is_whole()
}
