ghost use Rattle.std.specs.Prelude.{◌≡◌};
ghost use Rattle.ttlv.specs.Numbers.{padding as pad_of};

/// How many bytes of padding follow a value of `len` bytes.
pub fn padding_of(len: usize) -> usize
    ensures { result ≡ pad_of len }
{
    let over = len % 8;
    if over == 0 { 0 } else { 8 - over }
}
