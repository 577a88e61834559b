// Whether the quotes of an input pair up.

ghost use Rattle.std.specs.Prelude.{◌≡◌, ◌+◌, ◌%◌, ◌==◌, count_by};

/// How many quotes an input has, modulo 256, as far as it was read.
#[derive(Clone, Copy)]
pub struct Quotes {
    count: u8,
    has_ended: bool,
}

impl Quotes {
    /// Those of an input of which nothing was read yet.
    pub fn new() -> Quotes
        ensures { result.count ≡ 0 }
    {
        Quotes {
            count: 0,
            has_ended: false,
        }
    }

    /// These bytes were read; where there are none, the input has ended.
    pub fn pass(&mut self, bytes: &[u8])
        ensures { self.new.count ≡ (self.old.count + count_by (λ byte. byte == 34) bytes.now % 256) % 256 }
    {
        self.count = self.count.wrapping_add(quotes_in(bytes));
        self.has_ended |= bytes.is_empty();
    }

    /// Whether one of them has no other. Before the end the other may be to come, so it is false.
    pub fn has_single(self) -> bool {
        self.has_ended && self.count % 2 == 1
    }
}

// How many quotes there are, modulo 256: so many bytes are looked at together.
fn quotes_in(bytes: &[u8]) -> u8
    ensures { result ≡ count_by (λ byte. byte == 34) bytes.now % 256 }
{
    let mut count = 0u8;
    for byte in bytes {
        count = count.wrapping_add(u8::from(*byte == b'"'));
    }
    count
}
