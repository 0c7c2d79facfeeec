// Bytes put into a lent buffer one behind the other. What no longer fits is counted and not put, so that the same
// functions also count.
#![tactic(auto)]

ghost use Rattle.std.specs.Prelude.{◌≡◌, [], ◌∷◌, ◌+◌, ◌<◌, length};
ghost use Rattle.text.specs.PutAt.{count_limit};
ghost use Rattle.text.specs.Puts.{Puts};

// A lent buffer and the place where the next byte is put: behind its end where bytes were only counted.
#[derive(Debug, Drop)]
pub struct Writer<'a> {
    out: &'a mut [u8],
    at: usize,
}

impl<'a> Writer<'a> {
    // From the front of a buffer.
    pub fn new(out: &'a mut [u8]) -> Writer<'a>
        ensures same_buffer { result.out.ghost_name ≡ out.entry.ghost_name }
        ensures unchanged { result.out.now ≡ out.old }
        ensures front { result.at ≡ 0 }
    {
        Writer { out, at: 0 }
    }

    // How many bytes were put, those that did not fit counted too.
    pub fn count(&self) -> usize
        ensures { result ≡ self.now.at }
    {
        self.at
    }

    // Puts a byte, where it fits.
    pub fn put(&mut self, byte: u8)
        requires { self.old.at + 1 < count_limit }
        ensures { Puts (byte ∷ []) self.old self.new }
    {
        if self.at < self.out.len() {
            self.out[self.at] = byte;
        }
        self.at += 1;
    }

    // Puts the bytes of a string, as far as they fit.
    pub fn put_all(&mut self, bytes: &[u8])
        requires { self.old.at + length bytes.now < count_limit }
        ensures { Puts bytes.now self.old self.new }
    {
        for byte in bytes {
            self.put(*byte);
        }
    }
}
