// Text put into a lent store of bytes, as much as there is room for: bytes, and numbers in decimal and in
// hexadecimal.
#![tactic(auto)]

ghost use Rattle.std.specs.Prelude.{◌≡◌, [], ◌∷◌, ◌++◌};
ghost use Rattle.replay_text.specs.Text.{decimal, hexadecimal, Added};

pub mod notices;

// A lent store, and how many of its bytes are text. What is put stands behind them; what has no room is
// left out.
#[derive(Drop)]
pub struct Text<'a> {
    pub bytes: &'a mut [u8],
    pub length: usize,
}

impl<'a> Text<'a> {
    // No text yet.
    pub fn new(bytes: &'a mut [u8]) -> Text<'a>
        ensures same_store { result.bytes.ghost_name ≡ bytes.entry.ghost_name }
        ensures bytes { result.bytes.now ≡ bytes.old }
        ensures length { result.length ≡ 0 }
    {
        Text { bytes, length: 0 }
    }

    fn put_byte(&mut self, byte: u8)
        ensures { Added self.old (byte ∷ []) self.new }
    {
        if self.length < self.bytes.len() {
            self.bytes[self.length] = byte;
            self.length += 1;
        }
    }

    pub fn put(&mut self, bytes: &[u8])
        ensures { Added self.old bytes.now self.new }
    {
        for b in bytes {
            self.put_byte(*b);
        }
    }

    // A number in decimal.
    pub fn put_decimal(&mut self, n: u64)
        ensures { Added self.old (decimal n) self.new }
    {
        let mut digits = [0u8; 20];
        let k = io::decimal(n, &mut digits);
        self.put(&digits[..k]);
    }

    // A number as 16 hexadecimal digits.
    pub fn put_hex(&mut self, n: u64)
        ensures { Added self.old (hexadecimal n) self.new }
    {
        let mut digits = [0u8; 16];
        let k = io::hex(n, 16, &mut digits);
        self.put(&digits[..k]);
    }

    // A number in decimal, between a text and a byte.
    pub fn put_number(&mut self, label: &[u8], n: u64, ending: u8)
        ensures { Added self.old (label.now ++ (decimal n ++ (ending ∷ []))) self.new }
    {
        self.put(label);
        self.put_decimal(n);
        self.put_byte(ending);
    }
}
