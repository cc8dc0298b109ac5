//! Whole numbers in decimal digits.
ghost use Rattle.std.specs.Prelude.{◌≡◌, ◌≤◌, drop};
ghost use Rattle.std.specs.Fmt.{decimal};

/// The most digits that a number of 128 bits has.
const MOST: usize = 39;

/// Room for the digits of one number, so that writing it takes no memory.
#[derive(Clone, Copy)]
pub struct Digits {
    bytes: [u8; MOST],
}

impl Digits {
    /// Room without digits.
    pub fn new() -> Digits {
        Digits { bytes: [0; MOST] }
    }

    /// The number's digits. They stand here until others are asked for.
    pub fn of(&mut self, number: u128) -> &[u8]
        ensures text { result.now ≡ decimal number }
    {
        let start = write_digits(number, &mut self.bytes);
        &self.bytes[start..]
    }
}

// Writes the digits so that the last one stands at the end, and answers where the first one stands.
fn write_digits(number: u128, bytes: &mut [u8; MOST]) -> usize
    ensures start { result ≤ 39 }
    ensures digits { drop result bytes.new ≡ decimal number }
{
    let mut at = MOST;
    let mut left = number;
    'digits: loop {
        at -= 1;
        bytes[at] = b'0' + (left % 10) as u8;
        left /= 10;
        if left == 0 {
            return at;
        }
    }
}
