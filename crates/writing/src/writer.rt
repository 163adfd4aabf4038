ghost use Rattle.std.specs.Prelude.{◌≡◌, ◌+◌, ◌%◌, ◌≤◌, length, decimal};
ghost use Rattle.writing.specs.Walk.{number_bytes};

use itoa::Buffer;

/// Writes bytes into a buffer, piece after piece.
// The count stands beside the buffer, for the buffer is lent: the libraries of this project use no heap.
#[derive(Drop)]
pub(crate) struct Writer<'a> {
    pub out: &'a mut [u8],
    pub count: usize,
    ghost within: { count ≤ length out.now },
}

impl Writer<'_> {
    ghost use Rattle.writing.specs.Wrote.{Put, Room};

    /// Writes the bytes.
    #[tactic(auto, using(std::proofs::lemmas::Slice::overwrites))]
    pub(crate) fn put(&mut self, bytes: &[u8])
        requires { Room bytes.now self.old }
        ensures { Put bytes.now self.old self.new }
    {
        let end = self.count + bytes.len();
        self.out[self.count..end].copy_from_slice(bytes);
        self.count = end;
    }

    /// Writes a space and a number in decimal digits.
    pub(crate) fn put_number(&mut self, number: u32)
        requires { Room (number_bytes number) self.old }
        ensures { Put (number_bytes number) self.old self.new }
    {
        self.put(b" ");
        self.put_digits(number);
    }

    // Most numbers of a book have one to three digits: these are put with no buffer of their own, in less time.
    fn put_digits(&mut self, number: u32)
        requires { Room (decimal number) self.old }
        ensures { Put (decimal number) self.old self.new }
    {
        match number {
            0..=9 => self.put(&[digit(number)]),
            10..=99 => self.put(&[digit(number / 10), digit(number)]),
            100..=999 => self.put(&[digit(number / 100), digit(number / 10), digit(number)]),
            _ => self.put(Buffer::new().format(number).as_bytes()),
        }
    }
}

// The last decimal digit of a number.
fn digit(number: u32) -> u8
    ensures { result ≡ 48 + number % 10 }
{
    b'0' + (number % 10) as u8
}
