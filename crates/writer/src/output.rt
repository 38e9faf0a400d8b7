// A lent output, filled from its front.
ghost use Rattle.std.specs.Prelude.{◌≡◌, ◌+◌, ◌*◌, ◌≤◌, length};
ghost use Rattle.model.specs.Files.{number_bytes, two, numbers};
ghost use Rattle.writer.specs.Writing.{Put};

use model::NUMBER_BYTES;

// The output, and the place where its next byte goes.
#[derive(Drop)]
pub(crate) struct Output<'a> {
    pub bytes: &'a mut [u8],
    pub at: usize,
}

impl Output<'_> {
    // A number as two bytes, low byte first.
    pub(crate) fn put_number(&mut self, number: u16)
        requires { self.old.at + number_bytes ≤ length self.old.bytes.now }
        ensures { Put (two number) self.old self.new }
    {
        let [low, high] = number.to_le_bytes();
        self.bytes[self.at] = low;
        self.bytes[self.at + 1] = high;
        self.at += NUMBER_BYTES;
    }

    // Numbers, one after the other.
    pub(crate) fn put(&mut self, table: &[u16])
        requires { self.old.at + number_bytes * length table.now ≤ length self.old.bytes.now }
        ensures { Put (numbers table.now) self.old self.new }
    {
        for number in table {
            self.put_number(*number);
        }
    }
}
