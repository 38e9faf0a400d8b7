// Numbers of a file: two bytes each, low byte first.
ghost use Rattle.std.specs.Prelude.{◌≡◌, ◌+◌, ◌*◌, ◌≤◌, ◌<◌, length};
ghost use Rattle.model.specs.Files.{number_at, number_bytes, numbers_of};

use model::NUMBER_BYTES;

// Number `i` of a list of bytes.
pub(crate) fn number_at(bytes: &[u8], i: usize) -> u16
    requires { number_bytes * i + 1 < length bytes.now }
    ensures { result ≡ number_at i bytes.now }
{
    let low = NUMBER_BYTES * i;
    u16::from_le_bytes([bytes[low], bytes[low + 1]])
}

// Fills a part of the table with the numbers of a list of bytes.
// By place: of what a `zip` over `iter_mut` writes a proof knows nothing.
pub(crate) fn copy_numbers(bytes: &[u8], out: &mut [u16])
    requires { number_bytes * length out.old ≤ length bytes.now }
    ensures { out.new ≡ numbers_of (length out.old) bytes.now }
{
    for (i, place) in out.iter_mut().enumerate() {
        *place = number_at(bytes, i);
    }
}
