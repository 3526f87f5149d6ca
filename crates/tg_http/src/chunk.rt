//! The lines before chunks.
ghost use Rattle.std.specs.Prelude.{◌≡◌, ◌≤◌, ◌<◌, ◌^◌, ◌-◌, ◌+◌, ◌/◌, ◌∷◌, [], take, drop, map, length, replicate};
ghost use Rattle.std.specs.Prelude.{if◌then◌else◌, slice_set};
ghost use Rattle.std.specs.Int.Digits.{digits_of};
ghost use Rattle.tg_http.specs.Chunks.{hex_digit, hex_text, chunk_line};

/// The line before a chunk of `length` bytes, in the front of an array whose other bytes are zero, and how many bytes
/// it has: lower-case hexadecimal digits without leading zeros, CR and LF. It takes no memory.
///
/// RFC 9112, section 7.1.
pub fn chunk_head(length: u64) -> ([u8; 18], usize)
    ensures size { result.1 ≤ 18 }
    ensures line { take result.1 result.0 ≡ chunk_line length }
    ensures rest { drop result.1 result.0 ≡ replicate (18 - result.1) 0 }
{
    let mut head = [0; 18];
    let digits = write_digits(&mut head, length);
    head[digits] = b'\r';
    head[digits + 1] = b'\n';
    (head, digits + 2)
}

/// Writes the hexadecimal digits of a number to the front of the room, and says how many they are.
fn write_digits(room: &mut [u8], number: u64) -> usize
    requires { length room.old ≡ 18 }
    ensures few { result ≤ 16 }
    ensures digits { take result room.new ≡ hex_text number }
    ensures rest { drop result room.new ≡ drop result room.old }
{
    if number == 0 {
        room[0] = b'0';
        return 1;
    }
    let mut size = 0;
    let mut left: u32 = 16;
    while left > 0 {
        left -= 1;
        let high = number >> (4 * left);
        if high > 0 {
            room[size] = digit((high & 15) as u8);
            size += 1;
        }
    }
    size
}

/// A lower-case hexadecimal digit.
fn digit(value: u8) -> u8
    requires { value < 16 }
    ensures { result ≡ hex_digit value }
{
    if value < 10 {
        b'0' + value
    } else {
        b'a' + (value - 10)
    }
}
