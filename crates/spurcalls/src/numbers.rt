// A call's numbers, big-endian, and an answer's.
ghost use Rattle.std.specs.Prelude.{◌≡◌, ◌+◌, ◌≤◌, ◌<◌};

use basics::Refusal;

// A flag, also a line, is active if its byte isn't 0.
pub(crate) fn flag(byte: u8) -> bool {
    byte != 0
}

// As many bytes of a call from a place on as the number read of them has.
fn bytes_at<const N: usize>(call: &[u8; 64], at: usize) -> [u8; N]
    requires { at + N ≤ 64 }
{
    let mut bytes = [0; N];
    bytes.copy_from_slice(&call[at..at + N]);
    bytes
}

// Stays: a line for each width, since `from_be_bytes` is each number type's own.
pub(crate) fn half_at(call: &[u8; 64], at: usize) -> u16
    requires { at ≤ 62 }
{
    u16::from_be_bytes(bytes_at(call, at))
}

pub(crate) fn word_at(call: &[u8; 64], at: usize) -> u32
    requires { at ≤ 60 }
{
    u32::from_be_bytes(bytes_at(call, at))
}

pub(crate) fn long_at(call: &[u8; 64], at: usize) -> u64
    requires { at ≤ 56 }
{
    u64::from_be_bytes(bytes_at(call, at))
}

// A byte as a length or an index.
pub(crate) fn size(byte: u8) -> usize
    ensures { result ≡ byte }
{
    byte as usize
}

pub(crate) fn put_flag(out: &mut [u8; 64], at: usize, active: bool)
    requires { at < 64 }
{
    out[at] = basics::one_if(active);
}

// A number of any width, by its bytes.
pub(crate) fn put<const N: usize>(out: &mut [u8; 64], at: usize, bytes: [u8; N])
    requires { at + N ≤ 64 }
{
    out[at..at + N].copy_from_slice(&bytes);
}

// What the library answered, where it accepted the call; a refusal's number goes into byte 0.
pub(crate) fn accepted<T>(out: &mut [u8; 64], answer: Result<T, Refusal>) -> Option<T> {
    match answer {
        Ok(value) => Some(value),
        Err(refusal) => {
            out[0] = refusal.number();
            None
        }
    }
}

// A slot or a status where there is one; 255 is none.
pub(crate) fn or_none(number: Option<u8>) -> u8 {
    number.unwrap_or(255)
}
