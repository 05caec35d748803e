use std::fs;
use std::io::Read;
use std::rt::Files;

/// The file in which Linux shows the thread that reads it: its number comes first.
const OWN: &str = "/proc/thread-self/stat";

/// Returns the number at the front of a text, or 0 if there is none.
fn leading_number(text: &[u8]) -> u64 {
    let mut number: u64 = 0;
    for byte in text {
        if !byte.is_ascii_digit() {
            return number;
        }
        number = number.wrapping_mul(10).wrapping_add((*byte - b'0') as u64);
    }
    number
}

/// Returns the number of the calling thread, or 0 if the system doesn't show it.
pub(crate) fn thread_number<R: Files>(rt: &R) -> u64 {
    let mut front = [0u8; 32];
    let Ok(mut file) = fs::open(rt, OWN) else {
        return 0;
    };
    match file.read(&mut front) {
        Ok(_) => leading_number(&front),
        Err(_) => 0,
    }
}
