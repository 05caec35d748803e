//! The fields of a line of a debug file: `key=value` or `key="value"`, with commas between them.

/// Returns the key and the value of the first field, and what is behind its comma.
fn first_field(text: &str) -> Option<(&str, &str, &str)> {
    let (key, behind) = text.split_once("=")?;
    match behind.strip_prefix("\"") {
        Some(quoted) => {
            let (value, rest) = quoted.split_once("\"")?;
            match rest.strip_prefix(",") {
                Some(rest) => Some((key, value, rest)),
                None => Some((key, value, rest)),
            }
        }
        None => match behind.split_once(",") {
            Some((value, rest)) => Some((key, value, rest)),
            None => Some((key, behind, "")),
        },
    }
}

/// Returns the value of the field with this key.
pub fn field<'a>(text: &'a str, wanted: &str) -> Option<&'a str> {
    let mut rest = text;
    for _ in 0..text.len() {
        let (key, value, behind) = first_field(rest)?;
        if key == wanted {
            return Some(value);
        }
        rest = behind;
    }
    None
}
