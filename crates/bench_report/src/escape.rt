//! Text in XML and HTML.

use std::alloc::AllocError;

/// Adds a text so that XML and HTML read it as text, in an attribute too. A control character becomes a question
/// mark: XML has no way to write one.
pub fn push_escaped(text: &mut String, plain: &str) -> Result<(), AllocError> {
    for character in plain.chars() {
        match character {
            '&' => text.push_str("&amp;")?,
            '<' => text.push_str("&lt;")?,
            '>' => text.push_str("&gt;")?,
            '"' => text.push_str("&quot;")?,
            '\'' => text.push_str("&#39;")?,
            '\u{FFFE}' | '\u{FFFF}' => text.push('?')?,
            _ if character.is_control() => text.push('?')?,
            _ => text.push(character)?,
        }
    }
    Ok(())
}
