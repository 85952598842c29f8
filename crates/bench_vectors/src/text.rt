// Parts of a text.

// What stands before the first such separator, and what stands behind it; all of the text and nothing where there is none.
pub(crate) fn cut(text: &[u8], separator: u8) -> (&[u8], Option<&[u8]>) {
    let mut parts = text.splitn(2, |byte| *byte == separator);
    (parts.next().unwrap_or(text), parts.next())
}
