//! Reads a script with its replies, and counts lines.

/// Holds a script, and the replies that are right.
#[derive(Clone, Copy)]
pub(crate) struct Stored<'a> {
    pub(crate) script: &'a [u8],
    pub(crate) replies: &'a [u8],
}

impl<'a> Stored<'a> {
    /// Reads the script and the replies of a text. A record separator parts them, which no JSON
    /// text has.
    pub(crate) fn of(text: &'a str) -> Option<Stored<'a>> {
        let (script, replies) = text.split_once("\u{1e}\n")?;
        Some(Stored {
            script: script.as_bytes(),
            replies: replies.as_bytes(),
        })
    }

    /// Returns the replies to the first lines of the script, a line each.
    pub(crate) fn replies_to(&self, lines: usize) -> &'a [u8] {
        first_lines(self.replies, lines)
    }
}

/// Counts the lines of a text that end in a line feed.
pub(crate) fn lines_in(text: &[u8]) -> usize {
    text.iter().filter(|byte| **byte == b'\n').count()
}

/// Returns the first lines of a text, with their line feeds, or all of it if it has no more.
fn first_lines(text: &[u8], count: usize) -> &[u8] {
    let mut left = count;
    for (at, byte) in text.iter().enumerate() {
        if left == 0 {
            return &text[..at];
        }
        if *byte == b'\n' {
            left -= 1;
        }
    }
    text
}
