//! The lines of a table.

use std::alloc::Global;

/// What a table is answered by.
pub trait Table {
    /// Takes in a line by its mark, which is the first byte, and the text after it, and adds what it asks for.
    fn take(&mut self, alloc: Global, mark: u8, text: &[u8], out: &mut Vec<u8>) -> Option<()>;

    /// Adds what the end of the table asks for.
    fn end(&mut self, _: Global, _: &mut Vec<u8>) -> Option<()> {
        Some(())
    }
}

/// What the lines of a table and its end ask for, one after another. A line without a byte is left out.
pub fn answers<T: Table>(alloc: Global, table: &mut T, lines: &[u8]) -> Option<Vec<u8>> {
    let mut out = Vec::new(alloc);
    for line in lines.split(|byte| *byte == b'\n') {
        if let Some((mark, text)) = line.split_first() {
            table.take(alloc, *mark, text, &mut out)?;
        }
    }
    table.end(alloc, &mut out)?;
    Some(out)
}
