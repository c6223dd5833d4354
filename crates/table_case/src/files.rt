//! Files in memory.

use std::alloc::Global;

/// A copy of files, each under its name.
pub fn copied_files(alloc: Global, files: &[(String, Vec<u8>)]) -> Option<Vec<(String, Vec<u8>)>> {
    let mut copies = Vec::new(alloc);
    for (name, bytes) in files {
        let name = String::from_str(alloc, name.as_str()).ok()?;
        copies.push((name, bytes.to_vec(alloc).ok()?)).ok()?;
    }
    Some(copies)
}
