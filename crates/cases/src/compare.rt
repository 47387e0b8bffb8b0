// Two texts compared line by line.
use std::alloc::{AllocError, Global};

fn unlike(heap: Global, wanted: &str, found: &str) -> Result<Option<String>, AllocError> {
    Ok(Some(format!(in heap; "'{found}', not '{wanted}'")?))
}

// Says the first line where the texts differ, as each has it; past its end a text has `end`.
pub fn difference(heap: Global, wanted: &str, found: &str) -> Result<Option<String>, AllocError> {
    let mut lines = found.lines();
    for wanted in wanted.lines() {
        let line = lines.next().unwrap_or("end");
        if line != wanted {
            return unlike(heap, wanted, line);
        }
    }
    match lines.next() {
        None => Ok(None),
        Some(line) => unlike(heap, "end", line),
    }
}
