//! Tables that are texts: a row a line.

/// What stands before the first arrow of a line and what stands behind it.
pub(crate) fn cells(line: &str) -> (&str, &str) {
    match line.split_once(" => ") {
        Some(cells) => cells,
        None => (line, ""),
    }
}
