//! Parts of lists of which nothing is known: past their end there is nothing.

/// The item of a list with this index, or another one.
pub(crate) fn at<T: Copy>(list: &[T], index: usize, otherwise: T) -> T {
    list.get(index).copied().unwrap_or(otherwise)
}

/// The row with this number of a list whose rows have so many items; an empty one if there is none.
pub(crate) fn row<T>(list: &[T], number: usize, width: usize) -> &[T] {
    let from = number.saturating_mul(width);
    list.get(from..from.saturating_add(width)).unwrap_or(&[])
}
