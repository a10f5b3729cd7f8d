//! Counts behind an item, as in `{1,3}`.
use crate::parsing::PatternError;

/// How often an item stands.
#[derive(Clone, Copy, Debug)]
pub struct Count {
    pub least: usize,
    pub most: Option<usize>,
    /// The place behind it.
    pub end: usize,
}

// The decimal digits from a place on: the number, of 1,000 at most, and the place behind them.
fn digits(source: &[u8], at: usize) -> (Option<usize>, usize) {
    let mut number = None;
    for index in at..source.len() {
        let byte = source[index];
        if !byte.is_ascii_digit() {
            return (number, index);
        }
        let digit = (byte - b'0') as usize;
        let so_far: usize = number.unwrap_or(0);
        number = Some(so_far.min(1000) * 10 + digit);
    }
    (number, source.len())
}

/// The count that begins at a `{`; none where the bracket stands for itself.
pub fn count_at(source: &[u8], at: usize) -> Result<Option<Count>, PatternError> {
    let (least, behind) = digits(source, at.saturating_add(1));
    let (most, end) = match source.get(behind) {
        Some(b',') => digits(source, behind.saturating_add(1)),
        _ => (least, behind),
    };
    if source.get(end) != Some(&b'}') || (least.is_none() && end <= at.saturating_add(2)) {
        return Ok(None);
    }
    let least = least.unwrap_or(0);
    if least > 1000 || most.unwrap_or(0) > 1000 {
        return Err(PatternError::Unknown);
    }
    let end = end.saturating_add(1);
    Ok(Some(Count { least, most, end }))
}
