//! Reads the values of options.
use rs_file_sets::cutting::Recovery;

/// Reads a number of bytes: digits, and optionally `K`, `M` or `G` for 2^10, 2^20 or 2^30 bytes.
///
/// Returns `None` if the text has another form, or if the number is 2^64 or larger.
pub fn bytes_of(text: &str) -> Option<u64> {
    let (digits, unit) = if let Some(front) = text.strip_suffix('K') {
        (front, 1024)
    } else if let Some(front) = text.strip_suffix('M') {
        (front, 1024 * 1024)
    } else if let Some(front) = text.strip_suffix('G') {
        (front, 1024 * 1024 * 1024)
    } else {
        (text, 1)
    };
    match digits.parse::<u64>() {
        Ok(number) => number.checked_mul(unit),
        Err(_) => None,
    }
}

/// Reads the value of `--recovery`: a percentage of the original blocks, as `5%`, or a number of blocks, as `300`.
///
/// Returns `None` if the text has another form, if a percentage is above 10000, or if a number of blocks is 0, or 2^32
/// or larger.
pub fn recovery_of(text: &str) -> Option<Recovery> {
    if let Some(front) = text.strip_suffix('%') {
        return match front.parse::<u32>() {
            Ok(percent) if percent <= 10000 => Some(Recovery::Percent(percent)),
            _ => None,
        };
    }
    match text.parse::<u32>() {
        Ok(count) if count > 0 => Some(Recovery::Count(count)),
        _ => None,
    }
}
