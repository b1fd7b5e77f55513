//! Shows charts and their slopes.

use envelope::{Point, Slope, is_chart, slopes};
use std::alloc::{AllocError, Global};
use std::cmp::Ordering;

/// Reads the numbers on both sides of a mark.
pub(crate) fn pair(word: &str, mark: char) -> (u64, u64) {
    match word.split_once(mark) {
        Some((first, second)) => {
            (
                first.parse::<u64>().unwrap_or(0),
                second.parse::<u64>().unwrap_or(0),
            )
        }
        None => (0, 0),
    }
}

/// Reads points from words `TIME:SIZE`.
pub(crate) fn points_in(alloc: Global, words: &[&str]) -> Result<Vec<Point>, AllocError> {
    let mut points = Vec::new(alloc);
    for word in words {
        let (t, s) = pair(word, ':');
        points.push(Point { t, s })?;
    }
    Ok(points)
}

/// Shows the slopes of the steps of a chart.
pub(crate) fn sloped(alloc: Global, rest: &str) -> Result<String, AllocError> {
    let words: Vec<&str> = rest.split_whitespace().collect(alloc)?;
    let points = points_in(alloc, &words)?;
    if !is_chart(&points) {
        return String::from_str(alloc, "no chart");
    }
    let mut text = String::new(alloc);
    let mut between = "";
    for slope in slopes(alloc, &points)?.iter() {
        write!(text, "{between}{slope}")?;
        between = " ";
    }
    Ok(text)
}

/// Reads the slope of a word `NUMERATOR/DENOMINATOR`.
fn slope(word: &str) -> Slope {
    let (numerator, denominator) = pair(word, '/');
    if denominator == 0 {
        return Slope::new(numerator, 1);
    }
    Slope::new(numerator, denominator)
}

/// Shows how two slopes compare, and the greater of them.
pub(crate) fn compared(alloc: Global, rest: &str) -> Result<String, AllocError> {
    let (first, second) = rest.split_once(' ').unwrap_or((rest, ""));
    let (first, second) = (slope(first), slope(second));
    let how = match first.cmp(&second) {
        Ordering::Less => "below",
        Ordering::Equal => "equal to",
        Ordering::Greater => "above",
    };
    let greater = first.max(second);
    format!(in alloc; "{first} is {how} {second}; the greater is {greater}")
}
