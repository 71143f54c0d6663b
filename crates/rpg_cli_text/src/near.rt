//! Texts that one slip of the pen turns into each other.

/// The least length of a text that may be a misspelling: shorter ones are similar to too many.
const LEAST: usize = 3;

fn rest_of(text: &[u8], from: usize) -> &[u8] {
    text.get(from..).unwrap_or(&[])
}

/// Returns the length of the common prefix of two texts.
fn common(one: &[u8], other: &[u8]) -> usize {
    for (place, (a, b)) in one.iter().zip(other).enumerate() {
        if a != b {
            return place;
        }
    }
    one.len().min(other.len())
}

/// Whether two texts differ in one character, by one more, or by two adjacent ones that are swapped. Texts of fewer than three characters
/// don't count as similar.
pub fn is_near(one: &[u8], other: &[u8]) -> bool {
    if one.len() < LEAST || other.len() < LEAST {
        return false;
    }
    let same = common(one, other);
    let next = same.saturating_add(1);
    let following = next.saturating_add(1);
    rest_of(one, next) == rest_of(other, next)
        || rest_of(one, next) == rest_of(other, same)
        || rest_of(one, same) == rest_of(other, next)
        || (rest_of(one, following) == rest_of(other, following)
            && one.get(same) == other.get(next)
            && one.get(next) == other.get(same))
}
