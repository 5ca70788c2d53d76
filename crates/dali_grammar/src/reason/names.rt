//! Names that are nearly other names.

ghost use Rattle.std.specs.Prelude.{◌≡◌, ◌≤◌, length, map, true};
ghost use Rattle.std.specs.Char.{to_ascii_lowercase};

/// How many bytes two words have in common at their beginnings.
fn common(word: &[u8], name: &[u8]) -> usize
    ensures word { result ≤ length word.now }
    ensures name { result ≤ length name.now }
{
    for index in 0..word.len().min(name.len()) {
        if word[index] != name[index] {
            return index;
        }
    }
    word.len().min(name.len())
}

/// Whether two words are one but for their first bytes: one is another, missing, too many, or has changed places with
/// the second.
fn is_one_off(word: &[u8], name: &[u8]) -> bool {
    match (word, name) {
        ([], []) => true,
        ([], [_]) | ([_], []) => true,
        ([a, b, rest @ ..], [c, d, more @ ..]) if a == d && b == c => rest == more,
        ([_, rest @ ..], [_, more @ ..]) => rest == more || rest == name || word == more,
        _ => false,
    }
}

/// Whether a word is a name, but for capitals, or for one letter.
pub(super) fn is_near(word: &[u8], name: &[u8]) -> bool
    ensures { map to_ascii_lowercase word.now ≡ map to_ascii_lowercase name.now → result ≡ true }
{
    if word.eq_ignore_ascii_case(name) {
        return true;
    }
    let at = common(word, name);
    is_one_off(&word[at..], &name[at..])
}
