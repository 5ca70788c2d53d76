//! An input's lines and their numbers, and the parts of a line: words between spaces, numbers between other marks.

ghost use Rattle.std.specs.Prelude.{◌≡◌, ◌≢◌, ℕ, ◌+◌, ◌<◌, ◌≤◌, List, [], ◌∷◌, length, slice_index, true};
ghost use Rattle.std.specs.Prelude.{IfSome, IfNone, MatchOption, option_map};
ghost use Rattle.dali_grammar.specs.Lines.{lines_of, is_skipped, numbered_after, parts_of, parts_after};

/// The longest input that is read, in bytes.
pub const INPUT_LIMIT: usize = 1_048_576;

/// Where a byte first stands; the length if it doesn't.
fn find(bytes: &[u8], byte: u8) -> usize
    ensures within { result ≤ length bytes.now }
    ensures before { (k : ℕ) → k < result → slice_index bytes.now k ≢ byte }
    ensures found { result < length bytes.now → slice_index bytes.now result ≡ byte }
{
    for (i, b) in bytes.iter().enumerate() {
        if *b == byte {
            return i;
        }
    }
    bytes.len()
}

/// The first line without its line feed, and what follows it.
fn first_line(input: &[u8]) -> (&[u8], &[u8])
    requires { 0 < length input.now }
    ensures lines { lines_of input.now ≡ result.0.now ∷ lines_of result.1.now }
    ensures shorter { length result.1.now < length input.now }
{
    let end = find(input, b'\n');
    if end == input.len() {
        return (input, &[]);
    }
    (&input[..end], &input[end + 1..])
}

/// What stands before the first mark, and what follows the mark, if there is one.
pub fn cut(text: &[u8], mark: u8) -> (&[u8], Option<&[u8]>)
    ensures parts { parts_of mark text.now ≡ result.0.now ∷ parts_after mark (option_map (λ rest. rest.now) result.1) }
    ensures shorter { IfSome result.1 (λ rest. length rest.now < length text.now) }
{
    let end = find(text, mark);
    if end == text.len() {
        return (text, None);
    }
    (&text[..end], Some(&text[end + 1..]))
}

/// Whether a line asks for nothing: an empty line or a comment.
pub fn is_skipped(line: &[u8]) -> bool
    ensures { result ≡ is_skipped line.now }
{
    match line {
        [] => true,
        [first, ..] => *first == b'#',
    }
}

/// The lines of an input, taken one after the other.
#[derive(Drop)]
pub struct Script<'a> {
    /// What follows the lines that were taken or skipped.
    pub rest: &'a [u8],
    /// How many lines these are.
    pub read: u32,
}

impl<'a> Script<'a> {
    /// The script of these bytes, of which no line was taken yet.
    pub fn new(input: &'a [u8]) -> Script<'a>
        ensures rest { result.rest.now ≡ input.now }
        ensures read { result.read ≡ 0 }
    {
        Script {
            rest: input,
            read: 0,
        }
    }

    /// How many lines were taken or skipped: the number of the line that was taken last.
    pub fn number(&self) -> u32
        ensures { result ≡ self.now.read }
    {
        self.read
    }

    /// The next line that is not skipped. It is not taken.
    pub fn ahead(&self) -> Option<&'a [u8]>
        requires { self.now.read + length self.now.rest.now ≤ 1048576 }
        ensures line { MatchOption result (numbered_after self.now.read self.now.rest.now ≡ [])
            (λ line. (number : ℕ) × (lines : List (ℕ × List ℕ))
            × (numbered_after self.now.read self.now.rest.now ≡ (number, line.now) ∷ lines)) }
    {
        let mut copy = Script {
            rest: self.rest,
            read: self.read,
        };
        copy.next()
    }

    /// The next line that is not skipped.
    pub fn next(&mut self) -> Option<&'a [u8]>
        requires { self.old.read + length self.old.rest.now ≤ 1048576 }
        ensures line { MatchOption result (numbered_after self.old.read self.old.rest.now
            ≡ []) (λ line. numbered_after self.old.read self.old.rest.now ≡ (self.new.read, line.now)
            ∷ numbered_after self.new.read self.new.rest.now) }
        ensures counted { self.new.read + length (lines_of self.new.rest.now)
            ≡ self.old.read + length (lines_of self.old.rest.now) }
        ensures end { IfNone result (self.new.rest.now ≡ []) }
        ensures range { self.new.read + length self.new.rest.now ≤ 1048576 }
    {
        while !self.rest.is_empty() {
            let (line, rest) = first_line(self.rest);
            self.rest = rest;
            self.read += 1;
            if !is_skipped(line) {
                return Some(line);
            }
        }
        None
    }
}
