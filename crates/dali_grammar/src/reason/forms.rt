//! The forms of all lines, as words: which line may stand where.

ghost use Rattle.std.specs.Prelude.{◌≡◌, ◌==◌, not, bytes_eq, nat_eq, true, IfSome};
ghost use Rattle.std.specs.List.{list_any, starts_with};

use super::mistake::Mistake;
use super::names::is_near;
use std::fmt;

/// Where a line stands in a script, by which its form is decided.
#[derive(Clone, Copy)]
pub enum Place {
    /// The first line.
    First,
    /// The second line.
    Second,
    /// A line `used` directly after the second.
    Used,
    /// A further line of a bench.
    Bench,
    /// A further line of a site.
    Site,
}

/// The form of a line: what it begins with, and how the words after that are written.
#[derive(Clone, Copy)]
pub struct LineForm(&'static str, &'static str);

/// What is said beside a mistake.
#[derive(Clone, Copy)]
pub enum Hint {
    Nothing,
    /// How the line is written.
    Form(LineForm),
    /// The name that was probably meant.
    Meant(&'static str),
    /// The names that there are at this place.
    Names(Place),
}

const FIRST: &[LineForm] = &[LineForm("bench", "N"), LineForm("site", "N BLOCK ..")];

const SECOND: &[LineForm] = &[LineForm("draws", "RRRRRR ..")];

const USED: &[LineForm] = &[LineForm("used", "g A RRRRRR")];

const BENCH: &[LineForm] = &[
    LineForm("frame", "HHHH"),
    LineForm("off", "g"),
    LineForm("on", "g"),
    LineForm("expire", "g"),
    LineForm("quiet", ""),
    LineForm("show", ""),
];

const SITE: &[LineForm] = &[
    LineForm("go", "c"),
    LineForm("survey", "c"),
    LineForm("store", "c"),
    LineForm("fail", "c"),
    // Before `pump`, with which it begins.
    LineForm("pump destroyed", "L"),
    LineForm("pump", "[lost|noise|collision|destroyed L]"),
    LineForm("lapse", ""),
    LineForm("arc", "c HHHH"),
    LineForm("foreign", "HHHH"),
    LineForm("down", "c"),
    LineForm("up", "c"),
    LineForm("run", "n"),
    LineForm("off", "g"),
    LineForm("on", "g"),
    LineForm("expire", "g"),
    LineForm("quiet", ""),
    LineForm("show", ""),
];

impl LineForm {
    /// Whether its name is one word.
    fn is_one_word(&self) -> bool
        ensures { result ≡ not (list_any (λ byte. byte == 32) self.now.0.now) }
    {
        !self.0.as_bytes().contains(&b' ')
    }

    /// Whether a line begins as this form does.
    fn begins(&self, line: &[u8]) -> bool
        ensures { result ≡ true → starts_with nat_eq line.now self.now.0.now ≡ true }
    {
        match line.strip_prefix(self.0.as_bytes()) {
            Some([]) | Some([b' ', ..]) => true,
            _ => false,
        }
    }
}

impl Place {
    fn forms(self) -> &'static [LineForm] {
        match self {
            Place::First => FIRST,
            Place::Second => SECOND,
            Place::Used => USED,
            Place::Bench => BENCH,
            Place::Site => SITE,
        }
    }

    /// The form of lines here that begins as this line does.
    pub(super) fn form_of(self, line: &[u8]) -> Hint
        ensures { (form : LineForm) → result ≡ Hint.Form form → starts_with nat_eq line.now form.0.now ≡ true }
    {
        for form in self.forms() {
            if form.begins(line) {
                return Hint::Form(*form);
            }
        }
        Hint::Nothing
    }

    /// What is said of a first word that no line here has, and of lines that begin with it elsewhere.
    pub(super) fn stranger(self, name: &[u8]) -> (Mistake, Hint) {
        if let Some(home) = home_of(name) {
            return (home, Hint::Nothing);
        }
        let other = match self {
            Place::First => Mistake::OtherFirst,
            Place::Second => Mistake::OtherSecond,
            // Never so: a line at this place begins with `used`, which belongs here.
            Place::Used => return (Mistake::OfUsed, Hint::Nothing),
            Place::Bench => Mistake::OtherOnBench,
            Place::Site => Mistake::OtherOnSite,
        };
        match nearest(self.forms(), name) {
            Some(meant) => (other, Hint::Meant(meant)),
            None => (other, Hint::Names(self)),
        }
    }
}

/// Whether one of these forms has this name.
fn has(forms: &[LineForm], name: &[u8]) -> bool
    ensures { result ≡ list_any (λ form. bytes_eq form.0.now name.now) forms.now }
{
    for form in forms {
        if form.0.as_bytes() == name {
            return true;
        }
    }
    false
}

/// Where lines of this name belong, unless benches and sites both have them, or neither.
fn home_of(name: &[u8]) -> Option<Mistake> {
    if has(FIRST, name) {
        return Some(Mistake::OfFirst);
    }
    if has(SECOND, name) {
        return Some(Mistake::OfSecond);
    }
    if has(USED, name) {
        return Some(Mistake::OfUsed);
    }
    match (has(BENCH, name), has(SITE, name)) {
        (true, false) => Some(Mistake::OfBench),
        (false, true) => Some(Mistake::OfSite),
        _ => None,
    }
}

/// The name of one of these forms that is nearly this one.
fn nearest(forms: &[LineForm], name: &[u8]) -> Option<&'static str>
    ensures { IfSome result (λ found. list_any (λ form. bytes_eq form.0.now found.now) forms.now ≡ true) }
{
    for form in forms {
        if is_near(name, form.0.as_bytes()) {
            return Some(form.0);
        }
    }
    None
}

impl fmt::Display for LineForm {
    fn fmt<W: fmt::Write>(&self, f: &mut fmt::Formatter<W>) -> fmt::Result {
        f.write_str(self.0)?;
        if !self.1.is_empty() {
            f.write_str(" ")?;
        }
        f.write_str(self.1)
    }
}

/// Writes the names of these forms, but of two words, behind a colon.
fn write_names<W: fmt::Write>(f: &mut fmt::Formatter<W>, forms: &[LineForm]) -> fmt::Result {
    let count = forms.iter().filter(|form| form.is_one_word()).count();
    let mut written = 0usize;
    for form in forms {
        if form.is_one_word() {
            let mark = if written == 0 {
                ": those are "
            } else if written.saturating_add(1) == count {
                " and "
            } else {
                ", "
            };
            write!(f, "{mark}`{}`", form.0)?;
            written = written.saturating_add(1);
        }
    }
    Ok(())
}

impl fmt::Display for Hint {
    fn fmt<W: fmt::Write>(&self, f: &mut fmt::Formatter<W>) -> fmt::Result {
        match self {
            Hint::Nothing => Ok(()),
            Hint::Form(form) => write!(f, "; the form is `{form}`"),
            Hint::Meant(name) => write!(f, "; did you mean `{name}`?"),
            Hint::Names(Place::First) => {
                f.write_str(": those are `bench N` and `site N BLOCK ..`")
            }
            Hint::Names(Place::Second) => f.write_str(": that is `draws RRRRRR ..`"),
            Hint::Names(place) => write_names(f, place.forms()),
        }
    }
}
