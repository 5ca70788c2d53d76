//! The words of the command line.

/// What is to be written.
#[derive(Clone, Copy)]
pub enum Form {
    /// What is told of the capture, in lines.
    Lines,
    /// The same as one line of JSON.
    Json,
    /// What was heard, as a log.
    Items,
    /// A script of the bench.
    Bench,
}

/// What the command line asks for.
#[derive(Clone, Copy)]
pub struct Asked<'a> {
    /// The name of the wire of a dump.
    pub wire: Option<&'a [u8]>,
    /// Whether the bus is low when the wire is 1.
    pub is_inverted: bool,
    pub form: Form,
}

/// What the words ask for, of which the first is the program's name. Of several forms it is the last one.
pub fn asked_of(words: &[String]) -> Option<Asked<'_>> {
    let mut asked = Asked {
        wire: None,
        is_inverted: false,
        form: Form::Lines,
    };
    let mut is_name = false;
    for word in words.iter().skip(1) {
        match word.as_str() {
            name if is_name => asked.wire = Some(name.as_bytes()),
            "--wire" => {}
            "--inverted" => asked.is_inverted = true,
            "--json" => asked.form = Form::Json,
            "--items" => asked.form = Form::Items,
            "--bench" => asked.form = Form::Bench,
            _ => return None,
        }
        is_name = !is_name && word.as_str() == "--wire";
    }
    if is_name { None } else { Some(asked) }
}
