//! What the words of the command line ask for.

use ariadne::Place;

/// What the options ask for.
#[derive(Clone, Copy, Drop)]
pub struct RequestedOptions<'a> {
    /// `--ascii`: the strokes are ASCII, and not box drawing characters.
    pub is_ascii: bool,
    /// `--plain`: there are no colours.
    pub is_plain: bool,
    /// `--compact`: the picture has fewer rows and columns.
    pub is_compact: bool,
    /// `--bytes`: offsets count bytes, and not characters.
    pub is_bytes: bool,
    /// The path behind the last `--file`; where there is none, standard input is drawn over.
    pub path: Option<&'a str>,
}

/// A label that the words ask for.
#[derive(Drop)]
pub struct RequestedLabel<'a> {
    /// Where it stands in the source, whose offsets count from 0; its end is exclusive.
    pub place: Place,
    /// Its message.
    pub text: &'a str,
}

/// What the words ask for.
#[derive(Drop)]
pub struct Request<'a> {
    /// What the options ask for.
    pub options: RequestedOptions<'a>,
    /// The report's message.
    pub message: &'a str,
    /// The report's labels, in the order of the words.
    pub labels: Vec<RequestedLabel<'a>>,
}
