//! Reading the words of the command line.

ghost use Rattle.std.specs.Prelude.{◌≡◌, Option, Some, None};
ghost use Rattle.std.specs.Prelude.{IfOk, MatchOption};
ghost use Rattle.std.specs.Prelude.{map, option_map, string_bytes};
ghost use Rattle.ariadne_commands.specs.HelpPages.{page_asked};
ghost use Rattle.ariadne_commands.specs.Words.{asking_behind, asking_of, colorless, front_of as front};
ghost use Rattle.ariadne_commands.specs.Words.{label_of, labels_of, number_of};
ghost use Rattle.ariadne_commands.specs.ReadWords.{label_asking, options_asking, ReadsLabels};
ghost use Rattle.ariadne_commands.specs.ReadWords.{ReadsWords};

use super::asked::{Request, RequestedLabel, RequestedOptions};
use super::fault::{DRAW_USAGE, Fault};
use super::pages::asked_page;
use ariadne::Place;
use std::alloc::{AllocError, Global};

/// What a word is, where an option may stand.
pub enum Front {
    /// `--ascii`
    Ascii,
    /// `--plain`
    Plain,
    /// `--compact`
    Compact,
    /// `--bytes`
    Bytes,
    /// `--file`, which the path stands behind
    File,
    /// `--`, which the message stands behind
    Dashes,
    /// Any other word that begins with `--`.
    Unknown,
    /// The message.
    Message,
}

/// Reads the words that the program was called with, without its own name.
///
/// Options come first, in any order, and each may be repeated; the last `--file` counts. The first
/// word that doesn't begin with `--` is the message. Where a word `--` stands before it, the
/// message is the word behind that, whatever it begins with. Three words for each label follow.
/// Words of any other form are `Fault::Usage`.
pub fn read_words<'a>(alloc: Global, words: &'a [String]) -> Result<Request<'a>, Fault>
    ensures { ReadsWords (asking_of (map string_bytes words.now)) result }
{
    match read_options(words) {
        Some((options, rest)) => read_behind(alloc, options, rest),
        None => Err(Fault::Usage(DRAW_USAGE)),
    }
}

/// Reads the message and the labels that stand behind these options.
fn read_behind<'a>(
    alloc: Global,
    options: RequestedOptions<'a>,
    words: &'a [String],
) -> Result<Request<'a>, Fault>
    ensures { ReadsWords (asking_behind (options_asking options.entry) (map string_bytes words.now))
        result }
{
    let Some((message, rest)) = words.split_first() else {
        return Err(Fault::Usage(DRAW_USAGE));
    };
    let labels = read_labels(alloc, rest)?;
    Ok(Request {
        options,
        message: message.as_str(),
        labels,
    })
}

/// Words that ask for the same without colours: `--plain` stands before those that are handed in.
///
/// Where these ask for a page they stay as they are, since its word has to be the only one. On `Err`
/// there was no memory, and the words are dropped.
pub fn without_colors(alloc: Global, words: Vec<String>) -> Result<Vec<String>, AllocError>
    ensures report { IfOk result (λ plain. asking_of (map string_bytes plain.items)
        ≡ option_map colorless (asking_of (map string_bytes words.items))) }
    ensures page { IfOk result (λ plain. page_asked (map string_bytes plain.items)
        ≡ page_asked (map string_bytes words.items)) }
{
    if asked_page(words.as_slice()).is_some() {
        return Ok(words);
    }
    let mut plain = words;
    plain.insert(0, String::from_str(alloc, "--plain")?)?;
    Ok(plain)
}

/// What the options ask for, and the words from the message on.
fn read_options<'a>(words: &'a [String]) -> Option<(RequestedOptions<'a>, &'a [String])>
    ensures { MatchOption result (asking_of (map string_bytes words.now) ≡ None)
        (λ found. asking_of (map string_bytes words.now)
        ≡ asking_behind (options_asking found.0) (map string_bytes found.1.now)) }
{
    let mut options = RequestedOptions {
        is_ascii: false,
        is_plain: false,
        is_compact: false,
        is_bytes: false,
        path: None,
    };
    let mut rest = words;
    while let Some((word, others)) = rest.split_first() {
        match front_of(word.as_str()) {
            Front::Ascii => options.is_ascii = true,
            Front::Plain => options.is_plain = true,
            Front::Compact => options.is_compact = true,
            Front::Bytes => options.is_bytes = true,
            Front::File => {
                let (path, behind) = others.split_first()?;
                options.path = Some(path.as_str());
                rest = behind;
                continue;
            }
            Front::Dashes => return Some((options, others)),
            Front::Unknown => return None,
            Front::Message => return Some((options, rest)),
        }
        rest = others;
    }
    None
}

/// What a word is, where an option may stand.
fn front_of(word: &str) -> Front
    ensures { result ≡ front word.now }
{
    match word {
        "--ascii" => Front::Ascii,
        "--plain" => Front::Plain,
        "--compact" => Front::Compact,
        "--bytes" => Front::Bytes,
        "--file" => Front::File,
        "--" => Front::Dashes,
        word if word.starts_with("--") => Front::Unknown,
        _ => Front::Message,
    }
}

/// The labels that words name in threes.
fn read_labels<'a>(alloc: Global, words: &'a [String]) -> Result<Vec<RequestedLabel<'a>>, Fault>
    ensures { ReadsLabels (labels_of (map string_bytes words.now)) result }
{
    let mut labels = Vec::new(alloc);
    for three in words.chunks(3) {
        let [start, end, text] = three else {
            return Err(Fault::Usage(DRAW_USAGE));
        };
        let Some(label) = read_label(start.as_str(), end.as_str(), text.as_str()) else {
            return Err(Fault::Usage(DRAW_USAGE));
        };
        labels.push(label)?;
    }
    Ok(labels)
}

/// The label that three words name, if two of them are numbers and the first isn't the greater.
fn read_label<'a>(start: &str, end: &str, text: &'a str) -> Option<RequestedLabel<'a>>
    ensures { option_map label_asking result ≡ label_of start.now end.now text.now }
{
    let place = Place::new(number(start)?, number(end)?)?;
    Some(RequestedLabel { place, text })
}

/// The number that a word of decimal digits writes, if it fits `usize`.
fn number(word: &str) -> Option<usize>
    ensures { result ≡ number_of word.now }
{
    // (`parse` takes a plus before the digits)
    if word.starts_with('+') {
        return None;
    }
    word.parse().ok()
}
