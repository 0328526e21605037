//! What the words order: a workload, and how often.

/// How the labels of a report lie that is drawn over one source.
#[derive(Clone, Copy)]
pub enum Shape {
    /// Two labels in one line.
    Two,
    /// The same in colours.
    TwoColored,
    /// Labels nested over many lines, with labels within the lines.
    Nested,
    /// The same in colours.
    NestedColored,
    /// Labels side by side in one line.
    Wide,
    /// The same with tabs, wide characters and characters without columns.
    Tabbed,
    /// Three labels far apart in a large text.
    Large,
    /// The same with offsets in bytes.
    LargeBytes,
    /// A label in every second line.
    Lines,
    /// Labels nested over many lines.
    Deep,
    /// Labels over many lines that cross each other.
    Crossing,
    /// Labels over one word.
    Same,
    /// Labels over two lines without message, and as many with one.
    Silent,
}

/// What a long line has, and where its labels lie.
#[derive(Clone, Copy)]
pub enum LongLine {
    /// The report's own span, far from its start and by bytes, beside a group for each other label.
    Header,
    /// Labels without message by bytes, and one with a message at its start.
    Bytes,
    /// Blanks behind its only word, which each second group shows.
    Trailing,
    /// Characters of two columns and three bytes, and one label at its end.
    Chinese,
    /// Letters of which each second one has two bytes, and one label at its end.
    Latin,
    /// Words, and one label in its middle, round which it is cut.
    Minified,
}

/// How many labels lie over few or many lines.
#[derive(Clone, Copy)]
pub enum ManyLabels {
    /// Nested ones without message, over lines of which each second one has a label.
    Under,
    /// Without message side by side, in each of forty lines.
    SilentLines,
    /// Without message side by side, in one line.
    SilentWide,
    /// In every fourth line, of which each is shown with those next to it.
    Context,
    /// Over one character.
    OneCharacter,
    /// Each in a group of its own, since each lies above the one before it.
    Falling,
    /// Over one line, each crossing all others.
    CrossingInLine,
    /// With a long message each.
    LongMessages,
    /// Empty ones, at each place of a line.
    Empty,
    /// Past the text, so that they are left out, and one that is drawn.
    LeftOut,
}

/// Which names the sources of a report have.
#[derive(Clone, Copy)]
pub enum Named {
    /// Each label has a source of its own.
    Each,
    /// All labels have one source, whose name is long.
    Long,
    /// The labels have two sources in turn.
    Alternate,
}

/// What is measured.
#[derive(Clone, Copy)]
pub enum Kind {
    /// Indexes the lines of a large text of one-byte characters.
    Index,
    /// Indexes the lines of a large text of characters of one to three bytes.
    IndexBytes,
    /// Draws two labels in one line safely.
    TwoSafe,
    /// Draws a report over one source.
    Drawn(Shape),
    /// Draws a report over a source that has a long line.
    LongLine(LongLine),
    /// Draws a report that has many labels over one source.
    ManyLabels(ManyLabels),
    /// Draws a report over sources that have names.
    Named(Named),
}

/// The workloads whose names end in no number, each with its number.
const NAMED: &[(&str, Kind, u16)] = &[
    ("index", Kind::Index, 0),
    ("index-bytes", Kind::IndexBytes, 0),
    ("two", Kind::Drawn(Shape::Two), 2),
    ("two-colour", Kind::Drawn(Shape::TwoColored), 2),
    ("two-safe", Kind::TwoSafe, 2),
    ("nested", Kind::Drawn(Shape::Nested), 1),
    ("nested-colour", Kind::Drawn(Shape::NestedColored), 1),
    ("wide", Kind::Drawn(Shape::Wide), 200),
    ("large", Kind::Drawn(Shape::Large), 3),
    ("large-bytes", Kind::Drawn(Shape::LargeBytes), 3),
    ("minified", Kind::LongLine(LongLine::Minified), 30_000),
];

/// What the names of the others begin with, before their number.
const NUMBERED: &[(&str, Kind)] = &[
    ("nested-x", Kind::Drawn(Shape::Nested)),
    ("wide-", Kind::Drawn(Shape::Wide)),
    ("tabbed-", Kind::Drawn(Shape::Tabbed)),
    ("lines-", Kind::Drawn(Shape::Lines)),
    ("deep-", Kind::Drawn(Shape::Deep)),
    ("crossing-", Kind::Drawn(Shape::Crossing)),
    ("same-", Kind::Drawn(Shape::Same)),
    ("silent-", Kind::Drawn(Shape::Silent)),
    ("byteheader-", Kind::LongLine(LongLine::Header)),
    ("bytesilent-", Kind::LongLine(LongLine::Bytes)),
    ("trailing-", Kind::LongLine(LongLine::Trailing)),
    ("cjkline-", Kind::LongLine(LongLine::Chinese)),
    ("latinline-", Kind::LongLine(LongLine::Latin)),
    ("under-", Kind::ManyLabels(ManyLabels::Under)),
    ("silentlines-", Kind::ManyLabels(ManyLabels::SilentLines)),
    ("silentwide-", Kind::ManyLabels(ManyLabels::SilentWide)),
    ("context-", Kind::ManyLabels(ManyLabels::Context)),
    ("onechar-", Kind::ManyLabels(ManyLabels::OneCharacter)),
    ("falling-", Kind::ManyLabels(ManyLabels::Falling)),
    ("linecross-", Kind::ManyLabels(ManyLabels::CrossingInLine)),
    ("longmsg-", Kind::ManyLabels(ManyLabels::LongMessages)),
    ("zeroline-", Kind::ManyLabels(ManyLabels::Empty)),
    ("leftout-", Kind::ManyLabels(ManyLabels::LeftOut)),
    ("sources-", Kind::Named(Named::Each)),
    ("longid-", Kind::Named(Named::Long)),
    ("altsrc-", Kind::Named(Named::Alternate)),
];

/// A workload: what is measured, and a number. That is the number of its labels, of its sources or
/// of the copies of its lines, of the characters of its line, or of its words.
#[derive(Clone, Copy)]
pub struct Workload {
    pub kind: Kind,
    pub number: u16,
}

impl Workload {
    /// The workload of a name, as `two-colour` or `wide-25`.
    fn from_name(name: &str) -> Option<Workload> {
        for (known, kind, number) in NAMED {
            if *known == name {
                return Some(Workload {
                    kind: *kind,
                    number: *number,
                });
            }
        }
        Workload::from_numbered_name(name)
    }

    /// The workload of a name that ends in a number.
    fn from_numbered_name(name: &str) -> Option<Workload> {
        let (kind, number) = kind_and_number(name)?;
        Some(Workload {
            kind,
            number: number.parse().ok()?,
        })
    }
}

/// What a name says that ends in a number: what is measured, and the digits.
fn kind_and_number(name: &str) -> Option<(Kind, &str)> {
    for (start, kind) in NUMBERED {
        if let Some(number) = name.strip_prefix(*start) {
            return Some((*kind, number));
        }
    }
    None
}

/// A workload, run at least once.
#[derive(Clone, Copy)]
pub struct Order<'w> {
    /// The name of the workload, as it was ordered.
    pub name: &'w str,
    pub workload: Workload,
    pub rounds: u32,
}

impl<'w> Order<'w> {
    /// What two words order, if they do: `NAME N`.
    pub fn from_words(words: &'w [String]) -> Option<Order<'w>> {
        let [name, rounds] = words else {
            return None;
        };
        let rounds = rounds.parse::<u32>().ok().filter(|rounds| *rounds > 0)?;
        Some(Order {
            rounds,
            ..Order::once(name.as_str())?
        })
    }

    /// A single run of a workload, if there is one of this name.
    pub fn once(name: &'w str) -> Option<Order<'w>> {
        Some(Order {
            name,
            workload: Workload::from_name(name)?,
            rounds: 1,
        })
    }
}
