//! The settings of a picture.

ghost use Rattle.std.specs.Prelude.{◌≡◌, ◌≤◌};
ghost use Rattle.ariadne_picture.specs.Report.{switched, switches_of};

use ariadne_picture::switches::Switches;
pub use ariadne_picture::switches::{CharSet, IndexType, LabelAttach};
use std::marker::Model;

/// The settings of a report's picture.
///
/// ```rust
/// let config = Config::new().with_char_set(CharSet::Ascii).with_color(false);
/// ```
#[derive(Clone, Copy, Debug, PartialEq, Eq)]
pub struct Config {
    cross_gap: bool,
    label_attach: LabelAttach,
    compact: bool,
    underlines: bool,
    lone_underlines: bool,
    multiline_arrows: bool,
    color: bool,
    tab_width: usize,
    context_lines: usize,
    width: usize,
    char_set: CharSet,
    index_type: IndexType,
}

impl Model for Config {
    ghost use Rattle.std.specs.Prelude.{◌≡◌, ◌≤◌};
    ghost use Rattle.ariadne_picture.specs.Report.{ConfigFields};

    ghost Value = { ConfigFields };

    ghost view = { λ a. record {
      cross_gap = a.cross_gap;
      label_attach = a.label_attach;
      compact = a.compact;
      underlines = a.underlines;
      lone_underlines = a.lone_underlines;
      multiline_arrows = a.multiline_arrows;
      color = a.color;
      tab_width = a.tab_width;
      context_lines = a.context_lines;
      width = a.width;
      char_set = a.char_set;
      index_type = a.index_type;
    } };

    ghost invariant = { λ a. 1 ≤ a.tab_width };

    ghost inverse = { λ c. record {
      cross_gap = c.cross_gap;
      label_attach = c.label_attach;
      compact = c.compact;
      underlines = c.underlines;
      lone_underlines = c.lone_underlines;
      multiline_arrows = c.multiline_arrows;
      color = c.color;
      tab_width = c.tab_width;
      context_lines = c.context_lines;
      width = c.width;
      char_set = c.char_set;
      index_type = c.index_type;
    } };
}

impl Config {
    ghost use Rattle.ariadne_picture.specs.Report.{default_config};

    /// The default settings. Crossing arrows have gaps, and arrows start in the middle of labels.
    /// The picture is not compact. Labels have underlines, but no lone underlines, and labels over
    /// several lines have arrow heads. There are colours, a tab stop every 4 columns, box drawing
    /// characters, and offsets in characters. Lines have any width, and only lines with labels are
    /// shown.
    pub const fn new() -> Config
        ensures { result ≡ default_config }
    {
        Config {
            char_set: CharSet::Unicode,
            index_type: IndexType::Char,
            label_attach: LabelAttach::Middle,
            color: true,
            compact: false,
            cross_gap: true,
            underlines: true,
            lone_underlines: false,
            multiline_arrows: true,
            tab_width: 4,
            context_lines: 0,
            width: 0,
        }
    }

    /// Whether a gap is left where a horizontal line crosses a vertical one. Otherwise a crossing
    /// is drawn. The default is a gap.
    ///
    /// ```text
    /// with_cross_gap(true)      with_cross_gap(false)
    ///  1 | ab                    1 | ab
    ///    | ||                      | ||
    ///    | `--- p                  | `+-- p
    ///    |  |                      |  |
    ///    |  `-- q                  |  `-- q
    /// ```
    pub const fn with_cross_gap(mut self, cross_gap: bool) -> Config
        ensures { result ≡ record self { cross_gap = cross_gap } }
    {
        self.cross_gap = cross_gap;
        self
    }

    /// The start of the arrow of a label within one line: at the first character, the middle one or
    /// the last one. The default is the middle.
    ///
    /// ```text
    /// LabelAttach::Start      LabelAttach::Middle      LabelAttach::End
    ///  1 | abc                 1 | abc                  1 | abc
    ///    | |^^                   | ^|^                    | ^^|
    ///    | `---- x               |  `--- x                |   `-- x
    /// ```
    pub const fn with_label_attach(mut self, label_attach: LabelAttach) -> Config
        ensures { result ≡ record self { label_attach = label_attach } }
    {
        self.label_attach = label_attach;
        self
    }

    /// Whether the picture has fewer rows and columns: no underlines, no rows between a line and
    /// its messages, and no rows or columns only for space. The default is `false`.
    ///
    /// ```text
    /// with_compact(false)      with_compact(true)
    ///  1 | ab                   1 |ab
    ///    | ^|                     | `- x
    ///    |  `-- x
    /// ```
    pub const fn with_compact(mut self, compact: bool) -> Config
        ensures { result ≡ record self { compact = compact } }
    {
        self.compact = compact;
        self
    }

    /// Whether labels within one line have underlines, if some label of the line has a message. The
    /// default is `true`. Compact pictures have no underlines.
    ///
    /// ```text
    /// with_underlines(true)      with_underlines(false)
    ///  1 | apple                  1 | apple
    ///    | ^^|^^                    |   |
    ///    |   `---- fruit            |   `---- fruit
    /// ```
    pub const fn with_underlines(mut self, underlines: bool) -> Config
        ensures { result ≡ record self { underlines = underlines } }
    {
        self.underlines = underlines;
        self
    }

    /// Whether labels within one line also have underlines if no label of the line has a message:
    /// in an extra row below the line. The default is `false`. There is no such row in compact
    /// pictures, or without underlines.
    ///
    /// ```text
    /// with_lone_underlines(true)      with_lone_underlines(false)
    ///  1 | int *p = x;                 1 | int *p = x;
    ///    |          ^
    /// ```
    ///
    /// Labels only for colour have such a row too.
    pub const fn with_lone_underlines(mut self, lone_underlines: bool) -> Config
        ensures { result ≡ record self { lone_underlines = lone_underlines } }
    {
        self.lone_underlines = lone_underlines;
        self
    }

    /// Whether arrow heads below a line show the ends of labels over several lines. The default is
    /// `true`.
    ///
    /// ```text
    /// with_multiline_arrows(true)      with_multiline_arrows(false)
    ///  1 | ,---> aa                     1 | ,---> aa
    ///    | |      ^                       | |      |
    ///    | | ,----'                       | | ,----'
    ///  2 | | |-> bb                     2 | | |-> bb
    ///    | | |                            | | |
    ///    | | `-------- mid                | | `-------- mid
    ///  3 | |---> cc                     3 | |---> cc
    ///    | |                              | |
    ///    | `--------- all                 | `--------- all
    /// ```
    pub const fn with_multiline_arrows(mut self, multiline_arrows: bool) -> Config
        ensures { result ≡ record self { multiline_arrows = multiline_arrows } }
    {
        self.multiline_arrows = multiline_arrows;
        self
    }

    /// Whether the picture has colours. The default is `true`. Otherwise all colours of the report
    /// are ignored.
    pub const fn with_color(mut self, color: bool) -> Config
        ensures { result ≡ record self { color = color } }
    {
        self.color = color;
        self
    }

    /// The number of columns from one tab stop to the next: at least 1, and 4 by default. A tab
    /// reaches to the next stop, also after wide and combining characters.
    ///
    /// ```text
    /// with_tab_width(4)      with_tab_width(8)
    ///  1 |     x              1 |         x
    ///    |     |                |         |
    ///    |     `-- t            |         `-- t
    /// ```
    pub const fn with_tab_width(mut self, tab_width: usize) -> Config
        requires { 1 ≤ tab_width }
        ensures { result ≡ record self { tab_width = tab_width } }
    {
        self.tab_width = tab_width;
        self
    }

    /// The number of lines shown before each line with labels, and after. The default is 0. These
    /// lines have no rows below. All other lines without labels stay hidden.
    ///
    /// ```text
    /// with_context_lines(0)      with_context_lines(1)
    ///  3 | c                      2 | b
    ///    | |                      3 | c
    ///    | `-- x                    | |
    ///                               | `-- x
    ///                             4 | d
    /// ```
    ///
    /// At the start and the end of a source there are fewer lines.
    pub const fn with_context_lines(mut self, context_lines: usize) -> Config
        ensures { result ≡ record self { context_lines = context_lines } }
    {
        self.context_lines = context_lines;
        self
    }

    /// The largest number of columns for the text of a line. The default, 0, is no limit. A longer
    /// line is cut to the needs of its labels and the text around. A mark replaces the missing
    /// text: `…`, or `...` in ASCII. The margin, the gutter and the messages take more columns.
    ///
    /// ```text
    /// with_width(0)                      with_width(16)
    ///  1 | let x = sum(one, two, three);  1 | ...e, two, t...
    ///    |                  ^|^             |       ^|^
    ///    |                   `--- no        |        `--- no
    /// ```
    ///
    /// Labels far apart get separate parts. If the labels need more columns, the line takes more. A
    /// line without labels is cut to its beginning.
    pub const fn with_width(mut self, width: usize) -> Config
        ensures { result ≡ record self { width = width } }
    {
        self.width = width;
        self
    }

    /// The characters of the lines in a picture. The default is box drawing characters of Unicode.
    ///
    /// ```text
    /// CharSet::Unicode                          CharSet::Ascii
    ///  1 │ ╭─▶ apple                             1 | ,-> apple
    ///    ┆ ┆                                       : :
    ///  3 │ ├─▶ orange                            3 | |-> orange
    ///    │ │   ───┬──                              | |   ^^^|^^
    ///    │ │      ╰──── This is an orange          | |      `---- This is an orange
    ///    │ │                                       | |
    ///    │ ╰─────────── illegal comparison         | `----------- illegal comparison
    /// ```
    pub const fn with_char_set(mut self, char_set: CharSet) -> Config
        ensures { result ≡ record self { char_set = char_set } }
    {
        self.char_set = char_set;
        self
    }

    /// The unit of offsets: characters of a source, or bytes in UTF-8, both from 0. The default is
    /// characters. In `äpplë == örängë;` the last word is 9..15 in characters and 11..20 in bytes,
    /// and the picture is the same.
    pub const fn with_index_type(mut self, index_type: IndexType) -> Config
        ensures { result ≡ record self { index_type = index_type } }
    {
        self.index_type = index_type;
        self
    }

    /// The same settings with the switch of this name on or off, or `None` if no switch has the name. The
    /// names are those of the calls without `with_`: `"compact"` and `true` set what `with_compact(true)`
    /// sets. So a file may have the settings.
    pub fn with_switch(self, name: &str, is_on: bool) -> Option<Config>
        ensures { result ≡ switched self name.now is_on }
    {
        Some(match name {
            "cross_gap" => self.with_cross_gap(is_on),
            "compact" => self.with_compact(is_on),
            "underlines" => self.with_underlines(is_on),
            "lone_underlines" => self.with_lone_underlines(is_on),
            "multiline_arrows" => self.with_multiline_arrows(is_on),
            "color" => self.with_color(is_on),
            _ => return None,
        })
    }

    /// The settings of the layout.
    pub fn switches(&self) -> Switches
        ensures switches { result ≡ switches_of self.now }
        ensures tabs { 1 ≤ self.now.tab_width }
    {
        Switches {
            cross_gap: self.cross_gap,
            compact: self.compact,
            underlines: self.underlines,
            lone_underlines: self.lone_underlines,
            tab_width: self.tab_width,
            context_lines: self.context_lines,
            width: self.width,
            char_set: self.char_set,
        }
    }

    /// Whether labels over several lines have arrow heads.
    pub fn has_multiline_arrows(&self) -> bool
        ensures { result ≡ self.now.multiline_arrows }
    {
        self.multiline_arrows
    }

    /// The start of the arrows of labels within one line.
    pub fn label_attach(&self) -> LabelAttach
        ensures { result ≡ self.now.label_attach }
    {
        self.label_attach
    }

    /// The unit of offsets.
    pub fn index_type(&self) -> IndexType
        ensures { result ≡ self.now.index_type }
    {
        self.index_type
    }

    /// Whether the picture has colours.
    pub fn is_colored(&self) -> bool
        ensures { result ≡ self.now.color }
    {
        self.color
    }
}

impl Default for Config {
    ghost use Rattle.ariadne_picture.specs.Report.{default_config};

    ghost is_default = { λ c. c ≡ default_config };

    fn default() -> Config {
        Config::new()
    }
}
