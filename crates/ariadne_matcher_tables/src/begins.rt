//! What each line has with which an entry of the program's table begins, so that other lines need no look at it.

/// The pattern: a line that has nothing of it begins no entry of the program's table.
///
/// The name of a file may not end in a quote or a bracket here, nor in digits behind a blank, a slash, another colon or
/// a number's point: so a time, a date with a time and an address with a port are no file with a line. A line that is
/// the name of a file alone ends in letters behind a dot.
pub fn builtin_begins() -> &'static str {
    r#"(?x)
    ^(?:::|Traceback\x20|(?:\x20\x20)?File\x20"|E\x20\x20\x20|[A-Z]+[0-9]+\x20) # GitHub, Python, OCaml, pytest, ruff
  | ^(?:[^\s:]*|(?:/|[A-Za-z]:[/\\]).*)\.[A-Za-z]+$                             # FILE
  | [^\s0-9"'(){}\[\]<>,;=:]:[0-9]+(?:[:.,)\]]|$)                               # FILE:LINE
  | (?:[^\s0-9"'(){}\[\]<>,;=:/.T]|[^\s0-9]\.|(?:^|[^0-9])T)[0-9]+:[0-9]+(?:[:.,)\]]|$) # FILE1:LINE
  | \S\([0-9]+(?:,[0-9]+)*\)?(?:\x20?:|-\(|\x20[A-Z][a-z]+:)                    # FILE(LINE)
  | :\x20\([0-9]+(?::|,\x20)[0-9]                                               # FILE: (LINE, COLUMN
  | :\x20line\x20[0-9]+[:,]                                                     # FILE: line LINE
  | \x20(?:on|at\x20\S*[./]\S*)\x20line\x20[0-9]+(?:[.,]|$)                     # FILE on line LINE, at FILE line LINE
  | ^(?:In|Error|Warning|Message)\x20.*\x20line\x20[0-9]+:                      # In FILE line LINE
  | \x20\+[0-9]+:                                                               # FILE +LINE
  | error:\x20+Uncaught\x20                                                     # PHP
    "#
}
