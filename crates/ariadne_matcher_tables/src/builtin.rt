//! The table of data/matchers.toml, which tools/try-matchers --embed writes here.

/// The table.
pub fn builtin_text() -> &'static str {
    r####"# What tools print, as patterns: each entry reads one form of one tool's lines.
#
#   name          what the entry is called, once in the file
#   tool          whose lines it reads, one tool's name or a list; several entries may read one tool's
#   rows          what its lines fit, in their order, each a pattern from the line's first character to its last:
#                   'PATTERN'            one line
#                   {maybe = 'PATTERN'}  one line, or none
#                   {many = 'PATTERN'}   as many lines as fit, or none
#                   {loop = 'PATTERN'}   the last row: one line or more, each of which tells a diagnostic
#   columns       what columns count: "characters" (left out), "bytes", "utf16" (units of UTF-16), or "display"
#                 (columns of a terminal, where a tab goes on to the next multiple of 8)
#   tabs          a tab goes on to the next multiple of so many; left out, it counts as one
#   first-column  the number of a line's first column: 1 where it is left out
#   end           "last": an end is the last character's column; "behind" (left out): the one behind it
#   severity      what it is where no word says so: "error" (left out), "warning" or "note"
#   message       the message, where none is told
#   join          what stands between the rows of a message: a line feed where it is left out
#   escapes       "percent": %25, %0A and the like stand for characters of the message and the file
#   example       lines of the tool
#   drawn         what they tell: FILE:LINE:COLUMN: KIND: MESSAGE [CODE], a diagnostic a line
#
# Patterns have the syntax of Rust's regex crate. Groups have the names that VS Code gives them: file, line, column,
# endLine, endColumn, severity, code, message. Two more are for tools that point at a character: `quoted` is what
# the row has of the file's line, and `marks` are the marks below it. What catches no group passes as it is.
#
# The first entry that fits counts, so a tool's own form stands before those of many tools.

# Words for severities, in any case of letters. Of another word the entry's own severity counts.
[severities]
error = ["error", "errors", "fatal", "fatal error", "internal compiler error", "parse error", "syntax error", "e", "f"]
warning = ["warning", "pedwarn", "anachronism", "performance", "portability", "deprecated", "w"]
note = ["note", "help", "info", "information", "style", "remark", "hint", "notice", "message", "i", "c", "r"]

# ---- commands of GitHub's workflows

[[matcher]]
name = "yamllint-github"
tool = "yamllint"
rows = ['^::(?<severity>error|warning) file=(?<file>[^,]+),line=(?<line>[0-9]+),col=(?<column>[0-9]+)::[0-9]+:[0-9]+ (?:\[(?<code>[a-z-]+)\] )?(?<message>.*)$']
example = '::error file=pears.yaml,line=2,col=9::2:9 [colons] too many spaces after colon'
drawn = 'pears.yaml:2:9: error: too many spaces after colon [colons]'

[[matcher]]
name = "github"
tool = "github"
rows = ['^::(?<severity>error|warning|notice) (?:title=[^,]*,)?file=(?<file>[^,]+)(?:,line=(?<line>[0-9]+))(?:,endLine=(?<endLine>[0-9]+))?(?:,col=(?<column>[0-9]+))?(?:,endColumn=(?<endColumn>[0-9]+))?(?:,title=[^:]*)?::(?<message>.*)$']
escapes = "percent"
example = '::warning file=a.js,line=1,col=5,endColumn=8::Missing semicolon'
drawn = 'a.js:1:5: warning: Missing semicolon'

# ---- tools that name a file in quotes: Python, OCaml

[[matcher]]
name = "python"
tool = ["python", "pytest"]
rows = [
    '^Traceback \(most recent call last\):$',
    '^  File "(?<file>[^"]+)", line (?<line>[0-9]+)(?:, in .*)?$',
    {many = '^  (?:File "(?<file>[^"]+)", line (?<line>[0-9]+)(?:, in .*)?|\[Previous line repeated .*\]|  +(?<marks>[~^]+)|  (?<quoted>\S.*))$'},
    '^(?<code>[A-Za-z_][A-Za-z0-9_.]*)(?:: (?<message>.*))?$',
]
example = '''
Traceback (most recent call last):
  File "pears.py", line 10, in <module>
    main()
  File "pears.py", line 2, in weigh
    return pear["weight"]
           ~~~~^^^^^^^^^^
KeyError: 'weight'
'''
drawn = "pears.py:2:8: error: 'weight' [KeyError]"

[[matcher]]
name = "python-syntax"
tool = ["python", "pytest"]
rows = [
    '^  File "(?<file>[^"]+)", line (?<line>[0-9]+)$',
    '^    (?<quoted>\S.*)$',
    '^     *(?<marks>\^+)$',
    '^(?<code>[A-Za-z_][A-Za-z0-9_.]*): (?<message>.*)$',
]
example = '''
  File "pears.py", line 2
    return pear)
               ^
SyntaxError: unmatched ')'
'''
drawn = "pears.py:2:12: error: unmatched ')' [SyntaxError]"

[[matcher]]
name = "ocaml-unmatched"
tool = "ocaml"
rows = [
    '^File "(?<file>[^"]+)", lines? (?<line>[0-9]+)(?:-(?<endLine>[0-9]+))?(?:, characters (?<column>[0-9]+)-(?<endColumn>[0-9]+))?:$',
    {many = '^(?<quoted> *[0-9]+ \| .*| +\^[ ^]*)$'},
    '^(?<severity>Error|Warning)(?: [0-9]+)?(?: \[(?<code>[a-z0-9-]+)\])?: (?<message>.*)$',
    '^(?<message>Here is an example of a case that is not matched:)$',
    '^(?<message>.+)$',
]
columns = "bytes"
first-column = 0
example = '''
File "pears.ml", line 3, characters 2-5:
Warning 8 [partial-match]: this pattern-matching is not exhaustive.
Here is an example of a case that is not matched:
None
'''
drawn = 'pears.ml:3:3: warning: this pattern-matching is not exhaustive.\nHere is an example of a case that is not matched:\nNone [partial-match]'

[[matcher]]
name = "ocaml"
tool = "ocaml"
rows = [
    '^File "(?<file>[^"]+)", lines? (?<line>[0-9]+)(?:-(?<endLine>[0-9]+))?(?:, characters (?<column>[0-9]+)-(?<endColumn>[0-9]+))?:$',
    {many = '^(?<quoted> *[0-9]+ \| .*| +\^[ ^]*)$'},
    '^(?<severity>Error|Warning|Alert)(?: [0-9]+)?(?: \(?\[?(?<code>[a-z0-9-]+)\]?\)?)?: (?<message>.*)$',
    {many = '^ +(?<message>\S.*)$'},
]
columns = "bytes"
first-column = 0
example = '''
File "pears.ml", line 2, characters 6-12:
2 |   let unused = 1 in
          ^^^^^^
Warning 26 [unused-var]: unused variable unused.
'''
drawn = 'pears.ml:2:7: warning: unused variable unused. [unused-var]'

# ---- pytest

[[matcher]]
name = "pytest"
tool = "pytest"
rows = [
    '^E   +(?<message>\S.*)$',
    {many = '^E(?: +(?<message>\S.*))?$'},
    '^$',
    '^(?<file>\S[^:]*\.py):(?<line>[0-9]+): [A-Za-z_][A-Za-z0-9_.]*$',
]
example = '''
E       AssertionError: assert 1 == 2
E        +  where 1 = weigh({'weight': 1})

test_pears.py:9: AssertionError
'''
drawn = '''test_pears.py:9: error: AssertionError: assert 1 == 2\n+  where 1 = weigh({'weight': 1})'''

[[matcher]]
name = "pytest-short"
tool = "pytest"
rows = [
    '^(?<file>\S[^:]*\.py):(?<line>[0-9]+): in \S.*$',
    {many = '^(?:(?<file>\S[^:]*\.py):(?<line>[0-9]+): in \S.*|    (?<quoted>.*))$'},
    '^E   +(?<message>\S.*)$',
    {many = '^E(?: +(?<message>\S.*))?$'},
]
example = '''
test_pears.py:13: in test_apple
    weigh({})
test_pears.py:5: in weigh
    return pear["weight"]
E   KeyError: 'weight'
'''
drawn = "test_pears.py:5: error: KeyError: 'weight'"

[[matcher]]
name = "pytest-line"
tool = "pytest"
rows = ['^(?<file>\S[^:]*\.py):(?<line>[0-9]+): (?<code>[A-Z][A-Za-z0-9_.]*): (?<message>.*)$']
example = "/src/test_pears.py:5: KeyError: 'weight'"
drawn = "/src/test_pears.py:5: error: 'weight' [KeyError]"

# ---- tools for Python

[[matcher]]
name = "mypy-pretty"
tool = "mypy"
rows = [
    '^(?<file>\S.*?\.pyi?):(?<line>[0-9]+)(?::(?<column>[0-9]+))?(?::(?<endLine>[0-9]+):(?<endColumn>[0-9]+))?: (?<severity>error|warning|note): (?<message>.*?)(?:  \[(?<code>[a-z][a-z0-9-]*)\])?$',
    {many = '^(?<message>[^\s:\[][^\s:]*:?(?: .*?)?)??(?: {0,2}\[(?<code>[a-z][a-z0-9-]*)\])?$'},
    '^    (?:\.\.\.)?(?<quoted>.*?\S.*?)(?:\.\.\.)?$',
    '^     *(?<marks>\^~*)$',
]
columns = "bytes"
end = "last"
join = " "
example = '''
pears.py:10: error: Argument 1 to "weigh" has incompatible type "int"; expected
"str"  [arg-type]
    weigh(1)
          ^
'''
drawn = 'pears.py:10:7: error: Argument 1 to "weigh" has incompatible type "int"; expected "str" [arg-type]'

[[matcher]]
name = "mypy-pretty-cut"
tool = "mypy"
rows = [
    '^(?<file>\S.*?\.pyi?):(?<line>[0-9]+)(?::(?<column>[0-9]+))?(?::(?<endLine>[0-9]+):(?<endColumn>[0-9]+))?: (?<severity>error|warning|note): (?<message>.*?)(?:  \[(?<code>[a-z][a-z0-9-]*)\])?$',
    {many = '^(?<message>[^\s:\[][^\s:]*:?(?: .*?)?)??(?: {0,2}\[(?<code>[a-z][a-z0-9-]*)\])?$'},
    '^    (?:\.\.\.)?(?<quoted>.*?\S.*?)(?:\.\.\.)?$',
    '^     *(?<marks>\^)~*\.\.\.$',
]
columns = "bytes"
end = "last"
join = " "
example = '''
pears.py:14: error: Too many arguments for "weigh"  [call-arg]
    wide: int = weigh("aaaaaaaaaaaaaaaaaaaaaa", "bbbbbbbbbbbbbbbbbbbbbbbbb...
                ^~~~~~~~~~~~~~~~~~~~~~~~~~~~~~~~~~~~~~~~~~~~~~~~~~~~~~~~~~...
'''
drawn = 'pears.py:14:13: error: Too many arguments for "weigh" [call-arg]'

[[matcher]]
name = "mypy"
tool = "mypy"
rows = ['^(?<file>\S.*?\.pyi?):(?<line>[0-9]+)(?::(?<column>[0-9]+))?(?::(?<endLine>[0-9]+):(?<endColumn>[0-9]+))?: (?<severity>error|warning|note): (?<message>.*?)(?:  \[(?<code>[a-z][a-z0-9-]*)\])?$']
columns = "bytes"
end = "last"
example = 'pears.py:5:22:5:33: error: Incompatible return value type (got "str", expected "int")  [return-value]'
drawn = 'pears.py:5:22: error: Incompatible return value type (got "str", expected "int") [return-value]'

[[matcher]]
name = "pylint-tokens"
tool = "pylint"
rows = ['^(?<file>\S.*?\.pyi?):(?<line>[0-9]+):(?<column>[0-9]+): (?<code>(?<severity>[CW])(?:0303|0511|1401|1402)): (?<message>.*?)(?: \([a-z0-9-]+\))?$']
first-column = 0
example = 'pears.py:12:1: W0511: TODO: apples (fixme)'
drawn = 'pears.py:12:2: warning: TODO: apples [W0511]'

[[matcher]]
name = "pylint-syntax"
tool = "pylint"
rows = ['^(?<file>\S.*?\.pyi?):(?<line>[0-9]+):(?<column>[0-9]+): (?<code>(?<severity>E)(?:0001|251[0-5])): (?<message>.*?)(?: \([a-z0-9-]+\))?$']
example = "pears.py:2:12: E0001: Parsing failed: 'unmatched ')' (<unknown>, line 2)' (syntax-error)"
drawn = "pears.py:2:12: error: Parsing failed: 'unmatched ')' (<unknown>, line 2)' [E0001]"

[[matcher]]
name = "pylint"
tool = "pylint"
rows = ['^(?<file>\S.*?\.pyi?):(?<line>[0-9]+):(?<column>[0-9]+): (?<code>(?<severity>[CRWEFI])[0-9]{4}): (?<message>.*?)(?: \([a-z0-9-]+\))?$']
columns = "bytes"
first-column = 0
example = "pears.py:9:17: E0602: Undefined variable 'pears' (undefined-variable)"
drawn = "pears.py:9:18: error: Undefined variable 'pears' [E0602]"

[[matcher]]
name = "pylint-parseable"
tool = "pylint"
rows = ['^(?<file>\S.*?\.pyi?)(?:\(|:)(?<line>[0-9]+)\)?: \[(?<code>(?<severity>[CRWEFI])[0-9]{4})(?:\([a-z0-9-]+\))?[^\]]*\] (?<message>.*)$']
example = "pears.py:9: [E0602(undefined-variable), weigh] Undefined variable 'pears'"
drawn = "pears.py:9: error: Undefined variable 'pears' [E0602]"

[[matcher]]
name = "flake8-pylint"
tool = "flake8"
rows = ['^(?<file>\S.*?\.pyi?):(?<line>[0-9]+): \[(?<code>(?<severity>[A-Z])[A-Z]*[0-9]+)\] (?<message>.*)$']
severity = "warning"
example = "pears.py:4: [F821] undefined name 'pears'"
drawn = "pears.py:4: error: undefined name 'pears' [F821]"

[[matcher]]
name = "pyflakes-syntax"
tool = "pyflakes"
rows = [
    '^(?<file>\S.*?\.pyi?):(?<line>[0-9]+):(?<column>[0-9]+): (?<message>[a-zA-Z(\x27"].*)$',
    '^(?<quoted>.*\S.*)$',
    '^ *(?<marks>\^)$',
]
example = '''
pears.py:2:16: unmatched ')'
    return pear)
               ^
'''
drawn = "pears.py:2:16: error: unmatched ')'"

[[matcher]]
name = "flake8-pyflakes"
tool = "flake8"
rows = ['^(?<file>\S.*?\.pyi?):(?<line>[0-9]+):(?<column>[0-9]+): (?<code>(?<severity>F)[0-9]{3}) (?<message>[^\[].*)$']
columns = "bytes"
example = "pears.py:4:22: F821 undefined name 'pears'"
drawn = "pears.py:4:22: error: undefined name 'pears' [F821]"

[[matcher]]
name = "ruff"
tool = "ruff"
rows = ['^(?<file>(?:[A-Za-z]:)?[0-9]*[^\s0-9:`|<>"*](?:[^:`|<>"*]|:[^/`|<>"*])*?):(?<line>[0-9]+):(?<column>[0-9]+): (?<code>(?<severity>[A-Z])[A-Z]*[0-9]+) (?:\[\*\] )?(?<message>.*)$']
severity = "warning"
example = "pears.py:1:8: F401 [*] `os` imported but unused"
drawn = "pears.py:1:8: error: `os` imported but unused [F401]"

[[matcher]]
name = "flake8"
tool = "flake8"
rows = ['^(?<file>(?:[A-Za-z]:)?[0-9]*[^\s0-9:`|<>"*](?:[^:`|<>"*]|:[^/`|<>"*])*?):(?<line>[0-9]+):(?<column>[0-9]+): (?<code>(?<severity>[A-Z])[A-Z]*[0-9]+) (?<message>.*)$']
severity = "warning"
example = "pears.py:4:12: E702 multiple statements on one line (semicolon)"
drawn = "pears.py:4:12: error: multiple statements on one line (semicolon) [E702]"

[[matcher]]
name = "ruff-full"
tool = "ruff"
rows = [
    '^(?<code>(?<severity>[A-Z])[A-Z]*[0-9]+) (?:\[\*\] )?(?<message>.*)$',
    '^ *--> (?<file>\S.*):(?<line>[0-9]+):(?<column>[0-9]+)$',
    {many = '^(?<quoted> *(?:[0-9]+ )?\|(?: +(?<marks>\^+)(?: .*)?| .*|))$'},
]
severity = "warning"
example = '''
F821 Undefined name `pears`
 --> pears.py:5:17
  |
5 |     "é"; return pears
  |                 ^^^^^
  |
'''
drawn = "pears.py:5:17: error: Undefined name `pears` [F821]"

[[matcher]]
name = "pyflakes"
tool = "pyflakes"
rows = ['^(?<file>\S[^:]*\.pyi?):(?<line>[0-9]+):(?<column>[0-9]+): (?<message>[a-zA-Z(\x27"].*)$']
columns = "bytes"
example = "pears.py:6:22: undefined name 'pears'"
drawn = "pears.py:6:22: error: undefined name 'pears'"

[[matcher]]
name = "pyright"
tool = "pyright"
rows = [
    '^  (?<file>(?:[A-Za-z]:)?[0-9]*[^\s0-9:`|<>"*](?:[^:`|<>"*]|:[^/`|<>"*])*?):(?<line>[0-9]+):(?<column>[0-9]+) - (?<severity>error|warning|information): (?<message>.*?)(?: \((?<code>report[A-Za-z]+)\))?$',
    {many = '^    \s*(?<message>\S.*?)(?: \((?<code>report[A-Za-z]+)\))?$'},
]
columns = "utf16"
example = '''
  /src/pears.py:5:19 - error: Type "str" is not assignable to return type "int"
    "str" is not assignable to "int" (reportReturnType)
'''
drawn = '/src/pears.py:5:19: error: Type "str" is not assignable to return type "int"\n"str" is not assignable to "int" [reportReturnType]'

[[matcher]]
name = "vulture"
tool = "vulture"
rows = ['^(?<file>\S.*?\.py):(?<line>[0-9]+): (?<message>.* \([0-9]+% confidence(?:, [0-9]+ lines?)?\))$']
severity = "warning"
example = "pears.py:1: unused import 'os' (90% confidence)"
drawn = "pears.py:1: warning: unused import 'os' (90% confidence)"

# ---- JavaScript and TypeScript

[[matcher]]
name = "tsc"
tool = "tsc"
rows = ['^(?<file>(?:[A-Za-z]:)?[0-9]*[^\s0-9:`|<>"*](?:[^:`|<>"*]|:[^/`|<>"*])*?)\((?<line>[0-9]+),(?<column>[0-9]+)(?:,(?<endLine>[0-9]+),(?<endColumn>[0-9]+))?\): (?<severity>error|warning|message) (?<code>TS[0-9]+): (?<message>.*)$', {many = '^  +(?<message>\S.*)$'}]
columns = "utf16"
example = "pears.ts(2,23): error TS2322: Type 'string' is not assignable to type 'number'."
drawn = "pears.ts:2:23: error: Type 'string' is not assignable to type 'number'. [TS2322]"

[[matcher]]
name = "tsc-pretty"
tool = "tsc"
rows = [
    '^(?<file>(?:[A-Za-z]:)?[0-9]*[^\s0-9:`|<>"*](?:[^:`|<>"*]|:[^/`|<>"*])*?):(?<line>[0-9]+):(?<column>[0-9]+) - (?<severity>error|warning|message) (?<code>TS[0-9]+): (?<message>.*)$',
    {many = '^  +(?<message>\S.*)$'},
    '^$',
    '^[0-9]+ (?<quoted>.*)$',
    '^ +(?<marks>~+)$',
]
columns = "utf16"
example = '''
pears.ts:5:14 - error TS2551: Property 'wieght' does not exist on type 'Pear'.

5  return pear.wieght;
               ~~~~~~
'''
drawn = "pears.ts:5:14: error: Property 'wieght' does not exist on type 'Pear'. [TS2551]"

[[matcher]]
name = "tsc-pretty-related"
tool = "tsc"
rows = [
    '^  (?<file>(?:[A-Za-z]:)?[0-9]*[^\s0-9:`|<>"*](?:[^:`|<>"*]|:[^/`|<>"*])*?):(?<line>[0-9]+):(?<column>[0-9]+)$',
    '^    [0-9]+ (?<quoted>.*)$',
    '^     +(?<marks>~+)$',
    '^    (?<message>\S.*)$',
]
columns = "utf16"
severity = "note"
example = '''
  pears.ts:1:18
    1 interface Pear { weight: number; }
                       ~~~~~~
    'weight' is declared here.
'''
drawn = "pears.ts:1:18: note: 'weight' is declared here."

[[matcher]]
name = "yamllint-standard"
tool = "yamllint"
rows = [
    '^(?<file>\S.*\.[A-Za-z]+)$',
    {loop = '^  (?<line>[0-9]+):(?<column>[0-9]+) +(?<severity>error|warning)  +(?<message>\S.*?)  ?\((?<code>[a-z-]+)\)$'},
]
example = '''
pears.yaml
  1:1       warning  missing document start "---"  (document-start)
  3:14      error    trailing spaces  (trailing-spaces)
'''
drawn = '''
pears.yaml:1:1: warning: missing document start "---" [document-start]
pears.yaml:3:14: error: trailing spaces [trailing-spaces]
'''

[[matcher]]
name = "eslint-stylish"
tool = "eslint"
rows = [
    '^(?<file>\S.*\.[A-Za-z]+)$',
    {loop = '^  +(?<line>[0-9]+):(?<column>[0-9]+)  +(?<severity>error|warning)  +(?<message>\S.*?)(?:  +(?<code>[@a-z][@a-z0-9/-]*))?$'},
]
columns = "utf16"
example = '''
/src/pears.js
  3:20  error    'pears' is not defined            no-undef
  5:8   warning  Missing semicolon                 semi
'''
drawn = '''
/src/pears.js:3:20: error: 'pears' is not defined [no-undef]
/src/pears.js:5:8: warning: Missing semicolon [semi]
'''

[[matcher]]
name = "eslint-unix"
tool = "eslint"
rows = ['^(?<file>(?:[A-Za-z]:)?[0-9]*[^\s0-9:`|<>"*](?:[^:`|<>"*]|:[^/`|<>"*])*?):(?<line>[0-9]+):(?<column>[0-9]+): (?<message>.*) \[(?<severity>Error|Warning)(?:/(?<code>[^\]]+))?\]$']
columns = "utf16"
example = "/src/pears.js:5:8: Missing semicolon. [Warning/semi]"
drawn = "/src/pears.js:5:8: warning: Missing semicolon. [semi]"

[[matcher]]
name = "eslint-compact"
tool = "eslint"
rows = ['^(?<file>(?:[A-Za-z]:)?[0-9]*[^\s0-9:`|<>"*](?:[^:`|<>"*]|:[^/`|<>"*])*?): line (?<line>[0-9]+), col (?<column>[0-9]+), (?<severity>Error|Warning) - (?<message>.*?)(?: \((?<code>[@a-z][@a-z0-9/-]*)\))?$']
columns = "utf16"
example = "/src/pears.js: line 5, col 8, Warning - Missing semicolon. (semi)"
drawn = "/src/pears.js:5:8: warning: Missing semicolon. [semi]"

[[matcher]]
name = "node"
tool = "node"
rows = [
    '^(?:file://)?(?<file>\S.*):(?<line>[0-9]+)$',
    '^(?<quoted>.*\S.*)$',
    '^\s*(?<marks>\^+)$',
    '^$',
    '^(?:Uncaught )?(?<code>[A-Z][A-Za-z0-9_]*)(?: \[[A-Z0-9_]+\])?: (?<message>.*)$',
    {many = '^    at .*$'},
]
columns = "utf16"
example = '''
/src/pears.js:2
    return "e" + pear.weight.grams;
                             ^

TypeError: Cannot read properties of undefined (reading 'grams')
    at weigh (/src/pears.js:2:30)
'''
drawn = "/src/pears.js:2:30: error: Cannot read properties of undefined (reading 'grams') [TypeError]"

# ---- C, C++ and assembly

[[matcher]]
name = "shellcheck"
tool = "shellcheck"
rows = ['^(?<file>(?:[A-Za-z]:)?[0-9]*[^\s0-9:`|<>"*](?:[^:`|<>"*]|:[^/`|<>"*])*?):(?<line>[0-9]+):(?<column>[0-9]+): (?<severity>error|warning|note): (?<message>.*) \[(?<code>SC[0-9]+)\]$']
example = 'pears.sh:6:7: warning: wieght is referenced but not assigned. [SC2154]'
drawn = 'pears.sh:6:7: warning: wieght is referenced but not assigned. [SC2154]'

[[matcher]]
name = "nasm-vc"
tool = "nasm"
rows = ['^(?<file>\S.*?\.(?:asm|nasm|mac|inc|s|S))\((?<line>[0-9]+)\) : (?<severity>fatal|error|warning|note|panic): (?<message>.*?)(?: \[(?<code>-w\+[^\]]+)\])?$']
example = 'pears.asm(3) : warning: byte data exceeds bounds [-w+number-overflow]'
drawn = 'pears.asm:3: warning: byte data exceeds bounds [-w+number-overflow]'

[[matcher]]
name = "clang-msvc"
tool = "clang"
rows = ['^(?<file>(?:[A-Za-z]:)?[0-9]*[^\s0-9:`|<>"*](?:[^:`|<>"*]|:[^/`|<>"*])*?)\((?<line>[0-9]+)(?:,(?<column>[0-9]+))?\) ?: (?<severity>fatal error|error|warning|note|remark): (?<message>.*?)(?: \[(?<code>-W[^\]]+)\])?$']
columns = "bytes"
example = "pears.c(6,20): warning: format specifies type 'char *' but the argument has type 'int' [-Wformat]"
drawn = "pears.c:6:20: warning: format specifies type 'char *' but the argument has type 'int' [-Wformat]"

[[matcher]]
name = "clang-vi"
tool = "clang"
rows = ['^(?<file>(?:[A-Za-z]:)?[0-9]*[^\s0-9:`|<>"*](?:[^:`|<>"*]|:[^/`|<>"*])*?) \+(?<line>[0-9]+)(?::(?<column>[0-9]+))?: (?<severity>fatal error|error|warning|note|remark): (?<message>.*?)(?: \[(?<code>-W[^\]]+)\])?$']
columns = "bytes"
example = "pears.c +7:12: error: use of undeclared identifier 'pear'; did you mean 'pears'?"
drawn = "pears.c:7:12: error: use of undeclared identifier 'pear'; did you mean 'pears'?"

[[matcher]]
name = "cpplint-vs7"
tool = "cpplint"
rows = ['^(?<file>(?:[A-Za-z]:)?[0-9]*[^\s0-9:`|<>"*](?:[^:`|<>"*]|:[^/`|<>"*])*?)\((?<line>[0-9]+)\): (?:error|warning) cpplint: \[(?<code>[^\]]+)\] (?<message>.*) \[[1-5]\]$']
severity = "warning"
example = 'pears.cpp(3): error cpplint: [whitespace/tab] Tab found; better to use spaces [1]'
drawn = 'pears.cpp:3: warning: Tab found; better to use spaces [whitespace/tab]'

[[matcher]]
name = "msvc"
tool = "msvc"
rows = ['^(?: *[0-9]+>)?(?<file>(?:[A-Za-z]:)?[0-9]*[^\s0-9:`|<>"*](?:[^:`|<>"*]|:[^/`|<>"*])*?)\((?<line>[0-9]+)(?:,(?<column>[0-9]+)(?:,(?<endLine>[0-9]+),(?<endColumn>[0-9]+))?)?\) ?: (?:[a-z]+ )??(?<severity>fatal error|error|warning|note|info|message)(?: (?<code>[A-Z]+[0-9]+))? ?: (?<message>.*)$']
example = "pears.cpp(6,12): error C2065: 'pear': undeclared identifier"
drawn = "pears.cpp:6:12: error: 'pear': undeclared identifier [C2065]"

[[matcher]]
name = "fpc"
tool = "fpc"
rows = ['^(?<file>(?:[A-Za-z]:)?[0-9]*[^\s0-9:`|<>"*](?:[^:`|<>"*]|:[^/`|<>"*])*?)\((?<line>[0-9]+)(?:,(?<column>[0-9]+))?\) (?<severity>Fatal|Error|Warning|Note|Hint): (?:\((?<code>[0-9]+)\) )?(?<message>.*)$']
columns = "bytes"
example = 'pears.pas(7,11) Error: Identifier not found "wieght"'
drawn = 'pears.pas:7:11: error: Identifier not found "wieght"'

[[matcher]]
name = "cppcheck-old"
tool = "cppcheck"
rows = ['^(?:\[[^\]]+:[0-9]+\] -> )*\[(?<file>[^\]]+):(?<line>[0-9]+)\]: \((?<severity>error|warning|style|performance|portability|information)(?:, inconclusive)?\) (?<message>.*)$']
example = '[pears.c:7] -> [pears.c:8]: (warning) Possible null pointer dereference: pear'
drawn = 'pears.c:8: warning: Possible null pointer dereference: pear'

[[matcher]]
name = "cpplint-eclipse"
tool = "cpplint"
rows = ['^(?<file>(?:[A-Za-z]:)?[0-9]*[^\s0-9:`|<>"*](?:[^:`|<>"*]|:[^/`|<>"*])*?):(?<line>[0-9]+): warning: (?<message>.*)  \[(?<code>[a-z_+0-9]+/[a-z_+0-9]+)\] \[[1-5]\]$']
severity = "warning"
example = 'pears.cpp:3: warning: Tab found; better to use spaces  [whitespace/tab] [1]'
drawn = 'pears.cpp:3: warning: Tab found; better to use spaces [whitespace/tab]'

[[matcher]]
name = "cpplint"
tool = "cpplint"
rows = ['^(?<file>(?:[A-Za-z]:)?[0-9]*[^\s0-9:`|<>"*](?:[^:`|<>"*]|:[^/`|<>"*])*?):(?<line>[0-9]+):  (?<message>.*)  \[(?<code>[a-z_+0-9]+/[a-z_+0-9]+)\] \[[1-5]\]$']
severity = "warning"
example = 'pears.cpp:3:  Tab found; better to use spaces  [whitespace/tab] [1]'
drawn = 'pears.cpp:3: warning: Tab found; better to use spaces [whitespace/tab]'

[[matcher]]
name = "nasm"
tool = "nasm"
rows = ['^(?<file>\S.*?\.(?:asm|nasm|mac|inc|s|S)):(?<line>[0-9]+): (?<severity>fatal|error|warning|note|panic): (?<message>.*?)(?: \[(?<code>-w\+[^\]]+)\])?$']
example = 'pears.asm:3: warning: byte data exceeds bounds [-w+number-overflow]'
drawn = 'pears.asm:3: warning: byte data exceeds bounds [-w+number-overflow]'

[[matcher]]
name = "as"
tool = "as"
rows = ['^(?<file>(?:[A-Za-z]:)?[0-9]*[^\s0-9:`|<>"*](?:[^:`|<>"*]|:[^/`|<>"*])*?):(?<line>[0-9]+): (?<severity>Fatal error|Error|Warning|Info): (?<message>.*)$']
example = "pears.s:3: Error: no such instruction: `movv %eax,%ebx'"
drawn = "pears.s:3: error: no such instruction: `movv %eax,%ebx'"

# ---- compilers of other languages

[[matcher]]
name = "gfortran"
tool = "gfortran"
rows = [
    '^(?<file>(?:[A-Za-z]:)?[0-9]*[^\s0-9:`|<>"*](?:[^:`|<>"*]|:[^/`|<>"*])*?):(?<line>[0-9]+):(?<column>[0-9]+):$',
    {many = '^(?<quoted> *[0-9]+ \| .*| +\|.*|)$'},
    '^(?<severity>Fatal Error|Error|Warning): (?<message>.*?)(?: \[(?<code>-W[^\]]+)\])?$',
]
columns = "bytes"
example = '''
pears.f90:4:11:

    4 |   weight = "one"
      |           1
Error: Cannot convert CHARACTER(3) to INTEGER(4) at (1)
'''
drawn = 'pears.f90:4:11: error: Cannot convert CHARACTER(3) to INTEGER(4) at (1)'

[[matcher]]
name = "gnat"
tool = "gnat"
rows = ['^(?<file>\S.*?\.(?:adb|ads|ada)):(?<line>[0-9]+):(?<column>[0-9]+): (?:(?<severity>error|warning|info|style|low|medium|high): |\((?:style)\) )?(?<message>.*?)(?: \[(?<code>-gnat[^\]]+)\])?$']
columns = "bytes"
tabs = 8
example = 'pears.adb:3:09: warning: variable "Small" is not referenced [-gnatwu]'
drawn = 'pears.adb:3:9: warning: variable "Small" is not referenced [-gnatwu]'

[[matcher]]
name = "javac"
tool = "javac"
rows = [
    '^(?<file>\S.*?\.java):(?<line>[0-9]+): (?<severity>error|warning): (?:\[(?<code>[a-z-]+)\] )?(?<message>.*)$',
    '^(?<quoted>.*\S.*)$',
    '^\s*(?<marks>\^)$',
]
columns = "utf16"
example = '''
Pears.java:9: error: cannot find symbol
    int light = wieght;
                ^
'''
drawn = 'Pears.java:9:17: error: cannot find symbol'

[[matcher]]
name = "kotlinc"
tool = "kotlinc"
rows = [
    '^(?<file>\S.*?\.kts?):(?<line>[0-9]+):(?<column>[0-9]+): (?<severity>error|warning|info): (?<message>.*)$',
    '^(?<quoted>.*\S.*)$',
    '^\s*(?<marks>\^+)$',
]
columns = "utf16"
example = '''
pears.kt:7:19: error: unresolved reference: wieght
    println(weigh(wieght))
                  ^
'''
drawn = 'pears.kt:7:19: error: unresolved reference: wieght'

[[matcher]]
name = "kotlin-gradle"
tool = "kotlinc"
rows = ['^(?<severity>[ewi]): (?:file://)?(?<file>\S.*?\.kts?):(?: \()?(?<line>[0-9]+)(?::|, )(?<column>[0-9]+)(?:\):)? (?<message>.*)$']
columns = "utf16"
example = "e: file:///src/pears.kt:3:12 Type mismatch: inferred type is String but Int was expected"
drawn = "/src/pears.kt:3:12: error: Type mismatch: inferred type is String but Int was expected"

[[matcher]]
name = "scalac"
tool = "scalac"
rows = [
    '^(?<file>\S.*?\.scala):(?<line>[0-9]+): (?<severity>error|warning): (?<message>.*)$',
    {many = '^ (?<message>\S.*)$'},
    '^(?<quoted>.*\S.*)$',
    '^ *(?<marks>\^)$',
]
tabs = 8
example = '''
Pears.scala:2: error: type mismatch;
 found   : String
 required: Int
  def weigh(pear: String): Int = pear
                                 ^
'''
drawn = 'Pears.scala:2:34: error: type mismatch;\nfound   : String\nrequired: Int'

[[matcher]]
name = "go"
tool = "go"
rows = ['^(?:vet: )?(?<file>[^\s:][^:]*\.go):(?<line>[0-9]+):(?<column>[0-9]+): (?<message>.*)$', {many = '^\t(?<message>\S.*)$'}]
columns = "bytes"
example = './pears.go:11:27: undefined: wieght'
drawn = './pears.go:11:27: error: undefined: wieght'

[[matcher]]
name = "go-test"
tool = "go"
rows = ['^(?:    )+(?<file>[^\s:]+_test\.go):(?<line>[0-9]+): (?<message>.*)$', {many = '^        +(?<message>\S[^:]*)$'}]
example = '    pears_test.go:7: weight 1, not 2'
drawn = 'pears_test.go:7: error: weight 1, not 2'

[[matcher]]
name = "go-mod"
tool = "go"
rows = ['^(?<file>[^\s:][^:]*go\.(?:mod|sum|work)):(?<line>[0-9]+): (?<message>.*)$']
example = '/src/go.mod:4: unknown directive: pear'
drawn = '/src/go.mod:4: error: unknown directive: pear'

[[matcher]]
name = "erlc"
tool = "erlc"
rows = [
    '^(?<file>\S.*?\.[eh]rl):(?<line>[0-9]+)(?::(?<column>[0-9]+))?: (?:(?<severity>Warning): )?(?<message>.*)$',
    {many = '^%(?<quoted> +[0-9]+\| .*| +\|\s+\^)$'},
]
example = "pears.erl:4:2: Warning: variable 'Unused' is unused"
drawn = "pears.erl:4:2: warning: variable 'Unused' is unused"

[[matcher]]
name = "ghc"
tool = "ghc"
rows = [
    '^(?<file>\S.*?\.l?hs):(?<line>[0-9]+):(?<column>[0-9]+)(?:-(?<endColumn>[0-9]+))?: (?<severity>error|warning):(?: \[GHC-[0-9]+\])??(?: \[(?<code>[^\], ]+)[^\]]*\])?$',
    {many = '^    (?<message>.*)$'},
    {many = '^(?<quoted> *(?:[0-9]+ )?\|(?: +(?<marks>\^+)(?:\.\.\.)?| .*|))$'},
]
tabs = 8
end = "last"
example = '''
Apples.hs:6:19: warning: [-Wunused-local-binds]
    Defined but not used: ‘unused’
  |
6 | weigh apple = let unused = 1 in
  |                   ^^^^^^
'''
drawn = 'Apples.hs:6:19: warning: Defined but not used: ‘unused’ [-Wunused-local-binds]'

[[matcher]]
name = "ghc-lines"
tool = "ghc"
rows = [
    '^(?<file>\S.*?\.l?hs):\((?<line>[0-9]+),(?<column>[0-9]+)\)-\((?<endLine>[0-9]+),(?<endColumn>[0-9]+)\): (?<severity>error|warning):(?: \[GHC-[0-9]+\])??(?: \[(?<code>[^\], ]+)[^\]]*\])?$',
    {many = '^    (?<message>.*)$'},
]
tabs = 8
end = "last"
example = '''
Apples.hs:(6,15)-(7,9): warning: [-Wincomplete-patterns]
    Pattern match(es) are non-exhaustive
'''
drawn = 'Apples.hs:6:15: warning: Pattern match(es) are non-exhaustive [-Wincomplete-patterns]'

[[matcher]]
name = "ghc-line"
tool = "ghc"
rows = [
    '^(?<file>\S.*?\.l?hs):(?<line>[0-9]+):(?<column>[0-9]+): (?<severity>error|warning):(?: \[(?<code>GHC-[0-9]+)\])? (?<message>.*)$',
    {many = '^    (?<message>.*)$'},
    {many = '^(?<quoted> *(?:[0-9]+ )?\|(?: +(?<marks>\^+)(?:\.\.\.)?| .*|))$'},
]
tabs = 8
example = 'Pears.hs:8:15: error: parse error on input ‘=’'
drawn = 'Pears.hs:8:15: error: parse error on input ‘=’'

[[matcher]]
name = "iverilog-syntax"
tool = "iverilog"
rows = ['^(?<file>\S.*?\.s?vh?):(?<line>[0-9]+): (?<message>syntax error)$']
example = 'apples.v:2: syntax error'
drawn = 'apples.v:2: error: syntax error'

[[matcher]]
name = "iverilog"
tool = "iverilog"
rows = ['^(?<file>\S.*?\.s?vh?):(?<line>[0-9]+): (?:(?<severity>error|warning|sorry): )(?<message>.*)$']
example = "pears.v:3: error: Unable to bind wire/reg/memory `wieght' in `pears'"
drawn = "pears.v:3: error: Unable to bind wire/reg/memory `wieght' in `pears'"

[[matcher]]
name = "bison"
tool = "bison"
rows = [
    '^(?<file>\S.*?\.y(?:y|pp|xx|\+\+)?):(?<line>[0-9]+)\.(?<column>[0-9]+)(?:-(?<endColumn>[0-9]+))?: (?<severity>fatal error|error|warning|note): (?<message>.*?)(?: \[(?<code>-W[^\]]+)\])?$',
    {many = '^(?<quoted> +(?:[0-9]+ )?\|.*)$'},
]
columns = "bytes"
tabs = 8
end = "last"
example = 'pears.y:2.8-11: warning: symbol PEAR redeclared [-Wother]'
drawn = 'pears.y:2:8: warning: symbol PEAR redeclared [-Wother]'

[[matcher]]
name = "bison-lines"
tool = "bison"
rows = [
    '^(?<file>\S.*?\.y(?:y|pp|xx|\+\+)?):(?<line>[0-9]+)\.(?<column>[0-9]+)-(?<endLine>[0-9]+)\.(?<endColumn>[0-9]+): (?<severity>fatal error|error|warning|note): (?<message>.*?)(?: \[(?<code>-W[^\]]+)\])?$',
    {many = '^(?<quoted> +(?:[0-9]+ )?\|.*)$'},
]
columns = "bytes"
tabs = 8
end = "last"
example = "apples.y:2.8-3.0: error: missing ‘'’ at end of line"
drawn = "apples.y:2:8: error: missing ‘'’ at end of line"

[[matcher]]
name = "valac"
tool = "valac"
rows = [
    '^(?<file>\S.*?\.(?:vala|vapi|gs)):(?<line>[0-9]+)\.(?<column>[0-9]+)-(?<endLine>[0-9]+)\.(?<endColumn>[0-9]+): (?<severity>error|warning|note): (?<message>.*)$',
    {many = '^(?<quoted> +(?:[0-9]+ )?\|.*)$'},
]
columns = "bytes"
end = "last"
example = "pears.vala:3.11-3.21: error: Return: Cannot convert from `string' to `int'"
drawn = "pears.vala:3:11: error: Return: Cannot convert from `string' to `int'"

[[matcher]]
name = "php"
tool = "php"
rows = ['^(?:PHP )?(?<severity>Parse error|Fatal error|Recoverable fatal error|Warning|Notice|Deprecated|Strict Standards): +(?<message>.*) in (?<file>\S.*) on line (?<line>[0-9]+)$']
example = 'Parse error: syntax error, unexpected token "}", expecting ";" in pears.php on line 4'
drawn = 'pears.php:4: error: syntax error, unexpected token "}", expecting ";"'

[[matcher]]
name = "php-thrown"
tool = "php"
rows = [
    '^(?:PHP )?(?<severity>Fatal error): +Uncaught (?<message>.*) in \S.*:[0-9]+$',
    '^Stack trace:$',
    {many = '^#[0-9]+ .*$'},
    '^  thrown in (?<file>\S.*) on line (?<line>[0-9]+)$',
]
example = '''
Fatal error: Uncaught TypeError: weigh(): Return value must be of type int in /src/apples.php:4
Stack trace:
#0 /src/apples.php(7): weigh(Array)
#1 {main}
  thrown in /src/apples.php on line 4
'''
drawn = '/src/apples.php:4: error: TypeError: weigh(): Return value must be of type int'

[[matcher]]
name = "ruby"
tool = "ruby"
rows = [
    '^(?<file>(?:[A-Za-z]:)?[0-9]*[^\s0-9:`|<>"*](?:[^:`|<>"*]|:[^/`|<>"*])*?):(?<line>[0-9]+):in [`\x27][^\x27]*\x27: (?<message>.*?)(?: \((?<code>[A-Z][A-Za-z0-9_:]*)\))?$',
    '^$',
    '^(?<quoted>.*\S.*)$',
    '^\s*(?<marks>\^+)$',
    {many = '^\tfrom .*$'},
]
example = """
apples.rb:2:in `weigh': undefined method `wieght' for 1:Integer (NoMethodError)

  apple.wieght
       ^^^^^^^
\tfrom apples.rb:5:in `<main>'
"""
drawn = "apples.rb:2:8: error: undefined method `wieght' for 1:Integer [NoMethodError]"

[[matcher]]
name = "ruby-raised"
tool = "ruby"
rows = [
    '^(?<file>(?:[A-Za-z]:)?[0-9]*[^\s0-9:`|<>"*](?:[^:`|<>"*]|:[^/`|<>"*])*?):(?<line>[0-9]+):in [`\x27][^\x27]*\x27: (?<message>.*?)(?: \((?<code>[A-Z][A-Za-z0-9_:]*)\))?$',
    {many = '^\tfrom .*$'},
]
example = "apples.rb:2:in `weigh': no apples (RuntimeError)"
drawn = "apples.rb:2: error: no apples [RuntimeError]"

[[matcher]]
name = "ruby-syntax"
tool = "ruby"
rows = ['^(?:ruby: )?(?<file>\S.*?\.(?:rb|rake|gemspec|ru)):(?<line>[0-9]+): (?:(?<severity>warning): )?(?<message>.*)$']
example = "pears.rb:4: syntax error, unexpected `end'"
drawn = "pears.rb:4: error: syntax error, unexpected `end'"

[[matcher]]
name = "lua"
tool = "lua"
rows = ['^(?:\S*/)?lua(?:c|jit)?[0-9.]*: (?<file>(?:[A-Za-z]:)?[0-9]*[^\s0-9:`|<>"*](?:[^:`|<>"*]|:[^/`|<>"*])*?):(?<line>[0-9]+): (?<message>.*)$', {maybe = '^stack traceback:$'}, {many = '^\t(?:\S.*: in .*|\[C\]: .*|\.\.\..*)$'}]
example = "lua5.4: pears.lua:3: unexpected symbol near 'end'"
drawn = "pears.lua:3: error: unexpected symbol near 'end'"

[[matcher]]
name = "perl"
tool = "perl"
rows = ['^(?<message>\S.*?) at (?<file>\S*[./]\S*) line (?<line>[0-9]+)(?:\.|, <[^>]*> (?:line|chunk) [0-9]+\.|, (?:near "|at end of ).*)$']
example = "Argument \"one\" isn't numeric in addition (+) at apples.pl line 5."
drawn = "apples.pl:5: error: Argument \"one\" isn't numeric in addition (+)"

# ---- shells, markup, texts

[[matcher]]
name = "bash-syntax"
tool = "bash"
rows = ['^(?:(?:ba)?sh: )?(?<file>(?:[A-Za-z]:)?[0-9]*[^\s0-9:`|<>"*](?:[^:`|<>"*]|:[^/`|<>"*])*?): line (?<line>[0-9]+): (?<message>syntax error.*)$', '^\S.*: line [0-9]+: `(?<quoted>.*)\x27$']
example = '''
pears.sh: line 4: syntax error near unexpected token `}'
pears.sh: line 4: `}'
'''
drawn = "pears.sh:4: error: syntax error near unexpected token `}'"

[[matcher]]
name = "bash"
tool = "bash"
rows = ['^(?:(?:ba)?sh: )?(?<file>(?:[A-Za-z]:)?[0-9]*[^\s0-9:`|<>"*](?:[^:`|<>"*]|:[^/`|<>"*])*?): line (?<line>[0-9]+): (?:(?<severity>warning): )?(?<message>.*)$']
example = 'pears.sh: line 3: weigh: command not found'
drawn = 'pears.sh:3: error: weigh: command not found'

[[matcher]]
name = "shellcheck-tty"
tool = "shellcheck"
rows = [
    '^In (?<file>\S.*) line (?<line>[0-9]+):$',
    '^(?<quoted>.*)$',
    {loop = '^ *(?<marks>\^(?:-+\^)?)(?:--)? (?<code>SC[0-9]+) \((?<severity>error|warning|info|style)\): (?<message>.*)$'},
]
tabs = 8
example = '''
In pears.sh line 4:
    local pears=`ls`
    ^---------^ SC3043 (warning): In POSIX sh, 'local' is undefined.
                ^--^ SC2046 (warning): Quote this to prevent word splitting.
'''
drawn = '''
pears.sh:4:5: warning: In POSIX sh, 'local' is undefined. [SC3043]
pears.sh:4:17: warning: Quote this to prevent word splitting. [SC2046]
'''

[[matcher]]
name = "yamllint"
tool = "yamllint"
rows = ['^(?<file>(?:[A-Za-z]:)?[0-9]*[^\s0-9:`|<>"*](?:[^:`|<>"*]|:[^/`|<>"*])*?):(?<line>[0-9]+):(?<column>[0-9]+): \[(?<severity>error|warning)\] (?<message>.*?)(?: \((?<code>[a-z-]+)\))?$']
example = 'pears.yaml:2:9: [error] too many spaces after colon (colons)'
drawn = 'pears.yaml:2:9: error: too many spaces after colon [colons]'

[[matcher]]
name = "xmllint"
tool = "xmllint"
rows = [
    '^(?<file>(?:[A-Za-z]:)?[0-9]*[^\s0-9:`|<>"*](?:[^:`|<>"*]|:[^/`|<>"*])*?):(?<line>[0-9]+): (?:element [^\s:]+: )?[A-Za-z][A-Za-z -]* (?<severity>error|warning) : (?<message>.*)$',
    '^(?<quoted>.*\S.*)$',
    '^\s*(?<marks>\^)$',
]
columns = "bytes"
example = '''
pears.xml:2: parser error : AttValue: " or ' expected
  <pear weight=one/>
               ^
'''
drawn = '''pears.xml:2:16: error: AttValue: " or ' expected'''

[[matcher]]
name = "xmllint-line"
tool = "xmllint"
rows = ['^(?<file>(?:[A-Za-z]:)?[0-9]*[^\s0-9:`|<>"*](?:[^:`|<>"*]|:[^/`|<>"*])*?):(?<line>[0-9]+): (?:element [^\s:]+: )?[A-Za-z][A-Za-z -]* (?<severity>error|warning) : (?<message>.*)$']
example = 'pears.xml:3: element heavy: validity error : No declaration for element heavy'
drawn = 'pears.xml:3: error: No declaration for element heavy'

[[matcher]]
name = "chktex"
tool = "chktex"
rows = [
    '^(?<severity>Error|Warning|Message) (?<code>[0-9]+) in (?<file>\S.*) line (?<line>[0-9]+): (?<message>.*)$',
    '^(?<quoted>.*?) *$',
    '^\s*(?<marks>\^+)$',
]
columns = "bytes"
example = '''
Warning 15 in pears.tex line 5: No match found for `('.
A pear (heavy .
       ^
'''
drawn = "pears.tex:5:8: warning: No match found for `('. [15]"

[[matcher]]
name = "chktex-line"
tool = "chktex"
rows = ['^(?<severity>Error|Warning|Message) (?<code>[0-9]+) in (?<file>\S.*) line (?<line>[0-9]+): (?<message>.*)$']
example = "Warning 17 in pears.tex line 6: Number of `(' doesn't match the number of `)'!"
drawn = "pears.tex:6: warning: Number of `(' doesn't match the number of `)'! [17]"

[[matcher]]
name = "chktex-lacheck"
tool = "chktex"
rows = ['^(?<file>\S.*?\.(?:tex|sty|cls|ltx)):(?<line>[0-9]+):(?<column>[0-9]+):(?<code>[0-9]+):(?<message>.*)$']
columns = "bytes"
severity = "warning"
example = "pears.tex:5:8:15:No match found for `('."
drawn = "pears.tex:5:8: warning: No match found for `('. [15]"

[[matcher]]
name = "codespell"
tool = "codespell"
rows = ['^(?<file>(?:[A-Za-z]:)?[0-9]*[^\s0-9:`|<>"*](?:[^:`|<>"*]|:[^/`|<>"*])*?):(?<line>[0-9]+): (?<message>\S+ ==> \S.*)$']
severity = "warning"
example = 'pears.txt:2: teh ==> the'
drawn = 'pears.txt:2: warning: teh ==> the'

# ---- make

[[matcher]]
name = "make-error"
tool = "make"
rows = ['^(?<file>[^\s:]+):(?<line>[0-9]+): \*\*\* (?<message>.*?)(?:  Stop\.)?$']
example = 'apples.mk:2: *** missing separator.  Stop.'
drawn = 'apples.mk:2: error: missing separator.'

[[matcher]]
name = "make"
tool = "make"
rows = ['^(?<file>(?:[^\s:]*/)?(?:[Mm]akefile[^\s:/]*|GNUmakefile|[^\s:/]+\.(?:mk|mak))):(?<line>[0-9]+): (?:(?<severity>warning): )?(?<message>.*)$']
severity = "warning"
example = 'plums.mk:1: soft plums'
drawn = 'plums.mk:1: warning: soft plums'

# ---- the form of many tools

[[matcher]]
name = "cppcheck"
tool = "cppcheck"
rows = ['^(?<file>(?:[A-Za-z]:)?[0-9]*[^\s0-9:`|<>"*](?:[^:`|<>"*]|:[^/`|<>"*])*?):(?<line>[0-9]+):(?<column>[0-9]+): (?<severity>error|warning|style|performance|portability|information|note): (?:inconclusive: )?(?<message>.*) \[(?<code>[a-z][A-Za-z0-9_]*)\]$']
columns = "bytes"
example = 'pears.c:8:30: error: Division by zero. [zerodiv]'
drawn = 'pears.c:8:30: error: Division by zero. [zerodiv]'

[[matcher]]
name = "cppcheck-note"
tool = "cppcheck"
rows = ['^(?<file>(?:[A-Za-z]:)?[0-9]*[^\s0-9:`|<>"*](?:[^:`|<>"*]|:[^/`|<>"*])*?):(?<line>[0-9]+):(?<column>[0-9]+): (?<severity>note): (?<message>.*)$']
columns = "bytes"
example = "pears.c:7:14: note: Assuming that condition 'pear==NULL' is not redundant"
drawn = "pears.c:7:14: note: Assuming that condition 'pear==NULL' is not redundant"

[[matcher]]
name = "clang"
tool = "clang"
rows = ['^(?<file>(?:[A-Za-z]:)?[0-9]*[^\s0-9:`|<>"*](?:[^:`|<>"*]|:[^/`|<>"*])*?):(?<line>[0-9]+)(?::(?<column>[0-9]+))?(?::(?:\{[0-9:-]+\})+)?: (?<severity>fatal error|error|warning|note|remark): (?<message>.*?)(?: \[(?<code>-W[^\]]+)\])?$']
columns = "bytes"
example = "pears.c:7:12: error: use of undeclared identifier 'pear'; did you mean 'pears'?"
drawn = "pears.c:7:12: error: use of undeclared identifier 'pear'; did you mean 'pears'?"

[[matcher]]
name = "gcc"
tool = "gcc"
rows = ['^(?<file>(?:[A-Za-z]:)?[0-9]*[^\s0-9:`|<>"*](?:[^:`|<>"*]|:[^/`|<>"*])*?):(?<line>[0-9]+)(?::(?<column>[0-9]+))?: (?<severity>fatal error|internal compiler error|sorry, unimplemented|error|warning|pedwarn|anachronism|note): (?<message>.*?)(?: \[(?<code>-[WE][^\]]+)\])?$']
columns = "display"
example = 'pears.c:5:21: warning: unused variable ‘unused’ [-Wunused-variable]'
drawn = 'pears.c:5:21: warning: unused variable ‘unused’ [-Wunused-variable]'
"####
}
