//! Tests of the three programs, as the calls that their `main` makes, where an input or a writer fails or
//! memory is refused, and of what is read of lines, snippets and documents of JSON. `tools/runs` tells what else they do.
#![tactic(auto)]

#[cfg(test)]
mod block_proposals;
#[cfg(test)]
mod comparing;
#[cfg(test)]
mod document_lines;
#[cfg(test)]
mod documents;
#[cfg(test)]
mod documents_of_many_lines;
#[cfg(test)]
mod documents_of_sarif;
#[cfg(test)]
mod draw;
#[cfg(test)]
mod draw_refused;
#[cfg(test)]
mod learned;
#[cfg(test)]
mod lint;
#[cfg(test)]
mod lint_refused;
#[cfg(test)]
mod one_file;
#[cfg(test)]
mod outcome;
#[cfg(test)]
mod parsed_lines;
#[cfg(test)]
mod parsed_others;
#[cfg(test)]
mod parsed_proposals;
#[cfg(test)]
mod show;
#[cfg(test)]
mod show_refused;
#[cfg(test)]
mod show_rows;
#[cfg(test)]
mod showing;
#[cfg(test)]
mod snippets;
#[cfg(test)]
mod snippets_of_rustc;
#[cfg(test)]
mod suggested;
