//! Tests of the library by its public names alone: of the calls that make a report, of the laws, of caches and their
//! sources, and of safe texts. The examples of README.md and docs/SAFE.md draw their pictures. The greatest numbers are
//! tried, and what stands where memory is refused, and where a writer or a sink fails. Of what stands below a report
//! there are characters, lines and spans of a source, painted and visible texts, and edits of a source.
//! Pictures are stored cases of `ariadne_replay`, or reckoned by `tools/try-reckoned`.
#![tactic(auto)]

#[cfg(test)]
mod asserts;
#[cfg(test)]
mod builders;
#[cfg(test)]
mod caches;
#[cfg(test)]
mod characters;
#[cfg(test)]
mod comparing;
#[cfg(test)]
mod configs;
#[cfg(test)]
mod edits;
#[cfg(test)]
mod example;
#[cfg(test)]
mod extremes;
#[cfg(test)]
mod files;
#[cfg(test)]
mod folders;
#[cfg(test)]
mod functions;
#[cfg(test)]
mod held_sources;
#[cfg(test)]
mod labels;
#[cfg(test)]
mod laws;
#[cfg(test)]
mod margins;
#[cfg(test)]
mod own_caches;
#[cfg(test)]
mod painting;
#[cfg(test)]
mod readers;
#[cfg(test)]
mod readme;
#[cfg(test)]
mod refused;
#[cfg(test)]
mod refused_calls;
#[cfg(test)]
mod refused_lines;
#[cfg(test)]
mod refused_pictures;
#[cfg(test)]
mod refused_sources;
#[cfg(test)]
mod safe_example;
#[cfg(test)]
mod safe_texts;
#[cfg(test)]
mod texts;
#[cfg(test)]
mod visible_texts;
#[cfg(test)]
mod writers;
