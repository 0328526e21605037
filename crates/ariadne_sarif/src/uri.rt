//! The paths of files that URIs name.

ghost use Rattle.std.specs.Prelude.{◌≡◌, if◌then◌else◌, string_bytes, IfOk};
ghost use Rattle.percent_encoding.specs.Percent as percent;
ghost use Rattle.std.specs.Str.{is_utf8};
ghost use Rattle.ariadne_sarif.specs.Uris as uris;

use ariadne_parse::pieces::{begins_with, behind_text, closes_with, contains, split_once};
use percent_encoding::percent_decode;
use std::alloc::{AllocError, Global};

/// The path of the file that a URI names: without the scheme `file:` and its host, and with the bytes of its escapes.
#[tactic(auto, unfolding(crate::specs::Uris::path_of))]
pub fn path_of(alloc: Global, uri: &str) -> Result<String, AllocError>
    ensures { IfOk result (λ path. string_bytes path ≡ uris.path_of uri.now) }
{
    decoded(alloc, local_part(uri))
}

/// What a URI has behind the scheme of files and the host.
fn local_part(uri: &str) -> &str
    ensures { result.now ≡ uris.local_part uri.now }
{
    let Some(rest) = behind_text(uri, "file:") else {
        return uri;
    };
    match behind_text(rest, "//") {
        Some(host) => from_slash(host),
        None => rest,
    }
}

/// A text from its first slash on: what stands behind a host.
fn from_slash(text: &str) -> &str
    ensures { result.now ≡ uris.from_slash text.now }
{
    match split_once(text, '/') {
        Some((host, _)) => behind_text(text, host).unwrap_or(""),
        None => "",
    }
}

/// A text with the bytes of its escapes, if it is one then.
fn decoded(alloc: Global, text: &str) -> Result<String, AllocError>
    ensures { IfOk result (λ path. string_bytes path ≡ uris.decoded text.now) }
{
    let bytes = unescaped(alloc, text)?;
    text_of(alloc, bytes.as_slice(), text)
}

/// The bytes of a text, with those of its escapes.
fn unescaped(alloc: Global, text: &str) -> Result<Vec<u8>, AllocError>
    ensures { IfOk result (λ bytes. bytes.items ≡ percent.percent_decode text.now) }
{
    let mut bytes = Vec::new(alloc);
    percent_decode(text.as_bytes()).append_to(&mut bytes)?;
    Ok(bytes)
}

/// The text that bytes are, or else another one.
fn text_of(alloc: Global, bytes: &[u8], other: &str) -> Result<String, AllocError>
    ensures { IfOk result (λ text. string_bytes text
        ≡ (if is_utf8 bytes.now then bytes.now else other.now)) }
{
    match std::str::from_utf8(bytes) {
        Ok(text) => String::from_str(alloc, text),
        Err(_) => String::from_str(alloc, other),
    }
}

/// A URI behind its base, where it is relative to that.
#[tactic(auto, unfolding(crate::specs::Uris::joined))]
pub fn joined(alloc: Global, base: &str, uri: &str) -> Result<String, AllocError>
    ensures { IfOk result (λ text. string_bytes text ≡ uris.joined base.now uri.now) }
{
    if is_rooted(uri) {
        return String::from_str(alloc, uri);
    }
    let slash = slash_behind(base);
    let mut text = String::from_str(alloc, base)?;
    text.push_str(slash)?;
    text.push_str(uri)?;
    Ok(text)
}

/// Whether a URI is not relative to another.
fn is_rooted(uri: &str) -> bool
    ensures { result ≡ uris.is_rooted uri.now }
{
    begins_with(uri, "/") || begins_with(uri, "file:") || contains(uri, "://")
}

/// What a base lacks that ends in no slash.
fn slash_behind(base: &str) -> &'static str
    ensures { result.now ≡ uris.slash_behind base.now }
{
    if base.is_empty() || closes_with(base, "/") {
        ""
    } else {
        "/"
    }
}
