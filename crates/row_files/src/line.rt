// Lines of text: docs/ROWS.md, "Text lines".
ghost use Rattle.std.specs.Prelude.{◌≡◌, ◌≤◌, ◌++◌, length, slice_range, OnOk};
ghost use Rattle.row_files.specs.inner.Texts.{times};

use crate::fail::LineFail;
use crate::numbers::{count, hex_byte};
use crate::row::NamedText;
use std::alloc::Global;

/// The line's first word, and what stands behind the space after it.
pub(crate) fn split_key(line: &str) -> (&str, &str) {
    match line.split_once(' ') {
        Some((key, rest)) => (key, rest),
        None => (line, ""),
    }
}

/// Whether a line that begins with this word is a text line.
pub(crate) fn begins_text(key: &str) -> bool {
    matches!(key, "|" | "-" | "x" | "=" | "*")
}

/// Adds the bytes of a text line.
pub(crate) fn add_line(
    alloc: Global,
    out: &mut Vec<u8>,
    texts: &[NamedText],
    line: &str,
) -> Result<(), LineFail> {
    let (key, rest) = split_key(line);
    if key != "*" {
        return add_once(out, texts, line);
    }
    let (number, part) = split_key(rest);
    let times = count(number)?;
    let mut bytes = Vec::new(alloc);
    add_once(&mut bytes, texts, part)?;
    add_times(out, bytes.as_slice(), times)
}

// Adds the bytes so many times.
fn add_times(out: &mut Vec<u8>, bytes: &[u8], count: usize) -> Result<(), LineFail>
    ensures { OnOk result (out.new.items ≡ out.old.items ++ times count bytes.now) }
{
    for _done in 0..count {
        out.extend_from_slice(bytes)?;
    }
    Ok(())
}

// Adds the bytes of a text line that isn't one for several times.
fn add_once(out: &mut Vec<u8>, texts: &[NamedText], line: &str) -> Result<(), LineFail> {
    let (key, rest) = split_key(line);
    match key {
        "|" => {
            out.extend_from_slice(rest.as_bytes())?;
            out.push(b'\n')?;
        }
        "-" => out.extend_from_slice(rest.as_bytes())?,
        "x" => add_hex(out, rest)?,
        "=" => add_named(out, texts, rest)?,
        _ => return Err(LineFail::Malformed),
    }
    Ok(())
}

fn add_hex(out: &mut Vec<u8>, words: &str) -> Result<(), LineFail> {
    for word in words.split(' ') {
        out.push(hex_byte(word)?)?;
    }
    Ok(())
}

/// The text with this name.
pub(crate) fn find_text<'a>(texts: &'a [NamedText], name: &str) -> Option<&'a NamedText> {
    texts.iter().find(|text| text.name.as_str() == name)
}

// Adds a named text, or a part of one.
fn add_named(out: &mut Vec<u8>, texts: &[NamedText], words: &str) -> Result<(), LineFail> {
    let (name, range) = split_key(words);
    let Some(text) = find_text(texts, name) else {
        return Err(LineFail::Malformed);
    };
    if range.is_empty() {
        out.extend_from_slice(text.bytes.as_slice())?;
        return Ok(());
    }
    let Some((from, to)) = range.split_once("..") else {
        return Err(LineFail::Malformed);
    };
    add_range(out, text.bytes.as_slice(), count(from)?, count(to)?)
}

// Adds the bytes from one place up to and not another.
fn add_range(out: &mut Vec<u8>, bytes: &[u8], from: usize, to: usize) -> Result<(), LineFail>
    ensures added { OnOk result (out.new.items ≡ out.old.items ++ slice_range bytes.now from to) }
    ensures within { OnOk result ((from ≤ to) × (to ≤ length bytes.now)) }
{
    if from > to || to > bytes.len() {
        return Err(LineFail::Malformed);
    }
    out.extend_from_slice(&bytes[from..to])?;
    Ok(())
}
