// A row while its lines come: docs/ROWS.md, "Rows".
use crate::fail::LineFail;
use crate::line::{add_line, begins_text, split_key};
use crate::numbers::{count, numbers, positive, status};
use crate::row::{Answer, Content, Limits, NamedText, Row, RowFile};
use std::alloc::Global;

/// The part of a row to which the next text lines belong.
#[derive(Clone, Copy, Debug, PartialEq, Eq)]
enum Part {
    None,
    File,
    Out,
}

/// A row whose end hasn't come.
#[derive(Drop)]
pub(crate) struct Draft {
    line: usize,
    words: Vec<String>,
    files: Vec<RowFile>,
    limits: Limits,
    status: Option<u8>,
    out: Option<Vec<u8>>,
    part: Part,
}

/// The words of a row, with single spaces between them.
fn split_words(alloc: Global, text: &str) -> Result<Vec<String>, LineFail> {
    let mut words = Vec::new(alloc);
    if text.is_empty() {
        return Ok(words);
    }
    for word in text.split(' ') {
        if word.is_empty() {
            return Err(LineFail::Malformed);
        }
        words.push(String::from_str(alloc, word)?)?;
    }
    Ok(words)
}

impl Draft {
    /// The row that begins in this line with these words.
    pub(crate) fn new(alloc: Global, line: usize, words: &str) -> Result<Draft, LineFail> {
        Ok(Draft {
            line,
            words: split_words(alloc, words)?,
            files: Vec::new(alloc),
            limits: Limits::ample(alloc),
            status: None,
            out: None,
            part: Part::None,
        })
    }

    /// Takes one more line of the row.
    pub(crate) fn take(
        &mut self,
        alloc: Global,
        texts: &[NamedText],
        line: &str,
    ) -> Result<(), LineFail> {
        let (key, rest) = split_key(line);
        if begins_text(key) {
            return self.add_text(alloc, texts, line);
        }
        self.part = Part::None;
        match key {
            "file" => self.begin_file(alloc, texts, rest),
            "out" => self.begin_out(alloc, texts, rest),
            "word" => Ok(self.words.push(String::from_str(alloc, rest)?)?),
            "status" => self.set_status(status(rest)?),
            _ => self.set_limit(alloc, key, rest),
        }
    }

    // A text line of the part in hand.
    fn add_text(&mut self, alloc: Global, texts: &[NamedText], line: &str) -> Result<(), LineFail> {
        match self.part {
            Part::None => Err(LineFail::Malformed),
            Part::Out => match &mut self.out {
                Some(out) => add_line(alloc, out, texts, line),
                None => Err(LineFail::Malformed),
            },
            Part::File => match self.files.last_mut() {
                Some(file) => add_to_file(alloc, file, texts, line),
                None => Err(LineFail::Malformed),
            },
        }
    }

    fn begin_file(
        &mut self,
        alloc: Global,
        texts: &[NamedText],
        words: &str,
    ) -> Result<(), LineFail> {
        let (name, rest) = split_key(words);
        if name.is_empty() || self.files.iter().any(|file| file.name.as_str() == name) {
            return Err(LineFail::Malformed);
        }
        let content = match rest.strip_prefix("by ") {
            Some(words) => Content::By(split_words(alloc, words)?),
            None => Content::Bytes(Vec::new(alloc)),
        };
        let is_made = matches!(&content, Content::By(_));
        let name = String::from_str(alloc, name)?;
        self.files.push(RowFile { name, content })?;
        if is_made {
            return Ok(());
        }
        self.part = Part::File;
        self.add_rest(alloc, texts, rest)
    }

    fn begin_out(
        &mut self,
        alloc: Global,
        texts: &[NamedText],
        rest: &str,
    ) -> Result<(), LineFail> {
        if self.out.is_some() {
            return Err(LineFail::Malformed);
        }
        self.out = Some(Vec::new(alloc));
        self.part = Part::Out;
        self.add_rest(alloc, texts, rest)
    }

    // The text line that stands behind the part's name, if there is one.
    fn add_rest(&mut self, alloc: Global, texts: &[NamedText], rest: &str) -> Result<(), LineFail> {
        if rest.is_empty() {
            return Ok(());
        }
        self.add_text(alloc, texts, rest)
    }

    fn set_status(&mut self, status: u8) -> Result<(), LineFail> {
        if self.status.is_some() {
            return Err(LineFail::Malformed);
        }
        self.status = Some(status);
        Ok(())
    }

    fn set_limit(&mut self, alloc: Global, key: &str, rest: &str) -> Result<(), LineFail> {
        let (word, calls) = split_key(rest);
        match key {
            "steps" => self.limits.steps = positive(rest)?,
            "puts" => self.limits.puts = positive(rest)?,
            "room" => self.limits.room = count(rest)?,
            "shelf" if word == "fails" => self.limits.shelf_fails = numbers(alloc, calls)?,
            "sink" if word == "fails" => self.limits.sink_fails = numbers(alloc, calls)?,
            _ => return Err(LineFail::Malformed),
        }
        Ok(())
    }

    /// The row, where all that a row needs was said.
    pub(crate) fn finish(self, alloc: Global) -> Result<Row, LineFail> {
        let Draft {
            line,
            words,
            files,
            limits,
            status,
            out,
            part: _,
        } = self;
        match status {
            Some(status) => Ok(Row {
                line,
                words,
                files,
                limits,
                expected: Answer {
                    status,
                    out: out.unwrap_or(Vec::new(alloc)),
                },
            }),
            None => Err(LineFail::Malformed),
        }
    }
}

fn add_to_file(
    alloc: Global,
    file: &mut RowFile,
    texts: &[NamedText],
    line: &str,
) -> Result<(), LineFail> {
    match &mut file.content {
        Content::Bytes(bytes) => add_line(alloc, bytes, texts, line),
        Content::By(_) => Err(LineFail::Malformed),
    }
}
