// The rows and named texts of a file, as its lines come.
use crate::fail::LineFail;
use crate::line::{add_line, find_text, split_key};
use crate::row::{NamedText, Row};
use crate::setting::Draft;
use std::alloc::Global;
use std::mem;

/// What the next line belongs to.
#[derive(Drop)]
enum Block {
    Nothing,
    Text(NamedText),
    Row(Draft),
}

/// What was read of a file.
#[derive(Drop)]
pub(crate) struct Reader {
    alloc: Global,
    rows: Vec<Row>,
    texts: Vec<NamedText>,
    block: Block,
}

impl Reader {
    pub(crate) fn new(alloc: Global) -> Reader {
        Reader {
            alloc,
            rows: Vec::new(alloc),
            texts: Vec::new(alloc),
            block: Block::Nothing,
        }
    }

    /// Takes the line with this number.
    pub(crate) fn take(&mut self, number: usize, line: &str) -> Result<(), LineFail> {
        if line.starts_with('#') {
            return Ok(());
        }
        if line.is_empty() {
            return self.end_block();
        }
        match &mut self.block {
            Block::Nothing => self.begin(number, line),
            Block::Text(text) => {
                add_line(self.alloc, &mut text.bytes, self.texts.as_slice(), line)
            }
            Block::Row(draft) => draft.take(self.alloc, self.texts.as_slice(), line),
        }
    }

    // The first line of a row or of a named text.
    fn begin(&mut self, number: usize, line: &str) -> Result<(), LineFail> {
        let (key, rest) = split_key(line);
        self.block = match key {
            "text" => Block::Text(self.named_text(rest)?),
            "words" => Block::Row(Draft::new(self.alloc, number, rest)?),
            _ => return Err(LineFail::Malformed),
        };
        Ok(())
    }

    // A name that is new, and the first of its text lines where it stands in the same line.
    fn named_text(&self, words: &str) -> Result<NamedText, LineFail> {
        let (name, line) = split_key(words);
        if name.is_empty() || find_text(self.texts.as_slice(), name).is_some() {
            return Err(LineFail::Malformed);
        }
        let mut bytes = Vec::new(self.alloc);
        if !line.is_empty() {
            add_line(self.alloc, &mut bytes, self.texts.as_slice(), line)?;
        }
        let name = String::from_str(self.alloc, name)?;
        Ok(NamedText { name, bytes })
    }

    /// Ends the row or the named text in hand.
    pub(crate) fn end_block(&mut self) -> Result<(), LineFail> {
        match mem::replace(&mut self.block, Block::Nothing) {
            Block::Nothing => {}
            Block::Text(text) => self.texts.push(text)?,
            Block::Row(draft) => self.rows.push(draft.finish(self.alloc)?)?,
        }
        Ok(())
    }

    pub(crate) fn into_rows(self) -> Vec<Row> {
        self.rows
    }
}
