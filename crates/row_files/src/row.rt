// What a row is.
ghost use Rattle.std.specs.Prelude.{◌<◌};

use pbs_base::Memory;
use std::alloc::Global;

/// A row: words over files, and the status and the output that they must give.
#[derive(Drop)]
pub struct Row {
    /// The number of its first line, counted from 1.
    pub line: usize,
    pub words: Vec<String>,
    pub files: Vec<RowFile>,
    pub limits: Limits,
    pub expected: Answer,
}

/// A file of a row.
#[derive(Drop)]
pub struct RowFile {
    pub name: String,
    pub content: Content,
}

/// What a file holds.
#[derive(Drop)]
pub enum Content {
    Bytes(Vec<u8>),
    /// What these words write on the files in front, with ample room.
    By(Vec<String>),
}

/// A name, and the bytes that stand under it.
#[derive(Drop)]
pub struct NamedText {
    pub name: String,
    pub bytes: Vec<u8>,
}

/// How the calls of files and of the output go.
#[derive(Drop)]
pub struct Limits {
    /// The most bytes that a read moves.
    pub steps: usize,
    /// The most bytes that a write takes.
    pub puts: usize,
    /// The bytes that the output has room for.
    pub room: usize,
    /// The calls of the files that fail, counted from 0.
    pub shelf_fails: Vec<u64>,
    /// The calls of the output that fail, counted from 0.
    pub sink_fails: Vec<u64>,
    pub ghost reads: { 0 < steps },
    pub ghost writes: { 0 < puts },
}

impl Limits {
    /// Those of a row that says nothing of them: no call fails.
    pub fn ample(alloc: Global) -> Limits {
        Limits {
            steps: 4096,
            puts: 512,
            room: 1_048_576,
            shelf_fails: Vec::new(alloc),
            sink_fails: Vec::new(alloc),
        }
    }
}

/// A status, and the bytes of an output.
#[derive(Debug, PartialEq, Eq, Drop)]
pub struct Answer {
    pub status: u8,
    pub out: Vec<u8>,
}

/// What is tried by rows.
pub trait Subject {
    /// What the words give over the files.
    fn answer(
        &self,
        alloc: Global,
        words: &[String],
        files: &[NamedText],
        limits: &Limits,
    ) -> Result<Answer, Memory>;
}
