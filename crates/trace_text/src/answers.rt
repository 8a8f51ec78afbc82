// What a reader of a trace answers.
use pbs_base::Refusal;

/// What `next_row` found.
#[derive(Clone, Copy, Debug, PartialEq, Eq)]
pub enum Row {
    /// The piece was used, and its last line isn't ended yet.
    More,
    Vector(u64),
    Reset,
    /// The text ended, with no line begun.
    End,
    Refused(Refusal),
}

/// What `header` found.
#[derive(Clone, Copy, Debug, PartialEq, Eq)]
pub enum Head {
    /// The piece was used, and the header's line isn't ended yet.
    More,
    Ready,
    Refused(Refusal),
}

/// How far a trace was read.
#[derive(Clone, Copy, Debug, PartialEq, Eq)]
pub enum Phase {
    Header,
    Rows,
    Done,
}
