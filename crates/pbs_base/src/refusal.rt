// What a refusal says of a text: the first broken rule, and its place.

/// The bytes of a text from `start` up to but not including `end`.
#[derive(Clone, Copy, Debug, PartialEq, Eq)]
pub struct Span {
    pub start: u32,
    pub end: u32,
}

/// What kind of text was refused.
#[derive(Clone, Copy, Debug, PartialEq, Eq)]
pub enum Subject {
    Spec,
    Netlist,
    Trace,
}

/// The first broken rule of a text, and its place.
#[derive(Clone, Copy, Debug, PartialEq, Eq)]
pub struct Refusal {
    pub subject: Subject,
    pub rule: u8,
    pub span: Span,
}
