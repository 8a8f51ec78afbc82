// Marks: the kinds of tokens that stand for themselves.

/// The kinds of tokens that a rule of the grammar asks for by themselves.
#[derive(Clone, Copy, Debug, PartialEq, Eq)]
pub enum Mark {
    AName,
    Spec,
    Main,
    Abort,
    Then,
    SemicolonMark,
    CommaMark,
    EqualsMark,
    OpenCurlyMark,
    CloseCurlyMark,
    OpenRoundMark,
    CloseRoundMark,
    OpenSquareMark,
    CloseSquareMark,
    BarMark,
    StarMark,
    PlusMark,
    QuestionMark,
    AmpersandMark,
    ColonMark,
}
