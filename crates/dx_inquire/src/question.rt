//! The questions.
ghost use Rattle.std.specs.Prelude.{◌≡◌};
ghost use Rattle.dx_inquire.specs.Inquire as spec;

use dx_objects::Kind;

/// What is asked about an object.
#[derive(Clone, Copy, Debug, PartialEq, Eq, Drop)]
pub(crate) enum Question {
    IsNull,
    Is(Kind),
    Of(ArrayQuestion),
    MemberCount,
    GridCounts,
    /// What is no question.
    Other,
}

/// What is asked about an array.
#[derive(Clone, Copy, Debug, PartialEq, Eq, Drop)]
pub(crate) enum ArrayQuestion {
    Items,
    Rank,
    Elem,
    Shape,
}

/// The question that a text is.
pub(crate) fn question_of(text: &[u8]) -> Question
    ensures { result ≡ spec.question_of text.now }
{
    if text == b"is null".as_slice() {
        Question::IsNull
    } else if text == b"is array".as_slice() {
        Question::Is(Kind::Array)
    } else if text == b"is string".as_slice() {
        Question::Is(Kind::Text)
    } else if text == b"is field".as_slice() {
        Question::Is(Kind::Field)
    } else if text == b"is group".as_slice() {
        Question::Is(Kind::Group)
    } else if text == b"is series".as_slice() {
        Question::Is(Kind::Series)
    } else if text == b"items".as_slice() {
        Question::Of(ArrayQuestion::Items)
    } else if text == b"rank".as_slice() {
        Question::Of(ArrayQuestion::Rank)
    } else if text == b"type".as_slice() {
        Question::Of(ArrayQuestion::Elem)
    } else if text == b"shape".as_slice() {
        Question::Of(ArrayQuestion::Shape)
    } else if text == b"member count".as_slice() {
        Question::MemberCount
    } else if text == b"grid counts".as_slice() {
        Question::GridCounts
    } else {
        Question::Other
    }
}
