//! What is answered: a call that is done, a figure, or the refusal of one numbered question.
#![tactic(auto)]

mod convert;
mod number;
mod numbered;
mod text;

pub use numbered::Numbered;

/// Why a key does not grant a request.
#[derive(Clone, Copy)]
pub enum Denial {
    /// The plain key's formula does not cover the request.
    NotCovered,
    /// The wrap's mode does not cover the kind of request.
    OutsideMode,
    /// The record's old label or the task's label does not flow to the wrap's high label.
    AboveHigh,
    /// The wrap's low label is not covered by the record's new label and the task's label.
    BelowLow,
    /// This group, the lowest-numbered such, could have steered the request to its own gain.
    Steered(u16),
}

/// Why something is refused: one case for each question that can have the answer no.
#[derive(Clone, Copy)]
pub enum Refusal {
    /// The list has more than 64 clauses.
    LongList,
    /// The reduced formula has more than 8 clauses.
    LargeFormula,
    /// There is no record, task or party of that number.
    NoSuchNumber,
    /// The figure is above 999,999,999.
    LargeFigure,
    /// The task is closed; or, for open, it is open already.
    TaskState,
    /// The record is empty; or, for enter, it is filled already.
    RecordState,
    /// The manner is none of 0, 1 and 2.
    NoSuchManner,
    /// The entering party alone has no hand under the label.
    NotItsHand,
    /// The task's label does not flow to the record's.
    NoFlow,
    /// A side of the joined label has more than 8 clauses.
    LargeLabel,
    /// The group does not see the record.
    NotSeen,
    /// The key does not grant the request.
    Denied(Denial),
    /// The entry does not fit between the place and the buffer's end.
    NoRoom,
    /// The docket cannot carry one of the fields.
    NotCarried,
    /// Bits of the field are missing.
    Missing,
    /// The field's content is unlawful.
    Unlawful,
    /// The line has none of the program's forms.
    NoForm,
}

/// What a call answers.
// Three outcomes by name, each with its row in `told`, the one table by which contracts read answers (so no model);
// std's `Display` could not be for a `Result`.
#[derive(Clone, Copy)]
pub enum Answer {
    /// The call is done.
    Done,
    /// The call is done, and this is the figure.
    Figure(u32),
    Refused(Refusal),
}
