use answer::{Denial, Refusal};

/// What a refusal means, in plain words.
// Each is one text, so there is nothing that a `Display` would put together.
pub fn meaning(refusal: Refusal) -> &'static str {
    match refusal {
        Refusal::LongList => "the formula has more than 64 clauses",
        Refusal::LargeFormula => "the reduced formula has more than 8 clauses",
        Refusal::NoSuchNumber => "there is no record, task or party of that number",
        Refusal::LargeFigure => "the figure is above 999999999",
        Refusal::TaskState => "the task is closed, or for open, open already",
        Refusal::RecordState => "the record is empty, or for enter, filled already",
        Refusal::NoSuchManner => "the manner is none of 0, 1 and 2",
        Refusal::NotItsHand => "the entering party alone has no hand under that label",
        Refusal::NoFlow => "the task's label does not flow to the record's",
        Refusal::LargeLabel => "a side of the joined label has more than 8 clauses",
        Refusal::NotSeen => "the group does not see the record",
        Refusal::Denied(denial) => denied(denial),
        Refusal::NoRoom => "the entry does not fit",
        Refusal::NotCarried => "the docket cannot carry it",
        Refusal::Missing => "bits are missing",
        Refusal::Unlawful => "the content is unlawful",
        Refusal::NoForm => "the line has none of the forms",
    }
}

fn denied(denial: Denial) -> &'static str {
    match denial {
        Denial::NotCovered => "the plain key does not cover the request",
        Denial::OutsideMode => "the key's mode does not cover this kind of call",
        Denial::AboveHigh => "the record's or the task's label does not flow to high",
        Denial::BelowLow => "low is not covered by the new label and the task's",
        Denial::Steered(_) => "this group could have steered the call to its own gain",
    }
}
