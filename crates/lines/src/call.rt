use key::Mode;
use label::Kind;
use words::FormulaWord;

/// The words of a label.
#[derive(Clone, Copy)]
pub struct LabelWords<'a> {
    pub sight: FormulaWord<'a>,
    pub hand: FormulaWord<'a>,
}

/// The words that a bounded wrap adds to a key.
#[derive(Clone, Copy)]
pub struct BoundsWords<'a> {
    pub mode: Mode,
    pub high: LabelWords<'a>,
    pub low: LabelWords<'a>,
}

/// A key as a line writes it: its plain formula, and what the wraps that it has add.
#[derive(Clone, Copy)]
pub struct KeyWords<'a> {
    pub plain: FormulaWord<'a>,
    pub robust: Option<Mode>,
    pub bounds: Option<BoundsWords<'a>>,
}

/// A call as a line writes it. Its formulas are the parts of the line where they stand.
#[derive(Clone, Copy)]
pub enum Call<'a> {
    Enter {
        record: u64,
        party: u64,
        figure: u64,
        label: LabelWords<'a>,
    },
    Open {
        task: u64,
        party: u64,
    },
    Close {
        task: u64,
    },
    Take {
        task: u64,
        record: u64,
        manner: u64,
    },
    Put {
        task: u64,
        record: u64,
    },
    Drop {
        task: u64,
        record: u64,
    },
    Show {
        record: u64,
        group: u16,
    },
    /// A release or an endorsement, by its kind.
    Change {
        kind: Kind,
        task: u64,
        record: u64,
        new: FormulaWord<'a>,
        key: KeyWords<'a>,
    },
}
