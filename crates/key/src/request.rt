use formula::Formula;
use label::{Kind, Label};

/// What a key is asked: may the one formula of the record's label be replaced by `new`?
#[derive(Clone, Copy)]
pub struct Request {
    pub kind: Kind,
    pub record: Label,
    pub new: Formula,
    pub task: Label,
}
