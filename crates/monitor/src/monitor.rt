mod change;
mod enter;
mod fetch;
mod manner;
mod new;
mod show;
mod tasks;
mod work;

use crate::tables::Tables;

/// The monitor. Every figure that it holds is at most 999,999,999 cents.
// It has no model: callers may copy it, and a model of a `Copy` struct has to give back its fields.
#[derive(Clone, Copy)]
pub struct Monitor {
    tables: Tables,
}
