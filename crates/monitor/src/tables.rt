ghost use Rattle.std.specs.Prelude.{◌≡◌, ◌<◌, ◌≤◌, replicate, slice_index_or, slice_set, MatchResult};
ghost use Rattle.answer.specs.declared.Refusal.TheVariants.{NoSuchNumber};
ghost use Rattle.rules.specs.State.{blank, vacant};
ghost use Rattle.monitor.specs.View.{view, place_of, places, FiguresBounded};

use crate::figure::Figure;
use answer::Refusal;
use label::Label;

/// How many records there are.
const RECORDS: usize = 64;

/// How many tasks there are.
const TASKS: usize = 8;

/// A figure and its label.
#[derive(Clone, Copy)]
pub struct Held {
    pub figure: Figure,
    pub label: Label,
}

/// Places by number. A record is empty or filled; a task is closed (empty) or open (filled).
// An array and no map: each number below N is a place, and there is no heap.
#[derive(Clone, Copy)]
pub struct Table<const N: usize> {
    slots: [Option<Held>; N],
}

impl<const N: usize> Table<N> {
    /// All places empty.
    fn new() -> Table<N>
        ensures { places result ≡ replicate N vacant }
    {
        Table { slots: [None; N] }
    }

    /// What the place holds, if there is a place of that number.
    pub(crate) fn get(&self, number: u64) -> Result<&Option<Held>, Refusal>
        ensures { MatchResult result
            (λ held. (number < N) × (place_of held.now ≡ slice_index_or (places self.now) number vacant))
            (λ q. (N ≤ number) × (q ≡ NoSuchNumber)) }
    {
        self.slots.get(number as usize).ok_or(Refusal::NoSuchNumber)
    }

    /// Leaves `held` in the place of that number.
    pub(crate) fn set(&mut self, number: u64, held: Option<Held>)
        requires { number < N }
        ensures { places self.new ≡ slice_set (places self.old) number (place_of held) }
    {
        self.slots[number as usize] = held;
    }
}

/// Whatever a monitor holds, each figure is at most 999,999,999 cents.
pub fn figures_are_bounded()
    ensures { FiguresBounded }
{}

/// All records and tasks.
#[derive(Clone, Copy)]
pub struct Tables {
    pub records: Table<RECORDS>,
    pub tasks: Table<TASKS>,
}

impl Tables {
    /// All records empty, and all tasks closed.
    pub(crate) fn new() -> Tables
        ensures { view result ≡ blank }
    {
        Tables {
            records: Table::new(),
            tasks: Table::new(),
        }
    }
}
