//! The rows of the table, run against the code, in the table's order.
use crate::FewClauses;
use answer::{Denial, Refusal};
use formula::{Formula, Party};
use key::{Bounded, Bounds, Key, Mode, Plain, Request, Robust};
use label::{Hand, Kind, Label, Sight};
use monitor::Monitor;
use std::process::Abort;
use std::test::Fail;

fn formula(list: &[u16]) -> Result<Formula, Fail> {
    Formula::reduce(list).map_err(|_| Fail::new("no formula"))
}

fn label(sight: &[u16], hand: &[u16]) -> Result<Label, Fail> {
    let sight = Sight(formula(sight)?);
    let hand = Hand(formula(hand)?);
    Ok(Label { sight, hand })
}

fn plain(list: &[u16]) -> Result<Plain, Fail> {
    let formula = formula(list)?;
    Ok(Plain { formula })
}

/// The number of the question that refused, or 0; and the group.
fn told(answer: Result<(), Refusal>) -> (u8, Option<u16>) {
    match answer {
        Ok(()) => (0, None),
        Err(refusal) => (refusal.number(), refusal.group()),
    }
}

fn asked<K: Key>(
    key: &K,
    kind: Kind,
    record: Label,
    new: &[u16],
    task: Label,
) -> Result<(u8, Option<u16>), Fail> {
    let request = Request {
        kind,
        record,
        new: formula(new)?,
        task,
    };
    Ok(told(key.ask(&request).map_err(Refusal::from)))
}

fn refused_at(list: &[u16]) -> u8 {
    Formula::reduce(list).err().map_or(0, Refusal::number)
}

#[test]
fn reducing(rt: HostRuntime) -> Result<(), Fail> {
    assert!(rt; formula(&[3, 1])?.as_slice() == [1].as_slice());
    assert!(rt; formula(&[])?.as_slice().is_empty());
    assert!(rt; formula(&[0, 5])?.as_slice() == [0].as_slice());
    assert!(rt; Formula::falsity() == formula(&[0])?);
    assert_eq!(rt; refused_at(&[1, 2, 4, 8, 16, 32, 64, 128, 256]), 2);
    assert_eq!(rt; refused_at(&[128, 3, 64, 32, 1, 16, 8, 4, 2]), 0);
    assert_eq!(rt; refused_at(&[3; 64]), 0);
    assert_eq!(rt; refused_at(&[3; 65]), 1);
    Ok(())
}

#[test]
fn implying(rt: HostRuntime) -> Result<(), Fail> {
    let both = formula(&[1, 2])?;
    let either = formula(&[3])?;
    let one = formula(&[1])?;
    let two = formula(&[2])?;
    assert!(rt; both.implies(either));
    assert!(rt; !either.implies(both));
    assert!(rt; !Formula::truth().implies(one));
    let and = one.and(two).map_err(|_| Fail::new("and"))?;
    let or = one.or(two).map_err(|_| Fail::new("or"))?;
    assert!(rt; and == both);
    assert!(rt; or == either);
    let party = Party::try_from(1).map_err(|_| Fail::new("no party"))?;
    assert!(rt; Formula::one_party(party) == two);
    Ok(())
}

#[test]
fn plain_and_robust(rt: HostRuntime) -> Result<(), Fail> {
    let open = label(&[], &[])?;
    let record = label(&[1, 2], &[])?;
    let release = Kind::Release;
    assert_eq!(rt;
        asked(&plain(&[1])?, release, record, &[2], open)?,
        (0, None)
    );
    assert_eq!(rt;
        asked(&plain(&[1])?, release, record, &[3], open)?,
        (12, None)
    );
    let mode = Mode::Both;
    let below = plain(&[1, 2])?;
    let robust = Robust { below, mode };
    let record = label(&[1, 2], &[1])?;
    let task = label(&[], &[1])?;
    assert_eq!(rt; asked(&robust, release, record, &[3], task)?, (16, Some(1)));
    assert_eq!(rt; asked(&robust, release, record, &[2], task)?, (0, None));
    let record = label(&[1, 2], &[4])?;
    let task = label(&[], &[4])?;
    assert_eq!(rt; asked(&robust, release, record, &[3], task)?, (16, Some(5)));
    Ok(())
}

#[test]
fn more_robust(rt: HostRuntime) -> Result<(), Fail> {
    let open = label(&[], &[])?;
    let below = plain(&[1])?;
    let mode = Mode::Both;
    let robust = Robust { below, mode };
    let record = label(&[1], &[])?;
    assert_eq!(rt;
        asked(&robust, Kind::Release, record, &[], open)?,
        (16, Some(0))
    );
    let record = label(&[], &[3])?;
    let task = label(&[], &[1])?;
    assert_eq!(rt;
        asked(&robust, Kind::Endorse, record, &[1], task)?,
        (0, None)
    );
    let task = label(&[], &[3])?;
    assert_eq!(rt;
        asked(&robust, Kind::Endorse, record, &[1], task)?,
        (16, Some(2))
    );
    Ok(())
}

#[test]
fn bounded(rt: HostRuntime) -> Result<(), Fail> {
    let high = label(&[1, 2], &[3])?;
    let low = label(&[3], &[1, 2])?;
    let bounds = Bounds { high, low };
    let mode = Mode::Releases;
    let below = plain(&[1])?;
    let narrow = Bounded {
        below,
        mode,
        bounds,
    };
    let below = plain(&[1, 2])?;
    let wide = Bounded {
        below,
        mode,
        bounds,
    };
    let record = label(&[1, 2], &[1])?;
    let task = label(&[], &[1])?;
    assert_eq!(rt;
        asked(&narrow, Kind::Release, record, &[2], task)?,
        (0, None)
    );
    assert_eq!(rt; asked(&wide, Kind::Release, record, &[], task)?, (15, None));
    assert_eq!(rt;
        asked(&narrow, Kind::Endorse, record, &[], task)?,
        (13, None)
    );
    Ok(())
}

#[test]
fn a_key_of_another_kind(rt: HostRuntime) -> Result<(), Fail> {
    let open = label(&[], &[])?;
    let record = label(&[1], &[1])?;
    let below = FewClauses { limit: 1 };
    let mode = Mode::Releases;
    let robust = Robust { below, mode };
    let bounds = Bounds {
        high: record,
        low: open,
    };
    let bounded = Bounded {
        below: robust,
        mode,
        bounds,
    };
    let release = Kind::Release;
    assert_eq!(rt; asked(&below, release, record, &[], open)?, (0, None));
    assert_eq!(rt; asked(&robust, release, record, &[2], open)?, (15, None));
    assert_eq!(rt; asked(&robust, release, record, &[], open)?, (16, Some(0)));
    assert_eq!(rt; asked(&bounded, release, record, &[], open)?, (16, Some(0)));
    Ok(())
}

/// Enters two figures, works the second into a task that has the first, and answers the result.
fn worked(rt: &impl Abort, first: u64, second: u64, manner: u64) -> Result<u32, Fail> {
    let mut monitor = Monitor::new();
    let seen = label(&[], &[])?;
    assert_eq!(rt; told(monitor.enter(0, 0, first, seen)), (0, None));
    assert_eq!(rt; told(monitor.enter(1, 0, second, seen)), (0, None));
    assert_eq!(rt; told(monitor.open(0, 0)), (0, None));
    assert_eq!(rt; told(monitor.take(0, 0, 0)), (0, None));
    assert_eq!(rt; told(monitor.take(0, 1, manner)), (0, None));
    assert_eq!(rt; told(monitor.put(0, 1)), (0, None));
    monitor.show(1, 0).map_err(|_| Fail::new("not shown"))
}

#[test]
fn ceiling_and_floor(rt: HostRuntime) -> Result<(), Fail> {
    assert_eq!(rt; worked(&rt, 999_999_999, 1, 0)?, 999_999_999);
    assert_eq!(rt; worked(&rt, 3, 5, 1)?, 0);
    assert_eq!(rt; worked(&rt, 100_000, 100_000, 2)?, 999_999_999);
    assert_eq!(rt; worked(&rt, 7, 12_500, 2)?, 87_500);
    Ok(())
}
