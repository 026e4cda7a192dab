//! Forests computed by hand.
use crate::exchanges::{fits_of, message, parents_of};
use hull_lines::{Bound, Certificate, Fit};
use std::process::Abort;
use std::test::Fail;

// Lower (1000, 2000), upper (2000, 2500): a slope of at most 1/2, which no drift allows.
#[test]
fn clocks_too_far_apart(rt: HostRuntime) -> Result<(), Fail> {
    let messages = [message(0, 2000, 1, 1000), message(1, 2000, 0, 2501)];
    let fits = fits_of(&rt, 2, &messages)?;
    let refused = Fit::Refused(Certificate::Apart {
        least: Bound::Fixed,
        greatest: Bound::Pair { lower: 0, upper: 0 },
    });
    assert!(rt; fits.len() == 4);
    assert!(rt; fits[0] == Fit::Absent { lower: 0, upper: 0 });
    assert!(rt; fits[1] == refused);
    let parents = parents_of(&rt, 2, &messages)?;
    assert!(rt; parents.as_slice() == [None, None].as_slice());
    Ok(())
}

// Host 2 is usable from 1 too, one level further down.
#[test]
fn both_under_the_first(rt: HostRuntime) -> Result<(), Fail> {
    let messages = [
        message(0, 1000, 1, 2000),
        message(0, 1100, 2, 2000),
        message(1, 2050, 2, 2050),
        message(1, 2100, 0, 3101),
        message(2, 2060, 1, 2200),
        message(2, 2100, 0, 1300),
    ];
    let fits = fits_of(&rt, 3, &messages)?;
    assert!(rt; fits.len() == 9);
    assert!(rt; matches!(&fits[5], Fit::Map(_)));
    let parents = parents_of(&rt, 3, &messages)?;
    assert!(rt; parents.as_slice() == [None, Some(0), Some(0)].as_slice());
    Ok(())
}

// One message alone gives a point of one kind to each of the two pairs.
#[test]
fn one_way_alone(rt: HostRuntime) -> Result<(), Fail> {
    let fits = fits_of(&rt, 2, &[message(0, 5, 1, 7)])?;
    assert!(rt; fits.len() == 4);
    assert!(rt; fits[1] == Fit::Absent { lower: 1, upper: 0 });
    assert!(rt; fits[2] == Fit::Absent { lower: 0, upper: 1 });
    Ok(())
}
