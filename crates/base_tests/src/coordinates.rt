//! Coordinates at the ends of what a version has, and the distance from corner to corner.
use map_shapes::{Point, Version};
use std::test::Fail;

/// Coordinates, each with what it is kept as in version 1 and in version 2.
const KEPT: [(i64, Option<u32>, Option<u32>); 10] = [
    (i64::MIN, None, None),
    (-2_147_483_649, None, None),
    (-2_147_483_648, None, Some(0)),
    (-1, None, Some(2_147_483_647)),
    (0, Some(0), Some(2_147_483_648)),
    (1, Some(1), Some(2_147_483_649)),
    (2_147_483_647, Some(2_147_483_647), Some(4_294_967_295)),
    (2_147_483_648, None, None),
    (4_294_967_296, None, None),
    (i64::MAX, None, None),
];

#[test]
fn coordinates_are_kept(rt: HostRuntime) -> Result<(), Fail> {
    for (coordinate, one, two) in KEPT {
        let kept = (Version::One.keep(coordinate), Version::Two.keep(coordinate));
        assert_eq!(rt; kept, (one, two), "{coordinate}");
    }
    assert_eq!(rt; Version::Two.coordinate(0), -2_147_483_648);
    assert_eq!(rt; Version::Two.coordinate(u32::MAX), 2_147_483_647);
    assert_eq!(rt; Version::One.coordinate(2_147_483_647), 2_147_483_647);
    Ok(())
}

#[test]
fn corners_are_far_apart(rt: HostRuntime) -> Result<(), Fail> {
    let corner = Point {
        id: 1,
        x: u32::MAX,
        y: 0,
        w: 0,
        stamp: 0,
    };
    let across = 18_446_744_065_119_617_025;
    assert_eq!(rt; corner.found_from(0, 0).dist(), across);
    assert_eq!(rt; corner.found_from(0, u32::MAX).dist(), 2 * across);
    Ok(())
}
