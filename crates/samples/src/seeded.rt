//! Items that are drawn, and lists of them that are scanned.
use crate::spread::{SIDE, Spread};
use map_questions::{AnyQuestion, Near, NearK, PointQuestion, SegmentQuestion};
use map_shapes::{Point, Segment, Shaped};
use std::alloc::{AllocError, Global};
use std::cmp::Reverse;
use workload_gen::Generator;

/// An item that is drawn, and by which a plain list can be scanned.
pub trait Seeded: Shaped {
    /// One with the identifier that belongs to a stamp, whose bits it has the other way round.
    fn drawn(generator: &mut Generator, spread: Spread, stamp: u64) -> Self;

    /// The numbers of an answer over some items (`numbers`). To questions about other items there are none.
    fn scan(alloc: Global, question: &AnyQuestion, items: &[Self]) -> Result<Vec<u128>, AllocError>;
}

impl Seeded for Point {
    fn drawn(generator: &mut Generator, spread: Spread, stamp: u64) -> Point {
        let (x, y) = spread.place(generator);
        let (id, w) = (stamp.reverse_bits(), generator.below(1_024));
        Point { id, x, y, w, stamp }
    }

    fn scan(
        alloc: Global,
        question: &AnyQuestion,
        items: &[Self],
    ) -> Result<Vec<u128>, AllocError> {
        let AnyQuestion::Points(question) = question else {
            return Ok(Vec::new(alloc));
        };
        match question {
            PointQuestion::CountIn(q) => {
                let inside = items.iter().filter(|point| point.is_inside(&q.0));
                Vec::from_slice(alloc, &[inside.count() as u128])
            }
            PointQuestion::SumIn(q) => {
                let inside = items.iter().filter(|point| point.is_inside(&q.0));
                let sum = inside.fold(0u128, |sum, point| sum.saturating_add(u128::from(point.w)));
                Vec::from_slice(alloc, &[sum])
            }
            PointQuestion::ListIn(q) => {
                let inside = items.iter().filter(|point| point.is_inside(&q.0));
                Ok(sorted(inside.map(|point| u128::from(point.id)).collect(alloc)?))
            }
            PointQuestion::Above(q) => {
                let above = items.iter().filter(|point| q.has(point));
                Ok(sorted(above.map(|point| u128::from(point.id)).collect(alloc)?))
            }
            PointQuestion::Top(q) => {
                let within = items.iter().filter(|point| q.has(point));
                let highest = within.min_by_key(|point| (Reverse(point.y), point.id));
                let pairs = highest
                    .iter()
                    .flat_map(|point| [u128::from(point.id), u128::from(point.y)]);
                pairs.collect(alloc)
            }
            PointQuestion::Near(Near { x, y }) => {
                let (k, x, y) = (1, *x, *y);
                nearest(alloc, &NearK { k, x, y }, items)
            }
            PointQuestion::NearK(q) => nearest(alloc, q, items),
        }
    }
}

impl Seeded for Segment {
    fn drawn(generator: &mut Generator, spread: Spread, stamp: u64) -> Segment {
        let (x, y) = spread.place(generator);
        let (lo, hi) = match spread {
            Spread::Spanning if generator.below(100) == 0 => (0, SIDE),
            _ => (x, x + spread.length(generator, x)),
        };
        let id = stamp.reverse_bits();
        Segment {
            id,
            lo,
            hi,
            y,
            stamp,
        }
    }

    fn scan(
        alloc: Global,
        question: &AnyQuestion,
        items: &[Self],
    ) -> Result<Vec<u128>, AllocError> {
        let AnyQuestion::Segments(question) = question else {
            return Ok(Vec::new(alloc));
        };
        match question {
            SegmentQuestion::Stab(q) => {
                let over = items.iter().filter(|segment| q.has(segment));
                Ok(sorted(over.map(|segment| u128::from(segment.id)).collect(alloc)?))
            }
            SegmentQuestion::StabCount(q) => {
                let over = items.iter().filter(|segment| q.has(segment));
                Vec::from_slice(alloc, &[over.count() as u128])
            }
            SegmentQuestion::CrossIn(q) => {
                let met = items.iter().filter(|segment| q.has(segment));
                Ok(sorted(met.map(|segment| u128::from(segment.id)).collect(alloc)?))
            }
            SegmentQuestion::CrossCount(q) => {
                let met = items.iter().filter(|segment| q.has(segment));
                Vec::from_slice(alloc, &[met.count() as u128])
            }
        }
    }
}

/// The nearest points, by one list of the nearest so far.
fn nearest(alloc: Global, question: &NearK, points: &[Point]) -> Result<Vec<u128>, AllocError> {
    let mut found: Vec<(u128, u64)> = Vec::with_capacity(alloc, question.k)?;
    for point in points {
        let near = question.found(point);
        let (dist, id) = (near.dist(), near.id());
        let place = found.partition_point(|kept| *kept < (dist, id));
        if place < question.k {
            found.truncate(question.k - 1);
            found.insert(place, (dist, id))?;
        }
    }
    found
        .iter()
        .flat_map(|(dist, id)| [u128::from(*id), *dist])
        .collect(alloc)
}

/// In ascending order.
fn sorted(mut numbers: Vec<u128>) -> Vec<u128> {
    numbers.sort_unstable();
    numbers
}
