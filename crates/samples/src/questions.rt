//! Questions that are drawn, and their answers as numbers.
use crate::spread::Spread;
use map_questions::{
    Above, AnyAnswer, AnyQuestion, Near, NearK, PointQuestion, SegmentQuestion, Stab, StabCount,
    Top,
};
use map_shapes::{CountIn, Found, FoundList, ListIn, Rect, SumIn};
use std::alloc::{AllocError, Global};
use workload_gen::Generator;

/// A question by the word of its command, by a class, thousandths of the side that it reaches over, points that it wants, or hits, and by
/// its number among those of its class, as `Spread` has them.
pub fn drawn_question(
    word: &str,
    class: u32,
    number: usize,
    spread: Spread,
    generator: &mut Generator,
) -> AnyQuestion {
    let (x, y) = spread.place(generator);
    let rect = spread.square(generator, class, number);
    let Rect { x1, x2, .. } = rect;
    let over = spread.stabbed(generator, class, number);
    match word {
        "count" => AnyQuestion::Points(PointQuestion::CountIn(CountIn(rect))),
        "sum" => AnyQuestion::Points(PointQuestion::SumIn(SumIn(rect))),
        "list" => AnyQuestion::Points(PointQuestion::ListIn(ListIn(rect))),
        "near" => AnyQuestion::Points(PointQuestion::Near(Near { x, y })),
        "nearest" => {
            let k = class.clamp(1, 64) as usize;
            AnyQuestion::Points(PointQuestion::NearK(NearK { k, x, y }))
        }
        "above" => {
            let Rect { x1, x2, .. } = spread.square(generator, 60, number);
            let y = spread.height(x2, class);
            AnyQuestion::Points(PointQuestion::Above(Above { x1, x2, y }))
        }
        "top" => AnyQuestion::Points(PointQuestion::Top(Top { x1, x2 })),
        "stab" => AnyQuestion::Segments(SegmentQuestion::Stab(Stab { x: over })),
        _ => AnyQuestion::Segments(SegmentQuestion::StabCount(StabCount { x: over })),
    }
}

/// Ends a line of version 1 with the numbers of its question, each behind a space.
pub fn write_question(question: &AnyQuestion, line: &mut String) -> Result<(), AllocError> {
    match question {
        AnyQuestion::Points(question) => write_point_question(question, line),
        AnyQuestion::Segments(question) => write_segment_question(question, line),
    }
}

fn write_point_question(question: &PointQuestion, line: &mut String) -> Result<(), AllocError> {
    match question {
        PointQuestion::CountIn(CountIn(rect))
        | PointQuestion::SumIn(SumIn(rect))
        | PointQuestion::ListIn(ListIn(rect)) => {
            writeln!(line, " {} {} {} {}", rect.x1, rect.y1, rect.x2, rect.y2)
        }
        PointQuestion::Near(q) => writeln!(line, " {} {}", q.x, q.y),
        PointQuestion::NearK(q) => writeln!(line, " {} {} {}", q.k, q.x, q.y),
        PointQuestion::Above(q) => writeln!(line, " {} {} {}", q.x1, q.x2, q.y),
        PointQuestion::Top(q) => writeln!(line, " {} {}", q.x1, q.x2),
    }
}

fn write_segment_question(question: &SegmentQuestion, line: &mut String) -> Result<(), AllocError> {
    match question {
        SegmentQuestion::Stab(Stab { x }) | SegmentQuestion::StabCount(StabCount { x }) => {
            writeln!(line, " {x}")
        }
        SegmentQuestion::CrossIn(q) => writeln!(line, " {} {} {}", q.x, q.y1, q.y2),
        SegmentQuestion::CrossCount(q) => writeln!(line, " {} {} {}", q.x, q.y1, q.y2),
    }
}

/// An answer as numbers: a count, a sum, or identifiers, each before its distance or height where that is told too.
pub fn numbers(alloc: Global, answer: AnyAnswer) -> Result<Vec<u128>, AllocError> {
    match answer {
        AnyAnswer::Counted(n)
        | AnyAnswer::Summed(n)
        | AnyAnswer::StabCounted(n)
        | AnyAnswer::CrossCounted(n) => Vec::from_slice(alloc, &[u128::from(n)]),
        AnyAnswer::Listed(ids)
        | AnyAnswer::ListedAbove(ids)
        | AnyAnswer::Stabbed(ids)
        | AnyAnswer::Crossed(ids) => {
            let ids = ids.into_vec();
            ids.iter().map(|id| u128::from(*id)).collect(alloc)
        }
        AnyAnswer::NearestOne(Some(found)) => Vec::from_slice(alloc, &pair(found)),
        AnyAnswer::NearestOne(None) => Ok(Vec::new(alloc)),
        AnyAnswer::NearestOnes(found) => pairs(alloc, &found),
        AnyAnswer::Highest(Some(peak)) => {
            Vec::from_slice(alloc, &[u128::from(peak.id), u128::from(peak.y)])
        }
        AnyAnswer::Highest(None) => Ok(Vec::new(alloc)),
    }
}

fn pair(found: Found) -> [u128; 2] {
    [u128::from(found.id()), found.dist()]
}

fn pairs(alloc: Global, found: &FoundList) -> Result<Vec<u128>, AllocError> {
    let mut numbers = Vec::with_capacity(alloc, 2 * found.len())?;
    for k in 0..found.len() {
        numbers.extend_from_slice(&pair(found.get(k)))?;
    }
    Ok(numbers)
}
