//! Every question that an index answers.
use crate::{Above, CrossCount, CrossIn, Near, NearK, Stab, StabCount, Top};
use map_shapes::{CountIn, ListIn, SumIn};

/// A question about the items of a layer.
#[derive(Clone, Copy, Debug)]
pub enum AnyQuestion {
    Points(PointQuestion),
    Segments(SegmentQuestion),
}

/// A question about points.
#[derive(Clone, Copy, Debug)]
pub enum PointQuestion {
    CountIn(CountIn),
    SumIn(SumIn),
    ListIn(ListIn),
    Near(Near),
    NearK(NearK),
    Above(Above),
    Top(Top),
}

/// A question about segments.
#[derive(Clone, Copy, Debug)]
pub enum SegmentQuestion {
    Stab(Stab),
    StabCount(StabCount),
    CrossIn(CrossIn),
    CrossCount(CrossCount),
}
