//! Logs of points, the oldest first.

ghost use Rattle.std.specs.Prelude.{◌≡◌};

use crate::point::Point;
use std::marker::Model;

/// The points of operations, in the order in which they happened.
#[derive(Debug, Drop)]
pub struct PointLog {
    points: Vec<Point>,
}

impl Model for PointLog {
    ghost use Rattle.std.specs.Prelude.{List};
    ghost use Rattle.hy_points.specs.declared.point.Point.{Point};

    ghost Value = { List Point };

    ghost view = { λ log. log.points.items };
}

impl PointLog {
    /// The log of these points.
    pub fn of(points: Vec<Point>) -> PointLog
        ensures { result ≡ points.items }
    {
        PointLog { points }
    }

    /// The points, in order.
    pub fn items(&self) -> &[Point]
        ensures { result.now ≡ self.now }
    {
        &self.points
    }

    /// The points, in the memory that they have.
    pub fn into_items(self) -> Vec<Point>
        ensures { result.items ≡ self }
    {
        self.points
    }
}
