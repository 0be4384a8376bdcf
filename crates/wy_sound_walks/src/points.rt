//! Points stay points: the terms of variables depend on names below the count, and a variable that is marked has a term.
ghost use Rattle.wy_sound_walks.specs.points.Stay.{PointsStayPoints};

/// From a point, each point behind a block and each `break` in it is one too, and names are made from the count on.
pub fn points_stay_points()
    ensures stay { PointsStayPoints }
{}
