// The places that a search is lent: the positions of a pattern's points, in order.
#![tactic(auto)]

ghost use Rattle.std.specs.Prelude.{◌≡◌, map, ◌++◌, ◌≤◌, length, drop, take};
ghost use Rattle.scenario.specs.Reading.{most_points};
ghost use Rattle.pattern.specs.Placing.{by};
ghost use Rattle.plan.specs.Tables.{count_of_points, points_in};

// The positions of the points, in order, to the front of places.
pub fn copy_out(plan: &plan::Tables, positions: &[u32; pattern::POINT_NUMBERS], places: &mut [u32])
    requires { (count_of_points plan.now ≤ most_points) × (count_of_points plan.now ≤ length (points_in plan.now)) × (count_of_points plan.now ≤ length places.old) }
    ensures { places.new ≡ map (by positions.now) (take (count_of_points plan.now) (points_in plan.now)) ++ drop (count_of_points plan.now) places.old }
{
    let count = plan.point_count();
    for j in 0..count {
        places[j as usize] = pattern::at(positions, plan.point_at(j));
    }
}
